// Projects on examples: what is read, answered, refused and written.
#![tactic(auto)]

#[cfg(test)]
mod tests {
    use fault::{Fault, RunCause};
    use line::parts::{Actor, Kind, Sink, Source};
    use project::project::Project;
    use std::process::Abort;
    use std::test::Fail;

    // Two sensors feed a count; a pass of delay 500 and one of delay 0 follow it in a row.
    const SAMPLE: [u8; 74] = [
        0x4C, 0x49, 0x4E, 1, 0, 2, 3, 1, 5, // head
        60, 0, 0, 0, 0, 0, 0, 0, // sensors at 9
        1, 0, 0, 0, 0, 0, 0, 0, 0, // actors at 17
        0, 0, 0, 0, 0, 0xF4, 1, 0, 0, //
        0, 0, 0, 0, 0, 0, 0, 0, 0, //
        0, 0, 0, 0, 0, 0, // channels at 44
        0, 1, 0, 0, 0, 1, //
        1, 0, 0, 0, 1, 0, //
        1, 1, 0, 0, 2, 0, //
        1, 2, 0, 1, 0, 0, //
    ];

    // A sensor, three passes and an actuator; actor 1 feeds actor 2 and is fed back by it, with delay 1.
    const LOOP: [u8; 70] = [
        0x4C, 0x49, 0x4E, 1, 0, 1, 3, 1, 5, // head
        60, 0, 0, 0, // sensor at 9
        0, 0, 0, 0, 0, 0, 0, 0, 0, // actors at 13
        0, 0, 0, 0, 0, 0, 0, 0, 0, //
        0, 0, 0, 0, 0, 1, 0, 0, 0, //
        0, 0, 0, 0, 0, 0, // channels at 40
        1, 0, 0, 0, 1, 0, //
        1, 1, 0, 0, 2, 0, //
        1, 1, 1, 1, 0, 0, //
        1, 2, 0, 0, 1, 1, //
    ];

    // One sensor, one pass of delay 1 and one actuator.
    const FRESH: [u8; 34] = [
        0x4C, 0x49, 0x4E, 1, 0, 1, 1, 1, 2, // head
        0, 0, 0, 0, // sensor
        0, 0, 0, 0, 0, 1, 0, 0, 0, // actor
        0, 0, 0, 0, 0, 0, // channels
        1, 0, 0, 1, 0, 0, //
    ];

    // Bytes of an image that are changed, each with what it is changed to.
    type Changes = [(usize, u8); 4];

    // Stands where fewer bytes are changed: the first byte of every image.
    const SAME: (usize, u8) = (0, 0x4C);

    // Changes of the sample, with the number and the place of the refusal.
    const DAMAGES: [(Changes, u8, u64); 18] = [
        // a sensor twice, sensors in descending order, an outlet twice
        ([(51, 0), SAME, SAME, SAME], 5, 1),
        ([(45, 1), (51, 0), SAME, SAME], 5, 1),
        ([(63, 0), SAME, SAME, SAME], 5, 3),
        // actors in descending order, a sensor after an outlet, outlets in descending order
        ([(69, 0), SAME, SAME, SAME], 5, 4),
        ([(62, 0), SAME, SAME, SAME], 5, 3),
        ([(58, 1), (63, 0), SAME, SAME], 5, 3),
        // a second channel into an inlet, and into an actuator
        ([(55, 0), SAME, SAME, SAME], 6, 1),
        ([(60, 2), SAME, SAME, SAME], 6, 3),
        ([(65, 1), (66, 0), SAME, SAME], 6, 4),
        // an inlet twice at channel 1, and a channel out of order after it
        ([(55, 0), (69, 0), SAME, SAME], 5, 4),
        // sensor 0 feeds nothing, sensor 1 feeds nothing
        ([(45, 1), (50, 1), (51, 0), (58, 1)], 7, 0),
        ([(50, 1), (58, 1), (51, 0), SAME], 7, 1),
        // actuator 0 is not fed, actuator 1 is not fed, and sensor 1 before it feeds nothing
        ([(71, 0), (73, 2), SAME, SAME], 7, 16),
        ([(7, 2), SAME, SAME, SAME], 7, 17),
        ([(7, 2), (50, 1), (51, 0), (58, 1)], 7, 1),
        // no sensor comes to actor 1, actor 0 comes to no actuator, neither of 0 and 1 does
        ([(60, 2), (61, 1), SAME, SAME], 8, 1),
        ([(54, 1), (60, 0), (61, 1), SAME], 8, 0),
        ([(66, 1), (67, 1), SAME, SAME], 8, 0),
    ];

    // Changes of the image with the loop, with the number and the place of the refusal.
    const LOOP_DAMAGES: [(Changes, u8, u64); 4] = [
        // actor 2 comes to itself alone
        ([(68, 2), SAME, SAME, SAME], 8, 2),
        // actor 1 comes to itself and the actuator, and no sensor comes to actor 2
        ([(56, 1), (57, 2), SAME, SAME], 8, 2),
        // no delay from actor 1 over 2 to 1, and from 0 over 1 and 2 to 0
        ([(36, 0), SAME, SAME, SAME], 9, 1),
        ([(36, 0), (68, 0), SAME, SAME], 9, 0),
    ];

    fn project_of(image: &[u8]) -> Result<Project, Fault> {
        let mut project = Project::fresh();
        project.read(image)?;
        Ok(project)
    }

    fn written(project: &Project) -> Result<[u8; 80], Fault> {
        let mut buffer = [0; 80];
        project.write(&mut buffer)?;
        Ok(buffer)
    }

    // Number and place of the refusal of an image, which leaves the project as it was.
    fn refusal(rt: &impl Abort, before: &Project, image: &[u8]) -> Result<(u8, u64), Fail> {
        let mut project = *before;
        let Err(fault) = project.read(image) else {
            return Err(Fail::new("the image is not refused"));
        };
        assert!(rt; project.same_line(before));
        assert!(rt; written(&project)? == written(before)?);
        Ok((fault.number(), fault.place()))
    }

    fn check_damages<const N: usize>(
        rt: &impl Abort,
        image: [u8; N],
        damages: &[(Changes, u8, u64)],
    ) -> Result<(), Fail> {
        let project = project_of(&image)?;
        for (changes, number, place) in damages {
            let mut damaged = image;
            for (at, byte) in changes {
                assert!(rt; *at < N);
                damaged[*at] = *byte;
            }
            assert_eq!(rt; refusal(rt, &project, &damaged)?, (*number, *place));
        }
        Ok(())
    }

    #[test]
    fn the_sample_has_its_sensors_and_actors(rt: HostRuntime) -> Result<(), Fail> {
        let project = project_of(&SAMPLE)?;
        assert_eq!(rt; (project.sensors(), project.actuators()), (2, 1));
        assert_eq!(rt; (project.actors().len(), project.channels().len()), (3, 5));
        assert_eq!(rt;
            [project.lateness(0), project.lateness(1)],
            [Some(60), Some(0)]
        );
        assert_eq!(rt; project.lateness(2), None);
        let count = Actor {
            kind: Kind::Count,
            parameter: 0,
            delay: 0,
        };
        let pass = Actor {
            kind: Kind::Pass,
            parameter: 0,
            delay: 500,
        };
        assert_eq!(rt;
            [project.actor(0), project.actor(1)],
            [Some(count), Some(pass)]
        );
        assert_eq!(rt; project.actor(3), None);
        assert_eq!(rt;
            [
                project.delay(0, 0),
                project.delay(1, 3),
                project.delay(3, 0),
            ],
            [0, 500, 0]
        );
        Ok(())
    }

    #[test]
    fn the_sample_has_its_channels(rt: HostRuntime) -> Result<(), Fail> {
        let project = project_of(&SAMPLE)?;
        let next = Sink::Inlet { actor: 1, inlet: 0 };
        assert_eq!(rt;
            [project.wire(0, 0), project.wire(2, 0)],
            [Some(next), Some(Sink::Actuator(0))]
        );
        assert_eq!(rt; [project.wire(2, 1), project.wire(3, 0)], [None, None]);
        let second = Sink::Inlet { actor: 0, inlet: 1 };
        assert_eq!(rt; [project.feed(1), project.feed(2)], [Some(second), None]);
        let last = Source::Outlet {
            actor: 2,
            outlet: 0,
        };
        assert_eq!(rt; [project.origin(0), project.origin(1)], [Some(last), None]);
        Ok(())
    }

    #[test]
    fn the_sample_has_distances_deadlines_and_waits(rt: HostRuntime) -> Result<(), Fail> {
        let project = project_of(&SAMPLE)?;
        assert_eq!(rt;
            [
                project.distance(0, 1),
                project.distance(0, 2),
                project.distance(2, 0),
            ],
            [Some(0), Some(500), None]
        );
        assert_eq!(rt;
            [
                project.distance(0, 0),
                project.distance(0, 3),
                project.distance(256, 1),
            ],
            [None, None, None]
        );
        assert_eq!(rt;
            [
                project.deadline(0),
                project.deadline(1),
                project.deadline(2),
            ],
            [Some(500), Some(500), Some(0)]
        );
        assert_eq!(rt;
            [project.wait(0), project.wait(1), project.wait(2)],
            [Some(60), Some(60), Some(-440)]
        );
        assert_eq!(rt;
            (project.deadline(3), project.wait(3), project.wait(256)),
            (None, None, None)
        );
        Ok(())
    }

    #[test]
    fn the_sample_is_written_back(rt: HostRuntime) -> Result<(), Fail> {
        let project = project_of(&SAMPLE)?;
        let mut buffer = [0xAA; 80];
        assert_eq!(rt; project.write(&mut buffer)?, 74);
        assert!(rt; buffer[0..74] == SAMPLE[0..74]);
        assert!(rt; buffer[74..80] == [0xAA; 6][0..6]);
        let mut short = [0xAA; 73];
        assert_eq!(rt;
            project.write(&mut short),
            Err(Fault::Run(RunCause::Full, 74))
        );
        assert!(rt; short[0..73] == [0xAA; 73][0..73]);
        Ok(())
    }

    #[test]
    fn the_fresh_project_is_its_image(rt: HostRuntime) -> Result<(), Fail> {
        let fresh = Project::fresh();
        let mut buffer = [0; 34];
        assert_eq!(rt; fresh.write(&mut buffer)?, 34);
        assert!(rt; buffer[0..34] == FRESH[0..34]);
        let again = project_of(&FRESH)?;
        let sample = project_of(&SAMPLE)?;
        assert_eq!(rt;
            [fresh.same_line(&fresh), fresh.same_line(&again)],
            [true, true]
        );
        assert_eq!(rt;
            [fresh.same_line(&sample), sample.same_line(&fresh)],
            [false, false]
        );
        Ok(())
    }

    #[test]
    fn each_damage_is_found_and_leaves_the_project(rt: HostRuntime) -> Result<(), Fail> {
        check_damages(&rt, SAMPLE, &DAMAGES)
    }

    #[test]
    fn loops_without_delay_are_found(rt: HostRuntime) -> Result<(), Fail> {
        let mut moved = LOOP;
        moved[27] = 1;
        moved[36] = 0;
        for image in [LOOP, moved] {
            let project = project_of(&image)?;
            assert_eq!(rt;
                [project.distance(1, 1), project.distance(2, 2)],
                [Some(1), Some(1)]
            );
        }
        check_damages(&rt, LOOP, &LOOP_DAMAGES)
    }

    // Writes the record to the image and gives the place behind it.
    fn append(rt: &impl Abort, image: &mut [u8; 937], at: usize, record: &[u8]) -> usize {
        let mut end = at;
        for byte in record {
            assert!(rt; end < 937);
            image[end] = *byte;
            end += 1;
        }
        end
    }

    // 32 passes in a ring, of delay 1: each feeds the next and the third after it, the first 16
    // feed an actuator each, and a sensor feeds each even one.
    fn largest(rt: &impl Abort) -> [u8; 937] {
        let mut image = [0; 937];
        let mut at = append(rt, &mut image, 0, &[0x4C, 0x49, 0x4E, 1, 0, 16, 32, 16, 96]);
        for _ in 0..16 {
            at = append(rt, &mut image, at, &[60, 0, 0, 0]);
        }
        for _ in 0..32 {
            at = append(rt, &mut image, at, &[0, 0, 0, 0, 0, 1, 0, 0, 0]);
        }
        for s in 0..16 {
            at = append(rt, &mut image, at, &[0, s, 0, 0, 2 * s, 0]);
        }
        for a in 0..32 {
            at = append(rt, &mut image, at, &[1, a, 0, 0, (a + 1) % 32, 1]);
            at = append(rt, &mut image, at, &[1, a, 1, 0, (a + 3) % 32, 2]);
            if a < 16 {
                at = append(rt, &mut image, at, &[1, a, 2, 1, a, 0]);
            }
        }
        assert_eq!(rt; at, 937);
        image
    }

    #[test]
    fn the_largest_project_is_read_and_written(rt: HostRuntime) -> Result<(), Fail> {
        let image = largest(&rt);
        let project = project_of(&image)?;
        assert_eq!(rt;
            [
                project.distance(0, 3),
                project.distance(0, 2),
                project.distance(31, 31),
            ],
            [Some(1), Some(2), Some(12)]
        );
        assert_eq!(rt;
            [project.deadline(15), project.deadline(16)],
            [Some(1), Some(7)]
        );
        assert_eq!(rt; [project.wait(30), project.wait(31)], [Some(60), Some(59)]);
        let mut buffer = [0; 937];
        assert_eq!(rt; project.write(&mut buffer)?, 937);
        assert!(rt; buffer == image);
        assert!(rt; project_of(&buffer)?.same_line(&project));
        Ok(())
    }
}
