// Images on examples: a sample, and what becomes of it when a byte is damaged.
#![tactic(auto)]

#[cfg(test)]
mod tests {
    use fault::{Fault, RunCause};
    use image::{emit, parse};
    use std::test::Fail;

    // Two sensors, three actors, one actuator and five channels.
    const SAMPLE: [u8; 74] = [
        0x4C, 0x49, 0x4E, 1, 0, 2, 3, 1, 5, // head
        60, 0, 0, 0, 0, 0, 0, 0, // sensors at 9
        1, 0, 0, 0, 0, 0, 0, 0, 0, // actors at 17
        0, 0, 0, 0, 0, 0xF4, 1, 0, 0, //
        0, 0, 0, 0, 0, 0, 0, 0, 0, //
        0, 0, 0, 0, 0, 0, // channels at 44
        0, 1, 0, 0, 0, 1, //
        1, 0, 0, 0, 1, 0, //
        1, 1, 0, 0, 2, 0, //
        1, 2, 0, 1, 0, 0, //
    ];

    // One byte of the sample, what it is changed to, and the number and place of the refusal.
    const DAMAGES: [(usize, u8, u8, u64); 36] = [
        (0, 0, 1, 0),
        (1, 0, 1, 1),
        (2, 0, 1, 2),
        (3, 2, 1, 3),
        (4, 1, 1, 4),
        (5, 0, 2, 5),
        (6, 0, 2, 6),
        (7, 0, 2, 7),
        (8, 0, 2, 8),
        (5, 17, 2, 5),
        (6, 33, 2, 6),
        (7, 17, 2, 7),
        (8, 97, 2, 8),
        (5, 16, 3, 130),
        (6, 32, 3, 335),
        (8, 96, 3, 620),
        (17, 7, 4, 17),
        (18, 1, 4, 18),
        (21, 128, 4, 18),
        (44, 2, 4, 44),
        (45, 2, 4, 45),
        (46, 1, 4, 46),
        (47, 1, 4, 47),
        (47, 2, 4, 47),
        (48, 3, 4, 48),
        (49, 4, 4, 49),
        (57, 3, 4, 57),
        (58, 4, 4, 58),
        (59, 2, 4, 59),
        (60, 3, 4, 60),
        (61, 4, 4, 61),
        (71, 2, 4, 71),
        (72, 1, 4, 72),
        (73, 1, 4, 73),
        (16, 60, 4, 13),
        (34, 60, 4, 31),
    ];

    // Number and place of the refusal, if the image is refused.
    fn refusal(bytes: &[u8]) -> Option<(u8, u64)> {
        match parse(bytes) {
            Ok(_) => None,
            Err(fault) => Some((fault.number(), fault.place())),
        }
    }

    #[test]
    fn each_damage_is_found_at_its_place(rt: HostRuntime) {
        for (at, byte, number, place) in DAMAGES {
            let mut image = SAMPLE;
            assert!(rt; at < 74);
            image[at] = byte;
            assert_eq!(rt; refusal(&image), Some((number, place)));
        }
    }

    #[test]
    fn short_images_are_refused_at_their_end(rt: HostRuntime) {
        assert_eq!(rt; refusal(&[]), Some((1, 0)));
        assert_eq!(rt; refusal(&SAMPLE[0..7]), Some((1, 7)));
        assert_eq!(rt; refusal(&SAMPLE[0..9]), Some((3, 74)));
        assert_eq!(rt; refusal(&SAMPLE[0..73]), Some((3, 74)));
    }

    // With one sensor the actors begin at 13.
    #[test]
    fn an_unknown_kind_is_refused(rt: HostRuntime) {
        let image = [
            0x4C, 0x49, 0x4E, 1, 0, 1, 1, 1, 1, //
            0, 0, 0, 0, //
            7, 0, 0, 0, 0, 0, 0, 0, 0, //
            0, 0, 0, 0, 0, 0, //
        ];
        assert_eq!(rt; refusal(&image), Some((4, 13)));
    }

    // The greatest lateness and the greatest delay, and one above.
    #[test]
    fn times_end_at_a_thousand_seconds(rt: HostRuntime) {
        for at in [9, 31] {
            let mut image = SAMPLE;
            image[at + 1] = 0xCA;
            image[at + 2] = 0x9A;
            image[at + 3] = 0x3B;
            image[at] = 0;
            assert_eq!(rt; refusal(&image), None);
            image[at] = 1;
            assert_eq!(rt; refusal(&image), Some((4, at as u64)));
        }
    }

    #[test]
    fn the_sample_is_emitted_back(rt: HostRuntime) -> Result<(), Fail> {
        let draft = parse(&SAMPLE)?;
        let mut buffer = [0xAA; 80];
        assert_eq!(rt; emit(&draft, &mut buffer)?, 74);
        assert!(rt; buffer[0..74] == SAMPLE[0..74]);
        assert!(rt; buffer[74..80] == [0xAA; 6][0..6]);
        let mut short = [0xAA; 73];
        assert_eq!(rt;
            emit(&draft, &mut short),
            Err(Fault::Run(RunCause::Full, 74))
        );
        assert!(rt; short[0..73] == [0xAA; 73][0..73]);
        Ok(())
    }
}
