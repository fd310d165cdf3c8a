ghost use Rattle.std.specs.Prelude.{◌≡◌};
ghost use Rattle.image.specs.Drafts.{plan_of};
ghost use Rattle.project.specs.Fresh.{fresh_plan};
ghost use Rattle.project.specs.Project.{plan};

use super::Project;
use bounded::Bounded;
use image::draft::Draft;
use line::parts::{Actor, Channel, Kind, Sink, Source};

// One sensor of lateness 0, one pass of delay 1 and one actuator, in a row.
fn fresh_draft() -> Draft
    ensures { plan_of result ≡ fresh_plan }
{
    let pass = Actor {
        kind: Kind::Pass,
        parameter: 0,
        delay: 1,
    };
    let first = Channel {
        source: Source::Sensor(0),
        sink: Sink::Inlet { actor: 0, inlet: 0 },
    };
    let last = Channel {
        source: Source::Outlet {
            actor: 0,
            outlet: 0,
        },
        sink: Sink::Actuator(0),
    };
    let mut sensors = Bounded::new(0);
    // There is room in each.
    let _ = sensors.push(0);
    let mut actors = Bounded::new(pass);
    let _ = actors.push(pass);
    let mut channels = Bounded::new(first);
    let _ = channels.push(first);
    let _ = channels.push(last);
    Draft {
        sensors,
        actors,
        actuators: 1,
        channels,
    }
}

impl Project {
    // The project that a new drawing begins with.
    pub fn fresh() -> Project
        ensures { plan result ≡ fresh_plan }
    {
        Project::of(&fresh_draft()).unwrap()
    }
}
