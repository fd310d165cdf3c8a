ghost use Rattle.std.specs.Prelude.{◌≡◌, ◌+◌, ◌<◌, ◌≤◌, length};
ghost use Rattle.queue.specs.Held.{held};
ghost use Rattle.project.specs.Project.{plan};
ghost use Rattle.runs.specs.Calls.{horizon};
ghost use Rattle.runs.specs.Lists.{put_all};
ghost use Rattle.runs.specs.State.{event_from, event_time, events_sent, output_from, output_time, outputs_sent};

use super::room::{EventRoom, OutputRoom};
use super::sent::Sent;
use project::project::Project;
use runs::records::{Event, Firing, Output};

// Sends what a firing gave at one outlet along its channel.
fn send_from(
    project: &Project,
    firing: &Firing,
    outlet: u8,
    events: &mut EventRoom,
    outputs: &mut OutputRoom,
)
    requires port { outlet < 4 }
    requires in_time { firing.now.timestamp ≤ horizon }
    requires event_room { length (held events.old.waiting) + length (event_from (plan project.now) firing.now outlet) + events.old.aside ≤ 128 }
    requires output_room { length (held outputs.old.waiting) + length (output_from (plan project.now) firing.now outlet) + outputs.old.aside ≤ 64 }
    ensures events { held events.new.waiting ≡ put_all event_time (event_from (plan project.now) firing.now outlet) (held events.old.waiting) }
    ensures events_aside { events.new.aside ≡ events.old.aside }
    ensures outputs { held outputs.new.waiting ≡ put_all output_time (output_from (plan project.now) firing.now outlet) (held outputs.old.waiting) }
    ensures outputs_aside { outputs.new.aside ≡ outputs.old.aside }
{
    let sink = project.wire(firing.actor, outlet);
    let delay = u64::from(project.delay(usize::from(firing.actor), usize::from(outlet)));
    let timestamp = firing.timestamp + delay;
    let value = firing.outlets[usize::from(outlet)];
    events.post(Event::at(sink, timestamp, value));
    outputs.post(Output::at(sink, timestamp, value));
}

// Sends what a firing gave, from its first outlet to its last.
pub(crate) fn send_all(
    project: &Project,
    firing: &Firing,
    events: &mut EventRoom,
    outputs: &mut OutputRoom,
)
    requires in_time { firing.now.timestamp ≤ horizon }
    requires event_room { length (held events.old.waiting) + length (events_sent (plan project.now) firing.now) + events.old.aside ≤ 128 }
    requires output_room { length (held outputs.old.waiting) + length (outputs_sent (plan project.now) firing.now) + outputs.old.aside ≤ 64 }
    ensures events { held events.new.waiting ≡ put_all event_time (events_sent (plan project.now) firing.now) (held events.old.waiting) }
    ensures events_aside { events.new.aside ≡ events.old.aside }
    ensures outputs { held outputs.new.waiting ≡ put_all output_time (outputs_sent (plan project.now) firing.now) (held outputs.old.waiting) }
    ensures outputs_aside { outputs.new.aside ≡ outputs.old.aside }
{
    // By number: an outlet's channel and delay are asked by it.
    for outlet in 0..4 {
        send_from(project, firing, outlet, events, outputs);
    }
}
