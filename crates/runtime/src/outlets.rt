ghost use Rattle.std.specs.Prelude.{◌≡◌, ◌<◌, ◌≤◌, if◌then◌else◌};
ghost use Rattle.line.specs.Plan.{delay, wire};
ghost use Rattle.project.specs.Project.{plan};
ghost use Rattle.runs.specs.State.{leading, longest_delay, wired_delay};

use super::sent::Sent;
use project::project::Project;

// The delay of an outlet that is wired, else 0.
// Project and actor are passed by themselves: a struct for the two would be no plainer.
fn wired_delay(project: &Project, actor: u8, outlet: u8) -> u64
    ensures short { result < 4294967296 }
    ensures value { result ≡ wired_delay (wire (plan project.now) actor outlet) (delay (plan project.now) actor outlet) }
{
    project.wire(actor, outlet).map_or(0, |_| {
        u64::from(project.delay(usize::from(actor), usize::from(outlet)))
    })
}

// The longest delay of an actor's wired outlets.
pub(crate) fn longest_delay(project: &Project, actor: u8) -> u64
    ensures short { result < 4294967296 }
    ensures value { result ≡ longest_delay (plan project.now) actor }
{
    // Four terms, written out: a chain would be no plainer.
    let back = wired_delay(project, actor, 2).max(wired_delay(project, actor, 3));
    let front = wired_delay(project, actor, 1).max(back);
    wired_delay(project, actor, 0).max(front)
}

// One for an outlet that leads to records of a kind.
fn place<T: Sent>(project: &Project, actor: u8, outlet: u8) -> u64
    ensures { result ≡ (if T.Sent.leads (wire (plan project.now) actor outlet) then 1 else 0) }
{
    u64::from(T::waits_at(project.wire(actor, outlet)))
}

// How many outlets of an actor lead to records of a kind: to inlets, or to actuators.
pub(crate) fn leading<T: Sent>(project: &Project, actor: u8) -> u64
    ensures value { result ≡ leading T.Sent.leads (plan project.now) actor }
    ensures few { result ≤ 4 }
{
    // Four terms, written out: a chain would be no plainer.
    let back = place::<T>(project, actor, 2) + place::<T>(project, actor, 3);
    place::<T>(project, actor, 0) + (place::<T>(project, actor, 1) + back)
}
