ghost use Rattle.std.specs.Prelude.{◌<◌, ◌≤◌, length};
ghost use Rattle.project.specs.Project.{plan};
ghost use Rattle.runs.specs.Calls.{horizon};

use super::state::Core;
use super::taken::Taken;

// The firing that a start would stack: of an actor of the line, at a timestamp within the horizon.
#[derive(Clone, Copy)]
pub struct Candidate<'a> {
    pub(crate) core: &'a Core,
    pub(crate) firing: Taken,
    ghost inside: { firing.actor < length (plan core.now.project).actors },
    ghost in_time: { firing.timestamp ≤ horizon },
}
