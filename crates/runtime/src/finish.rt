ghost use Rattle.std.specs.Prelude.{◌≡◌, length, Some};
ghost use Rattle.std.specs.List.{slice_get};
ghost use Rattle.project.specs.Project.{plan};
ghost use Rattle.runs.specs.State.{shown, wired};
ghost use Rattle.runtime.specs.Model.{Unstacks, stacked};

use super::outlets::leading;
use super::sending::send_all;
use super::state::Core;
use line::parts::Sink;
use project::project::Project;
use runs::records::{Event, Firing, Output, Running};
use std::array;

// A value, absent where no channel leaves.
fn wired(sink: Option<Sink>, value: Option<i32>) -> Option<i32>
    ensures { result ≡ wired sink value }
{
    sink.and(value)
}

// The outlets of a finished firing: those that no channel leaves are absent.
fn shown(project: &Project, actor: u8, outlets: [Option<i32>; 4]) -> [Option<i32>; 4]
    ensures { result ≡ shown (plan project.now) actor outlets }
{
    array::from_fn(|outlet| wired(project.wire(actor, outlet as u8), outlets[outlet]))
}

impl Core {
    // How many firings are stacked.
    pub(crate) fn firings(&self) -> u64
        ensures { result ≡ length (stacked self.now) }
    {
        self.stack.len() as u64
    }

    // The firing on top of the stack.
    pub(crate) fn top(&self) -> Option<Running>
        ensures { result ≡ slice_get (stacked self.now) 0 }
    {
        self.stack.last()
    }

    // Takes the top off the stack, frees the places set aside for it, and sends on what it gave.
    pub(crate) fn unstack(&mut self, top: Running, outlets: [Option<i32>; 4]) -> Firing
        requires { slice_get (stacked self.old) 0 ≡ Some top }
        ensures { Unstacks self.old top outlets result self.new }
    {
        let inlets = top.inlets;
        let outlets = shown(&self.project, top.actor, outlets);
        let firing = Firing {
            actor: top.actor,
            timestamp: top.timestamp,
            inlets,
            outlets,
        };
        let events = leading::<Event>(&self.project, top.actor);
        let outputs = leading::<Output>(&self.project, top.actor);
        let _ = self.stack.pop();
        self.events.free(events);
        self.outputs.free(outputs);
        send_all(&self.project, &firing, &mut self.events, &mut self.outputs);
        firing
    }
}
