ghost use Rattle.std.specs.Prelude.{◌≡◌, false};
ghost use Rattle.runs.specs.State.{closed};
ghost use Rattle.runtime.specs.Model.{Closes};

use super::state::Core;

impl Core {
    // From now on no events are taken in.
    pub(crate) fn close(&mut self)
        ensures { Closes self.old self.new }
    {
        self.taking = false;
    }
}
