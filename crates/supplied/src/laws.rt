ghost use Rattle.supplied.specs.Laws.{NewAlike, ScalingLaws, TableLaws};

// The kinds ignore inlets 2 and 3, are silent without inlets 0 and 1, and keep their rows within bounds.
pub fn table()
    ensures { TableLaws }
{}

// Scaling rounds towards zero, and holds what leaves 32 bits at the nearer end.
pub fn scaling()
    ensures { ScalingLaws }
{}

// Two new banks for the actors of one project have equal meaning.
pub fn new_banks()
    ensures { NewAlike }
{}
