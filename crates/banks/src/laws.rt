ghost use Rattle.banks.specs.Laws.{AlikeLaws};

// Equal meaning of banks is an equivalence that firings and pairs keep.
pub fn equal_meaning()
    ensures { AlikeLaws }
{}
