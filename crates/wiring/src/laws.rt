// The laws of wiring files, each the contract of a function.
ghost use Rattle.wiring.specs.Laws.{AcceptsExactly, RefusesSmallest};

// A file is read as a wiring exactly where it is that wiring's file and the wiring keeps the rules.
pub fn accepts_exactly()
    ensures { AcceptsExactly }
{}

// A file is refused exactly for the smallest of its faults, at its first place.
pub fn refuses_smallest()
    ensures { RefusesSmallest }
{}
