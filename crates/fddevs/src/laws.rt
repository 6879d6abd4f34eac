// The laws of the formalism, each the contract of a function.
ghost use Rattle.fddevs.specs.Cases.{KeptLifespans};
ghost use Rattle.fddevs.specs.Laws.{RowsAgree, DelaysSplit};

// A step is allowed in a state exactly when it is allowed in the state's row, and the row of the state it leads to
// is the row that it leads to.
pub fn rows_agree()
    ensures { RowsAgree }
{}

// A delay of d ticks is d delays of one tick.
pub fn delays_split()
    ensures { DelaysSplit }
{}

// A lifespan that is kept falls due in an unlimited phase, and a restart ends what was due.
pub fn kept_lifespans()
    ensures { KeptLifespans }
{}
