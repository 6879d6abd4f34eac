// The law over every order of calls, as the contract of a function.
ghost use Rattle.history.specs.Law.{LawfulThroughout};

// Wherever calls lead, the law holds.
pub fn lawful_throughout()
    ensures { LawfulThroughout }
{}
