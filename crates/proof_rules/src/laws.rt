// The laws of proof files, each the contract of a function.
ghost use Rattle.proof_rules.specs.Laws.{JudgedByTheRules, SetsSound, WitnessesSound};

// A file is taken for a set exactly when it keeps the rules of sets, for a witness exactly when it keeps those of witnesses.
pub fn judged_by_the_rules()
    ensures { JudgedByTheRules }
{}

// A set that keeps the rules shows that no run of the scheme enters a barred state.
pub fn sets_sound()
    ensures { SetsSound }
{}

// A witness that keeps the rules shows a run of the scheme that enters a barred state.
pub fn witnesses_sound()
    ensures { WitnessesSound }
{}
