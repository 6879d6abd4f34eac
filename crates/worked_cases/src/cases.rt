ghost use Rattle.std.specs.List.{AllByRecursion};
ghost use Rattle.worked_cases.specs.Cases.{Holds, cases};

// Every case of the list holds: each of its calls is answered as the case says.
pub fn cases_hold()
    ensures { AllByRecursion Holds cases }
{}
