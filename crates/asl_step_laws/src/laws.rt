// Laws of faults and of retriers: each is a contract, over every state and every step.
ghost use Rattle.asl_step_laws.specs.Laws.{PreparationFaults, PlacingFaults, UsedUpEndsTheSearch, LaterOnesDontMatter, OnlyTheFirstRetries};

/// Where the data that a state works with can't be made of its raw input (ASL, "Input and Output Processing"), nothing is invoked: the
/// step tells that the state is entered, or nothing where it is retried, and then what becomes of the error. It tells of no service
/// and of no branches, counts no invocation, and makes no branch. The laws have no code.
pub fn a_fault_in_preparation_invokes_nothing()
    ensures { PreparationFaults }
{}

/// Where the result of a state can't be placed (ASL, "Input and Output Processing"), by a fault of `ResultSelector`, `ResultPath` or `OutputPath`
/// or by the data limit, all that the step had to tell is told, and behind it what becomes of the error.
pub fn a_fault_in_placing_keeps_what_was_told()
    ensures { PlacingFaults }
{}

/// One retrier alone is asked about an error (ASL, "Retrying after error", "Fallback States"): the first that is for it.
pub fn a_used_up_retrier_ends_the_search()
    // Once it is used up, the catchers decide;
    ensures used_up { UsedUpEndsTheSearch }
    // no retrier behind it is asked,
    ensures later { LaterOnesDontMatter }
    // and none but it retries the state.
    ensures only { OnlyTheFirstRetries }
{}
