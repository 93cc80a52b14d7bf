// Laws of calls: each is a contract, over every text and every value.
ghost use Rattle.asl_intrinsic.specs.Laws.{HasOneTree, HasOneMeaning, OthersAreWrong};

/// A text spells at most one call, which decides its value. The laws have no code.
pub fn a_call_has_one_meaning()
    // A text spells one call at most.
    ensures tree { HasOneTree }
    // Where it spells one with numbers in the limits, no place is wrong, and its value is that of the call.
    ensures meaning { HasOneMeaning }
    // Every other text has a first place that is wrong.
    ensures wrong { OthersAreWrong }
{}
