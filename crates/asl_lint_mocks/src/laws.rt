// Laws: each is a contract, over every value.
ghost use Rattle.asl_lint_mocks.specs.Laws.{GapsAreBelowAnswers, SameNamesAreLost};

/// A response has a gap just where a number without an answer is below one that has one. The law has no code.
pub fn a_gap_is_below_an_answer()
    ensures { GapsAreBelowAnswers }
{}

/// Where all values of a mock file fit, the names of responses that are told as lost are those that `asl_mock` finds. The law has no code.
pub fn the_same_names_are_lost()
    ensures { SameNamesAreLost }
{}
