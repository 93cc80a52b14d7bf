// Laws: each is a contract, over every value.
ghost use Rattle.asl_lint_choices.specs.Laws.{ContradictionsAreSo, ContradictoryAndsNeverHold, ImpossibleAndsNeverHold, RepeatedRulesAreAlike, RepeatedRulesNeverDecide};

/// On every input and every Context Object, of a rule that is told as repeated the same is said as of the earlier rule: it holds, it doesn't, or
/// it has the same fault. The law has no code.
pub fn repeated_rules_are_alike()
    ensures { RepeatedRulesAreAlike }
{}

/// A rule that is told as repeated is never the first that holds. The law has no code.
pub fn repeated_rules_never_decide()
    ensures { RepeatedRulesNeverDecide }
{}

/// Two rules that are told as contradictory never hold both, on any input and any Context Object. The law has no code.
pub fn contradictions_are_so()
    ensures { ContradictionsAreSo }
{}

/// An And with two such rules never holds. The law has no code.
pub fn contradictory_ands_never_hold()
    ensures { ContradictoryAndsNeverHold }
{}

/// At each place that is told in a rule stands a rule that never holds, whatever the input and the Context Object are. The law has no code.
pub fn impossible_ands_never_hold()
    ensures { ImpossibleAndsNeverHold }
{}
