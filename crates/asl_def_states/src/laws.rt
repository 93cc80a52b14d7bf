// A law: a contract over all values.
ghost use Rattle.asl_def_fields.specs.Equal.{IsExact};
ghost use Rattle.asl_def_states.specs.Laws.{task_eq, pass_eq, choice_rule_eq, choice_rules_eq, choice_eq, delay_eq, wait_eq, parallel_eq, processor_eq, selector_eq, map_eq, succeed_eq, fail_text_eq, fail_eq, state_eq};

/// `==` of states, and of what they hold, is true exactly where the two are equal as contracts see them. The law has no code.
/// Of the parts of states other laws say it: `asl_def_shared::equal_parts_are_one`, `asl_choice::equal_rules_are_one` and
/// `asl_def_fields::equal_members_are_one`.
pub fn equal_states_are_one()
    ensures task { IsExact task_eq }
    ensures pass { IsExact pass_eq }
    ensures choice_rule { IsExact choice_rule_eq }
    ensures choice_rules { IsExact choice_rules_eq }
    ensures choice { IsExact choice_eq }
    ensures delay { IsExact delay_eq }
    ensures wait { IsExact wait_eq }
    // The numbers of the machines inside them are compared too: it is for states of one table.
    ensures parallel { IsExact parallel_eq }
    ensures processor { IsExact processor_eq }
    ensures selector { IsExact selector_eq }
    ensures map { IsExact map_eq }
    ensures succeed { IsExact succeed_eq }
    ensures fail_text { IsExact fail_text_eq }
    ensures fail { IsExact fail_eq }
    ensures state { IsExact state_eq }
{}
