// A law: a contract over all values.
ghost use Rattle.asl_def_fields.specs.Equal.{IsExact};
ghost use Rattle.asl_choice.specs.Equal.{order_eq, property_eq, comparison_equal, rule_equal};
ghost use Rattle.asl_choice.specs.Laws.{test_eq};

/// `==` of rules, and of what they hold, is true exactly where the two are equal as contracts see them. The law has no code.
pub fn equal_rules_are_one()
    ensures order { IsExact order_eq }
    ensures property { IsExact property_eq }
    // Numbers and timestamps are seen as they are spelled.
    ensures comparison { IsExact comparison_equal }
    ensures test { IsExact test_eq }
    // Of a rule contracts see its members.
    ensures rule { IsExact rule_equal }
{}
