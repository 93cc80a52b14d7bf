// Whether two rules are equal, spelling included.
ghost use Rattle.std.specs.Prelude.{◌≡◌};
ghost use Rattle.asl_json_data.specs.Data.{pairs};
ghost use Rattle.asl_json.specs.Same.{equal, equal_members};
ghost use Rattle.asl_choice.specs.Rules.{condition_named, rule_list};

use crate::rule::{Condition, Rule};

#[cycle(equal)]
fn equals(a: &Rule, b: &Rule) -> bool
    ensures { result ≡ equal_members (pairs a.now) (pairs b.now) }
{
    a.comment == b.comment && equals_condition(&a.condition, &b.condition)
}

#[cycle(equal)]
fn equals_condition(a: &Condition, b: &Condition) -> bool
    ensures { result
        ≡ equal_members (pairs (condition_named a.now)) (pairs (condition_named b.now)) }
{
    match (a, b) {
        (Condition::And(x), Condition::And(y)) => equals_rules(x, y),
        (Condition::Or(x), Condition::Or(y)) => equals_rules(x, y),
        (Condition::Not(x), Condition::Not(y)) => equals(x, y),
        (Condition::Test(x), Condition::Test(y)) => *x == *y,
        _ => false,
    }
}

#[cycle(equal)]
fn equals_rules(a: &Vec<Rule>, b: &Vec<Rule>) -> bool
    ensures { result ≡ equal (rule_list a.now.items) (rule_list b.now.items) }
{
    if a.len() != b.len() {
        return false;
    }
    for i in 0..a.len() {
        if !equals(&a[i], &b[i]) {
            return false;
        }
    }
    true
}

impl PartialEq for Rule {
    ghost use Rattle.asl_choice.specs.Equal.{rule_equal};
    ghost use Rattle.asl_choice.specs.private.EqualLaws.{rule_laws};

    ghost eq = { rule_equal };

    ghost laws = { rule_laws };

    fn eq(&self, other: &Rule) -> bool {
        equals(self, other)
    }
}

impl Eq for Rule {
    ghost use Rattle.asl_choice.specs.private.EqualLaws.{rule_equivalence};

    ghost laws = { rule_equivalence };
}
