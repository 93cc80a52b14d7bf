// Rules of Choice states.
ghost use Rattle.std.specs.Prelude.{◌≡◌, ◌++◌, ◌∷◌, [], Some, false, IfOk, IfSome, IsNone, codes, option_map};
ghost use Rattle.asl_json.specs.View.{data_of, members_of};
ghost use Rattle.asl_json_data.specs.Data.{text, pairs};
ghost use Rattle.asl_json.specs.Meaning.{value_at};
ghost use Rattle.asl_json_data.specs.Distinct.{has_key};
ghost use Rattle.asl_def_schema.specs.declared.sort.Sort.TheVariants.{Path, InnerRule, InnerRules};
ghost use Rattle.asl_def_schema.specs.Canon.{canon, opt};
ghost use Rattle.asl_def_schema.specs.Claims.{any_in};
ghost use Rattle.asl_def_schema.specs.Clean.{IsClean, IsThere};
ghost use Rattle.asl_choice.specs.Rules.{IsRule, HasVariable, canonical_rule, rule_object, rule_list, condition_named, comment_named, rule_named, kind_name, kind_sort, deciding as decides, comparison_operator, operand_sort, operator_name, test_named};

use crate::comparison::{Comparison, Test, path};
use crate::operator::{Operator, RuleKind};
use asl_def_fields::{Compiled, read_optional};
use asl_def_schema::find;
use asl_json::{Items, Json, Member, Members, Txt};
use std::alloc::{AllocError, Global};
use std::marker::Model;

/// A rule of a Choice state (Amazon States Language, "Choice State") without its `Next`. Contracts see it as the members that
/// it has in the canonical form of the definition that it was read from.
#[cycle(rule)]
#[derive(Drop)]
pub struct Rule {
    pub(crate) comment: Option<Txt>,
    pub(crate) condition: Condition,
}

/// What a rule asks.
#[cycle(rule)]
#[derive(Drop)]
pub(crate) enum Condition {
    /// Each of these rules holds.
    And(Vec<Rule>),
    /// Some of these rules holds.
    Or(Vec<Rule>),
    /// This rule doesn't hold.
    Not(Box<Rule>),
    /// The test holds.
    Test(Test),
}

impl Model for Rule {
    ghost use Rattle.std.specs.Prelude.{List, ℕ};
    ghost use Rattle.asl_json_data.specs.Data.{Data, members_size};
    ghost use Rattle.asl_json.specs.private.Code.{coded_members};

    ghost Value = { List (List ℕ × Data) };

    ghost coded = { coded_members };

    ghost use Rattle.asl_choice.specs.Rules.{rule_named};

    ghost view = { λ a. rule_named a.comment a.condition };

    ghost size = { members_size };

    ghost use Rattle.asl_choice.specs.private.Falls.{rule_falls};

    ghost size_decreases = { λ a h. rule_falls a.comment a.condition };
}

/// The first member that decides a rule, where there is one, with its value.
fn deciding(members: &[Member]) -> Option<(RuleKind, &Json)>
    ensures found { IfSome result
        (λ d. value_at (kind_name d.0) (pairs (members_of members.now)) ≡ Some (data_of d.1.now)) }
    ensures none { IsNone result → any_in decides (pairs (members_of members.now)) ≡ false }
{
    for member in members {
        if let Some(kind) = RuleKind::named(member.key.as_str()) {
            return Some((kind, &member.value));
        }
    }
    None
}

fn test_of(
    alloc: Global,
    operator: Operator,
    value: &Json,
    variable: Option<&Json>,
) -> Result<Test, AllocError>
    requires value { IsClean (operand_sort operator) (data_of value.now) }
    requires variable { IsThere Path (option_map (λ v. data_of v.now) variable) }
    ensures variable { IfOk result (λ t. Some (text t.variable)
        ≡ option_map (λ v. data_of v.now) variable.entry) }
    ensures comparison { IfOk result (λ t. test_named t.comparison
        ≡ (operator_name operator, data_of value.now)) }
{
    let Some(variable) = variable else {
        unreachable!();
    };
    Ok(Test {
        variable: path(alloc, variable)?,
        comparison: Comparison::read(alloc, operator, value)?,
    })
}

#[cycle(read)]
fn condition_of(
    alloc: Global,
    kind: RuleKind,
    value: &Json,
    variable: Option<&Json>,
) -> Result<Condition, AllocError>
    requires value { IsClean (kind_sort kind) (data_of value.now) }
    requires variable { HasVariable kind (option_map (λ v. data_of v.now) variable) }
    ensures { IfOk result (λ c. condition_named c
        ≡ opt (codes "Variable") (option_map (λ v. data_of v.now) variable.entry)
        ++ (kind_name kind, canon (kind_sort kind) (data_of value.now)) ∷ []) }
{
    match kind {
        RuleKind::And => Ok(Condition::And(rules(alloc, value)?)),
        RuleKind::Or => Ok(Condition::Or(rules(alloc, value)?)),
        RuleKind::Not => Ok(Condition::Not(Box::new(alloc, inner_rule(alloc, value)?)?)),
        RuleKind::Test(operator) => Ok(Condition::Test(test_of(alloc, operator, value, variable)?)),
    }
}

#[cycle(read)]
fn rules(alloc: Global, value: &Json) -> Result<Vec<Rule>, AllocError>
    requires { IsClean InnerRules (data_of value.now) }
    ensures { IfOk result (λ rs. rule_list rs.items ≡ canon InnerRules (data_of value.now)) }
{
    let Json::List(items) = value else {
        unreachable!();
    };
    let mut rules = Vec::new(alloc);
    let values = items.values();
    for item in values {
        rules.push(inner_rule(alloc, item)?)?;
    }
    Ok(rules)
}

#[cycle(read)]
fn inner_rule(alloc: Global, value: &Json) -> Result<Rule, AllocError>
    requires { IsClean InnerRule (data_of value.now) }
    ensures { IfOk result (λ r. rule_object r ≡ canon InnerRule (data_of value.now)) }
{
    let Json::Dict(members) = value else {
        unreachable!();
    };
    Rule::read(alloc, members.members())
}

/// No members but the comment.
fn started(alloc: Global, comment: &Option<Txt>) -> Result<Members, AllocError>
    ensures { IfOk result (λ ms. ms ≡ comment_named comment.now) }
{
    let mut members = Members::new(alloc);
    if let Some(comment) = comment {
        members.push(Txt::of(alloc, "Comment")?, comment.json(alloc)?)?;
    }
    Ok(members)
}

/// These members and one more.
fn with(members: Members, name: Txt, value: Json) -> Result<Members, AllocError>
    requires { has_key name members ≡ false }
    ensures { IfOk result (λ ms. ms ≡ members ++ (name, data_of value) ∷ []) }
{
    let mut members = members;
    members.push(name, value)?;
    Ok(members)
}

/// The comment and one more member.
fn commented(
    alloc: Global,
    comment: &Option<Txt>,
    name: Txt,
    value: Json,
) -> Result<Members, AllocError>
    requires { has_key name (comment_named comment.now) ≡ false }
    ensures { IfOk result (λ ms. ms ≡ comment_named comment.now ++ (name, data_of value) ∷ []) }
{
    with(started(alloc, comment)?, name, value)
}

/// The comment and a test.
fn test_members(alloc: Global, comment: &Option<Txt>, test: &Test) -> Result<Members, AllocError>
    ensures { IfOk result (λ ms. ms
        ≡ comment_named comment.now
        ++ ((codes "Variable", text test.now.variable) ∷ test_named test.now.comparison ∷ [])) }
{
    let Test {
        variable,
        comparison,
    } = test;
    let variable = variable.json(alloc)?;
    let members = commented(alloc, comment, Txt::of(alloc, "Variable")?, variable)?;
    with(
        members,
        comparison.operator().name(alloc)?,
        comparison.operand(alloc)?,
    )
}

#[cycle(members)]
fn condition_members(
    alloc: Global,
    comment: &Option<Txt>,
    condition: &Condition,
) -> Result<Members, AllocError>
    ensures { IfOk result (λ ms. ms ≡ rule_named comment.now condition.now) }
{
    match condition {
        Condition::And(rules) => {
            let value = rules_value(alloc, rules)?;
            commented(alloc, comment, Txt::of(alloc, "And")?, value)
        }
        Condition::Or(rules) => {
            let value = rules_value(alloc, rules)?;
            commented(alloc, comment, Txt::of(alloc, "Or")?, value)
        }
        Condition::Not(rule) => {
            let value = rule_value(alloc, rule)?;
            commented(alloc, comment, Txt::of(alloc, "Not")?, value)
        }
        Condition::Test(test) => test_members(alloc, comment, test),
    }
}

#[cycle(members)]
fn rule_value(alloc: Global, rule: &Rule) -> Result<Json, AllocError>
    ensures { IfOk result (λ v. data_of v ≡ rule_object rule.now) }
{
    Ok(Json::Dict(rule.members(alloc)?))
}

#[cycle(members)]
fn rules_value(alloc: Global, rules: &Vec<Rule>) -> Result<Json, AllocError>
    ensures { IfOk result (λ v. data_of v ≡ rule_list rules.now.items) }
{
    let mut values = Vec::new(alloc);
    for rule in rules {
        values.push(rule_value(alloc, rule)?)?;
    }
    Ok(Json::List(Items::of_values(values)))
}

impl Rule {
    /// The rule that these members of a definition without faults are, but for their `Next`. The error is that memory ran
    /// out. Its cost is the size of the members.
    #[cycle(read)]
    pub fn read(alloc: Global, members: &[Member]) -> Result<Rule, AllocError>
        requires { IsRule (pairs (members_of members.now)) }
        ensures { IfOk result (λ r. r ≡ canonical_rule (pairs (members_of members.now))) }
    {
        let comment: Option<Txt> = read_optional(alloc, find(members, "Comment"))?;
        let Some((kind, value)) = deciding(members) else {
            unreachable!();
        };
        let condition = condition_of(alloc, kind, value, find(members, "Variable"))?;
        Ok(Rule { comment, condition })
    }

    /// Its members. The error is that memory ran out. Its cost is the size of the rule.
    #[cycle(members)]
    pub fn members(&self, alloc: Global) -> Result<Members, AllocError>
        ensures members { IfOk result (λ ms. ms ≡ self.now) }
        ensures no_next { has_key (codes "Next") self.now ≡ false }
    {
        condition_members(alloc, &self.comment, &self.condition)
    }
}
