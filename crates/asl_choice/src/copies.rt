// Copies of rules.
ghost use Rattle.std.specs.Prelude.{◌≡◌, IfOk};
ghost use Rattle.asl_choice.specs.Rules.{condition_named};

use crate::rule::{Condition, Rule};
use asl_def_fields::TryClone;
use std::alloc::{AllocError, Global};

#[cycle(copy)]
fn copy_of(alloc: Global, rule: &Rule) -> Result<Rule, AllocError>
    ensures { IfOk result (λ c. c ≡ rule.now) }
{
    Ok(Rule {
        comment: rule.comment.try_clone(alloc)?,
        condition: condition_copy(alloc, &rule.condition)?,
    })
}

#[cycle(copy)]
fn condition_copy(alloc: Global, condition: &Condition) -> Result<Condition, AllocError>
    ensures { IfOk result (λ c. condition_named c ≡ condition_named condition.now) }
{
    match condition {
        Condition::And(rules) => Ok(Condition::And(copies_of(alloc, rules)?)),
        Condition::Or(rules) => Ok(Condition::Or(copies_of(alloc, rules)?)),
        Condition::Not(rule) => Ok(Condition::Not(Box::new(alloc, copy_of(alloc, rule)?)?)),
        Condition::Test(test) => Ok(Condition::Test(test.try_clone(alloc)?)),
    }
}

#[cycle(copy)]
fn copies_of(alloc: Global, rules: &Vec<Rule>) -> Result<Vec<Rule>, AllocError>
    ensures { IfOk result (λ copies. copies.items ≡ rules.now.items) }
{
    let mut copies = Vec::with_capacity(alloc, rules.len())?;
    for rule in rules {
        copies.push(copy_of(alloc, rule)?)?;
    }
    Ok(copies)
}

impl TryClone for Rule {
    fn try_clone(&self, alloc: Global) -> Result<Rule, AllocError> {
        copy_of(alloc, self)
    }
}
