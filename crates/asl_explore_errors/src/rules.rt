// What is told of rules that are judged under each plan.
ghost use Rattle.std.specs.Prelude.{◌≡◌, ◌<◌, ◌++◌, map, option_copied, slice_get, OnOk, string_bytes};
ghost use Rattle.std.specs.List.{count_by, list_any};
ghost use Rattle.asl_explore_errors.specs.Rules.{are_kept, breaks, breaks_at, broken_from, broken_section, first_refusal, order_of, refusal_in, rule_head, rule_section, rules_from, section_by, verdict_between, verdict_of, verdict_word};

use crate::tried::{ErrorsFound, Witnesses};
use asl_error_plans::{PlanOutcomes, are_cut, put_plan_if, put_plan_number};
use asl_explore::Found;
use asl_run_input::put_steps;
use asl_text::put_decimal;
use std::alloc::AllocError;

/// What is known of a rule.
#[derive(Clone, Copy)]
pub(crate) enum Verdict {
    /// Under some plan an order ends against it.
    Broken,
    /// No order ends against it, and all were tried.
    Holds,
    /// None was met that does, and not all were tried.
    Unknown,
}

/// An end under a plan against the rule of a number, from 0, if one was met.
fn refusal_in(number: usize, under: &Witnesses) -> Option<&Found>
    ensures { option_copied result ≡ refusal_in number under.now }
{
    match under.refused.get(number) {
        Some(Some(found)) => Some(found),
        _ => None,
    }
}

fn breaks(number: usize, under: &Witnesses) -> bool
    ensures { result ≡ breaks number under.now }
{
    refusal_in(number, under).is_some()
}

/// The same of the plan of a number, from 0.
fn breaks_at(number: usize, found: &[Witnesses], plan: usize) -> bool
    ensures { result ≡ breaks_at number (slice_get found.now plan) }
{
    match found.get(plan) {
        Some(under) => breaks(number, under),
        None => false,
    }
}

/// The first such end of all plans.
pub(crate) fn first_refusal(number: usize, found: &[Witnesses]) -> Option<&Found>
    ensures { option_copied result ≡ first_refusal number found.now }
{
    for under in found {
        if let Some(one) = refusal_in(number, under) {
            return Some(one);
        }
    }
    None
}

fn are_broken(number: usize, found: &[Witnesses]) -> bool
    ensures { result ≡ list_any (breaks number) found.now }
{
    found.iter().any(|under| breaks(number, under))
}

/// Under how many plans an order ends against the rule.
fn count_of(number: usize, found: &[Witnesses]) -> usize
    ensures { result ≡ count_by (breaks number) found.now }
{
    found.iter().filter(|under| breaks(number, *under)).count()
}

/// What is known of the rule of a number, from 0.
pub(crate) fn verdict_of(number: usize, found: &ErrorsFound) -> Verdict
    ensures { result ≡ verdict_of number found.now }
{
    if are_broken(number, &found.found) {
        return Verdict::Broken;
    }
    if are_cut(&found.plans) {
        return Verdict::Unknown;
    }
    Verdict::Holds
}

impl Verdict {
    pub(crate) fn word(self) -> &'static str
        ensures { result.now ≡ verdict_word self }
    {
        match self {
            Verdict::Broken => "broken",
            Verdict::Holds => "holds",
            Verdict::Unknown => "unknown",
        }
    }
}

/// Appends what is known of a rule, between spaces.
#[tactic(auto, unfolding(crate::specs::Rules::verdict_between))]
fn put_verdict(out: &mut String, verdict: Verdict) -> Result<(), AllocError>
    ensures { OnOk result (string_bytes out.new ≡ string_bytes out.old ++ verdict_between verdict) }
{
    out.push(' ')?;
    out.push_str(verdict.word())?;
    out.push(' ')
}

/// Appends the number of a rule, from 1, what is known of it, and the rule.
#[tactic(auto, unfolding(crate::specs::Rules::rule_head))]
fn put_head(out: &mut String, number: usize, verdict: Verdict, rule: &str) -> Result<(), AllocError>
    requires { number < 18_446_744_073_709_551_615 }
    ensures { OnOk result (string_bytes out.new ≡ string_bytes out.old ++ rule_head number verdict rule.now) }
{
    out.push_str("rule ")?;
    put_decimal(out, number as u64 + 1)?;
    put_verdict(out, verdict)?;
    out.push_str(rule)?;
    out.push('\n')
}

/// Appends each plan under which an order ends against the rule.
fn put_broken_plans(
    out: &mut String,
    number: usize,
    plans: &[PlanOutcomes],
    found: &[Witnesses],
) -> Result<(), AllocError>
    ensures { OnOk result (string_bytes out.new
        ≡ string_bytes out.old ++ broken_from number found.now 0 plans.now) }
{
    for (index, plan) in plans.iter().enumerate() {
        put_plan_if(out, breaks_at(number, found, index), plan)?;
    }
    Ok(())
}

/// Appends the steps to an end, if there is one.
fn put_order(out: &mut String, end: Option<&Found>) -> Result<(), AllocError>
    ensures { OnOk result (string_bytes out.new ≡ string_bytes out.old ++ order_of (option_copied end.entry)) }
{
    let Some(end) = end else {
        return Ok(());
    };
    out.push_str("steps\n")?;
    put_steps(out, &end.steps)
}

/// Appends how many plans there are under which an order ends against the rule, and which, and such an order under the first of them.
fn put_broken(out: &mut String, number: usize, found: &ErrorsFound) -> Result<(), AllocError>
    ensures { OnOk result (string_bytes out.new ≡ string_bytes out.old ++ broken_section number found.now) }
{
    put_plan_number(out, count_of(number, &found.found))?;
    put_broken_plans(out, number, &found.plans, &found.found)?;
    put_order(out, first_refusal(number, &found.found))
}

/// The same of a rule of which this is known.
fn put_section(
    out: &mut String,
    verdict: Verdict,
    number: usize,
    found: &ErrorsFound,
) -> Result<(), AllocError>
    ensures { OnOk result (string_bytes out.new
        ≡ string_bytes out.old ++ section_by verdict number found.now) }
{
    match verdict {
        Verdict::Broken => put_broken(out, number, found),
        Verdict::Holds | Verdict::Unknown => Ok(()),
    }
}

/// Appends what was found of the rule of a number, from 0.
fn put_rule(
    out: &mut String,
    number: usize,
    rule: &str,
    found: &ErrorsFound,
) -> Result<(), AllocError>
    requires { number < 18_446_744_073_709_551_615 }
    ensures { OnOk result (string_bytes out.new
        ≡ string_bytes out.old ++ rule_section found.now number rule.now) }
{
    let verdict = verdict_of(number, found);
    put_head(out, number, verdict, rule)?;
    put_section(out, verdict, number, found)?;
    out.push('\n')
}

/// Appends what was found of each rule, with an order that ends against it, where one does. The error is that memory ran out.
pub fn put_rules(out: &mut String, rules: &[String], found: &ErrorsFound) -> Result<(), AllocError>
    ensures { OnOk result (string_bytes out.new
        ≡ string_bytes out.old ++ rules_from found.now 0 (map string_bytes rules.now)) }
{
    for (number, rule) in rules.iter().enumerate() {
        put_rule(out, number, rule.as_str(), found)?;
    }
    Ok(())
}

/// Whether no order ends against one of so many rules.
pub fn are_kept(rules: usize, found: &ErrorsFound) -> bool
    ensures { result ≡ are_kept rules found.now }
{
    let mut kept = true;
    for number in 0..rules {
        kept = kept && !are_broken(number, &found.found);
    }
    kept
}
