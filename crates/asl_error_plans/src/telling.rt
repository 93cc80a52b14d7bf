// What is told of plans.
ghost use Rattle.std.specs.Prelude.{◌≡◌, ◌++◌, map, OnOk, string_bytes};
ghost use Rattle.std.specs.List.{count_by, flat_map, list_any};
ghost use Rattle.asl_error_plans.specs.Grouping.{gives};
ghost use Rattle.asl_error_plans.specs.Telling.{name_word, span_word, error_words, words_of, plan_line, line_if, is_endless, is_cut, title_line, endless_section, cut_section, outcome_head, comes_alone, new_word, count_line, plan_count, outcome_section, outcomes_text, head_line, plans_text, are_whole, is_success, has_failure, is_without_errors, fails_alone, are_good};

use crate::grouping::{all_outcomes, gives};
use crate::injected::InjectedError;
use crate::outcomes::PlanOutcomes;
use asl_json_write::put_quoted;
use asl_text::put_decimal;
use std::alloc::{AllocError, Global};

/// Appends a space and a name.
#[tactic(auto, unfolding(crate::specs::Telling::name_word))]
fn put_name(out: &mut String, name: &str) -> Result<(), AllocError>
    ensures { OnOk result (string_bytes out.new ≡ string_bytes out.old ++ name_word name.now) }
{
    out.push(' ')?;
    put_quoted(out, name)
}

/// Appends whether later invocations end in the error, too.
fn put_span(out: &mut String, for_good: bool) -> Result<(), AllocError>
    ensures { OnOk result (string_bytes out.new ≡ string_bytes out.old ++ span_word for_good) }
{
    if for_good {
        return out.push_str(" always");
    }
    out.push_str(" once")
}

/// Appends an error that is put in.
#[tactic(auto, unfolding(crate::specs::Telling::error_words))]
fn put_error(out: &mut String, error: &InjectedError) -> Result<(), AllocError>
    ensures { OnOk result (string_bytes out.new ≡ string_bytes out.old ++ error_words error.now) }
{
    put_name(out, error.state.as_str())?;
    out.push(' ')?;
    put_decimal(out, u64::from(error.number))?;
    put_name(out, error.error.as_str())?;
    put_span(out, error.for_good)
}

fn put_errors(out: &mut String, plan: &[InjectedError]) -> Result<(), AllocError>
    ensures { OnOk result (string_bytes out.new
        ≡ string_bytes out.old ++ flat_map error_words plan.now) }
{
    for error in plan {
        put_error(out, error)?;
    }
    Ok(())
}

fn put_words(out: &mut String, plan: &[InjectedError]) -> Result<(), AllocError>
    ensures { OnOk result (string_bytes out.new ≡ string_bytes out.old ++ words_of plan.now) }
{
    match plan {
        [] => out.push_str(" no errors"),
        _ => put_errors(out, plan),
    }
}

/// Appends the line of a plan.
#[tactic(auto, unfolding(crate::specs::Telling::plan_line))]
fn put_plan(out: &mut String, plan: &[InjectedError]) -> Result<(), AllocError>
    ensures { OnOk result (string_bytes out.new ≡ string_bytes out.old ++ plan_line plan.now) }
{
    out.push_str("plan")?;
    put_words(out, plan)?;
    out.push('\n')
}

/// Appends the line of a plan, if this is true. The error is that memory ran out.
pub fn put_plan_if(out: &mut String, is_told: bool, plan: &PlanOutcomes) -> Result<(), AllocError>
    ensures { OnOk result (string_bytes out.new ≡ string_bytes out.old ++ line_if is_told plan.now) }
{
    if is_told {
        return put_plan(out, &plan.plan);
    }
    Ok(())
}

fn put_plans_with(out: &mut String, plans: &[PlanOutcomes], outcome: &str) -> Result<(), AllocError>
    ensures { OnOk result (string_bytes out.new ≡ string_bytes out.old
        ++ flat_map (λ p. line_if (gives outcome.now p) p) plans.now) }
{
    for plan in plans {
        put_plan_if(out, gives(plan, outcome), plan)?;
    }
    Ok(())
}

fn put_endless_plans(out: &mut String, plans: &[PlanOutcomes]) -> Result<(), AllocError>
    ensures { OnOk result (string_bytes out.new ≡ string_bytes out.old
        ++ flat_map (λ p. line_if (is_endless p) p) plans.now) }
{
    for plan in plans {
        put_plan_if(out, plan.endless, plan)?;
    }
    Ok(())
}

fn put_cut_plans(out: &mut String, plans: &[PlanOutcomes]) -> Result<(), AllocError>
    ensures { OnOk result (string_bytes out.new ≡ string_bytes out.old
        ++ flat_map (λ p. line_if (is_cut p) p) plans.now) }
{
    for plan in plans {
        put_plan_if(out, !plan.complete, plan)?;
    }
    Ok(())
}

fn are_endless(plans: &[PlanOutcomes]) -> bool
    ensures { result ≡ list_any is_endless plans.now }
{
    plans.iter().any(|plan| plan.endless)
}

/// Whether the search of some plan was cut.
pub fn are_cut(plans: &[PlanOutcomes]) -> bool
    ensures { result ≡ list_any is_cut plans.now }
{
    plans.iter().any(|plan| !plan.complete)
}

/// Appends an empty line, and a title.
#[tactic(auto, unfolding(crate::specs::Telling::title_line))]
fn put_title(out: &mut String, title: &str) -> Result<(), AllocError>
    ensures { OnOk result (string_bytes out.new ≡ string_bytes out.old ++ title_line title.now) }
{
    out.push('\n')?;
    out.push_str(title)?;
    out.push('\n')
}

/// Appends the plans under which an order never ends, if there are any.
fn put_endless(out: &mut String, plans: &[PlanOutcomes]) -> Result<(), AllocError>
    ensures { OnOk result (string_bytes out.new ≡ string_bytes out.old ++ endless_section plans.now) }
{
    if !are_endless(plans) {
        return Ok(());
    }
    put_title(out, "endless")?;
    put_endless_plans(out, plans)
}

/// Appends the plans of which the search was cut, if there are any.
fn put_cut(out: &mut String, plans: &[PlanOutcomes]) -> Result<(), AllocError>
    ensures { OnOk result (string_bytes out.new ≡ string_bytes out.old ++ cut_section plans.now) }
{
    if !are_cut(plans) {
        return Ok(());
    }
    put_title(out, "search cut")?;
    put_cut_plans(out, plans)
}

#[tactic(auto, unfolding(crate::specs::Telling::outcome_head))]
fn put_outcome_head(out: &mut String, number: u64, outcome: &str) -> Result<(), AllocError>
    ensures { OnOk result (string_bytes out.new
        ≡ string_bytes out.old ++ outcome_head number outcome.now) }
{
    out.push_str("\noutcome ")?;
    put_decimal(out, number)?;
    out.push(' ')?;
    out.push_str(outcome)?;
    out.push('\n')
}

/// Whether a plan puts nothing in.
fn is_without_errors(plan: &[InjectedError]) -> bool
    ensures { result ≡ is_without_errors plan.now }
{
    match plan {
        [] => true,
        [_, ..] => false,
    }
}

/// Whether an outcome comes where nothing is put in.
fn comes_alone(plan: &PlanOutcomes, outcome: &str) -> bool
    ensures { result ≡ comes_alone outcome.now plan.now }
{
    is_without_errors(&plan.plan) && gives(plan, outcome)
}

fn is_known(plans: &[PlanOutcomes], outcome: &str) -> bool
    ensures { result ≡ list_any (comes_alone outcome.now) plans.now }
{
    plans.iter().any(|plan| comes_alone(plan, outcome))
}

/// How many of these plans give an outcome.
fn count_of(plans: &[PlanOutcomes], outcome: &str) -> usize
    ensures { result ≡ count_by (gives outcome.now) plans.now }
{
    plans.iter().filter(|plan| gives(*plan, outcome)).count()
}

/// Appends that an outcome is new, if it is.
fn put_new(out: &mut String, new: bool) -> Result<(), AllocError>
    ensures { OnOk result (string_bytes out.new ≡ string_bytes out.old ++ new_word new) }
{
    if new {
        return out.push_str(" new");
    }
    Ok(())
}

#[tactic(auto, unfolding(crate::specs::Telling::count_line))]
fn put_count(out: &mut String, count: usize, new: bool) -> Result<(), AllocError>
    ensures { OnOk result (string_bytes out.new ≡ string_bytes out.old ++ count_line count new) }
{
    out.push_str("plans ")?;
    put_decimal(out, count as u64)?;
    put_new(out, new)?;
    out.push('\n')
}

/// Appends how many plans give an outcome, and whether it comes only where something is put in.
fn put_plan_count(out: &mut String, plans: &[PlanOutcomes], outcome: &str) -> Result<(), AllocError>
    ensures { OnOk result (string_bytes out.new ≡ string_bytes out.old ++ plan_count plans.now outcome.now) }
{
    put_count(out, count_of(plans, outcome), !is_known(plans, outcome))
}

/// Appends an outcome of this number, and the plans that give it.
fn put_outcome(
    out: &mut String,
    number: u64,
    outcome: &str,
    plans: &[PlanOutcomes],
) -> Result<(), AllocError>
    ensures { OnOk result (string_bytes out.new
        ≡ string_bytes out.old ++ outcome_section plans.now number outcome.now) }
{
    put_outcome_head(out, number, outcome)?;
    put_plan_count(out, plans, outcome)?;
    put_plans_with(out, plans, outcome)
}

fn put_outcomes(
    out: &mut String,
    plans: &[PlanOutcomes],
    outcomes: &[&str],
) -> Result<(), AllocError>
    ensures { OnOk result (string_bytes out.new
        ≡ string_bytes out.old ++ outcomes_text plans.now 1 (map (λ t. t.now) outcomes.now)) }
{
    for (index, outcome) in outcomes.iter().enumerate() {
        put_outcome(out, index as u64 + 1, outcome, plans)?;
    }
    Ok(())
}

#[tactic(auto, unfolding(crate::specs::Telling::head_line))]
/// Appends how many plans there are. The error is that memory ran out.
pub fn put_plan_number(out: &mut String, number: usize) -> Result<(), AllocError>
    ensures { OnOk result (string_bytes out.new ≡ string_bytes out.old ++ head_line number) }
{
    out.push_str("plans ")?;
    put_decimal(out, number as u64)?;
    out.push('\n')
}

/// Appends what comes of plans: how many there are; each outcome once, with the plans that give it; and those under which an order never ends, or whose search
/// was cut. The error is that memory ran out.
pub fn put_plans(alloc: Global, out: &mut String, plans: &[PlanOutcomes]) -> Result<(), AllocError>
    ensures { OnOk result (string_bytes out.new ≡ string_bytes out.old ++ plans_text plans.now) }
{
    let outcomes = all_outcomes(alloc, plans)?;
    put_plan_number(out, plans.len())?;
    put_outcomes(out, plans, &outcomes)?;
    put_endless(out, plans)?;
    put_cut(out, plans)
}

/// Whether nothing was left out, and no order is endless.
fn are_whole(plans: &[PlanOutcomes]) -> bool
    ensures { result ≡ are_whole plans.now }
{
    !are_endless(plans) && !are_cut(plans)
}

/// Whether an outcome, as it is told, is a success.
fn is_success(outcome: &str) -> bool
    ensures { result ≡ is_success outcome.now }
{
    outcome.as_bytes().starts_with("SUCCEEDED ".as_bytes())
}

/// Whether some outcome of a plan is no success.
fn has_failure(plan: &PlanOutcomes) -> bool
    ensures { result ≡ has_failure plan.now }
{
    plan.outcomes.iter().any(|one| !is_success(one.as_str()))
}

/// Whether the execution may fail although nothing is put in.
fn fails_alone(plan: &PlanOutcomes) -> bool
    ensures { result ≡ fails_alone plan.now }
{
    is_without_errors(&plan.plan) && has_failure(plan)
}

fn may_fail_alone(plans: &[PlanOutcomes]) -> bool
    ensures { result ≡ list_any fails_alone plans.now }
{
    plans.iter().any(|plan| fails_alone(plan))
}

/// Whether nothing was left out, no order is endless, and each outcome is a success where nothing is put in.
pub fn are_good(plans: &[PlanOutcomes]) -> bool
    ensures { result ≡ are_good plans.now }
{
    are_whole(plans) && !may_fail_alone(plans)
}
