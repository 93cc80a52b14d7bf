// What was found under plans as lines of JSON.
ghost use Rattle.std.specs.Prelude.{◌≡◌, ◌<◌, ◌++◌, Some, map, option_copied, slice_get, IfOk, OnOk, string_bytes};
ghost use Rattle.std.specs.Fmt.{decimal};
ghost use Rattle.asl_json.specs.View.{data_of};
ghost use Rattle.asl_explore_errors.specs.JsonLines.{bool_word, broken_in, broken_member, comma_at, ends_of, error_members, error_object, failure_object, flag_member, found_object, invocation_members, items_from, json_lines, list_head, numbers_from, outcome_object, outcomes_member, plan_lines, plan_member, plan_object, rule_lines, rule_object, search_members, status_head, steps_member, success_object, text_member, value_member};

use crate::rules::{first_refusal, verdict_of};
use crate::tried::{ErrorsFound, Witnesses};
use asl_error_plans::{InjectedError, PlanOutcomes};
use asl_explore::Found;
use asl_json::{Json, Txt};
use asl_json_write::{put, put_quoted};
use asl_run_input::put_steps;
use asl_run_state::Outcome;
use asl_text::put_decimal;
use std::alloc::{AllocError, Global};

// ---- lists and members

/// Appends a comma, unless what follows is the first.
fn put_comma(out: &mut String, index: usize) -> Result<(), AllocError>
    ensures { OnOk result (string_bytes out.new ≡ string_bytes out.old ++ comma_at index) }
{
    if index == 0 {
        return Ok(());
    }
    out.push(',')
}

fn put_bool(out: &mut String, value: bool) -> Result<(), AllocError>
    ensures { OnOk result (string_bytes out.new ≡ string_bytes out.old ++ bool_word value) }
{
    if value {
        return out.push_str("true");
    }
    out.push_str("false")
}

/// Appends a member behind others.
fn put_text(out: &mut String, name: &str, text: &str) -> Result<(), AllocError>
    ensures { OnOk result (string_bytes out.new ≡ string_bytes out.old ++ text_member name.now (Some text.now)) }
{
    out.push(',')?;
    put_quoted(out, name)?;
    out.push(':')?;
    put_quoted(out, text)
}

fn put_text_if(out: &mut String, name: &str, text: &Option<Txt>) -> Result<(), AllocError>
    ensures { OnOk result (string_bytes out.new ≡ string_bytes out.old ++ text_member name.now text.now) }
{
    match text {
        Some(text) => put_text(out, name, text.as_str()),
        None => Ok(()),
    }
}

#[tactic(auto, unfolding(crate::specs::JsonLines::value_member))]
fn put_json(out: &mut String, name: &str, value: &Json) -> Result<(), AllocError>
    ensures { OnOk result (string_bytes out.new
        ≡ string_bytes out.old ++ value_member name.now (data_of value.now)) }
{
    out.push(',')?;
    put_quoted(out, name)?;
    out.push(':')?;
    put(out, value)
}

#[tactic(auto, unfolding(crate::specs::JsonLines::flag_member))]
fn put_flag(out: &mut String, name: &str, value: bool) -> Result<(), AllocError>
    ensures { OnOk result (string_bytes out.new ≡ string_bytes out.old ++ flag_member name.now value) }
{
    out.push(',')?;
    put_quoted(out, name)?;
    out.push(':')?;
    put_bool(out, value)
}

/// Appends the name of a list, and its beginning.
#[tactic(auto, unfolding(crate::specs::JsonLines::list_head))]
fn put_list_head(out: &mut String, name: &str) -> Result<(), AllocError>
    ensures { OnOk result (string_bytes out.new ≡ string_bytes out.old ++ list_head name.now) }
{
    out.push(',')?;
    put_quoted(out, name)?;
    out.push_str(":[")
}

fn put_numbers(out: &mut String, numbers: &[u64]) -> Result<(), AllocError>
    ensures { OnOk result (string_bytes out.new ≡ string_bytes out.old ++ items_from decimal 0 numbers.now) }
{
    for (index, number) in numbers.iter().enumerate() {
        put_comma(out, index)?;
        put_decimal(out, *number)?;
    }
    Ok(())
}

// ---- a plan

/// Appends the invocation that ends in an error.
#[tactic(auto, unfolding(crate::specs::JsonLines::invocation_members))]
fn put_invocation(out: &mut String, error: &InjectedError) -> Result<(), AllocError>
    ensures { OnOk result (string_bytes out.new ≡ string_bytes out.old ++ invocation_members error.now) }
{
    out.push_str("\"state\":")?;
    put_quoted(out, error.state.as_str())?;
    out.push_str(",\"invocation\":")?;
    put_decimal(out, u64::from(error.number))?;
    out.push(',')
}

/// Appends the error, and whether later invocations end in it, too.
#[tactic(auto, unfolding(crate::specs::JsonLines::error_members))]
fn put_name(out: &mut String, error: &InjectedError) -> Result<(), AllocError>
    ensures { OnOk result (string_bytes out.new ≡ string_bytes out.old ++ error_members error.now) }
{
    out.push_str("\"error\":")?;
    put_quoted(out, error.error.as_str())?;
    put_flag(out, "always", error.for_good)
}

#[tactic(auto, unfolding(crate::specs::JsonLines::error_object))]
fn put_error(out: &mut String, error: &InjectedError) -> Result<(), AllocError>
    ensures { OnOk result (string_bytes out.new ≡ string_bytes out.old ++ error_object error.now) }
{
    out.push('{')?;
    put_invocation(out, error)?;
    put_name(out, error)?;
    out.push('}')
}

fn put_errors(out: &mut String, plan: &[InjectedError]) -> Result<(), AllocError>
    ensures { OnOk result (string_bytes out.new ≡ string_bytes out.old ++ items_from error_object 0 plan.now) }
{
    for (index, error) in plan.iter().enumerate() {
        put_comma(out, index)?;
        put_error(out, error)?;
    }
    Ok(())
}

/// Appends the beginning of an outcome.
#[tactic(auto, unfolding(crate::specs::JsonLines::status_head))]
fn put_status(out: &mut String, status: &str) -> Result<(), AllocError>
    ensures { OnOk result (string_bytes out.new ≡ string_bytes out.old ++ status_head status.now) }
{
    out.push_str("{\"status\":")?;
    put_quoted(out, status)
}

#[tactic(auto, unfolding(crate::specs::JsonLines::success_object))]
fn put_success(out: &mut String, output: &Json) -> Result<(), AllocError>
    ensures { OnOk result (string_bytes out.new
        ≡ string_bytes out.old ++ success_object (data_of output.now)) }
{
    put_status(out, "SUCCEEDED")?;
    put_json(out, "output", output)?;
    out.push('}')
}

#[tactic(auto, unfolding(crate::specs::JsonLines::failure_object))]
fn put_failure(out: &mut String, error: &Option<Txt>, cause: &Option<Txt>) -> Result<(), AllocError>
    ensures { OnOk result (string_bytes out.new
        ≡ string_bytes out.old ++ failure_object error.now cause.now) }
{
    put_status(out, "FAILED")?;
    put_text_if(out, "error", error)?;
    put_text_if(out, "cause", cause)?;
    out.push('}')
}

/// Appends how an execution ended.
fn put_outcome(out: &mut String, outcome: &Outcome) -> Result<(), AllocError>
    ensures { OnOk result (string_bytes out.new ≡ string_bytes out.old ++ outcome_object outcome.now) }
{
    match outcome {
        Outcome::Running => out.push_str("{\"status\":\"RUNNING\"}"),
        Outcome::Succeeded(output) => put_success(out, output),
        Outcome::Failed(error) => put_failure(out, &error.error, &error.cause),
        Outcome::TimedOut => {
            out.push_str("{\"status\":\"TIMED_OUT\",\"error\":\"States.Timeout\"}")
        }
    }
}

fn put_ends(out: &mut String, found: &[Found]) -> Result<(), AllocError>
    ensures { OnOk result (string_bytes out.new ≡ string_bytes out.old ++ items_from found_object 0 found.now) }
{
    for (index, one) in found.iter().enumerate() {
        put_comma(out, index)?;
        put_outcome(out, &one.outcome)?;
    }
    Ok(())
}

/// What the orders under a plan end in, with steps.
fn ends_of(under: Option<&Witnesses>) -> &[Found]
    ensures { result.now ≡ ends_of (option_copied under.entry) }
{
    match under {
        Some(under) => &under.list,
        None => &[],
    }
}

/// The numbers, from 1, of the rules against which an order ends.
fn numbers_of(alloc: Global, refused: &[Option<Found>]) -> Result<Vec<u64>, AllocError>
    ensures { IfOk result (λ v. v.items ≡ numbers_from 0 refused.now) }
{
    let mut numbers = Vec::new(alloc);
    for (index, end) in refused.iter().enumerate() {
        if end.is_some() {
            numbers.push(index as u64 + 1)?;
        }
    }
    Ok(numbers)
}

/// The same under a plan.
fn broken_in(alloc: Global, under: Option<&Witnesses>) -> Result<Vec<u64>, AllocError>
    ensures { IfOk result (λ v. v.items ≡ broken_in (option_copied under.entry)) }
{
    match under {
        Some(under) => numbers_of(alloc, &under.refused),
        None => Ok(Vec::new(alloc)),
    }
}

#[tactic(auto, unfolding(crate::specs::JsonLines::plan_member))]
fn put_plan_member(out: &mut String, plan: &[InjectedError]) -> Result<(), AllocError>
    ensures { OnOk result (string_bytes out.new ≡ string_bytes out.old ++ plan_member plan.now) }
{
    out.push_str("\"plan\":[")?;
    put_errors(out, plan)?;
    out.push(']')
}

#[tactic(auto, unfolding(crate::specs::JsonLines::outcomes_member))]
fn put_outcomes(out: &mut String, found: &[Found]) -> Result<(), AllocError>
    ensures { OnOk result (string_bytes out.new ≡ string_bytes out.old ++ outcomes_member found.now) }
{
    put_list_head(out, "outcomes")?;
    put_ends(out, found)?;
    out.push(']')
}

/// Appends whether an order never ends, and whether all orders were tried.
#[tactic(auto, unfolding(crate::specs::JsonLines::search_members))]
fn put_search(out: &mut String, plan: &PlanOutcomes) -> Result<(), AllocError>
    ensures { OnOk result (string_bytes out.new ≡ string_bytes out.old ++ search_members plan.now) }
{
    put_flag(out, "endless", plan.endless)?;
    put_flag(out, "complete", plan.complete)
}

#[tactic(auto, unfolding(crate::specs::JsonLines::broken_member))]
fn put_broken_rules(out: &mut String, numbers: &[u64]) -> Result<(), AllocError>
    ensures { OnOk result (string_bytes out.new ≡ string_bytes out.old ++ broken_member numbers.now) }
{
    put_list_head(out, "broken")?;
    put_numbers(out, numbers)?;
    out.push(']')
}

/// Appends what comes of a plan.
#[tactic(auto, unfolding(crate::specs::JsonLines::plan_object))]
fn put_plan(
    alloc: Global,
    out: &mut String,
    plan: &PlanOutcomes,
    under: Option<&Witnesses>,
) -> Result<(), AllocError>
    ensures { OnOk result (string_bytes out.new
        ≡ string_bytes out.old ++ plan_object plan.now (option_copied under.entry)) }
{
    let broken = broken_in(alloc, under)?;
    out.push('{')?;
    put_plan_member(out, &plan.plan)?;
    put_outcomes(out, ends_of(under))?;
    put_search(out, plan)?;
    put_broken_rules(out, &broken)?;
    out.push_str("}\n")
}

/// What was found under the plan of a number, from 0.
fn under_at(found: &[Witnesses], plan: usize) -> Option<&Witnesses>
    ensures { option_copied result ≡ slice_get found.now plan }
{
    found.get(plan)
}

fn put_plan_lines(alloc: Global, out: &mut String, found: &ErrorsFound) -> Result<(), AllocError>
    ensures { OnOk result (string_bytes out.new
        ≡ string_bytes out.old ++ plan_lines found.now.found.items 0 found.now.plans.items) }
{
    for (number, plan) in found.plans.iter().enumerate() {
        put_plan(alloc, out, plan, under_at(&found.found, number))?;
    }
    Ok(())
}

// ---- a rule

/// Appends the steps to an end, if there is one, as a text of a steps file.
fn put_order(alloc: Global, out: &mut String, end: Option<&Found>) -> Result<(), AllocError>
    ensures { OnOk result (string_bytes out.new ≡ string_bytes out.old ++ steps_member (option_copied end.entry)) }
{
    let Some(end) = end else {
        return Ok(());
    };
    let mut steps = String::new(alloc);
    put_steps(&mut steps, &end.steps)?;
    put_text(out, "steps", steps.as_str())
}

/// Appends what was found of the rule of a number, from 0.
#[tactic(auto, unfolding(crate::specs::JsonLines::rule_object))]
fn put_rule(
    alloc: Global,
    out: &mut String,
    number: usize,
    rule: &str,
    found: &ErrorsFound,
) -> Result<(), AllocError>
    requires { number < 18_446_744_073_709_551_615 }
    ensures { OnOk result (string_bytes out.new
        ≡ string_bytes out.old ++ rule_object found.now number rule.now) }
{
    out.push_str("{\"rule\":")?;
    put_decimal(out, number as u64 + 1)?;
    put_text(out, "verdict", verdict_of(number, found).word())?;
    put_text(out, "text", rule)?;
    put_order(alloc, out, first_refusal(number, &found.found))?;
    out.push_str("}\n")
}

fn put_rule_lines(
    alloc: Global,
    out: &mut String,
    rules: &[String],
    found: &ErrorsFound,
) -> Result<(), AllocError>
    ensures { OnOk result (string_bytes out.new
        ≡ string_bytes out.old ++ rule_lines found.now 0 (map string_bytes rules.now)) }
{
    for (number, rule) in rules.iter().enumerate() {
        put_rule(alloc, out, number, rule.as_str(), found)?;
    }
    Ok(())
}

// ---- all

/// Appends a line of JSON for each rule, with an order that ends against it, where one does; and then one for each plan, with what comes of it. The error is
/// that memory ran out.
pub fn put_json_lines(
    alloc: Global,
    out: &mut String,
    rules: &[String],
    found: &ErrorsFound,
) -> Result<(), AllocError>
    ensures { OnOk result (string_bytes out.new
        ≡ string_bytes out.old ++ json_lines (map string_bytes rules.now) found.now) }
{
    put_rule_lines(alloc, out, rules, found)?;
    put_plan_lines(alloc, out, found)
}
