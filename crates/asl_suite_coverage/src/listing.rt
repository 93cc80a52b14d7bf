// The points of a definition and a mock file.
ghost use Rattle.std.specs.Prelude.{◌≡◌, ◌++◌, ◌∷◌, [], IfOk, OnOk, codes, map, option_map, string_bytes, unwrap_or};
ghost use Rattle.std.specs.List.{flat_map};
ghost use Rattle.asl_json_data.specs.Data.{chain};
ghost use Rattle.asl_json.specs.View.{data_of, items_of, member_of, members_of};
ghost use Rattle.asl_suite_coverage.specs.declared.spot.Part.TheVariants.{State, Rule, Retrier, Catcher};
ghost use Rattle.asl_suite_coverage.specs.Listed.{named, leading, numbered, point, text_at, items_of_any, items_at, target_points, rule_points, retrier_points, catcher_points, state_points, answer_point, answer_points, response_points, all_points};

use crate::point::Point;
use crate::spot::{Part, Spot};
use crate::texts::{answering, leading, named, numbered};
use asl_def_walk::states_in;
use asl_json::{Json, Member, Txt};
use asl_json_shared::Name;
use asl_mock::span_in;
use std::alloc::{AllocError, Global};

/// The text of the member with this key, where there is one.
fn text_at<'a>(value: &'a Json, key: &str) -> Option<&'a str>
    ensures { option_map (λ t. t.now) result ≡ text_at key.now (data_of value.now) }
{
    match value.get(key) {
        Some(Json::Text(text)) => Some(text.as_str()),
        _ => None,
    }
}

/// The same; an empty text where there is none.
fn text_or_empty<'a>(value: &'a Json, key: &str) -> &'a str
    ensures { result.now ≡ unwrap_or (text_at key.now (data_of value.now)) [] }
{
    match text_at(value, key) {
        Some(text) => text,
        None => "",
    }
}

/// The items of a list; any other value, and none, has none.
fn items_of_any<'a>(value: Option<&'a Json>) -> &'a [Json]
    ensures { chain (items_of result.now)
        ≡ items_of_any (option_map (λ v. data_of v.now) value.entry) }
{
    match value {
        Some(Json::List(items)) => items.values(),
        _ => &[],
    }
}

/// The items of the list under this key.
fn items_at<'a>(value: &'a Json, key: &str) -> &'a [Json]
    ensures { chain (items_of result.now) ≡ items_at key.now (data_of value.now) }
{
    items_of_any(value.get(key))
}

/// Adds a part of the state or the response of a name, of which this is told.
fn add(points: &mut Vec<Point>, name: &Name, part: Part, told: String) -> Result<(), AllocError>
    ensures { OnOk result (points.new.items
        ≡ points.old.items ++ point name.now part (string_bytes told) ∷ []) }
{
    let name = name.try_clone()?;
    points.push(Point {
        spot: Spot { name, part },
        told: Txt::new(told),
        covered: false,
    })?;
    Ok(())
}

// ---- a state

fn add_state(alloc: Global, points: &mut Vec<Point>, name: &Name) -> Result<(), AllocError>
    ensures { OnOk result (points.new.items ≡ points.old.items
        ++ point name.now State (named (codes "state") name.now) ∷ []) }
{
    let told = named(alloc, "state", name.as_str())?;
    add(points, name, Part::State, told)
}

/// Adds where a state goes on, if it says so.
fn add_target(
    alloc: Global,
    points: &mut Vec<Point>,
    name: &Name,
    part: Part,
    word: &str,
    target: Option<&str>,
) -> Result<(), AllocError>
    ensures { OnOk result (points.new.items ≡ points.old.items
        ++ target_points name.now part word.now (option_map (λ t. t.now) target.entry)) }
{
    let Some(target) = target else {
        return Ok(());
    };
    let told = leading(named(alloc, word, name.as_str())?, target)?;
    add(points, name, part, told)
}

fn add_rule(
    alloc: Global,
    points: &mut Vec<Point>,
    name: &Name,
    number: usize,
    rule: &Json,
) -> Result<(), AllocError>
    ensures { OnOk result (points.new.items ≡ points.old.items ++ point name.now (Rule number)
        (leading (numbered (codes "rule") number name.now)
        (unwrap_or (text_at (codes "Next") (data_of rule.now)) [])) ∷ []) }
{
    let told = numbered(alloc, "rule", number, name.as_str())?;
    let told = leading(told, text_or_empty(rule, "Next"))?;
    add(points, name, Part::Rule(number), told)
}

fn add_rules(
    alloc: Global,
    points: &mut Vec<Point>,
    name: &Name,
    rules: &[Json],
) -> Result<(), AllocError>
    ensures { OnOk result (points.new.items
        ≡ points.old.items ++ rule_points 0 name.now (chain (items_of rules.now))) }
{
    for (i, rule) in rules.iter().enumerate() {
        add_rule(alloc, points, name, i, rule)?;
    }
    Ok(())
}

fn add_retrier(
    alloc: Global,
    points: &mut Vec<Point>,
    name: &Name,
    number: usize,
) -> Result<(), AllocError>
    ensures { OnOk result (points.new.items ≡ points.old.items
        ++ point name.now (Retrier number) (numbered (codes "retrier") number name.now) ∷ []) }
{
    let told = numbered(alloc, "retrier", number, name.as_str())?;
    add(points, name, Part::Retrier(number), told)
}

fn add_retriers(
    alloc: Global,
    points: &mut Vec<Point>,
    name: &Name,
    retriers: &[Json],
) -> Result<(), AllocError>
    ensures { OnOk result (points.new.items
        ≡ points.old.items ++ retrier_points 0 name.now (chain (items_of retriers.now))) }
{
    for (i, _retrier) in retriers.iter().enumerate() {
        add_retrier(alloc, points, name, i)?;
    }
    Ok(())
}

fn add_catcher(
    alloc: Global,
    points: &mut Vec<Point>,
    name: &Name,
    number: usize,
    catcher: &Json,
) -> Result<(), AllocError>
    ensures { OnOk result (points.new.items ≡ points.old.items
        ++ point name.now (Catcher number) (leading (numbered (codes "catcher") number name.now)
        (unwrap_or (text_at (codes "Next") (data_of catcher.now)) [])) ∷ []) }
{
    let told = numbered(alloc, "catcher", number, name.as_str())?;
    let told = leading(told, text_or_empty(catcher, "Next"))?;
    add(points, name, Part::Catcher(number), told)
}

fn add_catchers(
    alloc: Global,
    points: &mut Vec<Point>,
    name: &Name,
    catchers: &[Json],
) -> Result<(), AllocError>
    ensures { OnOk result (points.new.items
        ≡ points.old.items ++ catcher_points 0 name.now (chain (items_of catchers.now))) }
{
    for (i, catcher) in catchers.iter().enumerate() {
        add_catcher(alloc, points, name, i, catcher)?;
    }
    Ok(())
}

/// Adds the points of a state.
#[tactic(auto, unfolding(crate::specs::Listed::state_points))]
fn add_points(alloc: Global, points: &mut Vec<Point>, state: &Member) -> Result<(), AllocError>
    ensures { OnOk result (points.new.items
        ≡ points.old.items ++ state_points (member_of state.now)) }
{
    let name = Name::new(alloc, state.key.as_str())?;
    add_state(alloc, points, &name)?;
    let next = text_at(&state.value, "Next");
    add_target(alloc, points, &name, Part::Next, "transition", next)?;
    add_rules(alloc, points, &name, items_at(&state.value, "Choices"))?;
    let default = text_at(&state.value, "Default");
    add_target(alloc, points, &name, Part::Default, "Default of", default)?;
    add_retriers(alloc, points, &name, items_at(&state.value, "Retry"))?;
    add_catchers(alloc, points, &name, items_at(&state.value, "Catch"))
}

fn add_states(alloc: Global, points: &mut Vec<Point>, states: &[&Member]) -> Result<(), AllocError>
    ensures { OnOk result (points.new.items
        ≡ points.old.items ++ flat_map state_points (map (λ m. member_of m.now) states.now)) }
{
    for state in states {
        add_points(alloc, points, state)?;
    }
    Ok(())
}

// ---- a mock file

/// Adds the answer of a number of a response, if its key is one.
fn add_answer(
    alloc: Global,
    points: &mut Vec<Point>,
    response: &Name,
    number: usize,
    key: &str,
) -> Result<(), AllocError>
    ensures { OnOk result (points.new.items
        ≡ points.old.items ++ answer_point number response.now key.now) }
{
    if span_in(key).is_none() {
        return Ok(());
    }
    let told = answering(alloc, key, response.as_str())?;
    add(points, response, Part::Answer(number), told)
}

/// Adds the answers of a response.
fn add_answers(
    alloc: Global,
    points: &mut Vec<Point>,
    response: &Name,
    answers: &[Member],
) -> Result<(), AllocError>
    ensures { OnOk result (points.new.items
        ≡ points.old.items ++ answer_points 0 response.now (members_of answers.now)) }
{
    for (i, answer) in answers.iter().enumerate() {
        add_answer(alloc, points, response, i, answer.key.as_str())?;
    }
    Ok(())
}

fn add_response(alloc: Global, points: &mut Vec<Point>, response: &Member) -> Result<(), AllocError>
    ensures { OnOk result (points.new.items ≡ points.old.items
        ++ response_points (response.now.key, data_of response.now.value)) }
{
    let name = Name::new(alloc, response.key.as_str())?;
    add_answers(alloc, points, &name, response.value.members())
}

fn add_responses(
    alloc: Global,
    points: &mut Vec<Point>,
    responses: &[Member],
) -> Result<(), AllocError>
    ensures { OnOk result (points.new.items
        ≡ points.old.items ++ flat_map response_points (members_of responses.now)) }
{
    for response in responses {
        add_response(alloc, points, response)?;
    }
    Ok(())
}

/// The points of a definition in canonical form and of a mock file, in document order; none is covered. The error is that memory ran out.
pub(crate) fn points_in(
    alloc: Global,
    definition: &Json,
    mocks: &Json,
) -> Result<Vec<Point>, AllocError>
    ensures { IfOk result (λ v. v.items ≡ all_points (data_of definition.now) (data_of mocks.now)) }
{
    let mut points = Vec::new(alloc);
    let states = states_in(alloc, definition)?;
    add_states(alloc, &mut points, &states)?;
    add_responses(alloc, &mut points, mocks.members_at("MockedResponses"))?;
    Ok(points)
}
