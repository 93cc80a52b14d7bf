// What states want of their inputs and results, and of the outputs of the machines in them.
ghost use Rattle.std.specs.Prelude.{◌≡◌, ◌++◌, ◌∷◌, [], None, IfOk, OnOk, codes, map, option_map, reverse};
ghost use Rattle.asl_json_data.specs.Data.{chain, pairs};
ghost use Rattle.asl_json.specs.View.{data_of, items_of, member_of, members_of};
ghost use Rattle.asl_json.specs.Access.{items_in, member_list_at};
ghost use Rattle.asl_path.specs.Walk.{item_at};
ghost use Rattle.asl_def_walk.specs.States.{all_states};
ghost use Rattle.asl_json.specs.Meaning.{value_in};
ghost use Rattle.asl_mock_sample.specs.Merging.{anything, or_anything, both};
ghost use Rattle.asl_mock_sample.specs.Wants.{last_behind, last_of, named_by, selected_from, filled_from, placed_part, around, choices_lead, listed, caught, led, output_wants, read_part, own_reads, plain_wants, branches_want, first_of, selector_of, selector_wants, map_wants, machine_of, effective_wants, after, result_wants, input_wants, all_end, branches_end, inner_end, with_state, with_states, twice, wanted_results};
ghost use Rattle.asl_mock_sample.specs.View.{known_of};

use crate::beside::beside;
use crate::merging::{anything, both, item_at, or_anything};
use crate::paths::{found, nth_item, path_wants};
use crate::rules::{moment, rules_wants};
use crate::templates::{one, through, value_wants};
use asl_def_walk::states_in;
use asl_json::{Json, Member, Txt};
use std::alloc::{AllocError, Global};

/// What is wanted, by the names of states; what was said of a name last counts. Of inputs, of results, and of the outputs of states that end
/// a machine inside another state.
#[derive(Drop)]
pub(crate) struct Table {
    inputs: Vec<Member>,
    results: Vec<Member>,
    outputs: Vec<Member>,
}

/// What was said of a name last.
fn last_behind<'a>(members: &'a [Member], name: &str) -> Option<&'a Json>
    ensures { option_map (λ v. data_of v.now) result
        ≡ last_behind None name.now (members_of members.now) }
{
    let mut last = None;
    for member in members {
        if name == member.key.as_str() {
            last = Some(&member.value);
        }
    }
    last
}

/// The same as a value of its own.
pub(crate) fn last_of(alloc: Global, members: &[Member], name: &str) -> Result<Json, AllocError>
    ensures { IfOk result (λ v. data_of v ≡ last_of (members_of members.now) name.now) }
{
    or_anything(alloc, last_behind(members, name))
}

/// What was said last of the state that a member names.
fn named_by(alloc: Global, members: &[Member], name: Option<&Json>) -> Result<Json, AllocError>
    ensures { IfOk result (λ v. data_of v
        ≡ named_by (members_of members.now) (option_map (λ w. data_of w.now) name.entry)) }
{
    match name {
        Some(Json::Text(name)) => last_of(alloc, members, name.as_str()),
        _ => anything(alloc),
    }
}

/// Adds what is said of a name.
fn add(alloc: Global, members: &mut Vec<Member>, name: &str, value: Json) -> Result<(), AllocError>
    ensures { OnOk result (members_of members.new.items
        ≡ members_of members.old.items ++ (name.now, data_of value) ∷ []) }
{
    let key = Txt::of(alloc, name)?;
    members.push(Member { key, value })?;
    Ok(())
}

/// What a filter wants of the value that it selects from.
fn selected_from(alloc: Global, path: Option<&Json>, wanted: Json) -> Result<Json, AllocError>
    ensures { IfOk result (λ v. data_of v
        ≡ selected_from (option_map (λ w. data_of w.now) path.entry) (data_of wanted)) }
{
    match path {
        None => Ok(wanted),
        Some(Json::Text(path)) => path_wants(alloc, "$", path.as_str(), &wanted),
        Some(_) => anything(alloc),
    }
}

/// What a template, where there is one, wants of a root.
fn filled_from(
    alloc: Global,
    root: &str,
    template: Option<&Json>,
    wanted: Json,
) -> Result<Json, AllocError>
    ensures { IfOk result (λ v. data_of v
        ≡ filled_from root.now (option_map (λ w. data_of w.now) template.entry) (data_of wanted)) }
{
    match template {
        None => Ok(wanted),
        Some(template) => through(alloc, root, template, &wanted),
    }
}

/// What is wanted of a result that is placed by a path.
fn placed_part(alloc: Global, path: Option<&Json>, wanted: &Json) -> Result<Json, AllocError>
    ensures { IfOk result (λ v. data_of v
        ≡ placed_part (option_map (λ w. data_of w.now) path.entry) (data_of wanted.now)) }
{
    match path {
        None => wanted.try_clone(alloc),
        Some(Json::Text(path)) => found(alloc, path.as_str(), wanted),
        Some(_) => anything(alloc),
    }
}

/// What is wanted of the input in which a result is placed by a path.
fn around(alloc: Global, path: Option<&Json>, wanted: Json) -> Result<Json, AllocError>
    ensures { IfOk result (λ v. data_of v
        ≡ around (option_map (λ w. data_of w.now) path.entry) (data_of wanted)) }
{
    match path {
        None => anything(alloc),
        Some(Json::Text(path)) => beside(alloc, path.as_str(), wanted),
        Some(_) => Ok(wanted),
    }
}

/// Adds what the states want that choices lead to.
fn choices_lead(
    alloc: Global,
    inputs: &[Member],
    so_far: Json,
    choices: &[Json],
) -> Result<Json, AllocError>
    ensures { IfOk result (λ v. data_of v
        ≡ choices_lead (members_of inputs.now) (data_of so_far) (chain (items_of choices.now))) }
{
    let mut wants = so_far;
    for choice in choices {
        let more = named_by(alloc, inputs, choice.get("Next"))?;
        wants = both(alloc, wants, &more)?;
    }
    Ok(wants)
}

/// The items of a list, where there is one.
fn listed(list: Option<&Json>) -> &[Json]
    ensures { chain (items_of result.now) ≡ listed (option_map (λ w. data_of w.now) list.entry) }
{
    match list {
        Some(list) => list.items(),
        None => &[],
    }
}

/// Adds what the states want of a state's input that its catchers lead to.
fn caught(
    alloc: Global,
    inputs: &[Member],
    so_far: Json,
    catchers: &[Json],
) -> Result<Json, AllocError>
    ensures { IfOk result (λ v. data_of v
        ≡ caught (members_of inputs.now) (data_of so_far) (chain (items_of catchers.now))) }
{
    let mut wants = so_far;
    for catcher in catchers {
        let led = named_by(alloc, inputs, catcher.get("Next"))?;
        let more = around(alloc, catcher.get("ResultPath"), led)?;
        wants = both(alloc, wants, &more)?;
    }
    Ok(wants)
}

/// What the states that a state leads to want of their inputs.
fn led(alloc: Global, inputs: &[Member], state: &Json) -> Result<Json, AllocError>
    ensures { IfOk result (λ v. data_of v ≡ led (members_of inputs.now) (data_of state.now)) }
{
    let next = named_by(alloc, inputs, state.get("Next"))?;
    let default = named_by(alloc, inputs, state.get("Default"))?;
    let wants = both(alloc, next, &default)?;
    choices_lead(alloc, inputs, wants, listed(state.get("Choices")))
}

/// What is wanted of the output of a state.
fn output_wants(alloc: Global, table: &Table, state: &Member) -> Result<Json, AllocError>
    ensures { IfOk result (λ v. data_of v
        ≡ output_wants (known_of table.now) state.now.key (data_of state.now.value)) }
{
    let value = &state.value;
    if value.get("Next").is_none() && value.get("Choices").is_none() {
        return last_of(alloc, &table.outputs, state.key.as_str());
    }
    led(alloc, &table.inputs, value)
}

/// What a member of a state wants of the state's effective input.
fn read_part(alloc: Global, member: &Member) -> Result<Json, AllocError>
    ensures { IfOk result (λ v. data_of v
        ≡ read_part member.now.key (data_of member.now.value)) }
{
    let key = member.key.as_str();
    if key == "Choices" {
        return rules_wants(alloc, &member.value);
    }
    if key == "SecondsPath" {
        let leaf = one();
        return value_wants(alloc, "$", &member.value, &leaf);
    }
    if key == "TimestampPath" {
        let leaf = moment(alloc)?;
        return value_wants(alloc, "$", &member.value, &leaf);
    }
    let leaf = anything(alloc)?;
    if key == "ErrorPath" || key == "CausePath" {
        return value_wants(alloc, "$", &member.value, &leaf);
    }
    Ok(leaf)
}

/// Adds what the members of a state want of its effective input.
fn own_reads(alloc: Global, so_far: Json, members: &[Member]) -> Result<Json, AllocError>
    ensures { IfOk result (λ v. data_of v
        ≡ own_reads (data_of so_far) (pairs (members_of members.now))) }
{
    let mut wants = so_far;
    for member in members {
        let more = read_part(alloc, member)?;
        wants = both(alloc, wants, &more)?;
    }
    Ok(wants)
}

/// What a state that has no machine inside wants of its effective input, where this is wanted of its result.
fn plain_wants(alloc: Global, state: &Json, wanted: &Json) -> Result<Json, AllocError>
    ensures { IfOk result (λ v. data_of v
        ≡ plain_wants (value_in (codes "Result") (data_of state.now)) (data_of state.now)
        (data_of wanted.now)) }
{
    if state.get("Result").is_some() {
        return anything(alloc);
    }
    own_reads(alloc, wanted.try_clone(alloc)?, state.members())
}

/// What the branches of a Parallel want of its effective input.
fn branches_want(alloc: Global, inputs: &[Member], branches: &[Json]) -> Result<Json, AllocError>
    ensures { IfOk result (λ v. data_of v
        ≡ branches_want (members_of inputs.now) anything (chain (items_of branches.now))) }
{
    let mut wants = anything(alloc)?;
    for branch in branches {
        let more = named_by(alloc, inputs, branch.get("StartAt"))?;
        wants = both(alloc, wants, &more)?;
    }
    Ok(wants)
}

/// The first of two members, where there is one.
fn first_of<'a>(one: Option<&'a Json>, other: Option<&'a Json>) -> Option<&'a Json>
    ensures { option_map (λ v. data_of v.now) result
        ≡ first_of (option_map (λ v. data_of v.now) one.entry) (option_map (λ v. data_of v.now) other.entry) }
{
    match one {
        Some(one) => Some(one),
        None => other,
    }
}

/// What an item of a Map is made from.
fn selector_of(state: &Json) -> Option<&Json>
    ensures { option_map (λ v. data_of v.now) result ≡ selector_of (data_of state.now) }
{
    first_of(state.get("ItemSelector"), state.get("Parameters"))
}

/// What the selector of a Map wants of the state's effective input.
fn selector_wants(alloc: Global, selector: Option<&Json>, wanted: &Json) -> Result<Json, AllocError>
    ensures { IfOk result (λ v. data_of v
        ≡ selector_wants (option_map (λ v. data_of v.now) selector.entry) (data_of wanted.now)) }
{
    match selector {
        None => anything(alloc),
        Some(selector) => through(alloc, "$", selector, wanted),
    }
}

/// What a Map wants of its effective input, where its machine wants this of an item.
fn map_wants(alloc: Global, state: &Json, wanted: Json) -> Result<Json, AllocError>
    ensures { IfOk result (λ v. data_of v ≡ map_wants (data_of state.now) (data_of wanted)) }
{
    let selected = selector_wants(alloc, selector_of(state), &wanted)?;
    let item = filled_from(alloc, "$$.Map.Item.Value", selector_of(state), wanted)?;
    let items = nth_item(alloc, 0, item)?;
    let more = selected_from(alloc, state.get("ItemsPath"), items)?;
    both(alloc, selected, &more)
}

/// The machine of a Map.
fn machine_of(state: &Json) -> Option<&Json>
    ensures { option_map (λ v. data_of v.now) result ≡ machine_of (data_of state.now) }
{
    first_of(state.get("ItemProcessor"), state.get("Iterator"))
}

/// What a state wants of its effective input, where this is wanted of its result.
fn effective_wants(
    alloc: Global,
    inputs: &[Member],
    state: &Json,
    wanted: &Json,
) -> Result<Json, AllocError>
    ensures { IfOk result (λ v. data_of v
        ≡ effective_wants (members_of inputs.now) (data_of state.now) (data_of wanted.now)) }
{
    let parameters = state.get("Parameters");
    if state.get("Resource").is_some() {
        let wants = anything(alloc)?;
        return filled_from(alloc, "$", parameters, wants);
    }
    if let Some(branches) = state.get("Branches") {
        let wants = branches_want(alloc, inputs, branches.items())?;
        return filled_from(alloc, "$", parameters, wants);
    }
    if let Some(machine) = machine_of(state) {
        let wants = named_by(alloc, inputs, machine.get("StartAt"))?;
        return map_wants(alloc, state, wants);
    }
    let wants = plain_wants(alloc, state, wanted)?;
    filled_from(alloc, "$", parameters, wants)
}

/// Adds that each of these states ends its machine with this output.
fn all_end(
    alloc: Global,
    outputs: &mut Vec<Member>,
    output: &Json,
    states: &[Member],
) -> Result<(), AllocError>
    ensures { OnOk result (members_of outputs.new.items
        ≡ all_end (members_of outputs.old.items) (data_of output.now) (members_of states.now)) }
{
    for state in states {
        add(alloc, outputs, state.key.as_str(), output.try_clone(alloc)?)?;
    }
    Ok(())
}

/// What is wanted of the item of this number.
fn nth_wanted(wanted: &Json, number: usize) -> Option<&Json>
    ensures { option_map (λ v. data_of v.now) result
        ≡ item_at number (items_in (data_of wanted.now)) }
{
    item_at(wanted.items(), number)
}

/// Adds that the states of a machine end it with what is wanted of the item of this number.
fn machine_ends(
    alloc: Global,
    outputs: &mut Vec<Member>,
    wanted: &Json,
    number: usize,
    machine: &Json,
) -> Result<(), AllocError>
    ensures { OnOk result (members_of outputs.new.items
        ≡ all_end (members_of outputs.old.items)
        (or_anything (item_at number (items_in (data_of wanted.now))))
        (member_list_at (codes "States") (data_of machine.now))) }
{
    let output = or_anything(alloc, nth_wanted(wanted, number))?;
    all_end(alloc, outputs, &output, machine.members_at("States"))
}

/// Adds with what the branches of a Parallel end, where this is wanted of its result.
fn branches_end(
    alloc: Global,
    outputs: &mut Vec<Member>,
    wanted: &Json,
    branches: &[Json],
) -> Result<(), AllocError>
    ensures { OnOk result (members_of outputs.new.items
        ≡ branches_end (members_of outputs.old.items) 0 (data_of wanted.now)
        (chain (items_of branches.now))) }
{
    for (number, branch) in branches.iter().enumerate() {
        machine_ends(alloc, outputs, wanted, number, branch)?;
    }
    Ok(())
}

/// Adds with what the machines inside a state end, where this is wanted of its result.
fn inner_end(
    alloc: Global,
    outputs: &mut Vec<Member>,
    wanted: &Json,
    state: &Json,
) -> Result<(), AllocError>
    ensures { OnOk result (members_of outputs.new.items
        ≡ inner_end (members_of outputs.old.items) (data_of wanted.now)
        (value_in (codes "Branches") (data_of state.now)) (machine_of (data_of state.now))) }
{
    if let Some(branches) = state.get("Branches") {
        return branches_end(alloc, outputs, wanted, branches.items());
    }
    match machine_of(state) {
        Some(machine) => machine_ends(alloc, outputs, wanted, 0, machine),
        None => Ok(()),
    }
}

/// What is wanted of the value from which a state's output is selected.
fn after(alloc: Global, table: &Table, state: &Member) -> Result<Json, AllocError>
    ensures { IfOk result (λ v. data_of v
        ≡ after (known_of table.now) state.now.key (data_of state.now.value)) }
{
    let wants = output_wants(alloc, table, state)?;
    selected_from(alloc, state.value.get("OutputPath"), wants)
}

/// What is wanted of a state's result, where this is wanted of the value from which its output is selected.
fn result_part(alloc: Global, state: &Json, wanted: &Json) -> Result<Json, AllocError>
    ensures { IfOk result (λ v. data_of v
        ≡ filled_from (codes "$") (value_in (codes "ResultSelector") (data_of state.now))
        (placed_part (value_in (codes "ResultPath") (data_of state.now)) (data_of wanted.now))) }
{
    let part = placed_part(alloc, state.get("ResultPath"), wanted)?;
    filled_from(alloc, "$", state.get("ResultSelector"), part)
}

/// What is wanted of a state's input, where this is wanted of its result, and of the value from which its output is selected.
fn input_part(
    alloc: Global,
    inputs: &[Member],
    state: &Json,
    wanted: &Json,
    after: Json,
) -> Result<Json, AllocError>
    ensures { IfOk result (λ v. data_of v
        ≡ both (caught (members_of inputs.now) (around (value_in (codes "ResultPath") (data_of state.now)) (data_of after))
        (listed (value_in (codes "Catch") (data_of state.now))))
        (selected_from (value_in (codes "InputPath") (data_of state.now))
        (effective_wants (members_of inputs.now) (data_of state.now) (data_of wanted.now)))) }
{
    let effective = effective_wants(alloc, inputs, state, wanted)?;
    let more = selected_from(alloc, state.get("InputPath"), effective)?;
    let placed = around(alloc, state.get("ResultPath"), after)?;
    let kept = caught(alloc, inputs, placed, listed(state.get("Catch")))?;
    both(alloc, kept, &more)
}

/// Adds what a state wants.
fn add_state(alloc: Global, table: &mut Table, state: &Member) -> Result<(), AllocError>
    ensures { OnOk result (known_of table.new ≡ with_state (known_of table.old) (member_of state.now)) }
{
    let name = state.key.as_str();
    let after = after(alloc, table, state)?;
    let wanted = result_part(alloc, &state.value, &after)?;
    let input = input_part(alloc, &table.inputs, &state.value, &wanted, after)?;
    inner_end(alloc, &mut table.outputs, &wanted, &state.value)?;
    add(alloc, &mut table.inputs, name, input)?;
    add(alloc, &mut table.results, name, wanted)
}

/// Adds what states want, one behind the other.
fn add_states(alloc: Global, table: &mut Table, states: &[&Member]) -> Result<(), AllocError>
    ensures { OnOk result (known_of table.new
        ≡ with_states (known_of table.old) (map (λ m. member_of m.now) states.now)) }
{
    for state in states {
        add_state(alloc, table, state)?;
    }
    Ok(())
}

/// Adds what states want, two times.
fn add_twice(alloc: Global, table: &mut Table, states: &[&Member]) -> Result<(), AllocError>
    ensures { OnOk result (known_of table.new
        ≡ twice (map (λ m. member_of m.now) states.now) (known_of table.old)) }
{
    add_states(alloc, table, states)?;
    add_states(alloc, table, states)
}

/// The states of a definition, the last one first.
fn last_first(alloc: Global, definition: &Json) -> Result<Vec<&Member>, AllocError>
    ensures { IfOk result (λ states. map (λ m. member_of m.now) states.items
        ≡ reverse (all_states (data_of definition.now))) }
{
    let mut states = states_in(alloc, definition)?;
    states.reverse();
    Ok(states)
}

/// What is wanted of the results of a definition's states, by their names; what was said last counts. The error is that memory ran out.
pub(crate) fn wanted_results(alloc: Global, definition: &Json) -> Result<Vec<Member>, AllocError>
    ensures { IfOk result (λ ms. members_of ms.items ≡ wanted_results (data_of definition.now)) }
{
    let states = last_first(alloc, definition)?;
    let mut table = Table {
        inputs: Vec::new(alloc),
        results: Vec::new(alloc),
        outputs: Vec::new(alloc),
    };
    add_twice(alloc, &mut table, &states)?;
    add_twice(alloc, &mut table, &states)?;
    let Table {
        inputs: _inputs,
        results,
        outputs: _outputs,
    } = table;
    Ok(results)
}
