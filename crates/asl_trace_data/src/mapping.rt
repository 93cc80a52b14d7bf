// Map.
ghost use Rattle.std.specs.Prelude.{◌≡◌, ◌≤◌, ◌<◌, ◌++◌, ◌∷◌, [], List, length, IfOk, OnOk, Some, None, codes, option_map, slice_get};
ghost use Rattle.asl_json.specs.View.{data_of, items_of};
ghost use Rattle.asl_json_data.specs.Data.{text};
ghost use Rattle.asl_json_shared.specs.Sharing.{items_in};
ghost use Rattle.asl_def_fields.specs.Shown.{path_shown};
ghost use Rattle.asl_def_shared.specs.Member.{completion_object};
ghost use Rattle.asl_def_states.specs.Show.{map_object};
ghost use Rattle.asl_step.specs.Context.{context_of};
ghost use Rattle.asl_step.specs.Records.{beginning_with};
ghost use Rattle.asl_step.specs.Seen.{seen};
ghost use Rattle.asl_step_io.specs.Gives.{Gives};
ghost use Rattle.asl_step_io.specs.Paths.{taken};
ghost use Rattle.asl_kinds.specs.Forks.{listed};
ghost use Rattle.asl_trace_data.specs.Kinds.{list_by, items_given, inputs, inputs_given, selector_stages, items_stages, map_by, settled_of, map_step};

use crate::joining::of_join;
use crate::leaving::settle;
use crate::making::add_taken;
use crate::part::Part;
use crate::stage::{Stage, add, add_error, add_value};
use asl_def_fields::PathField;
use asl_def_shared::Completion;
use asl_def_states::Map;
use asl_json::{Items, Json};
use asl_json_shared::Shared;
use asl_kinds::item_input;
use asl_path::RefPath;
use asl_step::{Context, Visit};
use asl_step_io::{Fault, missing, part_of};
use asl_template::Template;
use std::alloc::{AllocError, Global};

/// A Map goes over at most so many items.
const MOST_ITEMS: usize = 999_999_999;

/// What `ItemsPath` takes of the effective input.
fn list_of(
    alloc: Global,
    path: Option<&RefPath>,
    effective: &Shared,
    visit: &Visit,
    context: &mut Context,
) -> Result<Shared, Fault>
    ensures given { Gives (taken (codes "ItemsPath")
        (option_map (λ p. text p.now) path.entry) effective.now
        (context_of context.old.facts (seen visit.now))) result }
    ensures facts { context.new.facts ≡ context.old.facts }
{
    match path {
        Some(path) => part_of(alloc, "ItemsPath", path, effective, visit, context),
        None => Ok(effective.try_clone()?),
    }
}

/// A list that a Map can go over.
fn listed(alloc: Global, list: Shared) -> Result<Shared, Fault>
    ensures given { Gives (list_by list (listed list)) result }
    ensures few { IfOk result (λ z. length (items_in z) ≤ 999_999_999) }
{
    match list.get() {
        Json::List(items) if items.len() <= MOST_ITEMS => Ok(list),
        _ => Err(missing(alloc, "ItemsPath")),
    }
}

/// The items that a Map goes over, as a list.
fn items_of(
    alloc: Global,
    path: Option<&RefPath>,
    effective: &Shared,
    visit: &Visit,
    context: &mut Context,
) -> Result<Shared, Fault>
    ensures given { Gives (items_given (taken (codes "ItemsPath")
        (option_map (λ p. text p.now) path.entry) effective.now
        (context_of context.old.facts (seen visit.now)))) result }
    ensures few { IfOk result (λ z. length (items_in z) ≤ 999_999_999) }
    ensures facts { context.new.facts ≡ context.old.facts }
{
    let list = list_of(alloc, path, effective, visit, context)?;
    listed(alloc, list)
}

/// The item of this number.
fn item_at(items: &[Json], number: u32) -> &Json
    requires { number < length items.now }
    ensures { Some (data_of result.now) ≡ slice_get (items_of items.now) number }
{
    &items[number as usize]
}

/// Adds the input of an iteration. The error is that memory ran out.
fn push_input(alloc: Global, list: &mut Vec<Json>, input: Shared) -> Result<(), AllocError>
    ensures { OnOk result (items_of list.new.items
        ≡ items_of list.old.items ++ data_of input ∷ []) }
{
    Ok(list.push(input.into_json(alloc)?)?)
}

/// The inputs of the iterations over these items.
fn inputs(
    alloc: Global,
    template: &Template,
    effective: &Shared,
    items: &[Json],
    visit: &Visit,
    context: &mut Context,
) -> Result<Items, Fault>
    requires { length items.now ≤ 999_999_999 }
    ensures given { Gives (inputs template.now effective.now context.old.facts (seen visit.now) 0
        (items_of items.now)) result }
    ensures facts { context.new.facts ≡ context.old.facts }
{
    let mut list = Vec::with_capacity(alloc, items.len())?;
    for number in 0..items.len() as u32 {
        let item = item_at(items, number);
        let input = item_input(alloc, template, effective, number, item, visit, context)?;
        push_input(alloc, &mut list, input)?;
    }
    Ok(Items::of_values(list))
}

/// The same as one list.
fn inputs_given(
    alloc: Global,
    template: &Template,
    effective: &Shared,
    items: &[Json],
    visit: &Visit,
    context: &mut Context,
) -> Result<Shared, Fault>
    requires { length items.now ≤ 999_999_999 }
    ensures given { Gives (inputs_given (inputs template.now effective.now context.old.facts
        (seen visit.now) 0 (items_of items.now))) result }
    ensures facts { context.new.facts ≡ context.old.facts }
{
    let inputs = inputs(alloc, template, effective, items, visit, context)?;
    match Shared::new(alloc, Json::List(inputs)) {
        Ok(list) => Ok(list),
        Err(_) => Err(Fault::Memory),
    }
}

/// The items of a list; none of any other value.
fn items_in(list: &Json) -> &[Json]
    ensures { items_of result.now ≡ items_in list.now }
{
    match list {
        Json::List(items) => items.values(),
        _ => &[],
    }
}

/// The members by which a Map makes the inputs of its iterations; `selector` is `ItemSelector` or `Parameters`.
#[derive(Clone, Copy)]
struct MapMembers<'a> {
    input_path: &'a PathField,
    items_path: Option<&'a RefPath>,
    selector: Option<&'a Template>,
}

/// The inputs of the iterations over the items of a list, where a template makes them. The error is that memory ran out, here and below.
fn add_inputs(
    alloc: Global,
    out: &mut Vec<Stage>,
    selector: Option<&Template>,
    effective: &Shared,
    list: &Shared,
    visit: &Visit,
    context: &mut Context,
) -> Result<(), AllocError>
    requires { length (items_in list.now) ≤ 999_999_999 }
    ensures stages { OnOk result (out.new.items ≡ out.old.items ++ selector_stages
        (option_map (λ t. t.now) selector.entry) effective.now context.old.facts (seen visit.now)
        list.now) }
    ensures facts { context.new.facts ≡ context.old.facts }
{
    let Some(template) = selector else {
        return Ok(());
    };
    let items = items_in(list.get());
    let given = inputs_given(alloc, template, effective, items, visit, context);
    let _list = add(out, Part::ItemSelector, given)?;
    Ok(())
}

/// The stages behind the effective input.
fn add_items(
    alloc: Global,
    out: &mut Vec<Stage>,
    map: &MapMembers<'_>,
    effective: &Shared,
    visit: &Visit,
    context: &mut Context,
) -> Result<(), AllocError>
    ensures stages { OnOk result (out.new.items ≡ out.old.items ++ items_stages
        (option_map (λ p. text p.now) map.now.items_path)
        (option_map (λ t. t.now) map.now.selector) context.old.facts (seen visit.now)
        effective.now) }
    ensures facts { context.new.facts ≡ context.old.facts }
{
    match items_of(alloc, map.items_path, effective, visit, context) {
        Ok(list) => {
            add_value(out, Part::ItemsPath, list.try_clone()?)?;
            add_inputs(alloc, out, map.selector, effective, &list, visit, context)
        }
        Err(Fault::Raised(error)) => add_error(out, Part::ItemsPath, Some(error)),
        Err(Fault::Memory) => Err(AllocError),
    }
}

/// The stages of a Map that is entered or retried.
fn add_map(
    alloc: Global,
    out: &mut Vec<Stage>,
    map: &MapMembers<'_>,
    input: &Shared,
    visit: &Visit,
    context: &mut Context,
) -> Result<(), AllocError>
    ensures stages { OnOk result (out.new.items ≡ out.old.items ++ map_by
        (path_shown map.now.input_path.now) (option_map (λ p. text p.now) map.now.items_path)
        (option_map (λ t. t.now) map.now.selector) context.old.facts (seen visit.now)
        input.now) }
    ensures facts { context.new.facts ≡ context.old.facts }
{
    add_value(out, Part::Input, input.try_clone()?)?;
    let (part, path) = (Part::InputPath, map.input_path);
    let Some(effective) = add_taken(alloc, out, part, path, input, visit, context)? else {
        return Ok(());
    };
    add_items(alloc, out, map, &effective, visit, context)
}

/// The same with what is behind an error.
fn fork(
    alloc: Global,
    map: &MapMembers<'_>,
    completion: &Completion,
    input: &Shared,
    visit: &Visit,
    context: &mut Context,
) -> Result<Vec<Stage>, AllocError>
    ensures stages { IfOk result (λ ss. ss.items ≡ settled_of (completion_object completion.now)
        (seen visit.now) input.now (map_by
        (path_shown map.now.input_path.now) (option_map (λ p. text p.now) map.now.items_path)
        (option_map (λ t. t.now) map.now.selector) context.old.facts (seen visit.now)
        input.now) None) }
    ensures facts { context.new.facts ≡ context.old.facts }
{
    let mut out = Vec::new(alloc);
    add_map(alloc, &mut out, map, input, visit, context)?;
    settle(alloc, &mut out, completion, visit, input, None)?;
    Ok(out)
}

pub(crate) fn of_map(
    alloc: Global,
    map: &Map,
    visit: &Visit,
    context: &mut Context,
) -> Result<Vec<Stage>, AllocError>
    ensures stages { IfOk result (λ ss. ss.items ≡ map_step (map_object [] map.now)
        context.old.facts (seen visit.now) (beginning_with visit.now.current.now)) }
    ensures facts { context.new.facts ≡ context.old.facts }
{
    let completion = map.completion();
    let Some(input) = visit.current.beginning() else {
        return of_join(alloc, completion, visit, context);
    };
    let members = MapMembers {
        input_path: map.input_path(),
        items_path: map.items_path(),
        selector: map.item_selector(),
    };
    fork(alloc, &members, completion, input, visit, context)
}
