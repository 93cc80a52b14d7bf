// Map (ASL, "Map State").
ghost use Rattle.std.specs.Prelude.{◌≡◌, ◌≤◌, [], ◌∷◌, ◌++◌, List, length, Ok, Some, IfOk, OnOk, codes, option_map};
ghost use Rattle.asl_json.specs.View.{data_of};
ghost use Rattle.asl_json.specs.Meaning.{value_in};
ghost use Rattle.asl_def_states.specs.Show.{map_object};
ghost use Rattle.asl_step.specs.Context.{context_of};
ghost use Rattle.asl_step.specs.Seen.{seen};
ghost use Rattle.asl_step_io.specs.Gives.{Gives};
ghost use Rattle.asl_step_io.specs.Paths.{taken};
ghost use Rattle.asl_kinds.specs.Forks.{listed, item_input, iterations};
ghost use Rattle.asl_kinds.specs.Table.{length_body, fork_of, map_forks, map_with};
ghost use Rattle.asl_step.specs.Bounds.{AreFew};
ghost use Rattle.asl_step.specs.declared.record.Record.TheVariants.{New};

use crate::joining::{forked, join};
use crate::kind::StateKind;
use crate::raising::{count_of, raise};
use asl_def_states::Map;
use asl_history::EventKind;
use asl_json::{Dec, Json, Members, Txt};
use asl_json_shared::{Name, Shared, SharedItems};
use asl_step::{
    Context, Effect, Progress, Record, Records, Visit, beginning, forking, idle, telling,
};
use asl_step_io::{Fault, filled, missing, part_of, taken};
use asl_template::Template;
use std::alloc::{AllocError, Global};

/// A Map goes over at most so many items.
const MOST_ITEMS: usize = 999_999_999;

/// What `ItemsPath` takes of the effective input.
fn list_of(
    alloc: Global,
    map: &Map,
    effective: &Shared,
    visit: &Visit,
    context: &mut Context,
) -> Result<Shared, Fault>
    ensures given { Gives (taken (codes "ItemsPath")
        (value_in (codes "ItemsPath") (map_object [] map.now)) effective.now
        (context_of context.old.facts (seen visit.now))) result }
    ensures facts { context.new.facts ≡ context.old.facts }
{
    match map.items_path() {
        Some(path) => part_of(alloc, "ItemsPath", path, effective, visit, context),
        None => Ok(effective.try_clone()?),
    }
}

/// The items of a list that a Map can go over.
fn listed(alloc: Global, list: Shared) -> Result<SharedItems, Fault>
    ensures given { Gives (listed list) result }
    ensures few { IfOk result (λ ds. length ds ≤ 999_999_999) }
{
    match list.get() {
        Json::List(items) if items.len() <= MOST_ITEMS => Ok(SharedItems::of(alloc, list)?),
        _ => Err(missing(alloc, "ItemsPath")),
    }
}

/// The input that an `ItemSelector` makes for the iteration of this number over this item.
pub fn item_input(
    alloc: Global,
    template: &Template,
    effective: &Shared,
    number: u32,
    item: &Json,
    visit: &Visit,
    context: &mut Context,
) -> Result<Shared, Fault>
    ensures given { Gives (item_input (Some template.now) effective.now context.old.facts
        (seen visit.now) number (data_of item.now)) result }
    ensures facts { context.new.facts ≡ context.old.facts }
{
    let visit = Visit {
        place: visit.place,
        current: visit.current,
        children: visit.children,
        forker: visit.forker,
        iteration: Some((number, item)),
        invokes: visit.invokes,
        count: visit.count,
        case: visit.case,
        moment: visit.moment,
    };
    let effective = effective.try_clone()?;
    filled(alloc, Some(template), effective, &visit, context)
}

/// The input of the iteration of this number over this item.
fn input_of(
    alloc: Global,
    template: Option<&Template>,
    effective: &Shared,
    number: u32,
    item: Shared,
    visit: &Visit,
    context: &mut Context,
) -> Result<Shared, Fault>
    ensures given { Gives (item_input (option_map (λ t. t.now) template.entry) effective.now
        context.old.facts (seen visit.now) number (data_of item)) result }
    ensures facts { context.new.facts ≡ context.old.facts }
{
    match template {
        Some(template) => {
            item_input(
                alloc,
                template,
                effective,
                number,
                item.get(),
                visit,
                context,
            )
        }
        None => Ok(item),
    }
}

/// Adds an iteration that hasn't begun.
fn add(list: &mut Vec<Record>, start: &Name, input: Shared) -> Result<(), AllocError>
    ensures { OnOk result (list.new.items ≡ list.old.items ++ New start.now input ∷ []) }
{
    let state = start.try_clone()?;
    Ok(list.push(Record::New { state, input })?)
}

/// An iteration for each item, which hasn't begun.
fn iterations(
    alloc: Global,
    start: &Name,
    template: Option<&Template>,
    effective: &Shared,
    items: &SharedItems,
    visit: &Visit,
    context: &mut Context,
) -> Result<Records, Fault>
    requires { length items.now ≤ 999_999_999 }
    ensures given { Gives (iterations start.now (option_map (λ t. t.now) template.entry)
        effective.now context.old.facts (seen visit.now) 0 items.now) result }
    ensures few { IfOk result (λ rs. length rs ≡ length items.now) }
    ensures facts { context.new.facts ≡ context.old.facts }
{
    let count = items.values().len();
    let mut list = Vec::with_capacity(alloc, count)?;
    for number in 0..count as u32 {
        let item = items.item(number)?;
        let input = input_of(alloc, template, effective, number, item, visit, context)?;
        add(&mut list, start, input)?;
    }
    Ok(Records { list })
}

/// What is told of the start: how many iterations there are.
fn length_body(alloc: Global, items: &SharedItems) -> Result<Shared, AllocError>
    requires { length items.now ≤ 999_999_999 }
    ensures { IfOk result (λ v. v ≡ length_body items.now) }
{
    let mut members = Members::with_capacity(alloc, 1)?;
    let length = Json::Num(Dec::of_whole(items.values().len() as i128));
    members.push(Txt::of(alloc, "length")?, length)?;
    Ok(Shared::new(alloc, Json::Dict(members))?)
}

/// The items of a Map with this raw input, and an iteration for each.
fn fork_of(
    alloc: Global,
    map: &Map,
    input: &Shared,
    visit: &Visit,
    context: &mut Context,
) -> Result<(SharedItems, Records), Fault>
    ensures given { Gives (fork_of (map_object [] map.now) context.old.facts (seen visit.now)
        input.now) result }
    ensures few { IfOk result (λ r. (length r.0 ≤ 999_999_999) × (length r.1 ≡ length r.0)) }
    ensures facts { context.new.facts ≡ context.old.facts }
{
    let effective = taken(alloc, "InputPath", map.input_path(), input, visit, context)?;
    let list = list_of(alloc, map, &effective, visit, context)?;
    let items = listed(alloc, list)?;
    let start = Name::new(alloc, map.item_processor().start.name.as_str())?;
    let template = map.item_selector();
    let iterations = iterations(alloc, &start, template, &effective, &items, visit, context)?;
    Ok((items, iterations))
}

/// Its iterations begin.
fn forks(
    alloc: Global,
    map: &Map,
    visit: &Visit,
    done: Progress,
    input: &Shared,
    items: SharedItems,
    iterations: Records,
) -> Result<Effect, AllocError>
    requires items { length items ≤ 999_999_999 }
    requires iterations { length iterations ≡ length items }
    ensures effect { IfOk result (λ e. e
        ≡ map_forks (map_object [] map.now) (seen visit.now) done input.now
        (Ok (items, iterations))) }
    ensures fits { IfOk result (λ e. AreFew e.children) }
{
    let started = length_body(alloc, &items)?;
    let done = telling(alloc, visit, done, EventKind::MapStateStarted, started)?;
    let retriers = count_of(map.completion().retry());
    forking(alloc, visit, done, input, retriers, items, iterations)
}

/// A Map is entered with this raw input, or retried.
fn begins(
    alloc: Global,
    map: &Map,
    visit: &Visit,
    context: &mut Context,
    input: &Shared,
) -> Result<Effect, AllocError>
    ensures effect { IfOk result (λ e. e
        ≡ map_with (map_object [] map.now) context.old.facts (seen visit.now) (Some input.now)) }
    ensures fits { IfOk result (λ e. AreFew e.children) }
    ensures facts { context.new.facts ≡ context.old.facts }
{
    let done = beginning(alloc, visit, EventKind::MapStateEntered, input)?;
    match fork_of(alloc, map, input, visit, context) {
        Ok((items, iterations)) => forks(alloc, map, visit, done, input, items, iterations),
        Err(Fault::Raised(error)) => {
            let exited = EventKind::MapStateExited;
            raise(alloc, map.completion(), visit, done, exited, input, error)
        }
        Err(Fault::Memory) => Err(AllocError),
    }
}

impl StateKind for Map {
    ghost use Rattle.std.specs.Prelude.{[], false};
    ghost use Rattle.asl_def_states.specs.Show.{map_object};
    ghost use Rattle.asl_kinds.specs.Table.{map_effect, limit_in};
    ghost use Rattle.asl_json.specs.Meaning.{value_in};
    ghost use Rattle.std.specs.Prelude.{codes};
    ghost use Rattle.asl_kinds.specs.private.Laws.{map-bounded};

    ghost effect = { λ k. map_effect (map_object [] k) };

    ghost is_invoking = { λ k. false };

    ghost slots = { λ k. limit_in (value_in (codes "MaxConcurrency") (map_object [] k)) };

    ghost bounded = { λ k. map-bounded (map_object [] k) };

    ghost use Rattle.asl_kinds.specs.private.Telling.{map-told};

    ghost entered = { λ k. map-told (map_object [] k) };

    fn visit(
        &self,
        alloc: Global,
        visit: &Visit,
        context: &mut Context,
    ) -> Result<Effect, AllocError> {
        if let Some(input) = visit.current.beginning() {
            return begins(alloc, self, visit, context, input);
        }
        let Some(input) = forked(visit.current) else {
            return idle(alloc, visit.current);
        };
        join(
            alloc,
            self.completion(),
            visit,
            context,
            EventKind::MapStateSucceeded,
            EventKind::MapStateFailed,
            EventKind::MapStateExited,
            input,
        )
    }

    fn invokes(&self) -> bool {
        false
    }

    fn slots(&self) -> u32 {
        match self.max_concurrency() {
            Some(limit) => limit.value(),
            None => 0,
        }
    }
}
