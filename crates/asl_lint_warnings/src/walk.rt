// One walk over a definition for all its warnings.
ghost use Rattle.std.specs.Prelude.{◌≡◌, ◌++◌, false, IfOk, OnOk};
ghost use Rattle.asl_json_data.specs.Data.{pairs, chain};
ghost use Rattle.asl_json.specs.View.{data_of, members_of};
ghost use Rattle.asl_def_schema.specs.Members.{shape_in};
ghost use Rattle.asl_lint_warnings.specs.private.Spots.{spot_of};
ghost use Rattle.asl_lint_warnings.specs.Warnings.{object_kind, own_kind, standing, in_state, beside, inside, together, warnings, item_warnings, member_warnings, object_warnings, warnings_of};

use crate::choosing::tell_rules;
use crate::constant::tell_result;
use crate::handling::{item_kind, list_brought};
use crate::limit::limit_kind;
use crate::naming::text_kind;
use crate::resting::{member_kind, retrier_kind, state_kind, tell_default};
use crate::standing::{Standing, standing_of};
use crate::trail::{Trail, tell};
use crate::warning::{Warning, WarningKind, kind_if};
use asl_def_judge::value::{is_list, is_object};
use asl_def_schema::{Shape, Sort, item_sort, shape_in, sort_at};
use asl_json::{Items, Json, Member, Members};
use std::alloc::{AllocError, Global};
use std::collections::HashSet;

/// Where a value stands: the steps to it, and the states of the machine that it stands in.
#[derive(Clone, Copy)]
pub(crate) struct Spot<'a> {
    trail: &'a Trail<'a>,
    standing: &'a Standing,
}

/// What an object of this sort is warned of by itself.
fn object_kind(sort: Sort, members: &[Member]) -> Option<WarningKind>
    ensures { result ≡ object_kind sort (pairs (members_of members.now)) }
{
    match sort {
        Sort::State => state_kind(members),
        _ => None,
    }
}

/// What a value of this sort is warned of by itself.
fn own_kind(alloc: Global, sort: Sort, value: &Json) -> Result<Option<WarningKind>, AllocError>
    ensures { IfOk result (λ kind. kind ≡ own_kind sort (data_of value.now)) }
{
    match value {
        Json::Text(text) => text_kind(alloc, sort, text.as_str()),
        Json::Dict(members) => Ok(object_kind(sort, members.members())),
        _ => Ok(None),
    }
}

/// Tells how the state of this number stands in its machine.
fn tell_standing(
    alloc: Global,
    told: &mut Vec<Warning>,
    spot: Spot,
    at: usize,
) -> Result<(), AllocError>
    ensures { OnOk result (told.new.items ≡ told.old.items ++ standing (spot_of spot.entry) at) }
{
    let unreached = kind_if(!spot.standing.is_reached(at), WarningKind::UnreachableState);
    tell(alloc, told, spot.trail, unreached)?;
    let endless = kind_if(!spot.standing.is_ending(at), WarningKind::NoEnd);
    tell(alloc, told, spot.trail, endless)
}

/// Tells what a member is warned of beside the others of a state.
fn tell_in_state(
    alloc: Global,
    told: &mut Vec<Warning>,
    spot: Spot,
    members: &[Member],
    member: &Member,
) -> Result<(), AllocError>
    ensures { OnOk result (told.new.items ≡ told.old.items
        ++ in_state (spot_of spot.entry) (pairs (members_of members.now)) member.now.key
        (data_of member.now.value)) }
{
    let kind = member_kind(members, member.key.as_str(), &member.value);
    tell(alloc, told, spot.trail, kind)?;
    tell_default(alloc, told, spot.trail, members, member)?;
    tell_result(alloc, told, spot.trail, members, member)
}

/// Tells what a member is warned of beside the others of an object of this sort.
fn tell_beside(
    alloc: Global,
    told: &mut Vec<Warning>,
    spot: Spot,
    sort: Sort,
    members: &[Member],
    at: usize,
    member: &Member,
) -> Result<(), AllocError>
    ensures { OnOk result (told.new.items ≡ told.old.items
        ++ beside (spot_of spot.entry) sort (pairs (members_of members.now)) at member.now.key
        (data_of member.now.value)) }
{
    match sort {
        Sort::Definition => {
            let kind = limit_kind(members, member.key.as_str(), &member.value);
            tell(alloc, told, spot.trail, kind)
        }
        Sort::States => tell_standing(alloc, told, spot, at),
        Sort::State => tell_in_state(alloc, told, spot, members, member),
        Sort::Retrier => {
            let kind = retrier_kind(members, member.key.as_str(), &member.value);
            tell(alloc, told, spot.trail, kind)
        }
        _ => Ok(()),
    }
}

/// Tells what the items of a list of this sort are warned of beside each other.
#[tactic(auto, using(crate::proofs::Ruling::listed_again))]
fn tell_together(
    alloc: Global,
    told: &mut Vec<Warning>,
    spot: Spot,
    sort: Sort,
    items: &Items,
) -> Result<(), AllocError>
    ensures { OnOk result (told.new.items
        ≡ told.old.items ++ together (spot_of spot.entry) sort (chain items.now)) }
{
    match sort {
        Sort::Rules => tell_rules(alloc, told, spot.trail, items.values()),
        _ => Ok(()),
    }
}

/// Adds the warnings of a value that stands at this spot and is to be of this sort.
#[cycle(walk)]
fn tell_value(
    alloc: Global,
    told: &mut Vec<Warning>,
    spot: Spot,
    sort: Sort,
    value: &Json,
) -> Result<(), AllocError>
    ensures { OnOk result (told.new.items
        ≡ told.old.items ++ warnings (spot_of spot.entry) sort (data_of value.now)) }
{
    let kind = own_kind(alloc, sort, value)?;
    tell(alloc, told, spot.trail, kind)?;
    match value {
        Json::List(items) => {
            if !is_list(sort) {
                return Ok(());
            }
            tell_together(alloc, told, spot, sort, items)?;
            tell_items(alloc, told, spot, sort, items)
        }
        Json::Dict(members) => {
            if !is_object(sort) {
                return Ok(());
            }
            tell_object(alloc, told, spot, sort, members)
        }
        _ => Ok(()),
    }
}

#[cycle(walk)]
fn tell_items(
    alloc: Global,
    told: &mut Vec<Warning>,
    spot: Spot,
    sort: Sort,
    items: &Items,
) -> Result<(), AllocError>
    ensures { OnOk result (told.new.items ≡ told.old.items
        ++ item_warnings (spot_of spot.entry) sort (λ n. false) 0 (chain items.now)) }
{
    let mut listed = HashSet::new(alloc);
    let values = items.values();
    for (i, item) in values.iter().enumerate() {
        let trail = Trail::Item(i, spot.trail);
        let inner = Spot {
            trail: &trail,
            standing: spot.standing,
        };
        tell(alloc, told, inner.trail, item_kind(sort, &listed, item))?;
        tell_value(alloc, told, inner, item_sort(sort), item)?;
        list_brought(alloc, &mut listed, sort, item)?;
    }
    Ok(())
}

/// The states of a machine stand as they do there.
#[cycle(walk)]
fn tell_object(
    alloc: Global,
    told: &mut Vec<Warning>,
    spot: Spot,
    sort: Sort,
    members: &Members,
) -> Result<(), AllocError>
    ensures { OnOk result (told.new.items ≡ told.old.items
        ++ object_warnings (spot_of spot.entry) sort (pairs members.now)) }
{
    match sort {
        Sort::Definition | Sort::Machine | Sort::ItemProcessor => {
            let standing = standing_of(alloc, members.members())?;
            let inner = Spot {
                trail: spot.trail,
                standing: &standing,
            };
            tell_members(alloc, told, inner, sort, members)
        }
        _ => tell_members(alloc, told, spot, sort, members),
    }
}

#[cycle(walk)]
fn tell_members(
    alloc: Global,
    told: &mut Vec<Warning>,
    spot: Spot,
    sort: Sort,
    members: &Members,
) -> Result<(), AllocError>
    ensures { OnOk result (told.new.items ≡ told.old.items
        ++ member_warnings (spot_of spot.entry) sort (shape_in sort (pairs members.now))
        (pairs members.now) 0 (pairs members.now)) }
{
    let pairs = members.members();
    let shape = shape_in(sort, pairs);
    for (i, member) in pairs.iter().enumerate() {
        let trail = Trail::Member(i, member.key.as_str(), spot.trail);
        let inner = Spot {
            trail: &trail,
            standing: spot.standing,
        };
        tell_beside(alloc, told, inner, sort, pairs, i, member)?;
        let sort = sort_at(shape, member.key.as_str());
        tell_value(alloc, told, inner, sort, &member.value)?;
    }
    Ok(())
}

/// The warnings of a definition, in document order; those of the rules of a Choice beside each other, and of Ands in them, stand before the
/// others of its rules. A value with faults has warnings too; what isn't of the right shape has none, except that rules of a Choice that are no
/// objects ask nothing, and so repeat one another. The error is that memory ran out.
pub fn every_warning(alloc: Global, definition: &Json) -> Result<Vec<Warning>, AllocError>
    ensures { IfOk result (λ told. told.items ≡ warnings_of (data_of definition.now)) }
{
    let mut told = Vec::new(alloc);
    let standing = Standing::none(alloc);
    let trail = Trail::Root;
    let spot = Spot {
        trail: &trail,
        standing: &standing,
    };
    tell_value(alloc, &mut told, spot, Sort::Definition, definition)?;
    Ok(told)
}
