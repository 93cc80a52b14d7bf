// Values that are put out as they are.
ghost use Rattle.std.specs.Prelude.{◌≡◌, ◌++◌, OnOk, option_map};
ghost use Rattle.asl_json_data.specs.Data.{pairs, chain};
ghost use Rattle.asl_json.specs.View.{data_of, members_of};
ghost use Rattle.asl_def_schema.specs.declared.sort.Kind.{Kind};
ghost use Rattle.asl_lint_warnings.specs.private.Trails.{steps_of};
ghost use Rattle.asl_lint_warnings.specs.Constants.{is_computed_key, constant_warnings, constant_items, constant_members, constant_member, is_pass, is_constant, result_warnings};

use crate::naming::seems_computed;
use crate::trail::{Trail, tell};
use crate::warning::{Warning, WarningKind, kind_if};
use asl_def_schema::{Kind, find, kind_named};
use asl_json::{Items, Json, Member, Members};
use std::alloc::{AllocError, Global};

/// Whether the value of a member of this key would be computed in a template.
fn is_computed_key(key: &str) -> bool
    ensures { result ≡ is_computed_key key.now }
{
    key.as_bytes().ends_with(".$".as_bytes())
}

/// Tells what in a value that is put out as it is looks computed.
#[cycle(constant)]
fn tell_constant(
    alloc: Global,
    told: &mut Vec<Warning>,
    trail: &Trail,
    value: &Json,
) -> Result<(), AllocError>
    ensures { OnOk result (told.new.items
        ≡ told.old.items ++ constant_warnings (steps_of trail.now) (data_of value.now)) }
{
    match value {
        Json::Text(text) => {
            let kind = kind_if(seems_computed(text.as_str()), WarningKind::NotComputed);
            tell(alloc, told, trail, kind)
        }
        Json::List(items) => tell_items(alloc, told, trail, items),
        Json::Dict(members) => tell_members(alloc, told, trail, members),
        _ => Ok(()),
    }
}

#[cycle(constant)]
fn tell_items(
    alloc: Global,
    told: &mut Vec<Warning>,
    trail: &Trail,
    items: &Items,
) -> Result<(), AllocError>
    ensures { OnOk result (told.new.items
        ≡ told.old.items ++ constant_items (steps_of trail.now) 0 (chain items.now)) }
{
    let values = items.values();
    for (i, item) in values.iter().enumerate() {
        let inner = Trail::Item(i, &*trail);
        tell_constant(alloc, told, &inner, item)?;
    }
    Ok(())
}

#[cycle(constant)]
fn tell_members(
    alloc: Global,
    told: &mut Vec<Warning>,
    trail: &Trail,
    members: &Members,
) -> Result<(), AllocError>
    ensures { OnOk result (told.new.items
        ≡ told.old.items ++ constant_members (steps_of trail.now) 0 (pairs members.now)) }
{
    let pairs = members.members();
    for (i, member) in pairs.iter().enumerate() {
        let inner = Trail::Member(i, member.key.as_str(), &*trail);
        tell_member(alloc, told, &inner, member)?;
    }
    Ok(())
}

/// A member that would be computed in a template is told once, whatever it has.
#[cycle(constant)]
fn tell_member(
    alloc: Global,
    told: &mut Vec<Warning>,
    trail: &Trail,
    member: &Member,
) -> Result<(), AllocError>
    ensures { OnOk result (told.new.items ≡ told.old.items
        ++ constant_member (steps_of trail.now) member.now.key (data_of member.now.value)) }
{
    if is_computed_key(member.key.as_str()) {
        return tell(alloc, told, trail, Some(WarningKind::NotComputed));
    }
    tell_constant(alloc, told, trail, &member.value)
}

fn is_pass(kind: Option<Kind>) -> bool
    ensures { result ≡ is_pass kind }
{
    matches!(kind, Some(Kind::Pass))
}

/// Whether the member of this key of a state is put out as it is.
fn is_constant(members: &[Member], key: &str) -> bool
    ensures { result ≡ is_constant (pairs (members_of members.now)) key.now }
{
    key == "Result" && is_pass(kind_named(find(members, "Type")))
}

/// Tells what the member of this key and value of a state is warned of, where it is put out as it is.
pub(crate) fn tell_result(
    alloc: Global,
    told: &mut Vec<Warning>,
    trail: &Trail,
    members: &[Member],
    member: &Member,
) -> Result<(), AllocError>
    ensures { OnOk result (told.new.items ≡ told.old.items
        ++ result_warnings (steps_of trail.now) (pairs (members_of members.now)) member.now.key
        (data_of member.now.value)) }
{
    if is_constant(members, member.key.as_str()) {
        tell_constant(alloc, told, trail, &member.value)
    } else {
        Ok(())
    }
}
