// What is wanted of a value beside the part that a path names.
ghost use Rattle.std.specs.Prelude.{◌≡◌, IfOk, OnOk, if◌then◌else◌};
ghost use Rattle.asl_json.specs.View.{data_of, members_of};
ghost use Rattle.asl_json_data.specs.Data.{pairs};
ghost use Rattle.asl_mock_sample.specs.Merging.{with_member};
ghost use Rattle.asl_mock_sample.specs.Beside.{is_at, with_others, beside_part, beside};

use crate::merging::{anything, put_member};
use crate::paths::stripped;
use asl_json::{Json, Member, Members};
use std::alloc::{AllocError, Global};

/// Whether a path of one name names the member with this key.
fn is_at(path: &str, key: &str) -> bool
    ensures { result ≡ is_at path.now key.now }
{
    match stripped("$.", path) {
        Some(name) => name == key,
        None => false,
    }
}

/// Adds a copy of a member, unless the path names it.
fn put_other(
    alloc: Global,
    members: &mut Members,
    path: &str,
    other: &Member,
) -> Result<(), AllocError>
    ensures { OnOk result (members.new
        ≡ (if is_at path.now other.now.key then members.old
        else with_member members.old other.now.key (data_of other.now.value))) }
{
    if is_at(path, other.key.as_str()) {
        return Ok(());
    }
    put_member(
        members,
        other.key.try_clone(alloc)?,
        other.value.try_clone(alloc)?,
    )
}

/// Adds copies of the members that the path doesn't name.
fn put_others(
    alloc: Global,
    members: &mut Members,
    path: &str,
    others: &[Member],
) -> Result<(), AllocError>
    ensures { OnOk result (members.new ≡ with_others path.now members.old (pairs (members_of others.now))) }
{
    for other in others {
        put_other(alloc, members, path, other)?;
    }
    Ok(())
}

/// What is wanted of a value without the member that a path of one name names.
fn beside_part(alloc: Global, path: &str, wanted: Json) -> Result<Json, AllocError>
    ensures { IfOk result (λ v. data_of v ≡ beside_part path.now (data_of wanted)) }
{
    match wanted.into_members() {
        Ok(own) => {
            let mut members = Members::new(alloc);
            put_others(alloc, &mut members, path, own.members())?;
            Ok(Json::Dict(members))
        }
        Err(other) => Ok(other),
    }
}

/// What is wanted of a value beside the part that a path names: nothing beside the whole; a path of several names leaves all.
pub(crate) fn beside(alloc: Global, path: &str, wanted: Json) -> Result<Json, AllocError>
    ensures { IfOk result (λ v. data_of v ≡ beside path.now (data_of wanted)) }
{
    if path == "$" {
        return anything(alloc);
    }
    beside_part(alloc, path, wanted)
}
