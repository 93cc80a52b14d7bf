// What templates want of their input.
ghost use Rattle.std.specs.Prelude.{◌≡◌, ◌∷◌, ◌++◌, [], IfOk, map, option_map, ◌==◌};
ghost use Rattle.std.specs.List.{slice_split, before_first};
ghost use Rattle.asl_json_data.specs.Data as Data;
ghost use Rattle.asl_json_data.specs.Data.{chain, pairs};
ghost use Rattle.asl_json.specs.View.{data_of, items_of, members_of};
ghost use Rattle.asl_template.specs.Names.{name_before};
ghost use Rattle.asl_mock_sample.specs.Merging.{anything};
ghost use Rattle.asl_mock_sample.specs.Texts.{cut};
ghost use Rattle.asl_mock_sample.specs.Templates.{one, before_closing, argument_by, arguments_wants, argument_of, call_wants, text_wants, value_wants, at_key, member_wants, through, through_members, through_items};

use crate::merging::{anything, both, or_anything};
use crate::paths::{nth_item, path_wants};
use crate::texts::{begins, cut};
use asl_json::{Dec, Items, Json, Member, Members, Txt};
use asl_template::{is_path, name_before};
use std::alloc::{AllocError, Global};

/// The number one, where a number is wanted.
pub(crate) fn one() -> Json
    ensures { data_of result ≡ one }
{
    Json::Num(Dec::of_whole(1))
}

/// What stands before the first closing parenthesis; where there is none, all.
fn before_closing(text: &str) -> &str
    ensures { result.now ≡ before_closing (cut 41 text.now) text.now }
{
    match cut(text, ')') {
        Some((front, _)) => front,
        None => text,
    }
}

/// What an argument of a call wants: it is a path where it has a dollar sign, from there on.
fn argument_wants(
    alloc: Global,
    root: &str,
    leaf: &Json,
    argument: &str,
) -> Result<Json, AllocError>
    ensures { IfOk result (λ v. data_of v
        ≡ argument_by root.now (data_of leaf.now) (cut 36 argument.now)) }
{
    let Some((_, behind)) = cut(argument, '$') else {
        return anything(alloc);
    };
    let mut path = String::from_str(alloc, "$")?;
    path.push_str(before_closing(behind))?;
    path_wants(alloc, root, path.as_str(), leaf)
}

/// The parts of a text between its commas.
fn parts(alloc: Global, text: &str) -> Result<Vec<&str>, AllocError>
    ensures { IfOk result (λ v. map (λ t. t.now) v.items ≡ slice_split (λ b. b == 44) text.now) }
{
    text.split(',').collect(alloc)
}

/// What arguments want, each of which this is wanted of.
fn arguments_wants(
    alloc: Global,
    root: &str,
    leaf: &Json,
    arguments: &[&str],
) -> Result<Json, AllocError>
    ensures { IfOk result (λ v. data_of v
        ≡ arguments_wants root.now (data_of leaf.now) anything (map (λ t. t.now) arguments.now)) }
{
    let mut wants = anything(alloc)?;
    for argument in arguments {
        let more = argument_wants(alloc, root, leaf, argument)?;
        wants = both(alloc, wants, &more)?;
    }
    Ok(wants)
}

/// What an intrinsic function takes: numbers, a list, a JSON text, or any text.
fn argument_of(alloc: Global, call: &str) -> Result<Json, AllocError>
    ensures { IfOk result (λ v. data_of v ≡ argument_of call.now) }
{
    if begins(call, "States.Math") {
        Ok(one())
    } else if begins(call, "States.StringToJson") {
        Ok(Json::Text(Txt::of(alloc, "{}")?))
    } else if begins(call, "States.Array(") {
        anything(alloc)
    } else if begins(call, "States.Array") {
        nth_item(alloc, 0, anything(alloc)?)
    } else {
        anything(alloc)
    }
}

/// What a call of intrinsic functions wants.
fn call_wants(alloc: Global, root: &str, call: &str) -> Result<Json, AllocError>
    ensures { IfOk result (λ v. data_of v ≡ call_wants root.now call.now) }
{
    let leaf = argument_of(alloc, call)?;
    let arguments = parts(alloc, call)?;
    arguments_wants(alloc, root, &leaf, &arguments)
}

/// What a path or a call wants, where this is wanted of the value that it gives.
fn text_wants(alloc: Global, root: &str, text: &str, wanted: &Json) -> Result<Json, AllocError>
    ensures { IfOk result (λ v. data_of v ≡ text_wants root.now text.now (data_of wanted.now)) }
{
    if is_path(text) {
        path_wants(alloc, root, text, wanted)
    } else {
        call_wants(alloc, root, text)
    }
}

/// The same of the text that a value is.
pub(crate) fn value_wants(
    alloc: Global,
    root: &str,
    value: &Json,
    wanted: &Json,
) -> Result<Json, AllocError>
    ensures { IfOk result (λ v. data_of v
        ≡ value_wants root.now (data_of value.now) (data_of wanted.now)) }
{
    match value {
        Json::Text(text) => text_wants(alloc, root, text.as_str(), wanted),
        _ => anything(alloc),
    }
}

/// What is wanted of the member of this key.
fn at_key(alloc: Global, key: &str, wanted: &Json) -> Result<Json, AllocError>
    ensures { IfOk result (λ v. data_of v ≡ at_key key.now (data_of wanted.now)) }
{
    or_anything(alloc, wanted.get(key))
}

/// What a template wants of a root, where this is wanted of the value that it gives.
#[cycle(through)]
pub(crate) fn through(
    alloc: Global,
    root: &str,
    template: &Json,
    wanted: &Json,
) -> Result<Json, AllocError>
    ensures { IfOk result (λ v. data_of v
        ≡ through root.now (data_of template.now) (data_of wanted.now)) }
{
    match template {
        Json::Dict(members) => through_members(alloc, root, members, wanted),
        Json::List(items) => through_items(alloc, root, items),
        _ => anything(alloc),
    }
}

#[cycle(through)]
fn through_members(
    alloc: Global,
    root: &str,
    members: &Members,
    wanted: &Json,
) -> Result<Json, AllocError>
    ensures { IfOk result (λ v. data_of v
        ≡ through_members root.now anything (pairs members.now) (data_of wanted.now)) }
{
    let mut wants = anything(alloc)?;
    for member in members.members() {
        let more = through_member(alloc, root, member, wanted)?;
        wants = both(alloc, wants, &more)?;
    }
    Ok(wants)
}

#[cycle(through)]
fn through_member(
    alloc: Global,
    root: &str,
    member: &Member,
    wanted: &Json,
) -> Result<Json, AllocError>
    ensures { IfOk result (λ v. data_of v
        ≡ member_wants root.now (name_before member.now.key) (data_of member.now.value)
        (data_of wanted.now)
        (through root.now (data_of member.now.value) (at_key member.now.key (data_of wanted.now)))) }
{
    let key = member.key.as_str();
    match name_before(key) {
        Some(name) => {
            let part = at_key(alloc, name, wanted)?;
            value_wants(alloc, root, &member.value, &part)
        }
        None => {
            let part = at_key(alloc, key, wanted)?;
            through(alloc, root, &member.value, &part)
        }
    }
}

#[cycle(through)]
fn through_items(alloc: Global, root: &str, items: &Items) -> Result<Json, AllocError>
    ensures { IfOk result (λ v. data_of v ≡ through_items root.now anything (chain items.now)) }
{
    let mut wants = anything(alloc)?;
    for item in items.values() {
        let part = anything(alloc)?;
        let more = through(alloc, root, item, &part)?;
        wants = both(alloc, wants, &more)?;
    }
    Ok(wants)
}
