// Members that exclude each other.
use crate::nouns::noun;
use crate::object::Object;
use crate::quoting::{put_key, put_name, put_separator, put_words};
use crate::standing::Standing;
use asl_def_schema::{Group, Sort, is_among, shape_in};
use asl_json::{Json, Member};
use std::alloc::{AllocError, Global};

/// The most names of a group that are told one by one.
const TOLD: usize = 6;

fn is_in(group: &Group, name: &str) -> bool {
    is_among(name, group.names) || is_among(name, group.more)
}

/// Whether a member counts in a group: a false `End` counts as absent.
fn counts(group: &Group, member: &Member) -> bool {
    let key = member.key.as_str();
    is_in(group, key) && (key != "End" || matches!(member.value, Json::Bool(true)))
}

/// The member before one of this key that excludes it by these groups.
fn rival_in<'a>(groups: &[Group], members: &'a [Member], key: &str) -> Option<&'a str> {
    for group in groups {
        if is_in(group, key) {
            if let Some(name) = first_in(group, members, key) {
                return Some(name);
            }
        }
    }
    None
}

/// The same in an object that isn't of a template.
fn rival<'a>(standing: &Standing<'a>) -> Option<&'a str> {
    match standing.around {
        Some(object) => rival_in(object.shape.groups, object.members, standing.key),
        None => None,
    }
}

/// The first of these members that counts in a group, before that of a key.
fn first_in<'a>(group: &Group, members: &'a [Member], key: &str) -> Option<&'a str> {
    for member in members {
        let name = member.key.as_str();
        if name == key {
            return None;
        }
        if counts(group, member) {
            return Some(name);
        }
    }
    None
}

/// Appends the member of a template that gives the same as one of this key: the one without the `.$` behind it, or with it.
fn put_twin(
    alloc: Global,
    out: &mut String,
    object: &Object<'_>,
    key: &str,
) -> Result<(), AllocError> {
    if let Some(bare) = key.strip_suffix(".$") {
        if object.keys.contains(bare) {
            return put_key(out, bare);
        }
    }
    let mut computed = String::from_str(alloc, key)?;
    computed.push_str(".$")?;
    put_key(out, computed.as_str())
}

/// Appends the member before one that excludes it.
fn put_rival(alloc: Global, out: &mut String, standing: &Standing<'_>) -> Result<(), AllocError> {
    match standing.around {
        Some(object) if object.sort == Sort::Template => put_twin(alloc, out, object, standing.key),
        _ => match rival(standing) {
            Some(name) => put_key(out, name),
            None => out.push_str("a member before it"),
        },
    }
}

/// Appends which two members exclude each other.
pub(crate) fn put_both(
    alloc: Global,
    out: &mut String,
    standing: &Standing<'_>,
) -> Result<(), AllocError> {
    put_key(out, standing.key)?;
    out.push_str(" can't stand beside ")?;
    put_rival(alloc, out, standing)?;
    out.push_str(": ")?;
    if standing.object_sort() == Sort::Template {
        return out.push_str("both give the same member of what the template makes");
    }
    out.push_str(standing.object_noun())?;
    match standing.object_sort() {
        Sort::Rule | Sort::InnerRule => put_rule_choice(out, standing.key),
        _ => out.push_str(" has one of them at most"),
    }
}

fn put_rule_choice(out: &mut String, key: &str) -> Result<(), AllocError> {
    if key == "Variable" {
        return out.push_str(" has a Variable only beside a test of its own");
    }
    out.push_str(" has one test, as StringEquals, or one of And, Or and Not")
}

/// The group of this number, among those of which no member is there.
fn undecided<'a>(groups: &'a [Group], members: &[Member], number: usize) -> Option<&'a Group> {
    let mut left = number;
    for group in groups {
        if group.exact && !members.iter().any(|member| counts(group, member)) {
            if left == 0 {
                return Some(group);
            }
            left = left.saturating_sub(1);
        }
    }
    None
}

fn put_member(out: &mut String, name: &str) -> Result<(), AllocError> {
    if name == "End" {
        return out.push_str("\"End\": true");
    }
    out.push_str(name)
}

fn put_members(out: &mut String, names: &[&str]) -> Result<(), AllocError> {
    for (number, name) in names.iter().enumerate() {
        put_separator(out, number, names.len())?;
        put_member(out, name)?;
    }
    Ok(())
}

fn put_choice(out: &mut String, group: &Group) -> Result<(), AllocError> {
    if group.names.len() > TOLD {
        out.push_str(" needs a test, as StringEquals, or one of ")?;
        return put_words(out, group.more);
    }
    out.push_str(" needs one of ")?;
    put_members(out, group.names)
}

/// Appends which members are missing of which one has to be there; of several groups that of this number.
pub(crate) fn put_neither(
    out: &mut String,
    standing: &Standing<'_>,
    number: usize,
) -> Result<(), AllocError> {
    let members = standing.members();
    out.push_str(noun(standing.sort, members))?;
    let shape = shape_in(standing.sort, members);
    match undecided(shape.groups, members, number) {
        Some(group) => put_choice(out, group)?,
        None => out.push_str(" lacks a member")?,
    }
    if standing.sort != Sort::State {
        return out.push_str(", and this one has none");
    }
    out.push_str(", and ")?;
    put_name(out, standing.key)?;
    out.push_str(" has none")
}
