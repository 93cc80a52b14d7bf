// What a rule asks, apart from what it is called and where it leads.
ghost use Rattle.std.specs.Prelude.{◌≡◌, ◌++◌, IfOk, OnOk, string_bytes};
ghost use Rattle.asl_json_data.specs.Compact.{compact, quoted};
ghost use Rattle.asl_json_data.specs.Data.{pairs};
ghost use Rattle.asl_json.specs.Same.{equal_members};
ghost use Rattle.asl_json.specs.View.{data_of};
ghost use Rattle.asl_lint_choices.specs.Conditions.{is_aside, condition};
ghost use Rattle.asl_lint_choices.specs.View.{asked, lent};
ghost use Rattle.asl_lint_choices.specs.private.Texts.{text_of};

use asl_json::{Json, Member};
use asl_json_write::{put, put_quoted};
use std::alloc::{AllocError, Global};

/// The members of a rule that say when it holds.
#[derive(Drop)]
pub(crate) struct Condition<'a> {
    pub(crate) members: Vec<&'a Member>,
}

/// Whether a member doesn't say when the rule holds.
pub(crate) fn is_aside(key: &str) -> bool
    ensures { result ≡ is_aside key.now }
{
    key == "Next" || key == "Comment"
}

/// What a rule asks; of any other value, nothing. The error is that memory ran out.
pub(crate) fn condition_of<'a>(alloc: Global, rule: &'a Json) -> Result<Condition<'a>, AllocError>
    ensures { IfOk result (λ c. asked c ≡ condition (data_of rule.now)) }
{
    let mut members = Vec::new(alloc);
    for member in rule.members() {
        if !is_aside(member.key.as_str()) {
            members.push(member)?;
        }
    }
    Ok(Condition { members })
}

/// Whether these members are the same, values and their spelling included.
fn are_same(some: &[&Member], others: &[&Member]) -> bool
    ensures { result ≡ equal_members (pairs (lent some.now)) (pairs (lent others.now)) }
{
    match some {
        [] => match others {
            [] => true,
            [_, ..] => false,
        },
        [first, rest @ ..] => match others {
            [] => false,
            [other, behind @ ..] => {
                first.key == other.key && first.value == other.value && are_same(rest, behind)
            }
        },
    }
}

/// Appends a key and its value.
fn put_member(out: &mut String, member: &Member) -> Result<(), AllocError>
    ensures { OnOk result (string_bytes out.new
        ≡ string_bytes out.old ++ (quoted member.now.key ++ compact (data_of member.now.value))) }
{
    put_quoted(out, member.key.as_str())?;
    put(out, &member.value)?;
    Ok(())
}

impl Condition<'_> {
    /// Its members on one line, by which it is looked up: two that are the same have the same text. The error is that memory ran out.
    pub(crate) fn text(&self, alloc: Global) -> Result<String, AllocError>
        ensures { IfOk result (λ t. string_bytes t ≡ text_of (asked self.now)) }
    {
        let mut out = String::new(alloc);
        for member in &self.members {
            put_member(&mut out, member)?;
        }
        Ok(out)
    }

    /// Whether both are the same, member by member.
    pub(crate) fn is_same(&self, other: &Condition<'_>) -> bool
        ensures { result ≡ equal_members (pairs (asked self.now)) (pairs (asked other.now)) }
    {
        are_same(&self.members, &other.members)
    }
}
