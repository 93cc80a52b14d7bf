// What is told.
ghost use Rattle.std.specs.Prelude.{◌≡◌, true, IfOk, string_bytes};
ghost use Rattle.asl_lint.specs.Told.{has_some, is_told};

use crate::rule::Rule;
use asl_json_spans::{Position, Span};
use std::alloc::AllocError;

/// A finding that isn't placed yet: its place is the numbers of members and items, from the outermost value in.
#[derive(Drop)]
pub struct Found {
    pub rule: Rule,
    pub place: Vec<usize>,
    pub message: String,
    /// The message was made for this rule at this place.
    pub ghost told: { is_told rule place.items (string_bytes message) ≡ true },
}

/// Something that is wrong or suspicious, and where it stands in its file.
#[derive(Drop)]
pub struct Finding {
    pub rule: Rule,
    /// The numbers of the members and items on the way to its place, from the outermost in.
    pub place: Vec<usize>,
    /// Where it begins and ends, in bytes.
    pub span: Span,
    /// The line and the column where it begins.
    pub position: Position,
    /// One sentence, on one line.
    pub message: String,
    /// The message was made for this rule at this place.
    pub ghost told: { is_told rule place.items (string_bytes message) ≡ true },
}

fn has_some(bytes: &[u8]) -> bool
    ensures { result ≡ has_some bytes.now }
{
    match bytes {
        [] => false,
        _ => true,
    }
}

/// These words; where there are none, the sentence of the rule. So no message is empty. The error is that memory ran out.
#[tactic(auto, using(crate::proofs::Sentences::says, crate::proofs::Sentences::says_behind))]
pub(crate) fn said(rule: Rule, words: String) -> Result<String, AllocError>
    ensures { IfOk result (λ t. has_some (string_bytes t) ≡ true) }
{
    if has_some(words.as_bytes()) {
        return Ok(words);
    }
    let mut words = words;
    words.push_str(rule.sentence())?;
    Ok(words)
}
