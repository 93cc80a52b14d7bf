// `States.StringSplit`.
ghost use Rattle.std.specs.Prelude.{◌≡◌, ◌++◌, List, ℕ, Ok, [], IfOk, IfErr, OnOk, nat_eq, string_bytes};
ghost use Rattle.std.specs.HashSet.{contains};
ghost use Rattle.std.specs.Str.{chars};
ghost use Rattle.asl_json.specs.View.{data_of, items_of};
ghost use Rattle.asl_intrinsic_functions.specs.Gives.{Gives};
ghost use Rattle.asl_intrinsic_functions.specs.Texts.{unless_empty, is_among, between, texts_of, string_split};

use crate::convert::text;
use crate::fault::EvalFault;
use crate::letter::next_char;
use asl_json::{Items, Json, Txt};
use std::alloc::Global;
use std::collections::HashSet;
use std::mem::replace;

/// The characters of a text.
fn char_set(alloc: Global, text: &str) -> Result<HashSet<char>, EvalFault>
    ensures chars { IfOk result (λ s. (c : ℕ) → contains nat_eq s c ≡ is_among c (chars text.now)) }
    ensures memory { IfErr result (λ e. e ≡ EvalFault.OutOfMemory) }
{
    let mut set = HashSet::new(alloc);
    let mut rest = text;
    while let Some((character, behind)) = next_char(rest) {
        set.insert(character)?;
        rest = behind;
    }
    Ok(set)
}

/// Adds a piece, where it isn't empty.
fn end_piece(pieces: &mut Vec<Json>, piece: String) -> Result<(), EvalFault>
    ensures pieces { OnOk result (items_of pieces.new.items
        ≡ items_of pieces.old.items ++ unless_empty (string_bytes piece)) }
    ensures memory { IfErr result (λ e. e ≡ EvalFault.OutOfMemory) }
{
    if !piece.is_empty() {
        pieces.push(Json::Text(Txt::new(piece)))?;
    }
    Ok(())
}

/// The pieces of a text between separators.
fn split(alloc: Global, text: &str, separators: &HashSet<char>) -> Result<Vec<Json>, EvalFault>
    ensures pieces { (cs : List ℕ) → ((c : ℕ) → contains nat_eq separators.now c ≡ is_among c cs)
        → Gives (λ v. items_of v.items) (Ok (texts_of (between cs (chars text.now)))) result }
{
    let mut pieces = Vec::new(alloc);
    let mut piece = String::new(alloc);
    let mut rest = text;
    while let Some((character, behind)) = next_char(rest) {
        if separators.contains(&character) {
            end_piece(&mut pieces, replace(&mut piece, String::new(alloc)))?;
        } else {
            piece.push(character)?;
        }
        rest = behind;
    }
    end_piece(&mut pieces, piece)?;
    Ok(pieces)
}

/// `States.StringSplit`
pub(crate) fn string_split(
    alloc: Global,
    value: &Json,
    separators: &Json,
) -> Result<Json, EvalFault>
    ensures { Gives data_of (string_split (data_of value.now) (data_of separators.now)) result }
{
    let text_value = text(value)?;
    let separators = char_set(alloc, text(separators)?)?;
    Ok(Json::List(Items::of_values(split(alloc, text_value, &separators)?)))
}
