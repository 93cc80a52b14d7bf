// Calls that fail whatever the input and the Context Object are.
ghost use Rattle.std.specs.Prelude.{◌≡◌, IfOk, IfSome, map, option_map};
ghost use Rattle.asl_intrinsic.specs.Values.{ev};
ghost use Rattle.asl_lint_calls.specs.Known.{known};
ghost use Rattle.asl_lint_calls.specs.Reading.{read_quoted, read_path, read_constant, read_argument, read_arguments, read_call};
ghost use Rattle.asl_lint_calls.specs.Failing.{failing, AlwaysFails};
ghost use Rattle.asl_lint_calls.specs.private.View.{seen, all_seen, failure_known};
ghost use Rattle.asl_lint_calls.specs.private.Views.{texts};

use crate::cutting::{arguments, head, trimmed};
use crate::failure::Failure;
use crate::known::{Known, known_call};
use crate::leaf::{constant_value, first_is, inner_text, is_path};
use asl_intrinsic_functions::meaning;
use asl_json::{Json, Txt};
use std::alloc::{AllocError, Global};

/// How many calls may stand in one another.
const MAX_CALLS: usize = 10;

/// What is known of a text between apostrophes.
fn quoted<'a>(alloc: Global, piece: &'a str) -> Result<Option<Known<'a>>, AllocError>
    ensures { IfOk result (λ o. option_map seen o ≡ option_map known (read_quoted piece.now)) }
{
    let Some(written) = inner_text(piece) else {
        return Ok(None);
    };
    let value = Json::Text(Txt::new(meaning(alloc, written)?));
    Ok(Some(Known::Value(Some(written), value)))
}

/// What is known of a path: nothing.
fn path<'a>(alloc: Global, piece: &str) -> Result<Option<Known<'a>>, AllocError>
    ensures { IfOk result (λ o. option_map seen o ≡ option_map known (read_path piece.now)) }
{
    if is_path(alloc, piece)? {
        Ok(Some(Known::Any))
    } else {
        Ok(None)
    }
}

/// What is known of null, a truth value or a number.
fn constant<'a>(alloc: Global, piece: &str) -> Result<Option<Known<'a>>, AllocError>
    ensures { IfOk result (λ o. option_map seen o ≡ option_map known (read_constant piece.now)) }
{
    match constant_value(alloc, piece)? {
        Some(value) => Ok(Some(Known::Value(None, value))),
        None => Ok(None),
    }
}

/// What is known of an argument; none where a text is no argument. So many calls may stand in one another in it.
#[cycle(calling)]
fn argument<'a>(
    alloc: Global,
    levels: usize,
    piece: &'a str,
) -> Result<Option<Known<'a>>, AllocError>
    ensures { IfOk result (λ o. option_map seen o ≡ option_map known (read_argument levels piece.now)) }
{
    if first_is(b'\'', piece) {
        quoted(alloc, piece)
    } else if first_is(b'$', piece) {
        path(alloc, piece)
    } else if first_is(b'S', piece) {
        call(alloc, levels, piece)
    } else {
        constant(alloc, piece)
    }
}

#[cycle(calling)]
fn all_arguments<'a>(
    alloc: Global,
    levels: usize,
    pieces: &[&'a str],
) -> Result<Option<Vec<Known<'a>>>, AllocError>
    ensures { IfOk result (λ o. option_map (λ v. all_seen v.items) o
        ≡ option_map (map known) (read_arguments levels (texts pieces.now))) }
{
    let mut found = Vec::new(alloc);
    for piece in pieces {
        match argument(alloc, levels, trimmed(*piece))? {
            Some(known) => found.push(known)?,
            None => return Ok(None),
        }
    }
    Ok(Some(found))
}

/// What is known of a call; none where a text is no call of so many in one another.
#[cycle(calling)]
fn call<'a>(alloc: Global, levels: usize, text: &'a str) -> Result<Option<Known<'a>>, AllocError>
    ensures { IfOk result (λ o. option_map seen o ≡ option_map known (read_call levels text.now)) }
{
    if levels == 0 {
        return Ok(None);
    }
    let Some((function, inside)) = head(text) else {
        return Ok(None);
    };
    let Some(pieces) = arguments(alloc, inside)? else {
        return Ok(None);
    };
    let Some(known) = all_arguments(alloc, levels - 1, &pieces)? else {
        return Ok(None);
    };
    if !function.takes(known.len()) {
        return Ok(None);
    }
    Ok(Some(known_call(alloc, function, &known)?))
}

/// Why a text has no value, where that is known.
fn failure_known(known: &Option<Known<'_>>) -> Option<Failure>
    ensures { result ≡ failure_known (option_map seen known.now) }
{
    match known {
        Some(Known::Never(failure)) => Some(*failure),
        _ => None,
    }
}

/// Why a text that is a call has no value on any input and any Context Object, where its constant arguments decide that. The error is that
/// memory ran out.
pub fn failing(alloc: Global, text: &str) -> Result<Option<Failure>, AllocError>
    ensures told { IfOk result (λ o. o ≡ failing text.now) }
    // The value of such a text is a fault, on each input and each Context Object.
    ensures sound { IfOk result (λ o. IfSome o (λ _. AlwaysFails text.now)) }
{
    let known = call(alloc, MAX_CALLS, text)?;
    Ok(failure_known(&known))
}
