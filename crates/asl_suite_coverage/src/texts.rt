// What is told of points. Names are JSON texts, so a line stays a line.
ghost use Rattle.std.specs.Prelude.{◌≡◌, ◌++◌, IfOk, OnOk, codes, string_bytes};
ghost use Rattle.asl_json_data.specs.Compact.{quoted};
ghost use Rattle.asl_suite_coverage.specs.Listed.{named, leading, numbered, answering};

use asl_json_write::put_quoted;
use asl_text::put_decimal;
use std::alloc::{AllocError, Global};

/// Appends a word, and a name behind it.
fn put_behind(out: &mut String, word: &str, name: &str) -> Result<(), AllocError>
    ensures { OnOk result (string_bytes out.new
        ≡ string_bytes out.old ++ (word.now ++ quoted name.now)) }
{
    out.push_str(word)?;
    put_quoted(out, name)
}

/// A word, and a name behind it, as `state "A"`. The error is that memory ran out.
#[tactic(auto, unfolding(crate::specs::Listed::named))]
pub(crate) fn named(alloc: Global, word: &str, name: &str) -> Result<String, AllocError>
    ensures { IfOk result (λ t. string_bytes t ≡ named word.now name.now) }
{
    let mut text = String::from_str(alloc, word)?;
    text.push(' ')?;
    put_quoted(&mut text, name)?;
    Ok(text)
}

/// A text with the state that it leads to, as `transition "A" -> "B"`. The error is that memory ran out.
#[tactic(auto, unfolding(crate::specs::Listed::leading))]
pub(crate) fn leading(text: String, target: &str) -> Result<String, AllocError>
    ensures { IfOk result (λ t. string_bytes t ≡ leading (string_bytes text) target.now) }
{
    let mut text = text;
    put_behind(&mut text, " -> ", target)?;
    Ok(text)
}

/// Something of a state by its number, as `retrier 1 of "T"`. The error is that memory ran out.
#[tactic(auto, unfolding(crate::specs::Listed::numbered))]
pub(crate) fn numbered(
    alloc: Global,
    word: &str,
    number: usize,
    state: &str,
) -> Result<String, AllocError>
    ensures { IfOk result (λ t. string_bytes t ≡ numbered word.now number state.now) }
{
    let mut text = String::from_str(alloc, word)?;
    text.push(' ')?;
    put_decimal(&mut text, number as u64)?;
    put_behind(&mut text, " of ", state)?;
    Ok(text)
}

/// An answer by its key, as `answer "0-1" of response "R"`. The error is that memory ran out.
#[tactic(auto, unfolding(crate::specs::Listed::answering))]
pub(crate) fn answering(alloc: Global, key: &str, response: &str) -> Result<String, AllocError>
    ensures { IfOk result (λ t. string_bytes t ≡ answering key.now response.now) }
{
    let mut text = named(alloc, "answer", key)?;
    put_behind(&mut text, " of response ", response)?;
    Ok(text)
}
