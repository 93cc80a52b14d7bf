// Responses: the answers to a state by number.
ghost use Rattle.std.specs.Prelude.{◌≡◌, IfOk, option_map};
ghost use Rattle.asl_json.specs.View.{data_of};
ghost use Rattle.asl_mock.specs.Answers.{text_of, thrown, answer_of};

use crate::key::Span;
use asl_json::{Json, Txt};
use std::alloc::{AllocError, Global};

/// What a task answers.
pub enum Answer {
    /// It succeeds with this value.
    Returns(Json),
    /// It fails with this error.
    Throws { error: Txt, cause: Option<Txt> },
}

impl Drop for Answer {
    fn drop(self) {
        match self {
            Answer::Returns(_value) => {}
            Answer::Throws {
                error: _error,
                cause: _cause,
            } => {}
        }
    }
}

impl PartialEq for Answer {
    ghost use Rattle.asl_mock.specs.Equal.{answer_equal};
    ghost use Rattle.asl_mock.specs.private.EqualLaws.{answer_laws};

    ghost eq = { answer_equal };

    ghost laws = { answer_laws };

    fn eq(&self, other: &Answer) -> bool {
        match self {
            Answer::Returns(value) => match other {
                Answer::Returns(its) => value == its,
                Answer::Throws { .. } => false,
            },
            Answer::Throws { error, cause } => match other {
                Answer::Returns(_) => false,
                Answer::Throws {
                    error: its,
                    cause: its_cause,
                } => error == its && cause == its_cause,
            },
        }
    }
}

impl Eq for Answer {
    ghost use Rattle.asl_mock.specs.private.EqualLaws.{answer_equivalence};

    ghost laws = { answer_equivalence };
}

impl Answer {
    /// A copy. The error is that memory ran out.
    pub fn duplicate(&self, alloc: Global) -> Result<Answer, AllocError>
        ensures { IfOk result (λ a. a ≡ self.now) }
    {
        match self {
            Answer::Returns(value) => Ok(Answer::Returns(value.try_clone(alloc)?)),
            Answer::Throws { error, cause } => Ok(Answer::Throws {
                error: error.try_clone(alloc)?,
                cause: copied(alloc, cause.as_ref())?,
            }),
        }
    }
}

/// A copy of a text, where there is one. The error is that memory ran out.
fn copied(alloc: Global, text: Option<&Txt>) -> Result<Option<Txt>, AllocError>
    ensures { IfOk result (λ t. t ≡ option_map (λ s. s.now) text.entry) }
{
    match text {
        Some(text) => Ok(Some(text.try_clone(alloc)?)),
        None => Ok(None),
    }
}

/// An answer and the numbers that it is for.
#[derive(Drop)]
pub struct Ranged {
    pub span: Span,
    pub answer: Answer,
}

impl PartialEq for Ranged {
    ghost use Rattle.asl_mock.specs.Equal.{ranged_equal};
    ghost use Rattle.asl_mock.specs.private.EqualLaws.{ranged_laws};

    ghost eq = { ranged_equal };

    ghost laws = { ranged_laws };

    fn eq(&self, other: &Ranged) -> bool {
        self.span.low == other.span.low
            && self.span.high == other.span.high
            && self.answer == other.answer
    }
}

impl Eq for Ranged {
    ghost use Rattle.asl_mock.specs.private.EqualLaws.{ranged_equivalence};

    ghost laws = { ranged_equivalence };
}

/// A copy of a text; of any other value an empty one. The error is that memory ran out.
fn text_of(alloc: Global, value: Option<&Json>) -> Result<Txt, AllocError>
    ensures { IfOk result (λ t. t ≡ text_of (option_map (λ v. data_of v.now) value.entry)) }
{
    match value {
        Some(Json::Text(text)) => text.try_clone(alloc),
        _ => Ok(Txt::new(String::new(alloc))),
    }
}

/// The error of a `Throw`. The error of this call is that memory ran out.
fn thrown(alloc: Global, value: Option<&Json>) -> Result<Answer, AllocError>
    ensures { IfOk result (λ a. a ≡ thrown (option_map (λ v. data_of v.now) value.entry)) }
{
    let Some(value) = value else {
        let error = Txt::new(String::new(alloc));
        return Ok(Answer::Throws { error, cause: None });
    };
    let error = text_of(alloc, value.get("Error"))?;
    let cause = match value.get("Cause") {
        Some(cause) => Some(text_of(alloc, Some(cause))?),
        None => None,
    };
    Ok(Answer::Throws { error, cause })
}

/// The answer that a value spells. The error is that memory ran out.
pub(crate) fn answer_of(alloc: Global, value: &Json) -> Result<Answer, AllocError>
    ensures { IfOk result (λ a. a ≡ answer_of (data_of value.now)) }
{
    match value.get("Return") {
        Some(value) => Ok(Answer::Returns(value.try_clone(alloc)?)),
        None => thrown(alloc, value.get("Throw")),
    }
}
