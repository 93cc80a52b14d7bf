// Whether delays before retries are made random.
use crate::compiled::{Compile, Compiled};
use asl_json::{Json, Txt};
use std::alloc::{AllocError, Global};

/// The `JitterStrategy` of a retrier, which has no effect here: an execution is the same whenever it is run. (Amazon States
/// Language, "Retrying after error".)
#[derive(Clone, Copy, Debug, PartialEq, Eq)]
pub enum JitterStrategy {
    /// `FULL`.
    Full,
    /// `NONE`.
    None,
}

impl Compiled for JitterStrategy {
    ghost use Rattle.asl_def_fields.specs.Shown.{jitter_shown};

    ghost shown = { jitter_shown };

    fn json(&self, alloc: Global) -> Result<Json, AllocError> {
        let text = match self {
            JitterStrategy::Full => "FULL",
            JitterStrategy::None => "NONE",
        };
        Ok(Json::Text(Txt::of(alloc, text)?))
    }
}

impl Compile for JitterStrategy {
    ghost use Rattle.asl_def_fields.specs.Readable.{IsJitter};

    ghost Fits = { IsJitter };

    fn read(_alloc: Global, value: &Json) -> Result<JitterStrategy, AllocError> {
        let Json::Text(text) = value else {
            unreachable!();
        };
        match text.as_str() {
            "FULL" => Ok(JitterStrategy::Full),
            "NONE" => Ok(JitterStrategy::None),
            _ => unreachable!(),
        }
    }
}
