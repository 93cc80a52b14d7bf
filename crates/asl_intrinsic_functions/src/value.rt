// The values of arguments.
ghost use Rattle.std.specs.Prelude.{◌≡◌, Ok};
ghost use Rattle.asl_json.specs.View.{data_of};
ghost use Rattle.asl_intrinsic_functions.specs.Gives.{Gives};
ghost use Rattle.asl_intrinsic_functions.specs.Seen.{seen};

use crate::fault::EvalFault;
use asl_json::Json;
use std::alloc::Global;

/// The value of an argument: a part of what it was evaluated on, or a new one.
#[derive(Drop)]
pub enum Value<'a> {
    /// A part of the input, of the context or of the call.
    Lent(&'a Json),
    /// A new value.
    Made(Json),
}

impl<'a> Value<'a> {
    /// The value.
    pub fn json(&self) -> &Json
        ensures { data_of result.now ≡ seen self.now }
    {
        match self {
            Value::Lent(value) => *value,
            Value::Made(value) => value,
        }
    }

    /// A value of its own that is equal to it.
    pub(crate) fn copied(&self, alloc: Global) -> Result<Json, EvalFault>
        ensures { Gives data_of (Ok (seen self.now)) result }
    {
        Ok(self.json().try_clone(alloc)?)
    }

    /// Makes an owned value: a lent part is copied. The error is that memory ran out.
    pub fn into_json(self, alloc: Global) -> Result<Json, EvalFault>
        ensures { Gives data_of (Ok (seen self.entry)) result }
    {
        match self {
            Value::Lent(value) => Ok(value.try_clone(alloc)?),
            Value::Made(value) => Ok(value),
        }
    }
}
