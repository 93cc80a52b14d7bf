// What all compiled members have in common. In each call the error is that memory ran out.
ghost use Rattle.std.specs.Prelude.{◌≡◌, IfOk, IfSome, option_map};
ghost use Rattle.asl_json.specs.View.{data_of};

use asl_json::Json;
use std::alloc::{AllocError, Global};

/// A value of a definition, compiled.
pub trait Compiled: Drop {
    ghost use Rattle.asl_json_data.specs.Data.{Data};

    /// The value that it shows.
    ghost shown: { Self → Data };

    /// The value that it shows, as JSON.
    fn json(&self, alloc: Global) -> Result<Json, AllocError>
        ensures { IfOk result (λ j. data_of j ≡ shown self.now) };
}

/// What is compiled from a value by itself, and shows it as it was.
pub trait Compile: Compiled {
    ghost use Rattle.asl_json_data.specs.Data.{Data};

    /// The values that it can be compiled from.
    ghost Fits: { Data → Type 0 };

    /// Compiles a value.
    fn read(alloc: Global, value: &Json) -> Result<Self, AllocError>
        requires { Fits (data_of value.now) }
        ensures { IfOk result (λ x. Self.shown x ≡ data_of value.now) };
}

/// Compiles the value of a member, where it is there.
pub fn read_optional<T: Compile>(
    alloc: Global,
    value: Option<&Json>,
) -> Result<Option<T>, AllocError>
    requires { IfSome (option_map (λ v. data_of v.now) value) T.Fits }
    ensures { IfOk result (λ x. option_map T.shown x
        ≡ option_map (λ v. data_of v.now) value.entry) }
{
    match value {
        Some(value) => Ok(Some(T::read(alloc, value)?)),
        None => Ok(None),
    }
}

/// The value that it shows as JSON, where it is there.
pub fn json_optional<T: Compiled>(
    alloc: Global,
    value: &Option<T>,
) -> Result<Option<Json>, AllocError>
    ensures { IfOk result (λ j. option_map data_of j ≡ option_map T.shown value.now) }
{
    match value {
        Some(value) => Ok(Some(value.json(alloc)?)),
        None => Ok(None),
    }
}
