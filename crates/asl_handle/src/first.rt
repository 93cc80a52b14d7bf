// The first retrier or catcher that is for an error.
ghost use Rattle.std.specs.Prelude.{◌≡◌, Some, codes, map, option_map};
ghost use Rattle.asl_json_data.specs.Data.{chain};
ghost use Rattle.asl_json.specs.Meaning.{value_in};
ghost use Rattle.asl_def_fields.specs.Shown.{names_shown};
ghost use Rattle.asl_handle.specs.Decisions.{first_for};

use crate::names::are_for;
use asl_def_fields::{Compiled, ErrorNames, Retrier};
use asl_def_shared::Catcher;

/// A retrier or a catcher.
pub(crate) trait Handler: Compiled {
    /// `ErrorEquals`.
    fn named(&self) -> &ErrorNames
        ensures { Some (names_shown result.now)
            ≡ value_in (codes "ErrorEquals") (Self.shown self.now) };
}

impl Handler for Retrier {
    fn named(&self) -> &ErrorNames {
        self.errors()
    }
}

impl Handler for Catcher {
    fn named(&self) -> &ErrorNames {
        self.errors()
    }
}

/// The first that is for the error, with its number.
pub(crate) fn first_for<'a, T: Handler>(handlers: &'a [T], error: &str) -> Option<(usize, &'a T)>
    ensures { option_map (λ x. (x.0, T.shown x.1.now)) result
        ≡ first_for error.now 0 (chain (map T.shown handlers.now)) }
{
    for (number, handler) in handlers.iter().enumerate() {
        if are_for(handler.named(), error) {
            return Some((number, handler));
        }
    }
    None
}
