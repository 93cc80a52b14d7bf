// The number of a catcher.
ghost use Rattle.std.specs.Prelude.{◌≡◌, ◌<◌};
ghost use Rattle.asl_json_data.specs.Data.{chain};
ghost use Rattle.asl_def_shared.specs.Parts.{catcher_object};
ghost use Rattle.asl_handle.specs.Decisions.{handlers_in};
ghost use Rattle.asl_handle.specs.Seen.{catch_of};
ghost use Rattle.asl_trace_lines.specs.Handling.{number_of};

use asl_def_shared::{Catcher, Catchers};
use asl_handle::Policy;

/// The number of the first catcher that is equal to this one; so many as there are, where none is.
#[tactic(auto, using(crate::proofs::Catchers::it_is, crate::proofs::Catchers::it_is_not, crate::proofs::Catchers::none_is))]
fn number_in(catchers: &Catchers, decides: &Catcher) -> usize
    ensures { result ≡ number_of (catcher_object decides.now) (chain catchers.now) }
{
    let all = catchers.as_slice();
    for number in 0..all.len() {
        if all[number] == *decides {
            return number;
        }
    }
    all.len()
}

/// The same of a state's catchers.
pub(crate) fn catcher_number(policy: &Policy, decides: &Catcher) -> usize
    ensures { result ≡ number_of (catcher_object decides.now) (handlers_in (catch_of policy.now)) }
{
    match policy.catchers {
        Some(catchers) => number_in(catchers, decides),
        None => 0,
    }
}
