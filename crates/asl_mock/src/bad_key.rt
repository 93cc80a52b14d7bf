// Keys that stand for no numbers.
ghost use Rattle.std.specs.Prelude.{◌≡◌, IfOk};
ghost use Rattle.asl_json.specs.View.{members_of};
ghost use Rattle.asl_mock.specs.Places.{first_of, in_each};
ghost use Rattle.asl_mock.specs.Faults.{bad_key, bad_keys_in};

use crate::key::span_in;
use crate::place::Place;
use asl_json::Member;
use std::alloc::{AllocError, Global};

/// The first key of a response that stands for no numbers. The error is that memory ran out.
fn bad_key(alloc: Global, answers: &[Member]) -> Result<Option<Place>, AllocError>
    ensures { IfOk result (λ found. found ≡ first_of (in_each bad_key (members_of answers.now))) }
{
    for member in answers {
        let key = member.key.as_str();
        let Some(_) = span_in(key) else {
            return Ok(Some(Place::here(alloc).under(alloc, key)?));
        };
    }
    Ok(None)
}

/// The first such key of all responses. The error is that memory ran out.
pub(crate) fn first_bad_key(
    alloc: Global,
    responses: &[Member],
) -> Result<Option<Place>, AllocError>
    ensures { IfOk result (λ found. found
        ≡ first_of (in_each bad_keys_in (members_of responses.now))) }
{
    for member in responses {
        let key = member.key.as_str();
        if let Some(place) = bad_key(alloc, member.value.members())? {
            return Ok(Some(place.under(alloc, key)?));
        }
    }
    Ok(None)
}
