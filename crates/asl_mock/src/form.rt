// The values of a mock file that don't fit.
ghost use Rattle.std.specs.Prelude.{◌≡◌, IfOk};
ghost use Rattle.asl_json_data.specs.Data.{pairs};
ghost use Rattle.asl_json.specs.View.{data_of};
ghost use Rattle.asl_mock.specs.Places.{first_of};
ghost use Rattle.asl_mock.specs.Form.{misfits, misfits_below, unless};

use crate::place::Place;
use crate::shape::Shape;
use asl_json::{Json, Members};
use std::alloc::{AllocError, Global};

/// Nothing where a value fits, else its place.
fn unless(alloc: Global, fits: bool) -> Option<Place>
    ensures { result ≡ first_of (unless fits) }
{
    if fits {
        return None;
    }
    Some(Place::here(alloc))
}

/// The first value of these that doesn't fit. The error is that memory ran out.
#[cycle(misfit)]
pub(crate) fn misfit(alloc: Global, shape: Shape, value: &Json) -> Result<Option<Place>, AllocError>
    ensures { IfOk result (λ found. found ≡ first_of (misfits shape (data_of value.now))) }
{
    match value {
        Json::Dict(members) => {
            if !shape.fits(value) {
                return Ok(Some(Place::here(alloc)));
            }
            misfit_below(alloc, shape, members)
        }
        Json::Text(_) => Ok(unless(alloc, shape.takes_text())),
        _ => Ok(unless(alloc, shape.takes_any())),
    }
}

/// The first that doesn't fit in an object.
#[cycle(misfit)]
fn misfit_below(alloc: Global, shape: Shape, members: &Members) -> Result<Option<Place>, AllocError>
    ensures { IfOk result (λ found. found ≡ first_of (misfits_below shape (pairs members.now))) }
{
    let members = members.members();
    for member in members {
        let key = member.key.as_str();
        if let Some(place) = misfit(alloc, shape.part(key), &member.value)? {
            return Ok(Some(place.under(alloc, key)?));
        }
    }
    Ok(None)
}
