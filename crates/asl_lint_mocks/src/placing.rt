// Places by numbers.
ghost use Rattle.std.specs.Prelude.{◌≡◌, ◌∷◌, ◌++◌, ℕ, List, IfOk, OnOk, map};
ghost use Rattle.asl_json_data.specs.Data.{Data};
ghost use Rattle.asl_json.specs.View.{data_of, members_of};
ghost use Rattle.asl_json_data.specs.Distinct.{Members};
ghost use Rattle.asl_mock.specs.Form.{unless};
ghost use Rattle.asl_mock.specs.Places.{Place, under, in_each};
ghost use Rattle.asl_json.specs.Access.{member_list, member_list_at};
ghost use Rattle.asl_lint_mocks.specs.Places.{AreAt, numbers_of};
ghost use Rattle.asl_lint_mocks.specs.private.Spots.{number_at};

use asl_json::{Json, Member};
use std::alloc::{AllocError, Global};

/// A place with a number in front.
fn prefixed(alloc: Global, at: usize, place: &[usize]) -> Result<Vec<usize>, AllocError>
    ensures { IfOk result (λ p. p.items ≡ at ∷ place.now) }
{
    let mut all = Vec::new(alloc);
    all.push(at)?;
    all.extend_from_slice(place)?;
    Ok(all)
}

/// Adds places inside the member of this number, as they are seen from the object.
pub(crate) fn add_under(
    alloc: Global,
    all: &mut Vec<Vec<usize>>,
    at: usize,
    inner: Vec<Vec<usize>>,
) -> Result<(), AllocError>
    ensures { OnOk result (numbers_of all.new.items ≡ numbers_of all.old.items
        ++ map (λ p. at ∷ p) (numbers_of inner.items)) }
{
    for place in inner {
        all.push(prefixed(alloc, at, &place)?)?;
    }
    Ok(())
}

/// The place of a value itself, unless it fits.
pub(crate) fn unless(alloc: Global, fits: bool) -> Result<Vec<Vec<usize>>, AllocError>
    ensures { IfOk result (λ r. (ms : Members) → AreAt ms (numbers_of r.items) (unless fits)) }
{
    let mut all = Vec::new(alloc);
    if !fits {
        all.push(Vec::new(alloc))?;
    }
    Ok(all)
}

/// The number of the member of this key.
pub(crate) fn number_at(members: &[Member], key: &str) -> Option<usize>
    ensures { result ≡ number_at key.now 0 (members_of members.now) }
{
    for (i, member) in members.iter().enumerate() {
        if key == member.key.as_str() {
            return Some(i);
        }
    }
    None
}

/// Places inside the member of this key, as they are seen from the object. Without such a member there are none.
pub(crate) fn under_key(
    alloc: Global,
    value: &Json,
    key: &str,
    inner: Vec<Vec<usize>>,
) -> Result<Vec<Vec<usize>>, AllocError>
    ensures { IfOk result (λ r. (f : List ℕ × Data → List Place)
        → AreAt (member_list_at key.now (data_of value.now)) (numbers_of inner.items)
        (in_each f (member_list_at key.now (data_of value.now)))
        → AreAt (member_list (data_of value.now)) (numbers_of r.items)
        (under key.now (in_each f (member_list_at key.now (data_of value.now))))) }
{
    let Some(at) = number_at(value.members(), key) else {
        let none = Vec::new(alloc);
        return Ok(none);
    };
    let mut all = Vec::new(alloc);
    add_under(alloc, &mut all, at, inner)?;
    Ok(all)
}
