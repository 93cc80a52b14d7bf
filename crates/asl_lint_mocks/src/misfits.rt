// The values of a mock file that don't fit.
ghost use Rattle.std.specs.Prelude.{IfOk};
ghost use Rattle.asl_json_data.specs.Data.{pairs};
ghost use Rattle.asl_json.specs.View.{data_of};
ghost use Rattle.asl_mock.specs.Form.{misfits, misfits_below};
ghost use Rattle.asl_json.specs.Access.{member_list};
ghost use Rattle.asl_lint_mocks.specs.Places.{AreAt, numbers_of};

use crate::placing::{add_under, unless};
use asl_json::{Json, Members};
use asl_mock::Shape;
use std::alloc::{AllocError, Global};

/// The places of the values of these that don't fit.
#[cycle(misfits)]
pub(crate) fn misfits(
    alloc: Global,
    shape: Shape,
    value: &Json,
) -> Result<Vec<Vec<usize>>, AllocError>
    ensures { IfOk result (λ r. AreAt (member_list (data_of value.now)) (numbers_of r.items)
        (misfits shape (data_of value.now))) }
{
    match value {
        Json::Dict(members) => {
            let mut all = unless(alloc, shape.fits(value))?;
            let mut below = misfits_below(alloc, shape, members)?;
            all.append(&mut below)?;
            Ok(all)
        }
        Json::Text(_) => unless(alloc, shape.takes_text()),
        _ => unless(alloc, shape.takes_any()),
    }
}

/// The same in an object.
#[cycle(misfits)]
fn misfits_below(
    alloc: Global,
    shape: Shape,
    members: &Members,
) -> Result<Vec<Vec<usize>>, AllocError>
    ensures { IfOk result (λ r. AreAt members.now (numbers_of r.items)
        (misfits_below shape (pairs members.now))) }
{
    let members = members.members();
    let mut all = Vec::new(alloc);
    for (i, member) in members.iter().enumerate() {
        let inner = misfits(alloc, shape.part(member.key.as_str()), &member.value)?;
        add_under(alloc, &mut all, i, inner)?;
    }
    Ok(all)
}
