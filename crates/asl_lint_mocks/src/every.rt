// All faults of a mock file.
ghost use Rattle.std.specs.Prelude.{IfOk};
ghost use Rattle.asl_json.specs.View.{data_of};
ghost use Rattle.asl_mock.specs.Faults.{bad_keys, overlaps};
ghost use Rattle.asl_mock.specs.Form.{misfits};
ghost use Rattle.asl_json.specs.Access.{member_list};
ghost use Rattle.asl_lint_mocks.specs.Lost.{lost_names};
ghost use Rattle.asl_lint_mocks.specs.Places.{AreAt, numbers_of};

use crate::keys::{all_bad_keys, all_overlaps};
use crate::misfits::misfits;
use crate::names::{lost_in_machines, response_names};
use crate::placing::under_key;
use asl_json::Json;
use asl_mock::Shape;
use std::alloc::{AllocError, Global};

/// All faults of a mock file: of each sort the places in document order, each by the numbers of the members on the way, from 0.
#[derive(Drop)]
pub struct Faults {
    /// M2: the values that don't fit. A missing or unknown member has the place of its object.
    pub misfits: Vec<Vec<usize>>,
    /// M3: the keys of answers that are neither `N` nor `low-high` with low at most high.
    pub bad_keys: Vec<Vec<usize>>,
    /// M4: those that have a number of an earlier key of their response.
    pub overlaps: Vec<Vec<usize>>,
    /// M5: the states of cases for which a text names a response that isn't there.
    pub lost_names: Vec<Vec<usize>>,
}

/// All faults of a mock file, of which `Mocks::read` answers the first. The error is that memory ran out.
pub fn faults_of(alloc: Global, file: &Json) -> Result<Faults, AllocError>
    ensures misfits { IfOk result (λ r. AreAt (member_list (data_of file.now))
        (numbers_of r.misfits.items) (misfits Shape.Top (data_of file.now))) }
    ensures bad_keys { IfOk result (λ r. AreAt (member_list (data_of file.now))
        (numbers_of r.bad_keys.items) (bad_keys (data_of file.now))) }
    ensures overlaps { IfOk result (λ r. AreAt (member_list (data_of file.now))
        (numbers_of r.overlaps.items) (overlaps (data_of file.now))) }
    ensures lost_names { IfOk result (λ r. AreAt (member_list (data_of file.now))
        (numbers_of r.lost_names.items) (lost_names (data_of file.now))) }
{
    let responses = file.members_at("MockedResponses");
    let names = response_names(alloc, responses)?;
    let bad = all_bad_keys(alloc, responses)?;
    let again = all_overlaps(alloc, responses)?;
    let lost = lost_in_machines(alloc, &names, file.members_at("StateMachines"))?;
    Ok(Faults {
        misfits: misfits(alloc, Shape::Top, file)?,
        bad_keys: under_key(alloc, file, "MockedResponses", bad)?,
        overlaps: under_key(alloc, file, "MockedResponses", again)?,
        lost_names: under_key(alloc, file, "StateMachines", lost)?,
    })
}
