// Expectations files.
ghost use Rattle.std.specs.Prelude.{◌≡◌, [], IfOk, IfErr};
ghost use Rattle.asl_json_data.specs.Data.{Data};
ghost use Rattle.asl_json.specs.View.{data_of};
ghost use Rattle.asl_json_data.specs.Reads.{ReadsAs};
ghost use Rattle.asl_suite_file.specs.Form.{misfits};
ghost use Rattle.asl_suite_file.specs.Told.{IsExpectationsFile, AreSpelled, IsFaultIn, IsAnswer};
ghost use Rattle.asl_suite_file.specs.declared.fault.ExpectFault.TheVariants.{OutOfMemory};

use crate::expectation::{Draft, Expectation};
use crate::fault::{ExpectFault, unread};
use crate::form::misfit;
use crate::spelled::tests_of;
use asl_json::Json;
use asl_json_read::read;
use std::alloc::{AllocError, Global};

/// The tests of a suite.
pub struct Expectations {
    /// The tests, in order.
    pub list: Vec<Expectation>,
}

// Written out, so that a caller's proof sees one call and not the drop of each part.
impl Drop for Expectations {
    fn drop(self) {
        let Expectations { list: _list } = self;
    }
}

/// The tests of a suite as they are spelled: of some only the file is known in which the input stands.
pub struct Drafts {
    /// The tests, in order.
    pub list: Vec<Draft>,
}

impl Drop for Drafts {
    fn drop(self) {
        let Drafts { list: _list } = self;
    }
}

/// The tests that a value spells, or its first fault. The error is that memory ran out.
fn judged(alloc: Global, value: &Json) -> Result<Result<Vec<Draft>, ExpectFault>, AllocError>
    ensures found { IfOk result (λ r. IfOk r (λ v. AreSpelled (data_of value.now) v.items)) }
    ensures fault { IfOk result (λ r. IfErr r (IsFaultIn (data_of value.now))) }
{
    if let Some(place) = misfit(alloc, value)? {
        return Ok(Err(ExpectFault::Shape(place)));
    }
    Ok(Ok(tests_of(alloc, value)?))
}

impl Drafts {
    /// The tests.
    pub fn into_list(self) -> Vec<Draft>
        ensures { result ≡ self.list }
    {
        let Drafts { list } = self;
        list
    }

    /// The tests that bytes spell: a list of objects with `machine`, `case`, `input` or `inputFile`, and `status`, and maybe with
    /// `name`, `steps`, `output`, `match`, `error`, `cause`, `visits`, `invocations` and `calls`.
    pub fn read(alloc: Global, bytes: &[u8]) -> Result<Drafts, ExpectFault>
        // What is read is a file in which all fits, and has the tests that it spells.
        ensures found { IfOk result (λ x. IsExpectationsFile bytes.now x.list.items) }
        // Each file in which all fits is read, unless memory runs out.
        ensures only { (d : Data) → ReadsAs bytes.now d → misfits d ≡ []
            → IfErr result (λ e. e ≡ OutOfMemory) }
        // The fault is that of the JSON text, or else the first value that doesn't fit.
        ensures fault { IfErr result (IsAnswer bytes.now) }
    {
        let value = match read(alloc, bytes) {
            Ok(value) => value,
            Err(fault) => return Err(unread(fault)),
        };
        match judged(alloc, &value) {
            Ok(Ok(list)) => Ok(Drafts { list }),
            Ok(Err(fault)) => Err(fault),
            Err(AllocError) => Err(ExpectFault::OutOfMemory),
        }
    }
}
