// What becomes of a result or an error.
ghost use Rattle.std.specs.Prelude.{◌≡◌, ◌++◌, IfOk, codes, option_map};
ghost use Rattle.asl_json_data.specs.Data.{pairs, list, chain};
ghost use Rattle.asl_def_shared.specs.Built.{IsOfAny, IsCompletion, has_completion};
ghost use Rattle.asl_def_fields.specs.Entries.{entries_of};
ghost use Rattle.asl_def_shared.specs.Parts.{completion_members};
ghost use Rattle.asl_json.specs.Meaning.{value_in};
ghost use Rattle.asl_def_fields.specs.Shown.{path_shown};
ghost use Rattle.asl_def_shared.specs.Parts.{next_shown, end_shown};
ghost use Rattle.asl_def_shared.specs.Member.{completion_object};

use crate::catcher::Catchers;
use crate::entries::{with_optional, with_path};
use crate::target::Transition;
use asl_def_fields::{Entry, PathField, Retriers, TryClone, read_optional};
use asl_json::Members;
use asl_template::Template;
use std::alloc::{AllocError, Global};

/// What becomes of the result or the error of a Task, Parallel or Map state. (Amazon States Language, "Input and Output
/// Processing", "Errors".)
#[derive(PartialEq, Eq)]
pub struct Completion {
    /// `ResultSelector`.
    pub result_selector: Option<Template>,
    /// `ResultPath`.
    pub result_path: PathField,
    /// `OutputPath`.
    pub output_path: PathField,
    /// `Retry`.
    pub retry: Option<Retriers>,
    /// `Catch`.
    pub catch: Option<Catchers>,
    /// `Next` or `"End": true`.
    pub next: Transition,
}

// Written out, so that a caller's proof sees one call and not the drop of each part.
impl Drop for Completion {
    fn drop(self) {
        let Completion {
            result_selector: _result_selector,
            result_path: _result_path,
            output_path: _output_path,
            retry: _retry,
            catch: _catch,
            next: _next,
        } = self;
    }
}

impl Completion {
    /// `ResultSelector`.
    pub fn result_selector(&self) -> Option<&Template>
        ensures { option_map (λ x. x.now) result
            ≡ value_in (codes "ResultSelector") (completion_object self.now) }
    {
        self.result_selector.as_ref()
    }

    /// `ResultPath`.
    pub fn result_path(&self) -> &PathField
        ensures { path_shown result.now
            ≡ value_in (codes "ResultPath") (completion_object self.now) }
    {
        &self.result_path
    }

    /// `OutputPath`.
    pub fn output_path(&self) -> &PathField
        ensures { path_shown result.now
            ≡ value_in (codes "OutputPath") (completion_object self.now) }
    {
        &self.output_path
    }

    /// `Retry`.
    pub fn retry(&self) -> Option<&Retriers>
        ensures { option_map (λ x. list (chain x.now)) result
            ≡ value_in (codes "Retry") (completion_object self.now) }
    {
        self.retry.as_ref()
    }

    /// `Catch`.
    pub fn catch(&self) -> Option<&Catchers>
        ensures { option_map (λ x. list (chain x.now)) result
            ≡ value_in (codes "Catch") (completion_object self.now) }
    {
        self.catch.as_ref()
    }

    /// `Next` or `"End": true`.
    pub fn next(&self) -> &Transition
        ensures next { next_shown result.now
            ≡ value_in (codes "Next") (completion_object self.now) }
        ensures end { end_shown result.now ≡ value_in (codes "End") (completion_object self.now) }
    {
        &self.next
    }

    /// Compiles these members of a state without faults. The error is that memory ran out.
    pub fn read(alloc: Global, members: &Members) -> Result<Completion, AllocError>
        requires { IsOfAny has_completion members.now }
        ensures { IfOk result (λ o. IsCompletion (pairs members.now) o) }
    {
        Ok(Completion {
            result_selector: read_optional(alloc, members.find("ResultSelector"))?,
            result_path: PathField::read(alloc, members.find("ResultPath"))?,
            output_path: PathField::read(alloc, members.find("OutputPath"))?,
            retry: Retriers::read_optional(alloc, members.find("Retry"))?,
            catch: Catchers::read_optional(alloc, members.find("Catch"))?,
            next: Transition::read(alloc, members)?,
        })
    }

    /// Its members, behind these. The error is that memory ran out.
    pub fn entries(&self, alloc: Global, before: Vec<Entry>) -> Result<Vec<Entry>, AllocError>
        ensures { IfOk result (λ es. entries_of es.items
            ≡ entries_of before.items ++ completion_members self.now) }
    {
        let own = with_optional(alloc, before, "ResultSelector", &self.result_selector)?;
        let own = with_path(alloc, own, "ResultPath", &self.result_path)?;
        let own = with_path(alloc, own, "OutputPath", &self.output_path)?;
        let own = with_optional(alloc, own, "Retry", &self.retry)?;
        let own = with_optional(alloc, own, "Catch", &self.catch)?;
        self.next.entries(alloc, own)
    }
}

impl TryClone for Completion {
    fn try_clone(&self, alloc: Global) -> Result<Completion, AllocError> {
        Ok(Completion {
            result_selector: self.result_selector.try_clone(alloc)?,
            result_path: self.result_path.try_clone(alloc)?,
            output_path: self.output_path.try_clone(alloc)?,
            retry: self.retry.try_clone(alloc)?,
            catch: self.catch.try_clone(alloc)?,
            next: self.next.try_clone(alloc)?,
        })
    }
}
