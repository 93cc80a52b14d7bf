// Pass states.
ghost use Rattle.std.specs.Prelude.{◌≡◌, IfOk, codes, option_map};
ghost use Rattle.asl_json_data.specs.Data.{text, dict, pairs};
ghost use Rattle.asl_def_schema.specs.declared.sort.Sort.TheVariants.{State as state_sort};
ghost use Rattle.asl_def_schema.specs.declared.sort.Kind.TheVariants.{Pass as pass_kind};
ghost use Rattle.asl_def_schema.specs.Canon.{canon};
ghost use Rattle.asl_def_shared.specs.Built.{IsOfKind};
ghost use Rattle.asl_def_states.specs.Show.{pass_object};
ghost use Rattle.asl_json.specs.Meaning.{value_in};
ghost use Rattle.asl_def_fields.specs.Shown.{path_shown};
ghost use Rattle.asl_json.specs.View.{data_of};
ghost use Rattle.asl_def_shared.specs.Parts.{next_shown, end_shown};

use asl_def_fields::{PathField, TryClone, read_optional};
use asl_def_shared::{Common, Transition, with_optional, with_path};
use asl_json::{Json, Members, Txt};
use asl_template::Template;
use std::alloc::{AllocError, Global};

/// A Pass state. (Amazon States Language, "Pass State".) Contracts speak of its canonical object, `pass_object`.
#[derive(PartialEq, Eq)]
pub struct Pass {
    pub(crate) common: Common,
    pub(crate) input_path: PathField,
    pub(crate) parameters: Option<Template>,
    pub(crate) result: Option<Json>,
    pub(crate) result_path: PathField,
    pub(crate) output_path: PathField,
    pub(crate) next: Transition,
}

// Written out, so that a caller's proof sees one call and not the drop of each part.
impl Drop for Pass {
    fn drop(self) {
        let Pass {
            common: _common,
            input_path: _input_path,
            parameters: _parameters,
            result: _result,
            result_path: _result_path,
            output_path: _output_path,
            next: _next,
        } = self;
    }
}

impl Pass {
    /// `Comment`.
    pub fn comment(&self) -> Option<&Txt>
        ensures { option_map (λ t. text t.now) result
            ≡ value_in (codes "Comment") (pass_object self.now) }
    {
        self.common.comment.as_ref()
    }

    /// `QueryLanguage`.
    pub fn query_language(&self) -> Option<&Txt>
        ensures { option_map (λ t. text t.now) result
            ≡ value_in (codes "QueryLanguage") (pass_object self.now) }
    {
        self.common.query_language.as_ref()
    }

    /// `InputPath`.
    pub fn input_path(&self) -> &PathField
        ensures { path_shown result.now ≡ value_in (codes "InputPath") (pass_object self.now) }
    {
        &self.input_path
    }

    /// `Parameters`.
    pub fn parameters(&self) -> Option<&Template>
        ensures { option_map (λ t. t.now) result
            ≡ value_in (codes "Parameters") (pass_object self.now) }
    {
        self.parameters.as_ref()
    }

    /// `Result`.
    pub fn result(&self) -> Option<&Json>
        ensures { option_map (λ v. data_of v.now) result
            ≡ value_in (codes "Result") (pass_object self.now) }
    {
        self.result.as_ref()
    }

    /// `ResultPath`.
    pub fn result_path(&self) -> &PathField
        ensures { path_shown result.now ≡ value_in (codes "ResultPath") (pass_object self.now) }
    {
        &self.result_path
    }

    /// `OutputPath`.
    pub fn output_path(&self) -> &PathField
        ensures { path_shown result.now ≡ value_in (codes "OutputPath") (pass_object self.now) }
    {
        &self.output_path
    }

    /// `Next` or `"End": true`.
    pub fn next(&self) -> &Transition
        ensures next { next_shown result.now ≡ value_in (codes "Next") (pass_object self.now) }
        ensures end { end_shown result.now ≡ value_in (codes "End") (pass_object self.now) }
    {
        &self.next
    }

    /// Compiles the members of a Pass state without faults. The error is that memory ran out.
    pub fn read(alloc: Global, members: &Members) -> Result<Pass, AllocError>
        requires { IsOfKind pass_kind members.now }
        ensures { IfOk result (λ p. pass_object p ≡ canon state_sort (dict (pairs members.now))) }
    {
        Ok(Pass {
            common: Common::read(alloc, members)?,
            input_path: PathField::read(alloc, members.find("InputPath"))?,
            parameters: read_optional(alloc, members.find("Parameters"))?,
            result: read_optional(alloc, members.find("Result"))?,
            result_path: PathField::read(alloc, members.find("ResultPath"))?,
            output_path: PathField::read(alloc, members.find("OutputPath"))?,
            next: Transition::read(alloc, members)?,
        })
    }

    /// Its canonical object.
    pub fn json(&self, alloc: Global) -> Result<Json, AllocError>
        ensures { IfOk result (λ j. data_of j ≡ pass_object self.now) }
    {
        let own = with_path(alloc, Vec::new(alloc), "InputPath", &self.input_path)?;
        let own = with_optional(alloc, own, "Parameters", &self.parameters)?;
        let own = with_optional(alloc, own, "Result", &self.result)?;
        let own = with_path(alloc, own, "ResultPath", &self.result_path)?;
        let own = with_path(alloc, own, "OutputPath", &self.output_path)?;
        let own = self.next.entries(alloc, own)?;
        self.common.object(alloc, "Pass", own)
    }
}

impl TryClone for Pass {
    fn try_clone(&self, alloc: Global) -> Result<Pass, AllocError> {
        Ok(Pass {
            common: self.common.try_clone(alloc)?,
            input_path: self.input_path.try_clone(alloc)?,
            parameters: self.parameters.try_clone(alloc)?,
            result: self.result.try_clone(alloc)?,
            result_path: self.result_path.try_clone(alloc)?,
            output_path: self.output_path.try_clone(alloc)?,
            next: self.next.try_clone(alloc)?,
        })
    }
}
