// Succeed states.
ghost use Rattle.std.specs.Prelude.{◌≡◌, IfOk, codes, option_map};
ghost use Rattle.asl_json_data.specs.Data.{text, dict, pairs};
ghost use Rattle.asl_json.specs.View.{data_of};
ghost use Rattle.asl_def_schema.specs.declared.sort.Sort.TheVariants.{State as state_sort};
ghost use Rattle.asl_def_schema.specs.declared.sort.Kind.TheVariants.{Succeed as succeed_kind};
ghost use Rattle.asl_def_schema.specs.Canon.{canon};
ghost use Rattle.asl_def_shared.specs.Built.{IsOfKind};
ghost use Rattle.asl_def_states.specs.Show.{succeed_object};
ghost use Rattle.asl_json.specs.Meaning.{value_in};
ghost use Rattle.asl_def_fields.specs.Shown.{path_shown};

use asl_def_fields::{PathField, TryClone};
use asl_def_shared::{Common, with_path};
use asl_json::{Json, Members, Txt};
use std::alloc::{AllocError, Global};

/// A Succeed state. (Amazon States Language, "Succeed State".) Contracts speak of its canonical object, `succeed_object`.
#[derive(PartialEq, Eq)]
pub struct Succeed {
    pub(crate) common: Common,
    pub(crate) input_path: PathField,
    pub(crate) output_path: PathField,
}

// Written out, so that a caller's proof sees one call and not the drop of each part.
impl Drop for Succeed {
    fn drop(self) {
        let Succeed {
            common: _common,
            input_path: _input_path,
            output_path: _output_path,
        } = self;
    }
}

impl Succeed {
    /// One with no members but its type.
    pub(crate) fn bare() -> Succeed {
        Succeed {
            common: Common {
                comment: None,
                query_language: None,
            },
            input_path: PathField::Whole,
            output_path: PathField::Whole,
        }
    }

    /// `Comment`.
    pub fn comment(&self) -> Option<&Txt>
        ensures { option_map (λ t. text t.now) result
            ≡ value_in (codes "Comment") (succeed_object self.now) }
    {
        self.common.comment.as_ref()
    }

    /// `QueryLanguage`.
    pub fn query_language(&self) -> Option<&Txt>
        ensures { option_map (λ t. text t.now) result
            ≡ value_in (codes "QueryLanguage") (succeed_object self.now) }
    {
        self.common.query_language.as_ref()
    }

    /// `InputPath`.
    pub fn input_path(&self) -> &PathField
        ensures { path_shown result.now ≡ value_in (codes "InputPath") (succeed_object self.now) }
    {
        &self.input_path
    }

    /// `OutputPath`.
    pub fn output_path(&self) -> &PathField
        ensures { path_shown result.now ≡ value_in (codes "OutputPath") (succeed_object self.now) }
    {
        &self.output_path
    }

    /// Compiles the members of a Succeed state without faults. The error is that memory ran out.
    pub fn read(alloc: Global, members: &Members) -> Result<Succeed, AllocError>
        requires { IsOfKind succeed_kind members.now }
        ensures { IfOk result (λ s. succeed_object s
            ≡ canon state_sort (dict (pairs members.now))) }
    {
        Ok(Succeed {
            common: Common::read(alloc, members)?,
            input_path: PathField::read(alloc, members.find("InputPath"))?,
            output_path: PathField::read(alloc, members.find("OutputPath"))?,
        })
    }

    /// Its canonical object.
    pub fn json(&self, alloc: Global) -> Result<Json, AllocError>
        ensures { IfOk result (λ j. data_of j ≡ succeed_object self.now) }
    {
        let own = with_path(alloc, Vec::new(alloc), "InputPath", &self.input_path)?;
        let own = with_path(alloc, own, "OutputPath", &self.output_path)?;
        self.common.object(alloc, "Succeed", own)
    }
}

impl TryClone for Succeed {
    fn try_clone(&self, alloc: Global) -> Result<Succeed, AllocError> {
        Ok(Succeed {
            common: self.common.try_clone(alloc)?,
            input_path: self.input_path.try_clone(alloc)?,
            output_path: self.output_path.try_clone(alloc)?,
        })
    }
}
