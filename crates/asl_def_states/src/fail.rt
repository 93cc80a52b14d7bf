// Fail states.
ghost use Rattle.std.specs.Prelude.{◌≡◌, true, false, IfOk, is_some, option_map, codes};
ghost use Rattle.asl_json_data.specs.Data.{dict, pairs, text};
ghost use Rattle.asl_def_schema.specs.declared.sort.Sort.TheVariants.{State as state_sort};
ghost use Rattle.asl_def_schema.specs.declared.sort.Kind.TheVariants.{Fail as fail_kind};
ghost use Rattle.asl_def_schema.specs.Canon.{canon};
ghost use Rattle.asl_def_shared.specs.Built.{IsOfKind};
ghost use Rattle.asl_json.specs.View.{data_of};
ghost use Rattle.asl_def_schema.specs.declared.sort.Sort.TheVariants.{Text, PathOrCall as path_or_call};
ghost use Rattle.asl_def_schema.specs.Clean.{Fits};
ghost use Rattle.asl_def_states.specs.Show.{fail_object, told_at};
ghost use Rattle.asl_def_states.specs.Show as Show;
ghost use Rattle.asl_json.specs.Meaning.{value_in};

use asl_def_fields::{Compile, Compiled, PathOrCall, TryClone};
use asl_def_shared::{Common, and};
use asl_json::{Json, Members, Txt};
use std::alloc::{AllocError, Global};

/// What a Fail state tells as its error or its cause.
#[derive(PartialEq, Eq)]
pub enum FailText {
    /// `Error` or `Cause`.
    Told(Txt),
    /// `ErrorPath` or `CausePath`.
    At(PathOrCall),
}

// Written out, so that a caller's proof sees one call and not the drop of each part.
impl Drop for FailText {
    fn drop(self) {
        match self {
            FailText::Told(_part) => {}
            FailText::At(_part) => {}
        }
    }
}

/// A Fail state. (Amazon States Language, "Fail State".) Contracts speak of its canonical object, `fail_object`.
#[derive(PartialEq, Eq)]
pub struct Fail {
    pub(crate) common: Common,
    pub(crate) error: Option<FailText>,
    pub(crate) cause: Option<FailText>,
}

impl Drop for Fail {
    fn drop(self) {
        let Fail {
            common: _common,
            error: _error,
            cause: _cause,
        } = self;
    }
}

impl FailText {
    /// Compiles the value of `Error` and `ErrorPath`, or of `Cause` and `CausePath`, of which one is there at most.
    fn read(
        alloc: Global,
        told: Option<&Json>,
        at: Option<&Json>,
    ) -> Result<Option<FailText>, AllocError>
        requires told { Fits Text (option_map (λ v. data_of v.now) told) }
        requires at { Fits path_or_call (option_map (λ v. data_of v.now) at) }
        requires one { is_some told ≡ true → is_some at ≡ false }
        ensures told { IfOk result (λ r. Show.told r ≡ option_map (λ v. data_of v.now) told.entry) }
        ensures at { IfOk result (λ r. told_at r ≡ option_map (λ v. data_of v.now) at.entry) }
    {
        if let Some(text) = told {
            return Ok(Some(FailText::Told(Txt::read(alloc, text)?)));
        }
        match at {
            Some(path) => Ok(Some(FailText::At(PathOrCall::read(alloc, path)?))),
            None => Ok(None),
        }
    }
}

/// The value of `Error` or `Cause` as JSON.
fn told_json(alloc: Global, reason: &Option<FailText>) -> Result<Option<Json>, AllocError>
    ensures { IfOk result (λ j. option_map data_of j ≡ Show.told reason.now) }
{
    match reason {
        Some(FailText::Told(text)) => Ok(Some(text.json(alloc)?)),
        _ => Ok(None),
    }
}

/// The value of `ErrorPath` or `CausePath` as JSON.
fn path_json(alloc: Global, reason: &Option<FailText>) -> Result<Option<Json>, AllocError>
    ensures { IfOk result (λ j. option_map data_of j ≡ told_at reason.now) }
{
    match reason {
        Some(FailText::At(path)) => Ok(Some(path.json(alloc)?)),
        _ => Ok(None),
    }
}

impl Fail {
    /// `Comment`.
    pub fn comment(&self) -> Option<&Txt>
        ensures { option_map (λ t. text t.now) result
            ≡ value_in (codes "Comment") (fail_object self.now) }
    {
        self.common.comment.as_ref()
    }

    /// `QueryLanguage`.
    pub fn query_language(&self) -> Option<&Txt>
        ensures { option_map (λ t. text t.now) result
            ≡ value_in (codes "QueryLanguage") (fail_object self.now) }
    {
        self.common.query_language.as_ref()
    }

    /// `Error` or `ErrorPath`.
    pub fn error(&self) -> Option<&FailText>
        ensures told { Show.told (option_map (λ r. r.now) result)
            ≡ value_in (codes "Error") (fail_object self.now) }
        ensures at { told_at (option_map (λ r. r.now) result)
            ≡ value_in (codes "ErrorPath") (fail_object self.now) }
    {
        self.error.as_ref()
    }

    /// `Cause` or `CausePath`.
    pub fn cause(&self) -> Option<&FailText>
        ensures told { Show.told (option_map (λ r. r.now) result)
            ≡ value_in (codes "Cause") (fail_object self.now) }
        ensures at { told_at (option_map (λ r. r.now) result)
            ≡ value_in (codes "CausePath") (fail_object self.now) }
    {
        self.cause.as_ref()
    }

    /// Compiles the members of a Fail state without faults. The error is that memory ran out.
    pub fn read(alloc: Global, members: &Members) -> Result<Fail, AllocError>
        requires { IsOfKind fail_kind members.now }
        ensures { IfOk result (λ f. fail_object f ≡ canon state_sort (dict (pairs members.now))) }
    {
        Ok(Fail {
            common: Common::read(alloc, members)?,
            error: FailText::read(alloc, members.find("Error"), members.find("ErrorPath"))?,
            cause: FailText::read(alloc, members.find("Cause"), members.find("CausePath"))?,
        })
    }

    /// Its canonical object.
    pub fn json(&self, alloc: Global) -> Result<Json, AllocError>
        ensures { IfOk result (λ j. data_of j ≡ fail_object self.now) }
    {
        let error = told_json(alloc, &self.error)?;
        let own = and(Vec::new(alloc), "Error", error)?;
        let error_path = path_json(alloc, &self.error)?;
        let own = and(own, "ErrorPath", error_path)?;
        let cause = told_json(alloc, &self.cause)?;
        let own = and(own, "Cause", cause)?;
        let cause_path = path_json(alloc, &self.cause)?;
        let own = and(own, "CausePath", cause_path)?;
        self.common.object(alloc, "Fail", own)
    }
}

impl TryClone for FailText {
    fn try_clone(&self, alloc: Global) -> Result<FailText, AllocError> {
        match self {
            FailText::Told(text) => Ok(FailText::Told(text.try_clone(alloc)?)),
            FailText::At(path) => Ok(FailText::At(path.try_clone(alloc)?)),
        }
    }
}

impl TryClone for Fail {
    fn try_clone(&self, alloc: Global) -> Result<Fail, AllocError> {
        Ok(Fail {
            common: self.common.try_clone(alloc)?,
            error: self.error.try_clone(alloc)?,
            cause: self.cause.try_clone(alloc)?,
        })
    }
}
