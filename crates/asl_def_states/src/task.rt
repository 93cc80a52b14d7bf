// Task states.
ghost use Rattle.std.specs.Prelude.{◌≡◌, IfOk, Some, codes, option_map, true, List, ℕ};
ghost use Rattle.asl_json.specs.View.{data_of};
ghost use Rattle.asl_json_data.specs.Data.{dict, pairs, text, number};
ghost use Rattle.asl_def_schema.specs.declared.sort.Sort.TheVariants.{State as state_sort};
ghost use Rattle.asl_def_schema.specs.declared.sort.Kind.TheVariants.{Task as task_kind};
ghost use Rattle.asl_def_schema.specs.Canon.{canon};
ghost use Rattle.asl_def_shared.specs.Built.{IsOfKind};
ghost use Rattle.asl_def_states.specs.Show.{task_object};
ghost use Rattle.asl_json.specs.Meaning.{value_in};
ghost use Rattle.asl_def_fields.specs.Shown.{path_shown};
ghost use Rattle.asl_def_schema.specs.Members.{is_among};
ghost use Rattle.asl_def_shared.specs.Member.{completion_names, completion_object};

use asl_def_fields::{Compile, Compiled, Count, PathField, TryClone, read_optional};
use asl_def_shared::{Common, Completion, TimeLimits, with, with_optional, with_path};
use asl_json::{Json, Members, Txt};
use asl_path::RefPath;
use asl_template::Template;
use std::alloc::{AllocError, Global};

/// A Task state. (Amazon States Language, "Task State".) Contracts speak of its canonical object, `task_object`.
#[derive(PartialEq, Eq)]
pub struct Task {
    pub(crate) common: Common,
    pub(crate) resource: Txt,
    pub(crate) input_path: PathField,
    pub(crate) parameters: Option<Template>,
    pub(crate) credentials: Option<Json>,
    pub(crate) limits: TimeLimits,
    pub(crate) completion: Completion,
}

// Written out, so that a caller's proof sees one call and not the drop of each part.
impl Drop for Task {
    fn drop(self) {
        let Task {
            common: _common,
            resource: _resource,
            input_path: _input_path,
            parameters: _parameters,
            credentials: _credentials,
            limits: _limits,
            completion: _completion,
        } = self;
    }
}

impl Task {
    /// `Comment`.
    pub fn comment(&self) -> Option<&Txt>
        ensures { option_map (λ t. text t.now) result
            ≡ value_in (codes "Comment") (task_object self.now) }
    {
        self.common.comment.as_ref()
    }

    /// `QueryLanguage`.
    pub fn query_language(&self) -> Option<&Txt>
        ensures { option_map (λ t. text t.now) result
            ≡ value_in (codes "QueryLanguage") (task_object self.now) }
    {
        self.common.query_language.as_ref()
    }

    /// `Resource`.
    pub fn resource(&self) -> &Txt
        ensures { Some (text result.now) ≡ value_in (codes "Resource") (task_object self.now) }
    {
        &self.resource
    }

    /// `InputPath`.
    pub fn input_path(&self) -> &PathField
        ensures { path_shown result.now ≡ value_in (codes "InputPath") (task_object self.now) }
    {
        &self.input_path
    }

    /// `Parameters`.
    pub fn parameters(&self) -> Option<&Template>
        ensures { option_map (λ x. x.now) result
            ≡ value_in (codes "Parameters") (task_object self.now) }
    {
        self.parameters.as_ref()
    }

    /// `Credentials`.
    pub fn credentials(&self) -> Option<&Json>
        ensures { option_map (λ v. data_of v.now) result
            ≡ value_in (codes "Credentials") (task_object self.now) }
    {
        self.credentials.as_ref()
    }

    /// `TimeoutSeconds`.
    pub fn timeout(&self) -> Option<&Count>
        ensures { option_map (λ x. number x.now) result
            ≡ value_in (codes "TimeoutSeconds") (task_object self.now) }
    {
        self.limits.timeout.as_ref()
    }

    /// `TimeoutSecondsPath`.
    pub fn timeout_path(&self) -> Option<&RefPath>
        ensures { option_map (λ x. text x.now) result
            ≡ value_in (codes "TimeoutSecondsPath") (task_object self.now) }
    {
        self.limits.timeout_path.as_ref()
    }

    /// `HeartbeatSeconds`.
    pub fn heartbeat(&self) -> Option<&Count>
        ensures { option_map (λ x. number x.now) result
            ≡ value_in (codes "HeartbeatSeconds") (task_object self.now) }
    {
        self.limits.heartbeat.as_ref()
    }

    /// `HeartbeatSecondsPath`.
    pub fn heartbeat_path(&self) -> Option<&RefPath>
        ensures { option_map (λ x. text x.now) result
            ≡ value_in (codes "HeartbeatSecondsPath") (task_object self.now) }
    {
        self.limits.heartbeat_path.as_ref()
    }

    /// What becomes of its result or its error.
    pub fn completion(&self) -> &Completion
        ensures { (k : List ℕ) → is_among k completion_names ≡ true
            → value_in k (completion_object result.now) ≡ value_in k (task_object self.now) }
    {
        &self.completion
    }

    /// Compiles the members of a Task state without faults. The error is that memory ran out.
    pub fn read(alloc: Global, members: &Members) -> Result<Task, AllocError>
        requires { IsOfKind task_kind members.now }
        ensures { IfOk result (λ t. task_object t ≡ canon state_sort (dict (pairs members.now))) }
    {
        let Some(resource) = members.find("Resource") else {
            unreachable!();
        };
        Ok(Task {
            common: Common::read(alloc, members)?,
            resource: Txt::read(alloc, resource)?,
            input_path: PathField::read(alloc, members.find("InputPath"))?,
            parameters: read_optional(alloc, members.find("Parameters"))?,
            credentials: read_optional(alloc, members.find("Credentials"))?,
            limits: TimeLimits::read(alloc, members)?,
            completion: Completion::read(alloc, members)?,
        })
    }

    /// Its canonical object.
    pub fn json(&self, alloc: Global) -> Result<Json, AllocError>
        ensures { IfOk result (λ j. data_of j ≡ task_object self.now) }
    {
        let own = with(alloc, Vec::new(alloc), "Resource", &self.resource)?;
        let own = with_path(alloc, own, "InputPath", &self.input_path)?;
        let own = with_optional(alloc, own, "Parameters", &self.parameters)?;
        let own = with_optional(alloc, own, "Credentials", &self.credentials)?;
        let own = self.limits.entries(alloc, own)?;
        let own = self.completion.entries(alloc, own)?;
        self.common.object(alloc, "Task", own)
    }
}

impl TryClone for Task {
    fn try_clone(&self, alloc: Global) -> Result<Task, AllocError> {
        Ok(Task {
            common: self.common.try_clone(alloc)?,
            resource: self.resource.try_clone(alloc)?,
            input_path: self.input_path.try_clone(alloc)?,
            parameters: self.parameters.try_clone(alloc)?,
            credentials: self.credentials.try_clone(alloc)?,
            limits: self.limits.try_clone(alloc)?,
            completion: self.completion.try_clone(alloc)?,
        })
    }
}
