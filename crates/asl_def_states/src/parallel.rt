// Parallel states.
ghost use Rattle.std.specs.Prelude.{◌≡◌, Some, List, IfOk, codes, option_map, true, ℕ};
ghost use Rattle.asl_json.specs.View.{data_of};
ghost use Rattle.asl_json_data.specs.Data.{dict, list, chain, pairs, text};
ghost use Rattle.asl_def_schema.specs.declared.sort.Sort.TheVariants.{State as state_sort, Machines as part_sort};
ghost use Rattle.asl_def_schema.specs.declared.sort.Kind.TheVariants.{Parallel as parallel_kind};
ghost use Rattle.asl_def_schema.specs.Canon.{Named, canon, kept_at};
ghost use Rattle.asl_def_shared.specs.Built.{IsOfKind};
ghost use Rattle.asl_def_states.specs.Show.{parallel_object};
ghost use Rattle.asl_def_shared.specs.Bodies.{bodies_of};
ghost use Rattle.asl_json.specs.Meaning.{value_in};
ghost use Rattle.asl_def_fields.specs.Shown.{path_shown};
ghost use Rattle.asl_def_schema.specs.Members.{is_among};
ghost use Rattle.asl_def_shared.specs.Member.{completion_names, completion_object};

use asl_def_fields::{PathField, TryClone, read_optional};
use asl_def_shared::{Bodies, Common, Completion, and, with_optional, with_path};
use asl_json::{Items, Json, Members, Txt};
use asl_template::Template;
use std::alloc::{AllocError, Global};

/// A Parallel state. (Amazon States Language, "Parallel State".) Contracts speak of its canonical object over the table of
/// states, `parallel_object`.
#[derive(PartialEq, Eq)]
pub struct Parallel {
    pub(crate) common: Common,
    pub(crate) input_path: PathField,
    pub(crate) parameters: Option<Template>,
    /// Its `Branches`.
    pub branches: Bodies,
    pub(crate) completion: Completion,
}

// Written out, so that a caller's proof sees one call and not the drop of each part.
impl Drop for Parallel {
    fn drop(self) {
        let Parallel {
            common: _common,
            input_path: _input_path,
            parameters: _parameters,
            branches: _branches,
            completion: _completion,
        } = self;
    }
}

impl Parallel {
    /// `Comment`.
    pub fn comment(&self) -> Option<&Txt>
        ensures { (t : List Named)
            → option_map (λ x. text x.now) result
            ≡ value_in (codes "Comment") (parallel_object t self.now) }
    {
        self.common.comment.as_ref()
    }

    /// `QueryLanguage`.
    pub fn query_language(&self) -> Option<&Txt>
        ensures { (t : List Named)
            → option_map (λ x. text x.now) result
            ≡ value_in (codes "QueryLanguage") (parallel_object t self.now) }
    {
        self.common.query_language.as_ref()
    }

    /// `InputPath`.
    pub fn input_path(&self) -> &PathField
        ensures { (t : List Named)
            → path_shown result.now ≡ value_in (codes "InputPath") (parallel_object t self.now) }
    {
        &self.input_path
    }

    /// `Parameters`.
    pub fn parameters(&self) -> Option<&Template>
        ensures { (t : List Named)
            → option_map (λ x. x.now) result
            ≡ value_in (codes "Parameters") (parallel_object t self.now) }
    {
        self.parameters.as_ref()
    }

    /// `Branches`.
    pub fn branches(&self) -> &Bodies
        ensures { (t : List Named)
            → Some (list (chain (bodies_of t result.now)))
            ≡ value_in (codes "Branches") (parallel_object t self.now) }
    {
        &self.branches
    }

    /// What becomes of its result or its error.
    pub fn completion(&self) -> &Completion
        ensures { (t : List Named) → (k : List ℕ) → is_among k completion_names ≡ true
            → value_in k (completion_object result.now) ≡ value_in k (parallel_object t self.now) }
    {
        &self.completion
    }

    /// Compiles a state with its machines, which stand in a table already.
    pub fn read(alloc: Global, members: &Members, branches: Bodies) -> Result<Parallel, AllocError>
        requires { IsOfKind parallel_kind members.now }
        ensures branches { IfOk result (λ x. x.branches ≡ branches) }
        ensures object { IfOk result (λ x. (t : List Named)
            → Some (list (chain (bodies_of t branches)))
            ≡ kept_at (codes "Branches") part_sort (pairs members.now)
            → parallel_object t x ≡ canon state_sort (dict (pairs members.now))) }
    {
        Ok(Parallel {
            common: Common::read(alloc, members)?,
            input_path: PathField::read(alloc, members.find("InputPath"))?,
            parameters: read_optional(alloc, members.find("Parameters"))?,
            branches,
            completion: Completion::read(alloc, members)?,
        })
    }

    /// Its canonical object over a table, given its machines.
    pub fn json(&self, alloc: Global, branches: Items) -> Result<Json, AllocError>
        ensures { IfOk result (λ j. (t : List Named) → branches ≡ bodies_of t self.now.branches
            → data_of j ≡ parallel_object t self.now) }
    {
        let own = with_path(alloc, Vec::new(alloc), "InputPath", &self.input_path)?;
        let own = with_optional(alloc, own, "Parameters", &self.parameters)?;
        let own = and(own, "Branches", Some(Json::List(branches)))?;
        let own = self.completion.entries(alloc, own)?;
        self.common.object(alloc, "Parallel", own)
    }
}

impl TryClone for Parallel {
    fn try_clone(&self, alloc: Global) -> Result<Parallel, AllocError> {
        Ok(Parallel {
            common: self.common.try_clone(alloc)?,
            input_path: self.input_path.try_clone(alloc)?,
            parameters: self.parameters.try_clone(alloc)?,
            branches: self.branches.try_clone(alloc)?,
            completion: self.completion.try_clone(alloc)?,
        })
    }
}
