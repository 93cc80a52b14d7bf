// What comes next.
ghost use Rattle.std.specs.Prelude.{◌≡◌, ◌++◌, Some, IfOk, codes, option_map};
ghost use Rattle.asl_json_data.specs.Data.{text, pairs};
ghost use Rattle.asl_json.specs.View.{data_of};
ghost use Rattle.asl_json.specs.Meaning.{value_at};
ghost use Rattle.asl_def_schema.specs.declared.sort.Sort.TheVariants.{Truth, Target as target_sort};
ghost use Rattle.asl_def_schema.specs.Canon.{kept_at};
ghost use Rattle.asl_def_schema.specs.Clean.{Fits, IsThere, goes_on};
ghost use Rattle.asl_def_shared.specs.Built.{IsOfAny};
ghost use Rattle.asl_def_shared.specs.Parts.{next_shown, end_shown, next_members};
ghost use Rattle.asl_def_fields.specs.Entries.{entries_of};

use crate::entries::{entry, joined};
use asl_def_fields::{Entry, TryClone};
use asl_json::{Json, Members, Txt};
use std::alloc::{AllocError, Global};

/// The name of the state that comes next.
#[derive(PartialEq, Eq)]
pub struct Target {
    /// A name of a state of the same machine.
    pub name: Txt,
}

// Written out, so that a caller's proof sees one call and not the drop of each part.
impl Drop for Target {
    fn drop(self) {
        let Target { name: _name } = self;
    }
}

/// How a state goes on. (Amazon States Language, "Transitions".)
#[derive(PartialEq, Eq)]
pub enum Transition {
    /// `"End": true`.
    End,
    /// `"Next"`.
    To(Target),
}

impl Drop for Transition {
    fn drop(self) {
        match self {
            Transition::End => {}
            Transition::To(_part) => {}
        }
    }
}

impl Target {
    /// Compiles the value of a required member. The error is that memory ran out.
    pub fn read(alloc: Global, value: Option<&Json>) -> Result<Target, AllocError>
        requires { IsThere target_sort (option_map (λ v. data_of v.now) value) }
        ensures { IfOk result (λ t. Some (text t.name)
            ≡ option_map (λ v. data_of v.now) value.entry) }
    {
        let Some(Json::Text(name)) = value else {
            unreachable!();
        };
        Ok(Target {
            name: name.try_clone(alloc)?,
        })
    }

    /// Compiles the value of a member, where it is there. The error is that memory ran out.
    pub fn read_optional(alloc: Global, value: Option<&Json>) -> Result<Option<Target>, AllocError>
        requires { Fits target_sort (option_map (λ v. data_of v.now) value) }
        ensures { IfOk result (λ x. option_map (λ t. text t.name) x
            ≡ option_map (λ v. data_of v.now) value.entry) }
    {
        match value {
            Some(Json::Text(name)) => Ok(Some(Target {
                name: name.try_clone(alloc)?,
            })),
            _ => Ok(None),
        }
    }

    /// Its name as JSON. The error is that memory ran out.
    pub fn json(&self, alloc: Global) -> Result<Json, AllocError>
        ensures { IfOk result (λ j. data_of j ≡ text self.now.name) }
    {
        Ok(Json::Text(self.name.try_clone(alloc)?))
    }

    /// Its name as JSON, where it is there. The error is that memory ran out.
    pub fn json_optional(alloc: Global, target: &Option<Target>) -> Result<Option<Json>, AllocError>
        ensures { IfOk result (λ j. option_map data_of j
            ≡ option_map (λ t. text t.name) target.now) }
    {
        match target {
            None => Ok(None),
            Some(target) => Ok(Some(target.json(alloc)?)),
        }
    }
}

impl TryClone for Target {
    fn try_clone(&self, alloc: Global) -> Result<Target, AllocError> {
        Ok(Target {
            name: self.name.try_clone(alloc)?,
        })
    }
}

impl Transition {
    /// Compiles `Next` and `End` of a state without faults. The error is that memory ran out.
    pub fn read(alloc: Global, members: &Members) -> Result<Transition, AllocError>
        requires { IsOfAny goes_on members.now }
        ensures next { IfOk result (λ n. next_shown n
            ≡ kept_at (codes "Next") target_sort (pairs members.now)) }
        ensures end { IfOk result (λ n. end_shown n
            ≡ kept_at (codes "End") Truth (pairs members.now)) }
    {
        match members.find("Next") {
            Some(name) => Ok(Transition::To(Target::read(alloc, Some(name))?)),
            None => Ok(Transition::End),
        }
    }

    /// `Next` and `End`, behind these members. The error is that memory ran out.
    pub fn entries(&self, alloc: Global, before: Vec<Entry>) -> Result<Vec<Entry>, AllocError>
        ensures { IfOk result (λ es. entries_of es.items
            ≡ entries_of before.items ++ next_members self.now) }
    {
        let own = match self {
            Transition::End => vec![in alloc;
                entry("Next", None),
                entry("End", Some(Json::Bool(true))),
            ]?,
            Transition::To(target) => {
                let name = target.json(alloc)?;
                vec![in alloc; entry("Next", Some(name)), entry("End", None)]?
            }
        };
        joined(before, own)
    }
}

impl TryClone for Transition {
    fn try_clone(&self, alloc: Global) -> Result<Transition, AllocError> {
        match self {
            Transition::End => Ok(Transition::End),
            Transition::To(target) => Ok(Transition::To(target.try_clone(alloc)?)),
        }
    }
}
