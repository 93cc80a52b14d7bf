// Paths.
ghost use Rattle.std.specs.Prelude.{◌≡◌, Some, List, IfOk, IfErr, option_map};
ghost use Rattle.asl_json.specs.View.{data_of};
ghost use Rattle.asl_path.specs.Grammar.{IsPath, SpellsPath, StartsFrom};
ghost use Rattle.asl_path.specs.Walk.{at, put};
ghost use Rattle.asl_path.specs.private.Steps.{steps};
ghost use Rattle.asl_path.specs.Paths.{part_at, with_part};
ghost use Rattle.asl_path.specs.private.Leads.{Fails};
ghost use Rattle.asl_path.specs.Faults.{IsFaultOf, HandsBack};

use crate::put::put_at;
use crate::read::{Halt, compile};
use crate::step::{Root, Step, copies};
use crate::walk::walk;
use asl_json::{Json, Txt};
use std::alloc::{AllocError, Global};
use std::fmt;
use std::marker::Model;
use thiserror::Error;

/// Why a text is no path.
#[derive(Clone, Copy, Debug, PartialEq, Eq, Error)]
pub enum PathFault {
    /// P1: the number of the first byte, counted from 0, that can't continue a path; the length of the text if it ends
    /// too early.
    #[error("P1 PathProfile {0}")]
    PathProfile(usize),
    /// P2: a growth was refused.
    #[error("P2 OutOfMemory")]
    OutOfMemory,
}

/// Why a value wasn't put. Both values come back as they were: first the base, then the part.
#[derive(Drop, Error)]
pub enum PutFault {
    /// P3: there is no such place. A name needs an object, which gets the member if it is missing; an index needs a
    /// list that is long enough.
    #[error("P3 NoMatch")]
    NoMatch(Json, Json),
    /// P4: a growth was refused.
    #[error("P4 OutOfMemory")]
    OutOfMemory(Json, Json),
}

/// Without the values.
impl fmt::Debug for PutFault {
    fn fmt<W: fmt::Write>(&self, f: &mut fmt::Formatter<W>) -> fmt::Result {
        match self {
            PutFault::NoMatch(_, _) => f.write_str("NoMatch(..)"),
            PutFault::OutOfMemory(_, _) => f.write_str("OutOfMemory(..)"),
        }
    }
}

/// A path that was read: `$` or `$$`, then steps `.name`, `['name']`, `["name"]` and `[index]`. Contracts see it as its
/// text.
///
/// It is a Reference Path of the Amazon States Language (<https://states-language.net/spec.html>, "Reference Paths"),
/// which names at most one part of a value, or such a path from the Context Object ("Paths").
pub struct RefPath {
    spelled: Txt,
    root: Root,
    steps: Vec<Step>,
}

// Written out, so that a caller's proof sees one call and not the drop of each part.
impl Drop for RefPath {
    fn drop(self) {
        let RefPath {
            spelled: _spelled,
            root: _root,
            steps: _steps,
        } = self;
    }
}

impl Model for RefPath {
    ghost use Rattle.std.specs.Prelude.{List, ℕ, ◌≡◌, Ok};
    ghost use Rattle.asl_path.specs.private.Steps.{steps as steps_of};

    ghost Value = { List ℕ };

    ghost view = { λ a. a.spelled };

    ghost invariant = { λ a. steps_of a.spelled ≡ Ok (a.root, a.steps.items) };
}

/// Two paths are equal where their texts are: `$.a` and `$['a']` are not.
impl PartialEq for RefPath {
    ghost use Rattle.std.specs.Prelude.{nat_eq};
    ghost use Rattle.std.specs.Cmp.Lexicographic.{pointwise};
    ghost use Rattle.std.specs.Cmp.{partial_equiv_from_equiv};
    ghost use Rattle.std.proofs.lemmas.Cmp.{nat_list_eq_equiv};

    ghost eq = { pointwise nat_eq };

    ghost laws = { partial_equiv_from_equiv nat_list_eq_equiv };

    fn eq(&self, other: &RefPath) -> bool {
        self.spelled == other.spelled
    }
}

impl Eq for RefPath {
    ghost use Rattle.std.proofs.lemmas.Cmp.{nat_list_eq_equiv};

    ghost laws = { nat_list_eq_equiv };
}

/// What a text is refused for.
fn fault_of(text: &str, halt: Halt) -> PathFault
    requires { Fails halt (steps text.now) }
    ensures { IsFaultOf text.now result }
{
    match halt {
        Halt::At(left) => PathFault::PathProfile(text.len() - left),
        Halt::Memory => PathFault::OutOfMemory,
    }
}

impl RefPath {
    /// Reads a text as a path. Its cost is the length of the text.
    pub fn read(alloc: Global, text: &str) -> Result<RefPath, PathFault>
        ensures text { IfOk result (λ p. p ≡ text.now) }
        // What is read is a path.
        ensures found { IfOk result (λ _. IsPath text.now) }
        // Each path is read, unless memory runs out.
        ensures only { IsPath text.now → IfErr result (λ fault. fault ≡ PathFault.OutOfMemory) }
        // The byte of P1 is the first one that can't go on.
        ensures fault { IfErr result (IsFaultOf text.now) }
    {
        match compile(alloc, text) {
            Ok((root, steps)) => match String::from_str(alloc, text) {
                Ok(string) => Ok(RefPath {
                    spelled: Txt::new(string),
                    root,
                    steps,
                }),
                Err(_) => Err(PathFault::OutOfMemory),
            },
            Err(halt) => Err(fault_of(text, halt)),
        }
    }

    /// The text that it was read from.
    pub fn text(&self) -> &str
        ensures text { result.now ≡ self.now }
        ensures path { IsPath self.now }
    {
        self.spelled.as_str()
    }

    /// What it starts from.
    pub fn root(&self) -> Root
        ensures { StartsFrom result self.now }
    {
        self.root
    }

    /// A path of its own, equal to this one.
    pub fn try_clone(&self, alloc: Global) -> Result<RefPath, AllocError>
        ensures { IfOk result (λ p. p ≡ self.now) }
    {
        let RefPath {
            spelled,
            root,
            steps,
        } = self;
        Ok(RefPath {
            spelled: spelled.try_clone(alloc)?,
            root: *root,
            steps: copies(alloc, steps)?,
        })
    }

    /// The part of a value that the steps reach, or `None` if there is none. The caller chooses the value by `root`:
    /// the input or the Context Object. Takes no memory. Its cost is the number of steps and the width of the objects
    /// on the way.
    pub fn get<'a>(&self, value: &'a Json) -> Option<&'a Json>
        // By the steps that the path spells.
        ensures steps { (r : Root) (ss : List Step) → SpellsPath r ss self.now
            → option_map (λ v. data_of v.now) result ≡ at (data_of value.now) ss }
        // The same by a function of the text.
        ensures value { option_map (λ v. data_of v.now) result
            ≡ part_at self.now (data_of value.now) }
    {
        walk(value, &self.steps)
    }

    /// Puts `part` into `base` at the place that the steps reach. It replaces what is there. If an object lacks the
    /// name, it gets a new last member; names after that make an object each. (Amazon States Language, "ResultPath".)
    ///
    /// It succeeds exactly if `with_part` has a value, unless memory runs out. It copies no value. Its cost is the
    /// number of steps and the width of the objects on the way.
    pub fn put(&self, alloc: Global, base: Json, part: Json) -> Result<Json, PutFault>
        // By the steps that the path spells.
        ensures steps { IfOk result (λ v. (r : Root) (ss : List Step) → SpellsPath r ss self.now
            → put (data_of base) ss (data_of part) ≡ Some (data_of v)) }
        // The same by a function of the text.
        ensures ok { IfOk result (λ v. with_part self.now (data_of base) (data_of part)
            ≡ Some (data_of v)) }
        ensures err { IfErr result (HandsBack self.now base part) }
    {
        put_at(alloc, base, &self.steps, part)
    }
}
