// Catchers.
ghost use Rattle.std.specs.Prelude.{◌≡◌, IfOk, option_map, Some, codes};
ghost use Rattle.asl_json_data.specs.Data.{list, chain, text};
ghost use Rattle.asl_json.specs.View.{data_of};
ghost use Rattle.asl_def_schema.specs.declared.sort.Sort.TheVariants.{Catcher as catcher_sort, Catchers as catchers_sort};
ghost use Rattle.asl_def_schema.specs.Canon.{canon};
ghost use Rattle.asl_def_schema.specs.Clean.{IsClean, Fits};
ghost use Rattle.asl_def_shared.specs.Parts.{catcher_object, catcher_objects};
ghost use Rattle.asl_json.specs.Meaning.{value_in};
ghost use Rattle.asl_def_fields.specs.Shown.{path_shown, names_shown};

use crate::entries::{and, with, with_optional, with_path};
use crate::target::Target;
use asl_def_fields::{
    Compile, Compiled, ErrorNames, PathField, TryClone, clone_all, json_all, object, read_optional,
};
use asl_json::{Json, Txt};
use std::alloc::{AllocError, Global};
use std::marker::Model;

/// A catcher. (Amazon States Language, "Fallback States".) Contracts speak of its canonical object, `catcher_object`.
#[derive(PartialEq, Eq)]
pub struct Catcher {
    pub(crate) comment: Option<Txt>,
    pub(crate) errors: ErrorNames,
    pub(crate) result_path: PathField,
    pub(crate) next: Target,
}

// Written out, so that a caller's proof sees one call and not the drop of each part.
impl Drop for Catcher {
    fn drop(self) {
        let Catcher {
            comment: _comment,
            errors: _errors,
            result_path: _result_path,
            next: _next,
        } = self;
    }
}

/// The catchers of a state, in the order in which they are tried. Contracts see them as the list of their canonical objects.
pub struct Catchers {
    pub(crate) catchers: Vec<Catcher>,
}

impl Drop for Catchers {
    fn drop(self) {
        let Catchers {
            catchers: _catchers,
        } = self;
    }
}

impl Model for Catchers {
    ghost use Rattle.std.specs.Prelude.{List};
    ghost use Rattle.asl_json_data.specs.Data.{Data};
    ghost use Rattle.asl_json.specs.private.Code.{coded_items};

    ghost Value = { List Data };

    ghost coded = { coded_items };

    ghost use Rattle.asl_def_shared.specs.Parts.{catcher_objects};

    ghost view = { λ a. catcher_objects a.catchers.items };
}

impl PartialEq for Catchers {
    ghost use Rattle.asl_json.specs.Same.{items_equal};
    ghost use Rattle.asl_json.specs.private.SameLaws.{items_laws};

    ghost eq = { items_equal };

    ghost laws = { items_laws };

    fn eq(&self, other: &Catchers) -> bool {
        self.catchers.as_slice() == other.catchers.as_slice()
    }
}

impl Eq for Catchers {
    ghost use Rattle.asl_json.specs.private.SameLaws.{items_equivalence};

    ghost laws = { items_equivalence };
}

impl Catcher {
    /// `Comment`.
    pub fn comment(&self) -> Option<&Txt>
        ensures { option_map (λ t. text t.now) result
            ≡ value_in (codes "Comment") (catcher_object self.now) }
    {
        self.comment.as_ref()
    }

    /// `ErrorEquals`.
    pub fn errors(&self) -> &ErrorNames
        ensures { Some (names_shown result.now)
            ≡ value_in (codes "ErrorEquals") (catcher_object self.now) }
    {
        &self.errors
    }

    /// `ResultPath`.
    pub fn result_path(&self) -> &PathField
        ensures { path_shown result.now ≡ value_in (codes "ResultPath") (catcher_object self.now) }
    {
        &self.result_path
    }

    /// `Next`.
    pub fn next(&self) -> &Target
        ensures { Some (text result.now.name) ≡ value_in (codes "Next") (catcher_object self.now) }
    {
        &self.next
    }

    fn read(alloc: Global, value: &Json) -> Result<Catcher, AllocError>
        requires { IsClean catcher_sort (data_of value.now) }
        ensures { IfOk result (λ c. catcher_object c ≡ canon catcher_sort (data_of value.now)) }
    {
        let Some(errors) = value.get("ErrorEquals") else {
            unreachable!();
        };
        Ok(Catcher {
            comment: read_optional(alloc, value.get("Comment"))?,
            errors: ErrorNames::read(alloc, errors)?,
            result_path: PathField::read(alloc, value.get("ResultPath"))?,
            next: Target::read(alloc, value.get("Next"))?,
        })
    }
}

impl Compiled for Catcher {
    ghost use Rattle.asl_def_shared.specs.Parts.{catcher_object};

    ghost shown = { catcher_object };

    fn json(&self, alloc: Global) -> Result<Json, AllocError> {
        let entries = with_optional(alloc, Vec::new(alloc), "Comment", &self.comment)?;
        let entries = with(alloc, entries, "ErrorEquals", &self.errors)?;
        let entries = with_path(alloc, entries, "ResultPath", &self.result_path)?;
        let next = self.next.json(alloc)?;
        let entries = and(entries, "Next", Some(next))?;
        object(alloc, entries)
    }
}

impl TryClone for Catcher {
    fn try_clone(&self, alloc: Global) -> Result<Catcher, AllocError> {
        Ok(Catcher {
            comment: self.comment.try_clone(alloc)?,
            errors: self.errors.try_clone(alloc)?,
            result_path: self.result_path.try_clone(alloc)?,
            next: self.next.try_clone(alloc)?,
        })
    }
}

impl Catchers {
    /// The catchers.
    pub fn as_slice(&self) -> &[Catcher]
        ensures { catcher_objects result.now ≡ self.now }
    {
        &self.catchers
    }

    fn read(alloc: Global, value: &Json) -> Result<Catchers, AllocError>
        requires { IsClean catchers_sort (data_of value.now) }
        ensures { IfOk result (λ cs. list (chain cs) ≡ canon catchers_sort (data_of value.now)) }
    {
        let Json::List(values) = value else {
            unreachable!();
        };
        let mut catchers = Vec::new(alloc);
        for value in values.values() {
            catchers.push(Catcher::read(alloc, value)?)?;
        }
        Ok(Catchers { catchers })
    }

    /// Compiles the value of `Catch`, where it is there.
    pub(crate) fn read_optional(
        alloc: Global,
        value: Option<&Json>,
    ) -> Result<Option<Catchers>, AllocError>
        requires { Fits catchers_sort (option_map (λ v. data_of v.now) value) }
        ensures { IfOk result (λ x. option_map (λ cs. list (chain cs)) x
            ≡ option_map (λ v. canon catchers_sort (data_of v.now)) value.entry) }
    {
        match value {
            Some(value) => Ok(Some(Catchers::read(alloc, value)?)),
            None => Ok(None),
        }
    }
}

impl Compiled for Catchers {
    ghost use Rattle.asl_json_data.specs.Data.{list, chain};

    ghost shown = { λ cs. list (chain cs) };

    fn json(&self, alloc: Global) -> Result<Json, AllocError> {
        Ok(Json::List(json_all(alloc, &self.catchers)?))
    }
}

impl TryClone for Catchers {
    fn try_clone(&self, alloc: Global) -> Result<Catchers, AllocError> {
        Ok(Catchers {
            catchers: clone_all(alloc, &self.catchers)?,
        })
    }
}
