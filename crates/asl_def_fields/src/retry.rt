// Retriers.
ghost use Rattle.std.specs.Prelude.{◌≡◌, ◌≤◌, IfOk, IfSome, Some, codes, option_map};
ghost use Rattle.asl_json_data.specs.Data.{number, text, list, chain};
ghost use Rattle.asl_json.specs.Meaning.{value_in};
ghost use Rattle.asl_json.specs.View.{data_of};
ghost use Rattle.asl_def_schema.specs.declared.sort.Sort.TheVariants.{Retrier as retrier_sort, Retriers as retriers_sort};
ghost use Rattle.asl_def_schema.specs.Canon.{canon};
ghost use Rattle.asl_def_schema.specs.Clean.{IsClean, Fits};
ghost use Rattle.asl_def_fields.specs.Shown.{jitter_shown, names_shown, retrier_object, retrier_objects};
ghost use Rattle.asl_def_fields.specs.Retries.{whole_or, interval_of, attempts_of, rate_of, delay_limit_of};

use crate::compiled::{Compile, Compiled, json_optional, read_optional};
use crate::copies::{TryClone, clone_all};
use crate::entry::{Entry, object};
use crate::jitter::JitterStrategy;
use crate::list::{json_all, read_all};
use crate::number::{BackoffRate, Count, DelayLimit};
use asl_json::{Json, Txt};
use asl_time::Rate;
use std::alloc::{AllocError, Global};
use std::marker::Model;

/// The names of the errors that a retrier or a catcher is for. (Amazon States Language, "Errors".) Contracts see them as the
/// list of their texts.
pub struct ErrorNames {
    names: Vec<Txt>,
}

// Written out, so that a caller's proof sees one call and not the drop of each part.
impl Drop for ErrorNames {
    fn drop(self) {
        let ErrorNames { names: _names } = self;
    }
}

impl Model for ErrorNames {
    ghost use Rattle.std.specs.Prelude.{List, ℕ};

    ghost Value = { List (List ℕ) };

    ghost view = { λ a. a.names.items };
}

/// A retrier. (Amazon States Language, "Retrying after error".) Contracts speak of its canonical object, `retrier_object`.
#[derive(PartialEq, Eq)]
pub struct Retrier {
    comment: Option<Txt>,
    errors: ErrorNames,
    interval: Option<Count>,
    attempts: Option<Count>,
    rate: Option<BackoffRate>,
    delay_limit: Option<DelayLimit>,
    jitter: Option<JitterStrategy>,
}

impl Drop for Retrier {
    fn drop(self) {
        let Retrier {
            comment: _comment,
            errors: _errors,
            interval: _interval,
            attempts: _attempts,
            rate: _rate,
            delay_limit: _delay_limit,
            jitter: _jitter,
        } = self;
    }
}

/// The retriers of a state, in the order in which they are tried. Contracts see them as the list of their canonical objects.
pub struct Retriers {
    retriers: Vec<Retrier>,
}

impl Drop for Retriers {
    fn drop(self) {
        let Retriers {
            retriers: _retriers,
        } = self;
    }
}

impl Model for Retriers {
    ghost use Rattle.std.specs.Prelude.{List};
    ghost use Rattle.asl_json_data.specs.Data.{Data};
    ghost use Rattle.asl_json.specs.private.Code.{coded_items};
    ghost use Rattle.asl_def_fields.specs.Shown.{retrier_objects};

    ghost Value = { List Data };

    ghost coded = { coded_items };

    ghost view = { λ a. retrier_objects a.retriers.items };
}

impl PartialEq for ErrorNames {
    ghost use Rattle.asl_def_fields.specs.Equal.{names_equal};
    ghost use Rattle.asl_def_fields.specs.private.EqualLaws.{names_laws};

    ghost eq = { names_equal };

    ghost laws = { names_laws };

    fn eq(&self, other: &ErrorNames) -> bool {
        self.names.as_slice() == other.names.as_slice()
    }
}

impl Eq for ErrorNames {
    ghost use Rattle.asl_def_fields.specs.private.EqualLaws.{names_equivalence};

    ghost laws = { names_equivalence };
}

impl PartialEq for Retriers {
    ghost use Rattle.asl_json.specs.Same.{items_equal};
    ghost use Rattle.asl_json.specs.private.SameLaws.{items_laws};

    ghost eq = { items_equal };

    ghost laws = { items_laws };

    fn eq(&self, other: &Retriers) -> bool {
        self.retriers.as_slice() == other.retriers.as_slice()
    }
}

impl Eq for Retriers {
    ghost use Rattle.asl_json.specs.private.SameLaws.{items_equivalence};

    ghost laws = { items_equivalence };
}

impl Compiled for ErrorNames {
    ghost use Rattle.asl_def_fields.specs.Shown.{names_shown};

    ghost shown = { names_shown };

    fn json(&self, alloc: Global) -> Result<Json, AllocError> {
        Ok(Json::List(json_all(alloc, &self.names)?))
    }
}

impl Compile for ErrorNames {
    ghost use Rattle.asl_def_fields.specs.Readable.{AreNames};

    ghost Fits = { AreNames };

    fn read(alloc: Global, value: &Json) -> Result<ErrorNames, AllocError> {
        let Json::List(names) = value else {
            unreachable!();
        };
        Ok(ErrorNames {
            names: read_all(alloc, names.values())?,
        })
    }
}

impl TryClone for ErrorNames {
    fn try_clone(&self, alloc: Global) -> Result<ErrorNames, AllocError> {
        Ok(ErrorNames {
            names: clone_all(alloc, &self.names)?,
        })
    }
}

/// The number, or this one where there is none.
fn count_or(count: &Option<Count>, default: u32) -> u32
    requires { default ≤ 99_999_999 }
    ensures value { result ≡ whole_or default (option_map number count.now) }
    ensures bound { result ≤ 99_999_999 }
{
    match count {
        Some(count) => count.value(),
        None => default,
    }
}

/// The factor where none is given: 2.0.
fn default_rate() -> Rate
    ensures { result ≡ 2_000_000_000 }
{
    match Rate::of(2_000_000_000) {
        Some(rate) => rate,
        None => unreachable!(),
    }
}

impl ErrorNames {
    /// The names, as they stand in `ErrorEquals`.
    pub fn as_slice(&self) -> &[Txt]
        ensures { result.now ≡ self.now }
    {
        &self.names
    }
}

impl Retrier {
    /// The errors that it is for (`ErrorEquals`).
    pub fn errors(&self) -> &ErrorNames
        ensures { Some (names_shown result.now)
            ≡ value_in (codes "ErrorEquals") (retrier_object self.now) }
    {
        &self.errors
    }

    /// The seconds before the first retry (`IntervalSeconds`); 1 where nothing is said.
    pub fn interval(&self) -> u32
        ensures value { result ≡ interval_of (retrier_object self.now) }
        ensures bound { result ≤ 99_999_999 }
    {
        count_or(&self.interval, 1)
    }

    /// How often the state is retried (`MaxAttempts`); 3 where nothing is said.
    pub fn max_attempts(&self) -> u32
        ensures value { result ≡ attempts_of (retrier_object self.now) }
        ensures bound { result ≤ 99_999_999 }
    {
        count_or(&self.attempts, 3)
    }

    /// The factor by which each delay is longer than the one before (`BackoffRate`); 2.0 where nothing is said.
    pub fn backoff_rate(&self) -> Rate
        ensures { result ≡ rate_of (retrier_object self.now) }
    {
        match &self.rate {
            Some(rate) => rate.rate(),
            None => default_rate(),
        }
    }

    /// The seconds of the longest delay (`MaxDelaySeconds`); `None` where nothing is said.
    pub fn max_delay(&self) -> Option<u32>
        ensures value { result ≡ delay_limit_of (retrier_object self.now) }
        ensures bound { IfSome result (λ seconds. seconds ≤ 31_622_399) }
    {
        match &self.delay_limit {
            Some(limit) => Some(limit.seconds()),
            None => None,
        }
    }

    /// Its `Comment`.
    pub fn comment(&self) -> Option<&Txt>
        ensures { option_map (λ t. text t.now) result
            ≡ value_in (codes "Comment") (retrier_object self.now) }
    {
        self.comment.as_ref()
    }

    /// Whether delays vary at random (`JitterStrategy`): `FULL` or `NONE`. They never do here.
    pub fn jitter(&self) -> Option<JitterStrategy>
        ensures { option_map jitter_shown result
            ≡ value_in (codes "JitterStrategy") (retrier_object self.now) }
    {
        self.jitter
    }

    fn read(alloc: Global, value: &Json) -> Result<Retrier, AllocError>
        requires { IsClean retrier_sort (data_of value.now) }
        ensures { IfOk result (λ r. retrier_object r ≡ canon retrier_sort (data_of value.now)) }
    {
        let Some(errors) = value.get("ErrorEquals") else {
            unreachable!();
        };
        Ok(Retrier {
            comment: read_optional(alloc, value.get("Comment"))?,
            errors: ErrorNames::read(alloc, errors)?,
            interval: read_optional(alloc, value.get("IntervalSeconds"))?,
            attempts: read_optional(alloc, value.get("MaxAttempts"))?,
            rate: read_optional(alloc, value.get("BackoffRate"))?,
            delay_limit: read_optional(alloc, value.get("MaxDelaySeconds"))?,
            jitter: read_optional(alloc, value.get("JitterStrategy"))?,
        })
    }
}

impl Compiled for Retrier {
    ghost use Rattle.asl_def_fields.specs.Shown.{retrier_object};

    ghost shown = { retrier_object };

    fn json(&self, alloc: Global) -> Result<Json, AllocError> {
        let comment = json_optional(alloc, &self.comment)?;
        let errors = self.errors.json(alloc)?;
        let interval = json_optional(alloc, &self.interval)?;
        let attempts = json_optional(alloc, &self.attempts)?;
        let rate = json_optional(alloc, &self.rate)?;
        let delay_limit = json_optional(alloc, &self.delay_limit)?;
        let jitter = json_optional(alloc, &self.jitter)?;
        let entries = vec![in alloc;
            Entry {
                name: "Comment",
                value: comment,
            },
            Entry {
                name: "ErrorEquals",
                value: Some(errors),
            },
            Entry {
                name: "IntervalSeconds",
                value: interval,
            },
            Entry {
                name: "MaxAttempts",
                value: attempts,
            },
            Entry {
                name: "BackoffRate",
                value: rate,
            },
            Entry {
                name: "MaxDelaySeconds",
                value: delay_limit,
            },
            Entry {
                name: "JitterStrategy",
                value: jitter,
            },
        ]?;
        object(alloc, entries)
    }
}

impl TryClone for Retrier {
    fn try_clone(&self, alloc: Global) -> Result<Retrier, AllocError> {
        Ok(Retrier {
            comment: self.comment.try_clone(alloc)?,
            errors: self.errors.try_clone(alloc)?,
            interval: self.interval.try_clone(alloc)?,
            attempts: self.attempts.try_clone(alloc)?,
            rate: self.rate.try_clone(alloc)?,
            delay_limit: self.delay_limit.try_clone(alloc)?,
            jitter: self.jitter,
        })
    }
}

impl Retriers {
    /// The retriers.
    pub fn as_slice(&self) -> &[Retrier]
        ensures { retrier_objects result.now ≡ self.now }
    {
        &self.retriers
    }

    /// Compiles the value of `Retry`. The error is that memory ran out.
    pub fn read(alloc: Global, value: &Json) -> Result<Retriers, AllocError>
        requires { IsClean retriers_sort (data_of value.now) }
        ensures { IfOk result (λ rs. list (chain rs) ≡ canon retriers_sort (data_of value.now)) }
    {
        let Json::List(values) = value else {
            unreachable!();
        };
        let mut retriers = Vec::new(alloc);
        for value in values.values() {
            retriers.push(Retrier::read(alloc, value)?)?;
        }
        Ok(Retriers { retriers })
    }

    /// Compiles the value of `Retry`, where it is there. The error is that memory ran out.
    pub fn read_optional(
        alloc: Global,
        value: Option<&Json>,
    ) -> Result<Option<Retriers>, AllocError>
        requires { Fits retriers_sort (option_map (λ v. data_of v.now) value) }
        ensures { IfOk result (λ x. option_map (λ rs. list (chain rs)) x
            ≡ option_map (λ v. canon retriers_sort (data_of v.now)) value.entry) }
    {
        match value {
            Some(value) => Ok(Some(Retriers::read(alloc, value)?)),
            None => Ok(None),
        }
    }
}

impl Compiled for Retriers {
    ghost use Rattle.asl_json_data.specs.Data.{list, chain};

    ghost shown = { λ rs. list (chain rs) };

    fn json(&self, alloc: Global) -> Result<Json, AllocError> {
        Ok(Json::List(json_all(alloc, &self.retriers)?))
    }
}

impl TryClone for Retriers {
    fn try_clone(&self, alloc: Global) -> Result<Retriers, AllocError> {
        Ok(Retriers {
            retriers: clone_all(alloc, &self.retriers)?,
        })
    }
}
