// Wait states.
ghost use Rattle.std.specs.Prelude.{◌≡◌, IfOk, codes, option_map};
ghost use Rattle.asl_json.specs.View.{data_of};
ghost use Rattle.asl_json_data.specs.Data.{dict, pairs, text};
ghost use Rattle.asl_def_schema.specs.declared.sort.Sort.TheVariants.{State as state_sort};
ghost use Rattle.asl_def_schema.specs.declared.sort.Kind.TheVariants.{Wait as wait_kind};
ghost use Rattle.asl_def_schema.specs.Canon.{canon};
ghost use Rattle.asl_def_shared.specs.Built.{IsOfKind};
ghost use Rattle.asl_json.specs.Meaning.{value_at, value_in};
ghost use Rattle.asl_def_states.specs.Show.{wait_object, seconds_shown, seconds_path_shown, timestamp_shown, timestamp_path_shown};
ghost use Rattle.asl_def_fields.specs.Shown.{path_shown};
ghost use Rattle.asl_def_shared.specs.Parts.{next_shown, end_shown};

use asl_def_fields::{Compile, Compiled, Count, PathField, Stamp, TryClone};
use asl_def_shared::{Common, Transition, and, with_path};
use asl_json::{Json, Members, Txt};
use asl_path::RefPath;
use std::alloc::{AllocError, Global};

/// How long a Wait state waits.
#[derive(PartialEq, Eq)]
pub enum Delay {
    /// `Seconds`.
    Seconds(Count),
    /// `SecondsPath`.
    SecondsPath(RefPath),
    /// `Timestamp`: until then.
    Timestamp(Stamp),
    /// `TimestampPath`.
    TimestampPath(RefPath),
}

// Written out, so that a caller's proof sees one call and not the drop of each part.
impl Drop for Delay {
    fn drop(self) {
        match self {
            Delay::Seconds(_part) => {}
            Delay::SecondsPath(_part) => {}
            Delay::Timestamp(_part) => {}
            Delay::TimestampPath(_part) => {}
        }
    }
}

/// A Wait state. (Amazon States Language, "Wait State".) Contracts speak of its canonical object, `wait_object`.
#[derive(PartialEq, Eq)]
pub struct Wait {
    pub(crate) common: Common,
    pub(crate) input_path: PathField,
    pub(crate) delay: Delay,
    pub(crate) output_path: PathField,
    pub(crate) next: Transition,
}

impl Drop for Wait {
    fn drop(self) {
        let Wait {
            common: _common,
            input_path: _input_path,
            delay: _delay,
            output_path: _output_path,
            next: _next,
        } = self;
    }
}

impl Delay {
    fn read(alloc: Global, members: &Members) -> Result<Delay, AllocError>
        requires { IsOfKind wait_kind members.now }
        ensures seconds { IfOk result (λ d. seconds_shown d
            ≡ value_at (codes "Seconds") (pairs members.now)) }
        ensures seconds_path { IfOk result (λ d. seconds_path_shown d
            ≡ value_at (codes "SecondsPath") (pairs members.now)) }
        ensures timestamp { IfOk result (λ d. timestamp_shown d
            ≡ value_at (codes "Timestamp") (pairs members.now)) }
        ensures timestamp_path { IfOk result (λ d. timestamp_path_shown d
            ≡ value_at (codes "TimestampPath") (pairs members.now)) }
    {
        if let Some(seconds) = members.find("Seconds") {
            return Ok(Delay::Seconds(Count::read(alloc, seconds)?));
        }
        if let Some(path) = members.find("SecondsPath") {
            return Ok(Delay::SecondsPath(Compile::read(alloc, path)?));
        }
        if let Some(stamp) = members.find("Timestamp") {
            return Ok(Delay::Timestamp(Stamp::read(alloc, stamp)?));
        }
        let Some(path) = members.find("TimestampPath") else {
            unreachable!();
        };
        Ok(Delay::TimestampPath(Compile::read(alloc, path)?))
    }

    /// The value of `Seconds` as JSON, where it is there.
    fn seconds(&self, alloc: Global) -> Result<Option<Json>, AllocError>
        ensures { IfOk result (λ j. option_map data_of j ≡ seconds_shown self.now) }
    {
        match self {
            Delay::Seconds(count) => Ok(Some(count.json(alloc)?)),
            _ => Ok(None),
        }
    }

    /// The value of `SecondsPath` as JSON, where it is there.
    fn seconds_path(&self, alloc: Global) -> Result<Option<Json>, AllocError>
        ensures { IfOk result (λ j. option_map data_of j ≡ seconds_path_shown self.now) }
    {
        match self {
            Delay::SecondsPath(path) => Ok(Some(path.json(alloc)?)),
            _ => Ok(None),
        }
    }

    /// The value of `Timestamp` as JSON, where it is there.
    fn timestamp(&self, alloc: Global) -> Result<Option<Json>, AllocError>
        ensures { IfOk result (λ j. option_map data_of j ≡ timestamp_shown self.now) }
    {
        match self {
            Delay::Timestamp(stamp) => Ok(Some(stamp.json(alloc)?)),
            _ => Ok(None),
        }
    }

    /// The value of `TimestampPath` as JSON, where it is there.
    fn timestamp_path(&self, alloc: Global) -> Result<Option<Json>, AllocError>
        ensures { IfOk result (λ j. option_map data_of j ≡ timestamp_path_shown self.now) }
    {
        match self {
            Delay::TimestampPath(path) => Ok(Some(path.json(alloc)?)),
            _ => Ok(None),
        }
    }
}

impl Wait {
    /// `Comment`.
    pub fn comment(&self) -> Option<&Txt>
        ensures { option_map (λ t. text t.now) result
            ≡ value_in (codes "Comment") (wait_object self.now) }
    {
        self.common.comment.as_ref()
    }

    /// `QueryLanguage`.
    pub fn query_language(&self) -> Option<&Txt>
        ensures { option_map (λ t. text t.now) result
            ≡ value_in (codes "QueryLanguage") (wait_object self.now) }
    {
        self.common.query_language.as_ref()
    }

    /// `InputPath`.
    pub fn input_path(&self) -> &PathField
        ensures { path_shown result.now ≡ value_in (codes "InputPath") (wait_object self.now) }
    {
        &self.input_path
    }

    /// `Seconds`, `SecondsPath`, `Timestamp` or `TimestampPath`, of which exactly one is there.
    pub fn delay(&self) -> &Delay
        ensures seconds { seconds_shown result.now
            ≡ value_in (codes "Seconds") (wait_object self.now) }
        ensures seconds_path { seconds_path_shown result.now
            ≡ value_in (codes "SecondsPath") (wait_object self.now) }
        ensures timestamp { timestamp_shown result.now
            ≡ value_in (codes "Timestamp") (wait_object self.now) }
        ensures timestamp_path { timestamp_path_shown result.now
            ≡ value_in (codes "TimestampPath") (wait_object self.now) }
    {
        &self.delay
    }

    /// `OutputPath`.
    pub fn output_path(&self) -> &PathField
        ensures { path_shown result.now ≡ value_in (codes "OutputPath") (wait_object self.now) }
    {
        &self.output_path
    }

    /// `Next` or `"End": true`.
    pub fn next(&self) -> &Transition
        ensures next { next_shown result.now ≡ value_in (codes "Next") (wait_object self.now) }
        ensures end { end_shown result.now ≡ value_in (codes "End") (wait_object self.now) }
    {
        &self.next
    }

    /// Compiles the members of a Wait state without faults. The error is that memory ran out.
    pub fn read(alloc: Global, members: &Members) -> Result<Wait, AllocError>
        requires { IsOfKind wait_kind members.now }
        ensures { IfOk result (λ w. wait_object w ≡ canon state_sort (dict (pairs members.now))) }
    {
        Ok(Wait {
            common: Common::read(alloc, members)?,
            input_path: PathField::read(alloc, members.find("InputPath"))?,
            delay: Delay::read(alloc, members)?,
            output_path: PathField::read(alloc, members.find("OutputPath"))?,
            next: Transition::read(alloc, members)?,
        })
    }

    /// Its canonical object.
    pub fn json(&self, alloc: Global) -> Result<Json, AllocError>
        ensures { IfOk result (λ j. data_of j ≡ wait_object self.now) }
    {
        let own = with_path(alloc, Vec::new(alloc), "InputPath", &self.input_path)?;
        let seconds = self.delay.seconds(alloc)?;
        let own = and(own, "Seconds", seconds)?;
        let seconds_path = self.delay.seconds_path(alloc)?;
        let own = and(own, "SecondsPath", seconds_path)?;
        let timestamp = self.delay.timestamp(alloc)?;
        let own = and(own, "Timestamp", timestamp)?;
        let timestamp_path = self.delay.timestamp_path(alloc)?;
        let own = and(own, "TimestampPath", timestamp_path)?;
        let own = with_path(alloc, own, "OutputPath", &self.output_path)?;
        let own = self.next.entries(alloc, own)?;
        self.common.object(alloc, "Wait", own)
    }
}

impl TryClone for Delay {
    fn try_clone(&self, alloc: Global) -> Result<Delay, AllocError> {
        match self {
            Delay::Seconds(seconds) => Ok(Delay::Seconds(seconds.try_clone(alloc)?)),
            Delay::SecondsPath(path) => Ok(Delay::SecondsPath(path.try_clone(alloc)?)),
            Delay::Timestamp(stamp) => Ok(Delay::Timestamp(stamp.try_clone(alloc)?)),
            Delay::TimestampPath(path) => Ok(Delay::TimestampPath(path.try_clone(alloc)?)),
        }
    }
}

impl TryClone for Wait {
    fn try_clone(&self, alloc: Global) -> Result<Wait, AllocError> {
        Ok(Wait {
            common: self.common.try_clone(alloc)?,
            input_path: self.input_path.try_clone(alloc)?,
            delay: self.delay.try_clone(alloc)?,
            output_path: self.output_path.try_clone(alloc)?,
            next: self.next.try_clone(alloc)?,
        })
    }
}
