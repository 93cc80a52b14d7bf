// Numbers with their spelling.
ghost use Rattle.std.specs.Prelude.{◌≡◌, ◌≤◌, Some, pos};
ghost use Rattle.asl_json_data.specs.Number.{units_of};
ghost use Rattle.asl_json.specs.Whole.{whole_of};

use crate::compiled::{Compile, Compiled};
use crate::copies::TryClone;
use asl_json::{Dec, Json};
use asl_time::Rate;
use std::alloc::{AllocError, Global};
use std::marker::Model;

/// A whole number from 0 to 99,999,999. Contracts see it as its spelling.
pub struct Count {
    spelled: Dec,
    value: u32,
}

// Written out, so that a caller's proof sees one call and not the drop of each part.
impl Drop for Count {
    fn drop(self) {
        let Count {
            spelled: _spelled,
            value: _value,
        } = self;
    }
}

impl Model for Count {
    ghost use Rattle.std.specs.Prelude.{List, ℕ, ◌≡◌, ◌≤◌, Some, pos};
    ghost use Rattle.asl_json.specs.Whole.{whole_of};

    ghost Value = { List ℕ };

    ghost view = { λ a. a.spelled };

    ghost invariant = { λ a. (whole_of a.spelled ≡ Some (pos a.value)) × (a.value ≤ 99_999_999) };
}

/// The factor by which each delay before a retry is longer than the one before. (Amazon States Language, "Retrying after
/// error".) Contracts see it as its spelling.
pub struct BackoffRate {
    spelled: Dec,
    rate: Rate,
}

impl Drop for BackoffRate {
    fn drop(self) {
        let BackoffRate {
            spelled: _spelled,
            rate: _rate,
        } = self;
    }
}

impl Model for BackoffRate {
    ghost use Rattle.std.specs.Prelude.{List, ℕ, ◌≡◌, pos};
    ghost use Rattle.asl_json_data.specs.Number.{units_of};

    ghost Value = { List ℕ };

    ghost view = { λ a. a.spelled };

    ghost invariant = { λ a. pos a.rate ≡ units_of a.spelled };
}

/// The longest delay before a retry, in seconds: a whole number from 1 to 31,622,399. (Amazon States Language, "Retrying after
/// error".) Contracts see it as its spelling.
pub struct DelayLimit {
    seconds: Count,
}

impl Drop for DelayLimit {
    fn drop(self) {
        let DelayLimit { seconds: _seconds } = self;
    }
}

impl Model for DelayLimit {
    ghost use Rattle.std.specs.Prelude.{List, ℕ};
    ghost use Rattle.asl_json_data.specs.Data.{number};
    ghost use Rattle.asl_def_fields.specs.Readable.{IsDelayLimit};

    ghost Value = { List ℕ };

    ghost view = { λ a. a.seconds };

    ghost invariant = { λ a. IsDelayLimit (number a.seconds) };
}

impl PartialEq for Count {
    ghost use Rattle.std.specs.Prelude.{nat_eq};
    ghost use Rattle.std.specs.Cmp.Lexicographic.{pointwise};
    ghost use Rattle.std.specs.Cmp.{partial_equiv_from_equiv};
    ghost use Rattle.std.proofs.lemmas.Cmp.{nat_list_eq_equiv};

    ghost eq = { pointwise nat_eq };

    ghost laws = { partial_equiv_from_equiv nat_list_eq_equiv };

    fn eq(&self, other: &Count) -> bool {
        self.spelled.spelling() == other.spelled.spelling()
    }
}

impl Eq for Count {
    ghost use Rattle.std.proofs.lemmas.Cmp.{nat_list_eq_equiv};

    ghost laws = { nat_list_eq_equiv };
}

impl PartialEq for BackoffRate {
    ghost use Rattle.std.specs.Prelude.{nat_eq};
    ghost use Rattle.std.specs.Cmp.Lexicographic.{pointwise};
    ghost use Rattle.std.specs.Cmp.{partial_equiv_from_equiv};
    ghost use Rattle.std.proofs.lemmas.Cmp.{nat_list_eq_equiv};

    ghost eq = { pointwise nat_eq };

    ghost laws = { partial_equiv_from_equiv nat_list_eq_equiv };

    fn eq(&self, other: &BackoffRate) -> bool {
        self.spelled.spelling() == other.spelled.spelling()
    }
}

impl Eq for BackoffRate {
    ghost use Rattle.std.proofs.lemmas.Cmp.{nat_list_eq_equiv};

    ghost laws = { nat_list_eq_equiv };
}

impl PartialEq for DelayLimit {
    ghost use Rattle.std.specs.Prelude.{nat_eq};
    ghost use Rattle.std.specs.Cmp.Lexicographic.{pointwise};
    ghost use Rattle.std.specs.Cmp.{partial_equiv_from_equiv};
    ghost use Rattle.std.proofs.lemmas.Cmp.{nat_list_eq_equiv};

    ghost eq = { pointwise nat_eq };

    ghost laws = { partial_equiv_from_equiv nat_list_eq_equiv };

    fn eq(&self, other: &DelayLimit) -> bool {
        self.seconds == other.seconds
    }
}

impl Eq for DelayLimit {
    ghost use Rattle.std.proofs.lemmas.Cmp.{nat_list_eq_equiv};

    ghost laws = { nat_list_eq_equiv };
}

impl Count {
    /// The number.
    pub fn value(&self) -> u32
        ensures value { whole_of self.now ≡ Some (pos result) }
        ensures bound { result ≤ 99_999_999 }
    {
        let Count { value, .. } = self;
        *value
    }
}

impl Compiled for Count {
    ghost use Rattle.asl_json_data.specs.Data.{number};

    ghost shown = { number };

    fn json(&self, alloc: Global) -> Result<Json, AllocError> {
        self.spelled.json(alloc)
    }
}

impl Compile for Count {
    ghost use Rattle.asl_def_fields.specs.Readable.{IsCount};

    ghost Fits = { IsCount };

    fn read(alloc: Global, value: &Json) -> Result<Count, AllocError> {
        let Json::Num(number) = value else {
            unreachable!();
        };
        let Some(whole) = number.whole() else {
            unreachable!();
        };
        Ok(Count {
            spelled: number.try_clone(alloc)?,
            value: whole as u32,
        })
    }
}

impl TryClone for Count {
    fn try_clone(&self, _alloc: Global) -> Result<Count, AllocError> {
        Ok(Count {
            spelled: self.spelled.copy(),
            value: self.value,
        })
    }
}

impl BackoffRate {
    /// The factor.
    pub fn rate(&self) -> Rate
        ensures { pos result ≡ units_of self.now }
    {
        let BackoffRate { rate, .. } = self;
        *rate
    }
}

impl Compiled for BackoffRate {
    ghost use Rattle.asl_json_data.specs.Data.{number};

    ghost shown = { number };

    fn json(&self, alloc: Global) -> Result<Json, AllocError> {
        self.spelled.json(alloc)
    }
}

impl Compile for BackoffRate {
    ghost use Rattle.asl_def_fields.specs.Readable.{IsRate};

    ghost Fits = { IsRate };

    fn read(alloc: Global, value: &Json) -> Result<BackoffRate, AllocError> {
        let Json::Num(number) = value else {
            unreachable!();
        };
        let Some(rate) = Rate::of(number.units()) else {
            unreachable!();
        };
        Ok(BackoffRate {
            spelled: number.try_clone(alloc)?,
            rate,
        })
    }
}

impl TryClone for BackoffRate {
    fn try_clone(&self, _alloc: Global) -> Result<BackoffRate, AllocError> {
        Ok(BackoffRate {
            spelled: self.spelled.copy(),
            rate: self.rate,
        })
    }
}

impl DelayLimit {
    /// The number of seconds.
    pub fn seconds(&self) -> u32
        ensures value { whole_of self.now ≡ Some (pos result) }
        ensures bound { result ≤ 31_622_399 }
    {
        let DelayLimit { seconds } = self;
        seconds.value()
    }
}

impl Compiled for DelayLimit {
    ghost use Rattle.asl_json_data.specs.Data.{number};

    ghost shown = { number };

    fn json(&self, alloc: Global) -> Result<Json, AllocError> {
        self.seconds.json(alloc)
    }
}

impl Compile for DelayLimit {
    ghost use Rattle.asl_def_fields.specs.Readable.{IsDelayLimit};

    ghost Fits = { IsDelayLimit };

    fn read(alloc: Global, value: &Json) -> Result<DelayLimit, AllocError> {
        Ok(DelayLimit {
            seconds: Count::read(alloc, value)?,
        })
    }
}

impl TryClone for DelayLimit {
    fn try_clone(&self, alloc: Global) -> Result<DelayLimit, AllocError> {
        Ok(DelayLimit {
            seconds: self.seconds.try_clone(alloc)?,
        })
    }
}
