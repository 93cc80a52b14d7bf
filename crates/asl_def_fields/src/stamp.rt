// Timestamps with their spelling.
ghost use Rattle.asl_time.specs.Timestamp.{IsTimestamp};

use crate::compiled::{Compile, Compiled};
use crate::copies::TryClone;
use asl_json::{Json, Txt};
use asl_time::{Moment, read_stamp};
use std::alloc::{AllocError, Global};
use std::marker::Model;

/// A timestamp. (Amazon States Language, "Timestamps".) Contracts see it as its text.
pub struct Stamp {
    text: Txt,
    moment: Moment,
}

// Written out, so that a caller's proof sees one call and not the drop of each part.
impl Drop for Stamp {
    fn drop(self) {
        let Stamp {
            text: _text,
            moment: _moment,
        } = self;
    }
}

impl Model for Stamp {
    ghost use Rattle.std.specs.Prelude.{List, ℕ};
    ghost use Rattle.asl_time.specs.Timestamp.{IsTimestamp};

    ghost Value = { List ℕ };

    ghost view = { λ a. a.text };

    ghost invariant = { λ a. IsTimestamp a.text a.moment };
}

impl PartialEq for Stamp {
    ghost use Rattle.std.specs.Prelude.{nat_eq};
    ghost use Rattle.std.specs.Cmp.Lexicographic.{pointwise};
    ghost use Rattle.std.specs.Cmp.{partial_equiv_from_equiv};
    ghost use Rattle.std.proofs.lemmas.Cmp.{nat_list_eq_equiv};

    ghost eq = { pointwise nat_eq };

    ghost laws = { partial_equiv_from_equiv nat_list_eq_equiv };

    fn eq(&self, other: &Stamp) -> bool {
        self.text == other.text
    }
}

impl Eq for Stamp {
    ghost use Rattle.std.proofs.lemmas.Cmp.{nat_list_eq_equiv};

    ghost laws = { nat_list_eq_equiv };
}

impl Stamp {
    /// Its moment.
    pub fn moment(&self) -> Moment
        ensures { IsTimestamp self.now result }
    {
        let Stamp { moment, .. } = self;
        *moment
    }
}

impl Compiled for Stamp {
    ghost use Rattle.asl_json_data.specs.Data.{text};

    ghost shown = { text };

    fn json(&self, alloc: Global) -> Result<Json, AllocError> {
        self.text.json(alloc)
    }
}

impl Compile for Stamp {
    ghost use Rattle.asl_def_fields.specs.Readable.{IsStamp};

    ghost Fits = { IsStamp };

    fn read(alloc: Global, value: &Json) -> Result<Stamp, AllocError> {
        let Json::Text(text) = value else {
            unreachable!();
        };
        let Some(moment) = read_stamp(text.as_str()) else {
            unreachable!();
        };
        Ok(Stamp {
            text: text.try_clone(alloc)?,
            moment,
        })
    }
}

impl TryClone for Stamp {
    fn try_clone(&self, alloc: Global) -> Result<Stamp, AllocError> {
        Ok(Stamp {
            text: self.text.try_clone(alloc)?,
            moment: self.moment,
        })
    }
}
