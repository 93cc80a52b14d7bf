// How the iterations of a Map state are run.
ghost use Rattle.std.specs.Prelude.{◌≡◌};

use crate::compiled::{Compile, Compiled, json_optional, read_optional};
use crate::entry::{Entry, object};
use asl_json::{Json, Txt};
use std::alloc::{AllocError, Global};

/// The `Mode` of a `ProcessorConfig`. (Amazon States Language, "Map State"; Developer Guide, "Map state processing modes".)
#[derive(Clone, Copy, Debug, PartialEq, Eq)]
pub enum Mode {
    /// `INLINE`: iterations are part of the execution of their Map.
    Inline,
}

impl Compiled for Mode {
    ghost use Rattle.asl_def_fields.specs.Shown.{mode_shown};

    ghost shown = { mode_shown };

    fn json(&self, alloc: Global) -> Result<Json, AllocError> {
        let text = match self {
            Mode::Inline => "INLINE",
        };
        Ok(Json::Text(Txt::of(alloc, text)?))
    }
}

impl Compile for Mode {
    ghost use Rattle.asl_def_fields.specs.Readable.{IsMode};

    ghost Fits = { IsMode };

    fn read(_alloc: Global, value: &Json) -> Result<Mode, AllocError> {
        let Json::Text(text) = value else {
            unreachable!();
        };
        match text.as_str() {
            "INLINE" => Ok(Mode::Inline),
            _ => unreachable!(),
        }
    }
}

/// The `ProcessorConfig` of an `ItemProcessor`. Iterations run inline, whether it says so or not.
#[derive(Clone, Copy, Debug, PartialEq, Eq)]
pub struct ProcessorConfig {
    /// Its `Mode`.
    pub mode: Option<Mode>,
}

impl Compiled for ProcessorConfig {
    ghost use Rattle.asl_def_fields.specs.Shown.{config_shown};

    ghost shown = { config_shown };

    fn json(&self, alloc: Global) -> Result<Json, AllocError> {
        let mode = json_optional(alloc, &self.mode)?;
        let mut entries = Vec::new(alloc);
        entries.push(Entry {
            name: "Mode",
            value: mode,
        })?;
        object(alloc, entries)
    }
}

impl Compile for ProcessorConfig {
    ghost use Rattle.asl_def_fields.specs.Readable.{IsProcessorConfig};

    ghost Fits = { IsProcessorConfig };

    fn read(alloc: Global, value: &Json) -> Result<ProcessorConfig, AllocError> {
        let Json::Dict(members) = value else {
            unreachable!();
        };
        let _members = members.members();
        Ok(ProcessorConfig {
            mode: read_optional(alloc, members.find("Mode"))?,
        })
    }
}
