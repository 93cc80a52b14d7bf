//! What `lint` finds in files of every kind: which kind a file is of, and what is wrong or suspicious in each.
//!
//! Modules in reading order: `kinds` tells the kinds apart; `pointing` goes where a JSON Pointer points, and `cutting` cuts files into lines; `wanting` says what is to
//! stand where something is wrong; `judging` has the findings of a file by its kind, `casing` the tests of cases that a mock file doesn't have, and `linting` those of several
//! files beside one another; `mending` is what stands behind the fault of a file that a command refuses.
//!
//! `specs/Kinds.antt` says which kind a file is of, `specs/Pointing.antt` where a pointer points, `specs/Lines.antt` where a line stands, `specs/Judged.antt` what is found
//! in a file, and `specs/Linted.antt` what is found in several.
#![tactic(auto)]

mod casing;
mod cutting;
mod judging;
mod kinds;
mod linting;
mod mending;
mod pointing;
mod wanting;

pub use judging::{lint_expectations, lint_input, lint_script, lint_steps};
pub use kinds::{Kind, Role};
pub use linting::{LintFile, LintedFiles, lint_files};
pub use mending::{
    RunNames, of_command, of_definition, of_expectations, of_json, of_mocks, of_run, put_file,
    put_names,
};
