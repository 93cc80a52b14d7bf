//! The commands of the emulator: one function over words, files and two sinks, which the program `asl` calls.
//!
//! Modules in reading order: `fault` is why a command isn't done, and its line; `mending` has lines for people behind it, beside those of `asl_lint_files`; `reading` reads the files that words name, and `beginning` those of an execution, for which `choices` finds what is chosen of a project; `checking` is
//! the command `check`, `linting` the command `lint`, `printing` the command `print`, `upgrading` the command `upgrade`, for which `layouts` lays JSON out, `graphing` the command `graph`, `mocking` the command `mocks`,
//! `debugging` the command `debug`, for which `talking` answers lines, `testing` the command `test`, for which `choosing` has the tests that are run, `inputs` reads their inputs, `leaving` prints and writes their reports, `ordering` has a line on their orders, `progress` how far it is,
//! `failing` why executions of tests failed and `covering` what is covered; `projects` does a command for each workflow of a project, and `suites` the command `test`; `exploring` the command `explore`, `exploring_all` the same on a project, for which `cases` lists test cases, and `injecting` where errors are put in, for which `ruling` reads rules; `explaining` the command `explain`; `serving` the command `lsp`; `noting` tells of answers that were lacking; `formatting` runs in the format that is asked for; `command` has the command `run`, and all that a command line may
//! ask for.
#![tactic(auto)]

mod beginning;
mod cases;
mod checking;
mod choices;
mod choosing;
mod command;
mod covering;
mod debugging;
mod explaining;
mod exploring;
mod exploring_all;
mod failing;
mod fault;
mod formatting;
mod graphing;
mod injecting;
mod inputs;
mod layouts;
mod leaving;
mod linting;
mod mending;
mod misnaming;
mod mocking;
mod noting;
mod ordering;
mod printing;
mod progress;
mod projects;
mod reading;
mod ruling;
mod serving;
mod suites;
mod talking;
mod testing;
mod upgrading;

pub use checking::check;
pub use command::{obey, refuse_words, run, run_words};
pub use debugging::debug;
pub use explaining::explain;
pub use exploring::explore;
pub use exploring_all::explore_all;
pub use fault::CommandFault;
pub use graphing::graph;
pub use injecting::inject;
pub use linting::lint;
pub use mocking::mocks;
pub use printing::print;
pub use progress::Progress;
pub use projects::{check_all, lint_all};
pub use serving::serve;
pub use suites::test_all;
pub use testing::test;
pub use upgrading::upgrade;
