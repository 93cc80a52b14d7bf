//! What the words of a command line ask for.
//!
//! Modules in reading order: `verbs` has the commands, `given` what is given for their arguments, `screen` where answers are read; `words` is what may be
//! asked for, and `meaning` what is asked for by what is given, `exploring` by `explore`; `misuse` says why nothing is. How words are read is no matter of this crate.
#![tactic(auto)]

mod exploring;
mod given;
mod meaning;
mod misuse;
mod screen;
mod verbs;
mod words;

pub use given::Given;
pub use meaning::asked;
pub use misuse::{Misuse, misuse_of, put_misuse};
pub use screen::Screen;
pub use verbs::Verb;
pub use words::{
    Asked, Begin, ChosenWords, CoverageFormat, DebugFormat, DebugWords, DefinitionWords,
    ErrorsBegin, ErrorsFormat, ErrorsShown, ErrorsWords, ExplainWords, ExploreAllWords,
    ExploreWords, GraphFormat, GraphWords, LintAllWords, LintFormat, LintWords, MocksWords,
    OrderWords, PlansFormat, PrintWords, ProjectWords, ReportFormat, RunFormat, RunWords,
    SampleWords, SetupWords, Shard, Subject, TestAllWords, TestWords, TestedWords, WitnessFormat,
    Words,
};
