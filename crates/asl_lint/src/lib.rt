//! Everything that is wrong or suspicious in a definition and in the mock file beside it, where it stands, and how it is mended.
//!
//! Modules in reading order: `rule`, `finding` and `report` are what is told, and `part` at what it points, and `noting` tells something at a place; `json_faults` says what is wrong with a text that is no JSON; `placing` finds
//! lines and columns; `definition` has the findings of a definition, `mocks` those of a mock file, by itself and beside a definition, `mock_words` and `gaps` what
//! is said of them, and `linting` all; `lines`, `json_lines`, `sarif_log`, `github_commands` and `gitlab_issues` are the formats, and `pieces` what they share.
#![tactic(auto)]

mod definition;
mod finding;
mod gaps;
mod github_commands;
mod gitlab_issues;
mod json_faults;
mod json_lines;
mod lines;
mod linting;
mod mock_words;
mod mocks;
mod noting;
mod part;
mod pieces;
mod placing;
mod report;
mod rule;
mod sarif_log;

pub use finding::{Finding, Found};
pub use github_commands::github;
pub use gitlab_issues::gitlab;
pub use json_faults::unread;
pub use json_lines::json;
pub use lines::{errors, text};
pub use linting::{Source, lint, lint_mocks, unread_in};
pub use noting::told_at;
pub use placing::{alone, placed};
pub use report::{FileReport, Report, is_good};
pub use rule::{FileRule, MockRule, Rule, Severity};
pub use sarif_log::sarif;
