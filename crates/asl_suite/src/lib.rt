//! Suites of tests: what is reported of each, and the text of the reports.
//!
//! Modules in reading order: `suite` is what a suite has, `case_report` what is reported of a test; `judging` gives the verdict, `running`
//! runs a test, and `reporting` prints the reports. `ordering` makes the test that every order of its branches has to meet. `reason` is why a test isn't passed, which `explaining` finds.
//!
//! Beside the reports: `finding` is what is told of a test; `difference` says what differs from what was wanted, `alone` how the test is run
//! by itself; `telling` has lines for people, `json_lines` and `junit_xml` the formats for tools, of which `xml` has the texts.
#![tactic(auto)]

mod alone;
mod case_report;
mod difference;
mod doubting;
mod explaining;
mod finding;
mod json_lines;
mod judging;
mod junit_xml;
mod ordering;
mod reason;
mod reporting;
mod running;
mod suite;
mod telling;
mod xml;

pub use case_report::{CaseReport, Doubt, Search, Status, Unmet, Verdict};
pub use doubting::strictly;
pub use explaining::explain;
pub use finding::{Finding, Source, findings};
pub use json_lines::json;
pub use junit_xml::{junit, junit_suite, junit_suites};
pub use ordering::for_orders;
pub use reason::Reason;
pub use reporting::{all_passed, is_passed, report};
pub use running::{run_case, run_order, setup_in};
pub use suite::Suite;
pub use telling::{notes, put_test, remarks};
