// Why a shared run isn't closed, or a suite has no reports.
ghost use Rattle.std.specs.Prelude.{◌≡◌, map};
ghost use Rattle.asl_explain.specs.Codes.{closing_codes, code_of};

use crate::saying::Explanation;

const ALL: &[Explanation] = &[
    Explanation {
        code: "H1",
        name: Some("SeatMissing"),
        sentence: "a shared run is closed without one of its seats",
        text: r#"Each seat that was given out has to be handed back, since its list of commands is compared with
the run's record. The number is the least that is missing.

Told by no command: programs tell it that share a run between threads, or run a suite by the
library.
"#,
    },
    Explanation {
        code: "H2",
        name: Some("Mismatch"),
        sentence: "a seat's list isn't that of its commands in the record",
        text: r#"The seat of this number has a list that doesn't fit the record, is there twice, or was never given
out: hand back the seats that the run gave, each once.

Told by no command: programs tell it that share a run between threads, or run a suite by the
library.
"#,
    },
    Explanation {
        code: "H3",
        name: Some("Foreign"),
        sentence: "a seat belongs to another run",
        text: r#"Seats have the label of the run that gave them. Hand each back to its own run; a command by a
foreign seat isn't carried out.

Told by no command: programs tell it that share a run between threads, or run a suite by the
library.
"#,
    },
    Explanation {
        code: "H4",
        name: Some("NotRun"),
        sentence: "a test of a suite found no memory",
        text: r#"The suite has no reports. The number is that of the first such test, from 0. See F16.

Told by no command: programs tell it that share a run between threads, or run a suite by the
library.
"#,
    },
    Explanation {
        code: "H5",
        name: Some("OutOfMemory"),
        sentence: "there was no memory for the reports of a suite",
        text: r#"See F16.

Told by no command: programs tell it that share a run between threads, or run a suite by the
library.
"#,
    },
    Explanation {
        code: "H6",
        name: Some("OtherSetup"),
        sentence: "a shared run isn't the one that was opened",
        text: r#"Behind the lock stands a run of another definition, mock file, case or input, or with another
label, than the one that was opened. Close each run with what it was opened with.

Told by no command: programs tell it that share a run between threads, or run a suite by the
library.
"#,
    },
];

/// The codes of shared runs and suites that aren't closed, in order.
pub(crate) fn all() -> &'static [Explanation]
    ensures { map code_of result.now ≡ closing_codes }
{
    ALL
}
