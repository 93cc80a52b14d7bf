// Faults of files of lines: steps and scripts.
ghost use Rattle.std.specs.Prelude.{◌≡◌, map};
ghost use Rattle.asl_explain.specs.Codes.{line_codes, code_of};

use crate::saying::Explanation;

const ALL: &[Explanation] = &[
    Explanation {
        code: "E1",
        name: Some("StepLine"),
        sentence: "a line of a steps file is no step",
        text: r#"The number is that of the line, from 1. A step is the place of a branch, / or /0/1, one space, and
a timestamp (RFC 3339); lines end in a line feed alone, and none is empty. asl run with --format
steps prints the steps of a run so.

Wrong:
    / 2026-01-01
Right:
    / 2026-01-01T00:00:00Z

Told by run with --steps.
"#,
    },
    Explanation {
        code: "E2",
        name: Some("ScriptLine"),
        sentence: "a line of a script is no command",
        text: r#"The number is that of the line, from 1, and nothing was run. A command is step PLACE STAMP, break
NAME, clear NAME, resume PLACE, show PLACE or back N, with single spaces; NAME stands in double
quotes. The words next, continue and quit are for lines that are typed alone.

Wrong:
    break Ship
Right:
    break "Ship"

Told by debug with a script.
"#,
    },
];

/// The codes of files of lines, in order.
pub(crate) fn all() -> &'static [Explanation]
    ensures { map code_of result.now ≡ line_codes }
{
    ALL
}
