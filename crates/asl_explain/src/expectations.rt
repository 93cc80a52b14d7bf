// Faults of expectation files.
ghost use Rattle.std.specs.Prelude.{◌≡◌, map};
ghost use Rattle.asl_explain.specs.Codes.{expectation_codes, code_of};

use crate::saying::Explanation;

const ALL: &[Explanation] = &[
    Explanation {
        code: "X1",
        name: Some("Json"),
        sentence: "the expectation file is no JSON text",
        text: r#"A file of expectations is one JSON text (RFC 8259): a list of tests. The fault of the text stands
behind this one: asl explain J1, and so on.

Wrong:
    [{"machine": "Orders", "case": "paid", "input": {}, "status": "SUCCEEDED"},]
Right:
    [{"machine": "Orders", "case": "paid", "input": {}, "status": "SUCCEEDED"}]

Told by test.
"#,
    },
    Explanation {
        code: "X2",
        name: Some("Shape"),
        sentence: "a value of the expectation file doesn't fit its place",
        text: r#"Each test is an object with the texts machine, case and status (SUCCEEDED, FAILED or TIMED_OUT)
and an input of any kind; it may have output, and visits, an object from names of states to whole
numbers. FORMATS, "Expectation files", has all members. The place is that of the value, or of the
test that lacks a member.

Wrong:
    [{"machine": "Orders", "case": "paid", "input": {}, "status": "OK"}]
Right:
    [{"machine": "Orders", "case": "paid", "input": {}, "status": "SUCCEEDED"}]

Told by test.
"#,
    },
    Explanation {
        code: "X3",
        name: Some("OutOfMemory"),
        sentence: "memory ran out while an expectation file was read",
        text: r#"It is told as fault: OutOfMemory: see F16.

Told by test.
"#,
    },
    Explanation {
        code: "X4",
        name: Some("NoTest"),
        sentence: "the expectation file has no test of this number",
        text: r#"--test SUITE#N names a file of expectations and one of its tests by its number, from 1, as
asl test --list prints it.

Wrong (the file has two tests):
    asl run definition.json mocks.json --test expectations.json#3
Right:
    asl run definition.json mocks.json --test expectations.json#2

Told by run, debug and explore.
"#,
    },
];

/// The codes of expectation files, in order.
pub(crate) fn all() -> &'static [Explanation]
    ensures { map code_of result.now ≡ expectation_codes }
{
    ALL
}
