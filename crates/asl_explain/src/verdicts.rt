// Verdicts on tests.
ghost use Rattle.std.specs.Prelude.{◌≡◌, map};
ghost use Rattle.asl_explain.specs.Codes.{verdict_codes, code_of};

use crate::saying::Explanation;

const ALL: &[Explanation] = &[
    Explanation {
        code: "ok",
        name: None,
        sentence: "a test came out as expected",
        text: r#"The execution ended in the status that was expected, and all else that the test names fits. A test
that only expects FAILED is ok for any failure, also one that nobody meant: say more of it where
you can.

Told by test.
"#,
    },
    Explanation {
        code: "nocase",
        name: None,
        sentence: "the mock file has no such machine or no such test case",
        text: r#"Nothing was run. machine and case of a test are those of the mock file, letter by letter; correct
them there or here. M7 and M8 are the same for other commands.

Beside a definition of the Task Charge, which is answered by {"charged": true}:

Wrong:
    [{"machine": "Orders", "case": "payd", "input": {}, "status": "SUCCEEDED"}]
Right:
    [{"machine": "Orders", "case": "paid", "input": {}, "status": "SUCCEEDED"}]

Told by test.
"#,
    },
    Explanation {
        code: "limit",
        name: None,
        sentence: "the execution wasn't over after 10,000 steps, or after those that the test names",
        text: r#"It goes on without end, as in a loop that polls, or its history is full. Look at it by asl run,
and at no-end. A Task that is asked again and again wants a later answer in the mock file that
ends the loop, as "0-2" and "3". A test with steps takes these and no others: asl run of the same
case with --format steps prints those that lead to its end.

Told by test.
"#,
    },
    Explanation {
        code: "status",
        name: None,
        sentence: "the execution ended otherwise than expected",
        text: r#"The line behind the reports says how it ended, with its output or its error; asl run of the same
case, with --format tree, shows where. Correct the definition, the answers or the expected status.

Beside a definition of the Task Charge, which is answered by {"charged": true}:

Wrong:
    [{"machine": "Orders", "case": "paid", "input": {}, "status": "FAILED"}]
Right:
    [{"machine": "Orders", "case": "paid", "input": {}, "status": "SUCCEEDED"}]

Told by test.
"#,
    },
    Explanation {
        code: "output",
        name: None,
        sentence: "the output isn't the one that was expected",
        text: r#"The line behind the reports tells the first place that differs. Numbers are compared by their
value, objects as sets of members, lists item by item; an execution that didn't succeed has no
output.

Beside a definition of the Task Charge, which is answered by {"charged": true}:

Wrong:
    [{"machine": "Orders", "case": "paid", "input": {}, "status": "SUCCEEDED",
      "output": {"charged": false}}]
Right:
    [{"machine": "Orders", "case": "paid", "input": {}, "status": "SUCCEEDED",
      "output": {"charged": true}}]

Told by test.
"#,
    },
    Explanation {
        code: "match",
        name: None,
        sentence: "the output doesn't hold what it is to hold",
        text: r#"match wants of an object each member that it names, and there may be more; of a list as many
items, each by its own place; any other value is to be the same. The line behind the reports tells
the first place that differs. For the whole output there is output.

Told by test.
"#,
    },
    Explanation {
        code: "error",
        name: None,
        sentence: "the execution ended in an error of another name, or in none",
        text: r#"error is the name of the error that the execution fails with, or null for a failure without a
name. The line behind the reports says which came: see asl explain of that name where it begins
with States.

Told by test.
"#,
    },
    Explanation {
        code: "cause",
        name: None,
        sentence: "the error has another cause than expected",
        text: r#"cause is the whole text of the error's cause, or null where there is none. Causes that asl writes
itself are in FORMATS, "States that run".

Told by test.
"#,
    },
    Explanation {
        code: "visits",
        name: None,
        sentence: "a state was entered more or less often than expected",
        text: r#"A number of visits counts how often a state is entered, in all branches and iterations; a retry
doesn't enter it again. The line behind the reports names the state.

Beside a definition of the Task Charge, which is answered by {"charged": true}:

Wrong:
    [{"machine": "Orders", "case": "paid", "input": {}, "status": "SUCCEEDED",
      "visits": {"Charge": 2}}]
Right:
    [{"machine": "Orders", "case": "paid", "input": {}, "status": "SUCCEEDED",
      "visits": {"Charge": 1}}]

Told by test.
"#,
    },
    Explanation {
        code: "invocations",
        name: None,
        sentence: "a Task invoked its service more or less often than expected",
        text: r#"A number of invocations counts each call of the service, with retries, in all branches and
iterations: one that is retried once has two. For how often the state is entered there is visits.

Told by test.
"#,
    },
    Explanation {
        code: "calls",
        name: None,
        sentence: "a Task invoked its service with other inputs than expected",
        text: r#"calls lists what the service of a Task is invoked with, one after another: the input after
InputPath and Parameters. The line behind the reports tells the first place that differs.

Told by test.
"#,
    },
    Explanation {
        code: "endless",
        name: None,
        sentence: "an order of the test's branches never ends",
        text: r#"With --orders each order of the branches has to end. The driven run ends, and so does whatever
other outcome was found; but some order leads to where no end is reached any more. The command
line behind the reports is that of explore, which prints the order and the loop.

Told by test --orders.
"#,
    },
    Explanation {
        code: "cut",
        name: None,
        sentence: "the search of the test's orders was cut, so not every order was tried",
        text: r#"With --orders at most so many worlds are tried for each test as --limit says, 100000 without it.
What was found is as expected, but more waits to be tried. A greater limit tries more; so does a
mock file that gives the Tasks of a Map one answer for all numbers, as with the key 0-9999.

Told by test --orders.
"#,
    },
    Explanation {
        code: "unanswered",
        name: None,
        sentence: "the test would be ok, but its run failed since its case has no answer",
        text: r#"With --strict a test fails that may not mean what it says. This one expects FAILED, and the run
failed since the mock file has no answer to an invocation. Add the answer; or where the missing
answer is meant, write "error": "States.Runtime" into the test. Without --strict it is a note.

Told by test --strict.
"#,
    },
    Explanation {
        code: "accident",
        name: None,
        sentence: "the test would be ok, but it names no error and its run failed by accident",
        text: r#"With --strict a test fails that may not mean what it says. This one expects FAILED without naming
an error, and the run failed in States.Runtime, States.ParameterPathFailure,
States.IntrinsicFailure, States.ResultPathMatchFailure or States.DataLimitExceeded, which mostly
come of a mistake in the definition. Name the error that is meant. Without --strict it is a note.

Told by test --strict.
"#,
    },
];

/// The codes of verdicts, in order.
pub(crate) fn all() -> &'static [Explanation]
    ensures { map code_of result.now ≡ verdict_codes }
{
    ALL
}
