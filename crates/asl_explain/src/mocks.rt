// Faults of mock files, and of what is chosen in them.
ghost use Rattle.std.specs.Prelude.{◌≡◌, map};
ghost use Rattle.asl_explain.specs.Codes.{mock_codes, code_of};

use crate::saying::Explanation;

const ALL: &[Explanation] = &[
    Explanation {
        code: "M1",
        name: Some("Json"),
        sentence: "the mock file is no JSON text",
        text: r#"A mock file is one JSON text (RFC 8259), in the format of Step Functions Local's
MockConfigFile.json. The fault of the text stands behind this one: asl explain J1, and so on.

Wrong:
    {"StateMachines": {}, "MockedResponses": {},}
Right:
    {"StateMachines": {}, "MockedResponses": {}}

Told by run, debug, test, explore and graph --run, and lint where a mock file is named.
"#,
    },
    Explanation {
        code: "M2",
        name: Some("Shape"),
        sentence: "a value of the mock file doesn't fit its place",
        text: r#"StateMachines holds machines, each with TestCases, and these hold cases, each from names of states
to names of responses. MockedResponses holds responses, each from numbers to answers: exactly one
of Return (any value) and Throw (Error, and at most Cause, both texts). (Developer Guide, "Testing
state machines with Step Functions Local", mocked service integrations.) asl mocks DEF prints one
to begin with.

Wrong:
    {"MockedResponses": {"Charged": {"0": {"Throw": {"Cause": "no money"}}}}}
Right:
    {"MockedResponses": {"Charged": {"0": {"Throw": {"Error": "Refused", "Cause": "no money"}}}}}

Told by run, debug, test, explore and graph --run, and lint where a mock file is named.
"#,
    },
    Explanation {
        code: "M3",
        name: Some("Key"),
        sentence: "the key of an answer is neither a number nor a range of numbers",
        text: r#"The answers of a response are found by how often the state was invoked before: "0" is the first
invocation, "1-3" the second to the fourth. Each number has 1 to 9 digits, and the first of a
range is at most the second.

Wrong:
    {"MockedResponses": {"Charged": {"2-1": {"Return": {}}}}}
Right:
    {"MockedResponses": {"Charged": {"1-2": {"Return": {}}}}}

Told by run, debug, test, explore and graph --run, and lint where a mock file is named.
"#,
    },
    Explanation {
        code: "M4",
        name: Some("Overlap"),
        sentence: "two keys of a response have a number in common",
        text: r#"Each invocation has one answer, so the numbers of two keys of a response may not meet. The place
is that of the later key: change its numbers, or those of the earlier one.

Wrong:
    {"MockedResponses": {"Charged": {"0-2": {"Throw": {"Error": "Busy"}}, "2": {"Return": {}}}}}
Right:
    {"MockedResponses": {"Charged": {"0-1": {"Throw": {"Error": "Busy"}}, "2": {"Return": {}}}}}

Told by run, debug, test, explore and graph --run, and lint where a mock file is named.
"#,
    },
    Explanation {
        code: "M5",
        name: Some("NoResponse"),
        sentence: "a test case names a response that isn't there",
        text: r#"A test case leads from the name of a state to the name of a response, and that is a member of
MockedResponses. Correct the name, or add the response.

Wrong:
    {"StateMachines": {"Orders": {"TestCases": {"paid": {"Charge": "Chargd"}}}},
     "MockedResponses": {"Charged": {"0": {"Return": {}}}}}
Right:
    {"StateMachines": {"Orders": {"TestCases": {"paid": {"Charge": "Charged"}}}},
     "MockedResponses": {"Charged": {"0": {"Return": {}}}}}

Told by run, debug, test, explore and graph --run, and lint where a mock file is named.
"#,
    },
    Explanation {
        code: "M6",
        name: Some("OutOfMemory"),
        sentence: "memory ran out while a mock file was read",
        text: r#"It is told as fault: OutOfMemory: see F16.

Told by every command that reads a mock file.
"#,
    },
    Explanation {
        code: "M7",
        name: Some("NoMachine"),
        sentence: "no machine of the mock file has the name that was chosen",
        text: r#"What you choose is Machine#Case, and Machine is a member of StateMachines; where the file has one
machine, the name of its case is enough. For lint, name the machine behind the mock file where
that has several. The line behind the fault lists the cases that there are.

Wrong, beside {"StateMachines": {"Orders": {"TestCases": {"paid": {}}}}}:
    Order#paid
Right:
    Orders#paid

Told by run, debug, explore and graph --run, and lint where the machine isn't clear.
"#,
    },
    Explanation {
        code: "M8",
        name: Some("NoCase"),
        sentence: "the machine has no test case of the name that was chosen",
        text: r#"What you choose is Machine#Case, and Case is a member of the machine's TestCases; all behind the
first # belongs to its name. Without a case, as Orders, no Task has an answer. The line behind the
fault lists the cases that there are.

Wrong, beside {"StateMachines": {"Orders": {"TestCases": {"paid": {}}}}}:
    Orders#payd
Right:
    Orders#paid

Told by run, debug, explore and graph --run; test says nocase in its place.
"#,
    },
];

/// The codes of mock files, in order.
pub(crate) fn all() -> &'static [Explanation]
    ensures { map code_of result.now ≡ mock_codes }
{
    ALL
}
