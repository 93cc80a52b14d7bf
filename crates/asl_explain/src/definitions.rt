// Faults of definitions.
ghost use Rattle.std.specs.Prelude.{◌≡◌, map};
ghost use Rattle.asl_explain.specs.Codes.{definition_codes, code_of};

use crate::saying::Explanation;

const ALL: &[Explanation] = &[
    Explanation {
        code: "F1",
        name: Some("Json"),
        sentence: "the definition is no JSON text",
        text: r#"A definition is one JSON text (RFC 8259): no comments, no commas behind the last member, texts in
double quotes. The fault of the text stands behind this one, with its place in bytes: asl explain
J1, and so on. The line behind it names the line and the column. M1 and X1 say the same of other
files.

Wrong:
    {"StartAt": "A", "States": {"A": {"Type": "Succeed"}},}
Right:
    {"StartAt": "A", "States": {"A": {"Type": "Succeed"}}}

Told by check and lint, and every other command that reads a definition.
"#,
    },
    Explanation {
        code: "F2",
        name: Some("NotObject"),
        sentence: "the definition isn't a JSON object",
        text: r#"A state machine is an object with the members StartAt and States. (Amazon States Language,
"Top-level fields".)

Wrong:
    [{"StartAt": "A", "States": {"A": {"Type": "Succeed"}}}]
Right:
    {"StartAt": "A", "States": {"A": {"Type": "Succeed"}}}

Told by check and lint, and every other command that reads a definition.
"#,
    },
    Explanation {
        code: "F3",
        name: Some("Missing"),
        sentence: "a member that has to be there is missing",
        text: r#"The place names the member that the object lacks: StartAt and States of a machine, Type of a
state, Resource of a Task, Choices, Branches, ErrorEquals, Next of a rule of a Choice or of a
catcher, or Variable beside a comparison. (Amazon States Language, "State Types".) Add it, or
correct its spelling: a misspelt member is F4 beside it.

Wrong:
    {"StartAt": "A", "States": {"A": {"Type": "Task", "End": true}}}
Right:
    {"StartAt": "A", "States": {"A": {"Type": "Task", "Resource": "r", "End": true}}}

Told by check and lint, and every other command that reads a definition.
"#,
    },
    Explanation {
        code: "F4",
        name: Some("UnknownField"),
        sentence: "an object has a member that it may not have",
        text: r#"Each object has its own members, and their names are compared letter by letter. A Succeed, a Fail
and a Choice have neither Next nor End; Parameters stand in Pass, Task, Parallel and Map, Result
in Pass alone. (Amazon States Language, "Common State Fields" and "State Types".) Correct the name
or take the member out. What you want to remark goes into Comment.

Wrong:
    {"StartAt": "A", "States": {"A": {"Type": "Pass", "Reslt": 1, "End": true}}}
Right:
    {"StartAt": "A", "States": {"A": {"Type": "Pass", "Result": 1, "End": true}}}

Told by check and lint, and every other command that reads a definition.
"#,
    },
    Explanation {
        code: "F5",
        name: Some("Unsupported"),
        sentence: "something of the language isn't supported by this emulator",
        text: r#"The definition may be right for AWS Step Functions, but asl doesn't emulate this: JSONata
(QueryLanguage, Arguments, Output, Assign, Condition, Items), distributed Maps (ItemReader,
ItemBatcher, ResultWriter, Label, Mode DISTRIBUTED), tolerated failures, and other versions than
1.0. Types are Task, Pass, Choice, Wait, Parallel, Map, Succeed and Fail; upper and lower case
differ. README has what is supported.

Wrong:
    {"StartAt": "A", "States": {"A": {"Type": "succeed"}}}
Right:
    {"StartAt": "A", "States": {"A": {"Type": "Succeed"}}}

Told by check and lint, and every other command that reads a definition.
"#,
    },
    Explanation {
        code: "F6",
        name: Some("WrongType"),
        sentence: "a value is of another JSON type than the member wants",
        text: r#"Numbers and truth values stand without quotes, names in them, and lists in brackets even where
they have one item. In a payload template the value of a member that ends in .$ is a text. (Amazon
States Language, "State Types" and "Payload Template".)

Wrong:
    {"StartAt": "A", "States": {"A": {"Type": "Wait", "Seconds": "5", "End": true}}}
Right:
    {"StartAt": "A", "States": {"A": {"Type": "Wait", "Seconds": 5, "End": true}}}

Told by check and lint, and every other command that reads a definition.
"#,
    },
    Explanation {
        code: "F7",
        name: Some("Range"),
        sentence: "a value is outside of its limits",
        text: r#"Seconds and counts are whole: Seconds, MaxConcurrency and MaxAttempts from 0, TimeoutSeconds,
HeartbeatSeconds and IntervalSeconds from 1 to 99999999, BackoffRate from 1 to 1000. Choices, And,
Or, Branches and ErrorEquals have an item, a state's name has 1 to 80 characters, a Timestamp is
one of RFC 3339 with an upper-case T and Z. (Amazon States Language, "Timestamps", "Retrying after
error".)

Wrong:
    {"StartAt": "A",
      "States": {"A": {"Type": "Wait", "Timestamp": "2026-01-01 08:00", "End": true}}}
Right:
    {"StartAt": "A",
      "States": {"A": {"Type": "Wait", "Timestamp": "2026-01-01T08:00:00Z", "End": true}}}

Told by check and lint, and every other command that reads a definition.
"#,
    },
    Explanation {
        code: "F8",
        name: Some("Both"),
        sentence: "two members are there of which only one may be",
        text: r#"These exclude each other: Next and "End": true; Seconds, SecondsPath, Timestamp and TimestampPath
of a Wait; two comparisons in one rule; Error and ErrorPath, Cause and CausePath of a Fail;
TimeoutSeconds, HeartbeatSeconds and their Path forms; Iterator and ItemProcessor, Parameters and
ItemSelector of a Map; k and k.$ in a template. (Amazon States Language, "State Types".) Take one
out: the place is that of the later one.

Wrong:
    {"StartAt": "A",
      "States": {"A": {"Type": "Pass", "End": true, "Next": "B"}, "B": {"Type": "Succeed"}}}
Right:
    {"StartAt": "A", "States": {"A": {"Type": "Pass", "Next": "B"}, "B": {"Type": "Succeed"}}}

Told by check and lint, and every other command that reads a definition.
"#,
    },
    Explanation {
        code: "F9",
        name: Some("Neither"),
        sentence: "none of the members is there of which one has to be",
        text: r#"A Task, Pass, Wait, Parallel or Map leads on by Next or ends its branch by "End": true; "End":
false counts as nothing. A Wait says how long, a rule of a Choice compares or combines, a Map has
an ItemProcessor or an Iterator. (Amazon States Language, "Transitions" and "State Types".)

Wrong:
    {"StartAt": "A", "States": {"A": {"Type": "Pass"}}}
Right:
    {"StartAt": "A", "States": {"A": {"Type": "Pass", "End": true}}}

Told by check and lint, and every other command that reads a definition.
"#,
    },
    Explanation {
        code: "F10",
        name: Some("NoTarget"),
        sentence: "StartAt, Next or Default names no state of the same machine",
        text: r#"A transition leads to a state in the same States object, and names are compared letter by letter.
A state in a branch of a Parallel or in the ItemProcessor of a Map can't lead out of it, and none
outside leads in. (Amazon States Language, "Transitions".) Correct the name, or add the state.

Wrong:
    {"StartAt": "A", "States": {"A": {"Type": "Pass", "Next": "Shp"}, "Ship": {"Type": "Succeed"}}}
Right:
    {"StartAt": "A", "States": {"A": {"Type": "Pass", "Next": "Ship"}, "Ship": {"Type": "Succeed"}}}

Told by check and lint, and every other command that reads a definition.
"#,
    },
    Explanation {
        code: "F11",
        name: Some("DuplicateState"),
        sentence: "two states of the definition have one name",
        text: r#"State names are unique in the whole machine, also those inside the branches of a Parallel or the
ItemProcessor of a Map. (Amazon States Language, "States".) Give one of them another name, and
correct the transitions that lead to it.

Wrong:
    {"StartAt": "A", "States": {"A": {"Type": "Parallel", "End": true, "Branches": [
      {"StartAt": "A", "States": {"A": {"Type": "Succeed"}}}]}}}
Right:
    {"StartAt": "A", "States": {"A": {"Type": "Parallel", "End": true, "Branches": [
      {"StartAt": "B", "States": {"B": {"Type": "Succeed"}}}]}}}

Told by check and lint, and every other command that reads a definition.
"#,
    },
    Explanation {
        code: "F12",
        name: Some("AllNotLast"),
        sentence: "States.ALL stands beside other names, or isn't in the last retrier or catcher",
        text: r#"States.ALL names every error, so what stands behind it would never be asked. It is alone in its
ErrorEquals, in the last item of Retry or Catch. (Amazon States Language, "Retrying after error"
and "Fallback States".)

Wrong:
    {"StartAt": "A", "States": {"A": {"Type": "Task", "Resource": "r", "End": true,
      "Retry": [{"ErrorEquals": ["States.ALL"]}, {"ErrorEquals": ["Busy"]}]}}}
Right:
    {"StartAt": "A", "States": {"A": {"Type": "Task", "Resource": "r", "End": true,
      "Retry": [{"ErrorEquals": ["Busy"]}, {"ErrorEquals": ["States.ALL"]}]}}}

Told by check and lint, and every other command that reads a definition.
"#,
    },
    Explanation {
        code: "F13",
        name: Some("Path"),
        sentence: "a text isn't a path of the supported kind",
        text: r#"A path begins with $ (the state's input) or $$ (the Context Object) and goes on by .name, ['name']
or [0]. Filters, slices and wildcards, as $.a[*] or $..a, aren't supported. A ResultPath leads
into the input, never into the Context Object. (Amazon States Language, "Paths" and "Reference
Paths".)

Wrong:
    {"StartAt": "A", "States": {"A": {"Type": "Pass", "InputPath": "$.items[*]", "End": true}}}
Right:
    {"StartAt": "A", "States": {"A": {"Type": "Pass", "InputPath": "$.items[0]", "End": true}}}

Told by check and lint, and every other command that reads a definition.
"#,
    },
    Explanation {
        code: "F14",
        name: Some("Expression"),
        sentence: "a text isn't a call of an intrinsic function",
        text: r#"The text of a member that ends in .$, and that of ErrorPath and CausePath, is a path that begins
with $ or a call such as States.Format('Hello {}', $.name): with a known name, its number of
arguments, and texts in apostrophes. (Amazon States Language, "Intrinsic Functions".) A plain text
stands under a name without .$, or in Error and Cause.

Wrong:
    {"StartAt": "A", "States": {"A": {"Type": "Pass", "Parameters": {"to.$": "ann"}, "End": true}}}
Right:
    {"StartAt": "A", "States": {"A": {"Type": "Pass", "Parameters": {"to": "ann"}, "End": true}}}

Told by check and lint, and every other command that reads a definition.
"#,
    },
    Explanation {
        code: "F15",
        name: Some("Nesting"),
        sentence: "machines stand in more than 16 levels inside each other",
        text: r#"Each branch of a Parallel and each ItemProcessor of a Map is a machine inside the one around it,
and asl reads 16 levels of them. Put what stands innermost into a state machine of its own, which
a Task starts. (Developer Guide, "Start workflow executions from a Task state in Step Functions".)

Told by check and lint, and every other command that reads a definition.
"#,
    },
    Explanation {
        code: "F16",
        name: Some("OutOfMemory"),
        sentence: "memory ran out",
        text: r#"The line is fault: OutOfMemory, whatever was done: nothing is wrong with your files because of it.
Close other programs, raise the limit that ulimit -v or a container sets, or give asl less: a
smaller --limit for explore, fewer --workers for test. M6, J7, X3, S9 and H5 are the same.

Told by every command.
"#,
    },
];

/// The codes of definitions, in order.
pub(crate) fn all() -> &'static [Explanation]
    ensures { map code_of result.now ≡ definition_codes }
{
    ALL
}
