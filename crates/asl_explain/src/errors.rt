// Errors that the emulator raises itself.
ghost use Rattle.std.specs.Prelude.{◌≡◌, map};
ghost use Rattle.asl_explain.specs.Codes.{error_codes, code_of};

use crate::saying::Explanation;

const ALL: &[Explanation] = &[
    Explanation {
        code: "States.Runtime",
        name: None,
        sentence: "an execution failed in a way that can't be handled",
        text: r#"A path of InputPath, OutputPath, ItemsPath, SecondsPath and the like, or of a rule of a Choice,
names nothing (FIELD: no value, or $.path: no value); a pattern of StringMatches ends in an open
backslash; or the test case has no answer for a Task (no mocked answer). No Retry or Catch is
asked for it, not even States.ALL. (Developer Guide, "Handling errors in Step Functions
workflows".) Mend the path, guard it by a Choice with IsPresent, or add the answer.

Wrong:
    {"StartAt": "A", "States": {"A": {"Type": "Pass", "InputPath": "$.order", "End": true}}}
Right:
    {"StartAt": "A", "States": {"A": {"Type": "Pass", "InputPath": "$", "End": true}}}

Told by run, debug, test and explore, as the error of an execution.
"#,
    },
    Explanation {
        code: "States.NoChoiceMatched",
        name: None,
        sentence: "no rule of a Choice holds, and it has no Default",
        text: r#"The input fits none of the rules, which compare type and value: NumericEquals never holds for a
text. (Amazon States Language, "Choice State".) Add a Default, or a rule for this input; a Choice
can't catch errors. The example has the input {"n": 7}.

Wrong:
    {"StartAt": "A", "States": {"A": {"Type": "Choice", "Choices":
      [{"Variable": "$.n", "NumericEquals": 1, "Next": "B"}]}, "B": {"Type": "Succeed"}}}
Right:
    {"StartAt": "A", "States": {"A": {"Type": "Choice", "Default": "B", "Choices":
      [{"Variable": "$.n", "NumericEquals": 1, "Next": "B"}]}, "B": {"Type": "Succeed"}}}

Told by run, debug, test and explore, as the error of an execution.
"#,
    },
    Explanation {
        code: "States.ParameterPathFailure",
        name: None,
        sentence: "a path in a template names nothing",
        text: r#"A member k.$ of Parameters, ItemSelector or ResultSelector has a path that the input, for a
ResultSelector the result, doesn't have; the cause names the member. (Amazon States Language,
"Payload Template" and appendix A.) Mend the path, or see that the state before it makes this
part; asl run with --format data shows what each state got.

Wrong:
    {"StartAt": "A", "States": {"A": {"Type": "Pass", "Parameters": {"id.$": "$.id"}, "End": true}}}
Right:
    {"StartAt": "A", "States": {"A": {"Type": "Pass", "Parameters": {"in.$": "$"}, "End": true}}}

Told by run, debug, test and explore, as the error of an execution.
"#,
    },
    Explanation {
        code: "States.IntrinsicFailure",
        name: None,
        sentence: "a call of an intrinsic function has no value",
        text: r#"The cause names the member and why: unfit (an argument of a wrong type), range (a number or an
index outside of its limits), count (States.Format has more or fewer {} than arguments), undecoded
(no JSON, no Base64) or path (an argument names nothing). (Amazon States Language, "Intrinsic
Functions".)

Wrong:
    {"StartAt": "A", "States": {"A": {"Type": "Pass", "End": true,
      "Parameters": {"x.$": "States.ArrayGetItem(States.Array('a'), 1)"}}}}
Right:
    {"StartAt": "A", "States": {"A": {"Type": "Pass", "End": true,
      "Parameters": {"x.$": "States.ArrayGetItem(States.Array('a'), 0)"}}}}

Told by run, debug, test and explore, as the error of an execution.
"#,
    },
    Explanation {
        code: "States.ResultPathMatchFailure",
        name: None,
        sentence: "a result can't be put where ResultPath leads",
        text: r#"A ResultPath adds members to objects, and replaces items that a list has; it can't put a member
into a text, a number or a list. (Amazon States Language, "Input and Output Processing" and
appendix A.) Lead it elsewhere; "$" replaces the whole input, null leaves it as it is.

Wrong:
    {"StartAt": "A", "States": {"A": {"Type": "Pass", "Result": 1, "Next": "B"},
      "B": {"Type": "Pass", "Result": 2, "ResultPath": "$.x", "End": true}}}
Right:
    {"StartAt": "A", "States": {"A": {"Type": "Pass", "Result": {"n": 1}, "Next": "B"},
      "B": {"Type": "Pass", "Result": 2, "ResultPath": "$.x", "End": true}}}

Told by run, debug, test and explore, as the error of an execution.
"#,
    },
    Explanation {
        code: "States.DataLimitExceeded",
        name: None,
        sentence: "an output or a result has more than 262,144 bytes",
        text: r#"The service takes no output of a state, and no result of a Task, that is larger as compact JSON.
No Retry or Catch is asked for it. (Developer Guide, "Step Functions service quotas".) Keep large
data in Amazon S3 and hand on its address, or take what you need by ResultSelector.

Told by run, debug, test and explore, as the error of an execution.
"#,
    },
    Explanation {
        code: "States.Timeout",
        name: None,
        sentence: "a time limit is over",
        text: r#"Of an execution: TimeoutSeconds of the whole definition has passed, and its status is TIMED_OUT.
Of a Task: a mocked answer throws this name; Retry and Catch may name it, and States.TaskFailed
doesn't include it. (Amazon States Language, appendix A; Developer Guide, "Handling errors in Step
Functions workflows".) Raise the limit, or shorten what waits.

Wrong:
    {"TimeoutSeconds": 5, "StartAt": "A",
      "States": {"A": {"Type": "Wait", "Seconds": 60, "End": true}}}
Right:
    {"TimeoutSeconds": 90, "StartAt": "A",
      "States": {"A": {"Type": "Wait", "Seconds": 60, "End": true}}}

Told by run, debug, test and explore, as the error of an execution.
"#,
    },
];

/// The codes of errors, in order.
pub(crate) fn all() -> &'static [Explanation]
    ensures { map code_of result.now ≡ error_codes }
{
    ALL
}
