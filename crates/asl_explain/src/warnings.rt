// Warnings on definitions, and what is wrong with a mock file beside one.
ghost use Rattle.std.specs.Prelude.{◌≡◌, map};
ghost use Rattle.asl_explain.specs.Codes.{warning_codes, code_of};

use crate::saying::Explanation;

const ALL: &[Explanation] = &[
    Explanation {
        code: "unreachable-state",
        name: None,
        sentence: "no way leads to a state from StartAt",
        text: r#"No Next, Default, rule or catcher that can be reached leads to this state, so it is never entered.
(Amazon States Language, "Transitions".) Lead to it, or take it out.

Wrong:
    {"StartAt": "A", "States": {"A": {"Type": "Succeed"}, "Ship": {"Type": "Succeed"}}}
Right:
    {"StartAt": "A", "States": {"A": {"Type": "Pass", "Next": "Ship"}, "Ship": {"Type": "Succeed"}}}

Told by lint.
"#,
    },
    Explanation {
        code: "no-end",
        name: None,
        sentence: "from a state no end can be reached",
        text: r#"Whichever way is taken, the execution never comes to a Succeed, a Fail or a state with "End":
true: it goes on until its history has 25,000 events. Give the loop a way out, as a Choice that
counts.

Wrong:
    {"StartAt": "A", "States": {"A": {"Type": "Wait", "Seconds": 1, "Next": "B"},
      "B": {"Type": "Wait", "Seconds": 2, "Next": "A"}}}
Right:
    {"StartAt": "A", "States": {"A": {"Type": "Wait", "Seconds": 1, "Next": "B"},
      "B": {"Type": "Wait", "Seconds": 2, "End": true}}}

Told by lint.
"#,
    },
    Explanation {
        code: "no-default",
        name: None,
        sentence: "a Choice has no Default",
        text: r#"Where no rule holds and there is no Default, the execution fails with States.NoChoiceMatched,
which a Choice can neither retry nor catch. (Amazon States Language, "Choice State".) Add a
Default, if only to a Fail that says what was unexpected.

Wrong:
    {"StartAt": "A", "States": {"A": {"Type": "Choice", "Choices":
      [{"Variable": "$.n", "NumericEquals": 1, "Next": "B"}]}, "B": {"Type": "Succeed"}}}
Right:
    {"StartAt": "A", "States": {"A": {"Type": "Choice", "Default": "C", "Choices":
      [{"Variable": "$.n", "NumericEquals": 1, "Next": "B"}]},
      "B": {"Type": "Succeed"}, "C": {"Type": "Fail"}}}

Told by lint.
"#,
    },
    Explanation {
        code: "own-default",
        name: None,
        sentence: "the Default of a Choice is the Choice itself",
        text: r#"A Choice without InputPath and OutputPath puts out its input, so the same value comes back to the
same rules, again and again, until the history has 25,000 events. (Amazon States Language, "Choice
State".) Lead to a Wait that comes back, or to a Fail. A Choice with one of the two paths isn't
judged.

Wrong:
    {"StartAt": "A", "States": {"A": {"Type": "Choice", "Default": "A", "Choices":
      [{"Variable": "$.n", "NumericEquals": 1, "Next": "B"}]}, "B": {"Type": "Succeed"}}}
Right:
    {"StartAt": "A", "States": {"A": {"Type": "Choice", "Default": "C", "Choices":
      [{"Variable": "$.n", "NumericEquals": 1, "Next": "B"}]},
      "B": {"Type": "Succeed"}, "C": {"Type": "Fail"}}}

Told by lint.
"#,
    },
    Explanation {
        code: "repeated-rule",
        name: None,
        sentence: "a rule of a Choice has the test of one before it",
        text: r#"Rules are tried in their order, and the first that holds says where to go on. (Amazon States
Language, "Choice State".) So a later rule with the same test never decides. Take it out, or correct
its test. Rules have the same test if they are the same but for Next and Comment, with their members
in the same order.

Wrong:
    {"StartAt": "A", "States": {"A": {"Type": "Choice", "Default": "C", "Choices":
      [{"Variable": "$.n", "NumericEquals": 1, "Next": "B"},
       {"Variable": "$.n", "NumericEquals": 1, "Next": "C"}]},
      "B": {"Type": "Succeed"}, "C": {"Type": "Fail"}}}
Right:
    {"StartAt": "A", "States": {"A": {"Type": "Choice", "Default": "C", "Choices":
      [{"Variable": "$.n", "NumericEquals": 1, "Next": "B"},
       {"Variable": "$.n", "NumericEquals": 2, "Next": "C"}]},
      "B": {"Type": "Succeed"}, "C": {"Type": "Fail"}}}

Told by lint.
"#,
    },
    Explanation {
        code: "impossible-and",
        name: None,
        sentence: "two rules of an And never hold both",
        text: r#"An And holds where each of its rules does. (Amazon States Language, "Choice State".) Two of these
never do, whatever the input is: one is the Not of the other, they want values of different types of
one variable, or they want it to be equal to different constants. So the And never holds. Correct
one of the two; an Or holds where one of them does.

Wrong:
    {"StartAt": "A", "States": {"A": {"Type": "Choice", "Default": "C", "Choices":
      [{"And": [{"Variable": "$.kind", "StringEquals": "book"},
                {"Variable": "$.kind", "StringEquals": "film"}], "Next": "B"}]},
      "B": {"Type": "Succeed"}, "C": {"Type": "Fail"}}}
Right:
    {"StartAt": "A", "States": {"A": {"Type": "Choice", "Default": "C", "Choices":
      [{"Or": [{"Variable": "$.kind", "StringEquals": "book"},
               {"Variable": "$.kind", "StringEquals": "film"}], "Next": "B"}]},
      "B": {"Type": "Succeed"}, "C": {"Type": "Fail"}}}

Told by lint.
"#,
    },
    Explanation {
        code: "endless-wait",
        name: None,
        sentence: "a Task that waits for a token has no time limit",
        text: r#"A Resource that ends in .waitForTaskToken waits until somebody sends the token back, for up to a
year. (Developer Guide, "Wait for a Callback with Task Token".) Add TimeoutSeconds or
HeartbeatSeconds, so that a lost token raises States.Timeout.

Wrong:
    {"StartAt": "A", "States": {"A": {"Type": "Task", "End": true,
      "Resource": "arn:aws:states:::sqs:sendMessage.waitForTaskToken",
      "Parameters": {"MessageBody.$": "$$.Task.Token"}}}}
Right:
    {"StartAt": "A", "States": {"A": {"Type": "Task", "End": true, "TimeoutSeconds": 3600,
      "Resource": "arn:aws:states:::sqs:sendMessage.waitForTaskToken",
      "Parameters": {"MessageBody.$": "$$.Task.Token"}}}}

Told by lint.
"#,
    },
    Explanation {
        code: "unsent-token",
        name: None,
        sentence: "a Task that waits for a token gives it to nobody",
        text: r#"A Resource that ends in .waitForTaskToken waits until somebody sends the token back. Only the Task's
own Context Object has the token, at $$.Task.Token. (Developer Guide, "Wait for a Callback with Task
Token".) Put it into Parameters. Whatever may reach it counts: a text that is $$, begins with
$$.Task or $$[, or is a call with $$ in it, and an InputPath that begins with $$.

Wrong:
    {"StartAt": "A", "States": {"A": {"Type": "Task", "End": true, "TimeoutSeconds": 3600,
      "Resource": "arn:aws:states:::sqs:sendMessage.waitForTaskToken",
      "Parameters": {"MessageBody.$": "$.order"}}}}
Right:
    {"StartAt": "A", "States": {"A": {"Type": "Task", "End": true, "TimeoutSeconds": 3600,
      "Resource": "arn:aws:states:::sqs:sendMessage.waitForTaskToken",
      "Parameters": {"MessageBody": {"order.$": "$.order", "token.$": "$$.Task.Token"}}}}}

Told by lint.
"#,
    },
    Explanation {
        code: "heartbeat-not-shorter",
        name: None,
        sentence: "HeartbeatSeconds isn't below TimeoutSeconds",
        text: r#"A heartbeat that is as long as the time limit can never be missed before the limit is over.
(Amazon States Language, "Task State": HeartbeatSeconds is smaller than TimeoutSeconds.) Make it
shorter, or take it out.

Wrong:
    {"StartAt": "A", "States": {"A": {"Type": "Task", "Resource": "r", "End": true,
      "TimeoutSeconds": 60, "HeartbeatSeconds": 60}}}
Right:
    {"StartAt": "A", "States": {"A": {"Type": "Task", "Resource": "r", "End": true,
      "TimeoutSeconds": 60, "HeartbeatSeconds": 20}}}

Told by lint.
"#,
    },
    Explanation {
        code: "limit-below-wait",
        name: None,
        sentence: "TimeoutSeconds of the execution isn't above the Seconds of a Wait",
        text: r#"TimeoutSeconds of the outermost machine is the time limit of the execution. (Amazon States Language,
"Top-level fields".) It is over before such a Wait is, or with it: the execution times out there,
whichever way it came. Raise the limit, or shorten the Wait. The Waits of the outermost machine
with Seconds are looked at.

Wrong:
    {"StartAt": "A", "TimeoutSeconds": 60,
      "States": {"A": {"Type": "Wait", "Seconds": 60, "End": true}}}
Right:
    {"StartAt": "A", "TimeoutSeconds": 90,
      "States": {"A": {"Type": "Wait", "Seconds": 60, "End": true}}}

Told by lint.
"#,
    },
    Explanation {
        code: "unasked-handler",
        name: None,
        sentence: "a retrier or catcher is never asked",
        text: r#"Retriers and catchers are asked in their order, and the first that names the error decides. All
that this one names, earlier ones name too. (Amazon States Language, "Retrying after error",
"Fallback States".) Put it before them, or take it out. No list is ever asked for States.Runtime
and States.DataLimitExceeded.

Wrong:
    {"StartAt": "A", "States": {"A": {"Type": "Task", "Resource": "r", "End": true,
      "Retry": [{"ErrorEquals": ["States.TaskFailed"]}, {"ErrorEquals": ["Busy"]}]}}}
Right:
    {"StartAt": "A", "States": {"A": {"Type": "Task", "Resource": "r", "End": true,
      "Retry": [{"ErrorEquals": ["Busy"]}, {"ErrorEquals": ["States.TaskFailed"]}]}}}

Told by lint.
"#,
    },
    Explanation {
        code: "unknown-error",
        name: None,
        sentence: "a name that begins with States., or is near such a name, is no error of the language",
        text: r#"Names that begin with States. are reserved, so this one is never raised. (Amazon States Language,
"Error representation" and appendix A.) Near is what differs in one letter more or less, as
State.ALL, or in upper and lower case. Correct it, as States.Timeout or States.TaskFailed; names
of your own begin otherwise.

Wrong:
    {"StartAt": "A", "States": {"A": {"Type": "Task", "Resource": "r", "End": true,
      "Retry": [{"ErrorEquals": ["States.Timout"]}]}}}
Right:
    {"StartAt": "A", "States": {"A": {"Type": "Task", "Resource": "r", "End": true,
      "Retry": [{"ErrorEquals": ["States.Timeout"]}]}}}

Told by lint.
"#,
    },
    Explanation {
        code: "repeated-error",
        name: None,
        sentence: "an ErrorEquals names an error twice",
        text: r#"An error is one of a list or isn't, so the second name says nothing. (Amazon States Language,
"Retrying after error", "Fallback States".) Take it out, or name the other error that you mean.

Wrong:
    {"StartAt": "A", "States": {"A": {"Type": "Task", "Resource": "r", "End": true,
      "Retry": [{"ErrorEquals": ["Busy", "States.Timeout", "Busy"]}]}}}
Right:
    {"StartAt": "A", "States": {"A": {"Type": "Task", "Resource": "r", "End": true,
      "Retry": [{"ErrorEquals": ["Busy", "States.Timeout", "Down"]}]}}}

Told by lint.
"#,
    },
    Explanation {
        code: "unused-delay",
        name: None,
        sentence: "a retrier that never retries says how long it waits",
        text: r#"A MaxAttempts of 0 lets an error through without a retry, so that IntervalSeconds, BackoffRate,
MaxDelaySeconds and JitterStrategy beside it say nothing. (Amazon States Language, "Retrying after
error".) Raise MaxAttempts, or take them out.

Wrong:
    {"StartAt": "A", "States": {"A": {"Type": "Task", "Resource": "r", "End": true,
      "Retry": [{"ErrorEquals": ["Busy"], "MaxAttempts": 0, "BackoffRate": 2}]}}}
Right:
    {"StartAt": "A", "States": {"A": {"Type": "Task", "Resource": "r", "End": true,
      "Retry": [{"ErrorEquals": ["Busy"], "MaxAttempts": 0}]}}}

Told by lint.
"#,
    },
    Explanation {
        code: "max-delay-below-interval",
        name: None,
        sentence: "MaxDelaySeconds is below IntervalSeconds",
        text: r#"IntervalSeconds is the delay before the first retry, and MaxDelaySeconds the longest one. (Amazon
States Language, "Retrying after error".) With a shorter limit each retry comes when the limit
says, and IntervalSeconds and BackoffRate have no effect. Raise MaxDelaySeconds, or lower
IntervalSeconds.

Wrong:
    {"StartAt": "A", "States": {"A": {"Type": "Task", "Resource": "r", "End": true, "Retry":
      [{"ErrorEquals": ["Busy"], "IntervalSeconds": 60, "MaxDelaySeconds": 30}]}}}
Right:
    {"StartAt": "A", "States": {"A": {"Type": "Task", "Resource": "r", "End": true, "Retry":
      [{"ErrorEquals": ["Busy"], "IntervalSeconds": 30, "MaxDelaySeconds": 60}]}}}

Told by lint.
"#,
    },
    Explanation {
        code: "forgotten-dollar",
        name: None,
        sentence: "a text of a template looks like a path or a call and stays a plain text",
        text: r#"Only a member whose name ends in .$ is replaced by what its path names or its call gives. (Amazon
States Language, "Payload Template".) Add .$ to the name. A text looks like a path if it is $ or
$$, or begins with $., $[, $$. or $$[, and like a call if it begins as States.Format( does.

Wrong:
    {"StartAt": "A",
      "States": {"A": {"Type": "Pass", "Parameters": {"id": "$.order.id"}, "End": true}}}
Right:
    {"StartAt": "A",
      "States": {"A": {"Type": "Pass", "Parameters": {"id.$": "$.order.id"}, "End": true}}}

Told by lint.
"#,
    },
    Explanation {
        code: "not-computed",
        name: None,
        sentence: "a path, a call or a name with .$ stands where nothing is computed",
        text: r#"A Fail puts out Error and Cause as they stand, and a Pass its Result. (Amazon States Language,
"Fail State", "Pass State".) Use ErrorPath and CausePath; in a Pass give the value to Parameters,
whose members with .$ are computed.

Wrong:
    {"StartAt": "A", "States": {"A": {"Type": "Pass", "Result": {"id.$": "$.id"}, "Next": "B"},
      "B": {"Type": "Fail", "Cause": "$.reason"}}}
Right:
    {"StartAt": "A", "States": {"A": {"Type": "Pass", "Parameters": {"id.$": "$.id"}, "Next": "B"},
      "B": {"Type": "Fail", "CausePath": "$.reason"}}}

Told by lint.
"#,
    },
    Explanation {
        code: "unknown-context-member",
        name: None,
        sentence: "a path names a part that the Context Object never has",
        text: r#"$$ is the Context Object: Execution (Id, Name, Input, StartTime), State (Name, EnteredTime,
RetryCount), StateMachine (Id, Name), in a Task also Task.Token, in an iteration of a Map Map.Item
(Index, Value). (Developer Guide, "Accessing execution data from the Context object".) Correct the
name; a path on the input begins with one $.

Wrong:
    {"StartAt": "A",
      "States": {"A": {"Type": "Pass", "Parameters": {"id.$": "$$.Execution.Nme"}, "End": true}}}
Right:
    {"StartAt": "A",
      "States": {"A": {"Type": "Pass", "Parameters": {"id.$": "$$.Execution.Name"}, "End": true}}}

Told by lint.
"#,
    },
    Explanation {
        code: "failing-call",
        name: None,
        sentence: "a call of an intrinsic function fails on each input",
        text: r#"What the call is given as it stands decides that it fails, wherever its paths lead: a template with
another number of {} than arguments behind it, a name that is no algorithm, a merge that isn't
shallow, a number that isn't whole, a step of 0, or arguments that are all known beforehand. A call
fails too where a call inside it does. The state then fails with States.IntrinsicFailure. (Amazon
States Language, "Intrinsic Functions".) Correct the argument.

Wrong:
    {"StartAt": "A", "States": {"A": {"Type": "Pass", "End": true,
      "Parameters": {"text.$": "States.Format('{} of {}', $.n)"}}}}
Right:
    {"StartAt": "A", "States": {"A": {"Type": "Pass", "End": true,
      "Parameters": {"text.$": "States.Format('{} of {}', $.n, $.all)"}}}}

Told by lint.
"#,
    },
    Explanation {
        code: "unknown-state",
        name: None,
        sentence: "a test case has an answer for a name that no state has",
        text: r#"The members of a test case are names of states of the definition, compared letter by letter.
Correct the name: so far nothing asks for this answer, and the Task that you mean has none. The
examples stand beside a definition with the Task Charge and the Succeed Paid.

Wrong:
    {"StateMachines": {"Orders": {"TestCases": {
      "paid": {"Charge": "Charged", "Chrge": "Charged"}}}},
     "MockedResponses": {"Charged": {"0": {"Return": {}}}}}
Right:
    {"StateMachines": {"Orders": {"TestCases": {"paid": {"Charge": "Charged"}}}},
     "MockedResponses": {"Charged": {"0": {"Return": {}}}}}

Told by lint, where a mock file is named.
"#,
    },
    Explanation {
        code: "not-a-task",
        name: None,
        sentence: "a test case has an answer for a state that is no Task",
        text: r#"Only Tasks invoke a service and ask for an answer. Leave the answer out, or name the Task. The
examples stand beside a definition with the Task Charge and the Succeed Paid.

Wrong:
    {"StateMachines": {"Orders": {"TestCases": {"paid": {"Charge": "Charged", "Paid": "Charged"}}}},
     "MockedResponses": {"Charged": {"0": {"Return": {}}}}}
Right:
    {"StateMachines": {"Orders": {"TestCases": {"paid": {"Charge": "Charged"}}}},
     "MockedResponses": {"Charged": {"0": {"Return": {}}}}}

Told by lint, where a mock file is named.
"#,
    },
    Explanation {
        code: "unanswered-task",
        name: None,
        sentence: "no test case has an answer for a Task",
        text: r#"A run that comes to this Task fails with States.Runtime, no mocked answer. Give it a response in
each case that reaches it; asl mocks DEF prints a file with an answer for each. The examples stand
beside a definition with the Task Charge and the Succeed Paid.

Wrong:
    {"StateMachines": {"Orders": {"TestCases": {"paid": {}}}},
     "MockedResponses": {}}
Right:
    {"StateMachines": {"Orders": {"TestCases": {"paid": {"Charge": "Charged"}}}},
     "MockedResponses": {"Charged": {"0": {"Return": {}}}}}

Told by lint, where a mock file is named.
"#,
    },
    Explanation {
        code: "unused-response",
        name: None,
        sentence: "no test case names a response",
        text: r#"Name the response in a case, or leave it out: perhaps a case has its name misspelt. The examples
stand beside a definition with the Task Charge and the Succeed Paid.

Wrong:
    {"StateMachines": {"Orders": {"TestCases": {"paid": {"Charge": "Charged"}}}},
     "MockedResponses": {"Charged": {"0": {"Return": {}}},
      "Refused": {"0": {"Throw": {"Error": "Refused"}}}}}
Right:
    {"StateMachines": {"Orders": {"TestCases": {"paid": {"Charge": "Charged"}}}},
     "MockedResponses": {"Charged": {"0": {"Return": {}}}}}

Told by lint, where a mock file is named.
"#,
    },
    Explanation {
        code: "missing-answer",
        name: None,
        sentence: "a response leaves out a number below its last one",
        text: r#"Answers are numbered by the invocations of a state, from 0, retries included. An invocation
without an answer fails with States.Runtime, so a gap is hardly meant. The examples stand beside a
definition with the Task Charge and the Succeed Paid.

Wrong:
    {"StateMachines": {"Orders": {"TestCases": {"paid": {"Charge": "Charged"}}}},
     "MockedResponses": {"Charged": {"1": {"Return": {}}}}}
Right:
    {"StateMachines": {"Orders": {"TestCases": {"paid": {"Charge": "Charged"}}}},
     "MockedResponses": {"Charged": {"0-1": {"Return": {}}}}}

Told by lint, where a mock file is named.
"#,
    },
    Explanation {
        code: "kind",
        name: None,
        sentence: "it isn't clear what a file is",
        text: r#"The kinds of files are told apart by what stands in them. A definition has StartAt or States, a mock
file StateMachines or MockedResponses, and an expectation file is a list whose first test has
machine or case; a steps file begins with a slash, a script with the word of a command. Of the first
two files a definition and a mock file are expected where they show nothing of that. Say what a file
is by an option, as --input FILE; a template of CloudFormation, and what the service's command line
prints, have a definition inside: write that into a file of its own.

Wrong:
    asl lint definition.json mocks.json input.json
Right:
    asl lint definition.json mocks.json --input input.json

Told by lint.
"#,
    },
];

/// The codes of findings beside faults, in order.
pub(crate) fn all() -> &'static [Explanation]
    ensures { map code_of result.now ≡ warning_codes }
{
    ALL
}
