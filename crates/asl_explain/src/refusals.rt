// Refusals of a step, and what else the debugger refuses.
ghost use Rattle.std.specs.Prelude.{◌≡◌, map};
ghost use Rattle.asl_explain.specs.Codes.{refusal_codes, code_of};

use crate::saying::Explanation;

const ALL: &[Explanation] = &[
    Explanation {
        code: "S1",
        name: Some("Over"),
        sentence: "a step comes after the end of the execution",
        text: r#"The execution has succeeded, failed or timed out, and nothing more can happen: leave out this step
and those behind it, or look whether it ended earlier than you meant.

For a machine of one Wait, {"Type": "Wait", "Seconds": 5, "End": true}:

Wrong:
    / 2026-01-01T00:00:00Z
    / 2026-01-01T00:00:05Z
    / 2026-01-01T00:00:06Z
Right:
    / 2026-01-01T00:00:00Z
    / 2026-01-01T00:00:05Z

Told by run with --steps, debug and its scripts.
"#,
    },
    Explanation {
        code: "S2",
        name: Some("NoSuchPlace"),
        sentence: "no branch runs at the place of a step",
        text: r#"/ is the execution's own branch, and /0, /1 are branches of a Parallel or iterations of a Map that
it runs, /0/1 one inside of those. They are there from the step that begins them to the one that
joins them. show / or places in asl debug tells what runs.

For a machine of one Wait, {"Type": "Wait", "Seconds": 5, "End": true}:

Wrong:
    /0 2026-01-01T00:00:00Z
Right:
    / 2026-01-01T00:00:00Z

Told by run with --steps, debug and its scripts.
"#,
    },
    Explanation {
        code: "S3",
        name: Some("Stopped"),
        sentence: "a branch is stopped, since one beside it has failed",
        text: r#"Where a branch of a Parallel or an iteration of a Map fails, the others are stopped, and nothing
of them goes on. (Amazon States Language, "Parallel State" and "Map State".) The step that comes
next is one of the Parallel or Map around them, which raises the error; retry or catch it there.

Told by run with --steps, debug and its scripts.
"#,
    },
    Explanation {
        code: "S4",
        name: Some("Finished"),
        sentence: "a branch has ended already",
        text: r#"The branch has run its last state, and waits for those beside it. Step these, and then the
Parallel or Map around them, which joins all outputs.

Told by run with --steps, debug and its scripts.
"#,
    },
    Explanation {
        code: "S5",
        name: Some("Busy"),
        sentence: "a Parallel or Map waits for its branches",
        text: r#"It joins its branches once all have ended or one has failed; until then step the branches below
it: /0, /1 and so on below /.

Told by run with --steps, debug and its scripts.
"#,
    },
    Explanation {
        code: "S6",
        name: Some("Slots"),
        sentence: "an iteration may not begin yet, by MaxConcurrency",
        text: r#"A Map with a MaxConcurrency of N runs N iterations at a time, in the order of the items. (Amazon
States Language, "Map State concurrency".) Step those before it to their end, or raise
MaxConcurrency.

Told by run with --steps, debug and its scripts.
"#,
    },
    Explanation {
        code: "S7",
        name: Some("NotYet"),
        sentence: "a branch waits until the moment that stands behind",
        text: r#"A Wait isn't over, or a retry is still to come: the branch can step at this moment or later. Give
the step a later moment.

For a machine of one Wait, {"Type": "Wait", "Seconds": 5, "End": true}:

Wrong:
    / 2026-01-01T00:00:00Z
    / 2026-01-01T00:00:01Z
Right:
    / 2026-01-01T00:00:00Z
    / 2026-01-01T00:00:05Z

Told by run with --steps, debug and its scripts.
"#,
    },
    Explanation {
        code: "S8",
        name: Some("HistoryFull"),
        sentence: "the history has no room for the events of one more step",
        text: r#"An execution has at most 25,000 events, as in the service. (Developer Guide, "Step Functions
service quotas".) A loop without a way out is the usual reason: see no-end. Else start a new
execution for the rest of the work.

Told by run with --steps, debug and its scripts.
"#,
    },
    Explanation {
        code: "S9",
        name: Some("OutOfMemory"),
        sentence: "memory ran out in a step",
        text: r#"It is told as fault: OutOfMemory: see F16.

Told by run with --steps, debug and its scripts.
"#,
    },
    Explanation {
        code: "NotPaused",
        name: None,
        sentence: "a branch that is to be released doesn't pause",
        text: r#"resume PLACE releases a branch that stands before a state with a breakpoint. No branch runs at
this place, or it may step anyway: show PLACE tells.

Told by debug, in answer to resume.
"#,
    },
    Explanation {
        code: "NoSuchState",
        name: None,
        sentence: "a breakpoint names no state",
        text: r#"break NAME wants the name of a state of the definition, as a JSON text: break "Charge card". clear
NAME answers so where there was no breakpoint at this state. Where a rule of explore names no Task,
its fault has the same name: asl explain Q2 is about that.

Told by debug, in answer to break and clear.
"#,
    },
    Explanation {
        code: "TooFar",
        name: None,
        sentence: "more steps are to be taken back than were taken",
        text: r#"back N takes the last N accepted steps back, and fewer than N were accepted. Steps that were
refused, and those that were taken back before, don't count.

Told by debug, in answer to back.
"#,
    },
];

/// The codes of refusals, in order.
pub(crate) fn all() -> &'static [Explanation]
    ensures { map code_of result.now ≡ refusal_codes }
{
    ALL
}
