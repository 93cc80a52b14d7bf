// Retriers and catchers of a definition, asked what becomes of an error.
use asl_check::accept;
use asl_def_shared::{Catcher, Completion};
use asl_def_states::State;
use asl_handle::{Decision, Policy};
use asl_time::Moment;
use std::alloc::Global;

/// A definition with a Task state of these members, and the states A and B.
fn definition(alloc: Global, members: &str) -> Option<String> {
    format!(in alloc;
        "{{\"StartAt\":\"T\",\"States\":{{\"T\":{{\"Type\":\"Task\",\"Resource\":\"r\",{members},\"End\":true}},\"A\":{{\"Type\":\"Succeed\"}},\"B\":{{\"Type\":\"Succeed\"}}}}}}"
    ).ok()
}

/// The name of the state at which the execution goes on.
fn target(alloc: Global, catcher: &Catcher) -> Option<String> {
    format!(in alloc; "caught {}", catcher.next().name.as_str()).ok()
}

/// The text of a decision: the number of the retrier and the milliseconds of the moment, or the state that comes next.
fn decided(
    alloc: Global,
    completion: &Completion,
    error: &str,
    uses: &[u32],
    now: Moment,
) -> Option<String> {
    let policy = Policy {
        retriers: completion.retry(),
        catchers: completion.catch(),
    };
    match policy.decide(error, uses, now) {
        Decision::Again { retrier, until } => {
            format!(in alloc; "again {retrier} {}", until.millis()).ok()
        }
        Decision::Caught { catcher } => target(alloc, catcher),
        Decision::Unhandled => String::from_str(alloc, "unhandled").ok(),
    }
}

/// What becomes of an error of the Task with these members.
pub(crate) fn asked(
    alloc: Global,
    members: &str,
    error: &str,
    uses: &[u32],
    now: u64,
) -> Option<String> {
    let text = definition(alloc, members)?;
    let now = Moment::of_millis(now)?;
    let machine = accept(alloc, text.as_bytes()).ok()?;
    match machine.state("T") {
        Some(State::Task(task)) => decided(alloc, task.completion(), error, uses, now),
        _ => None,
    }
}
