// What the lines of a step tell of its state.
ghost use Rattle.std.specs.Prelude.{◌≡◌, List, None, codes};
ghost use Rattle.asl_json.specs.Meaning.{value_in};
ghost use Rattle.asl_def_shared.specs.Member.{completion_object};
ghost use Rattle.asl_def_states.specs.Show.{state_of};
ghost use Rattle.asl_def_schema.specs.Canon.{Named};
ghost use Rattle.asl_handle.specs.Seen.{retry_of, catch_of};
ghost use Rattle.asl_trace_lines.specs.Handling.{handles};
ghost use Rattle.asl_trace.specs.Deciding.{kind_of};

use asl_def_shared::Completion;
use asl_def_states::State;
use asl_handle::Policy;

/// The type of a state.
pub(crate) fn kind_of(state: &State) -> &'static str
    ensures { (t : List Named) → result.now ≡ kind_of (state_of t state.now) }
{
    match state {
        State::Task(_) => "Task",
        State::Pass(_) => "Pass",
        State::Choice(_) => "Choice",
        State::Wait(_) => "Wait",
        State::Parallel(_) => "Parallel",
        State::Map(_) => "Map",
        State::Succeed(_) => "Succeed",
        State::Fail(_) => "Fail",
    }
}

/// Whether states of this type may have retriers and catchers.
pub(crate) fn handles(state: &State) -> bool
    ensures { (t : List Named) → result ≡ handles (kind_of (state_of t state.now)) }
{
    match state {
        State::Task(_) | State::Parallel(_) | State::Map(_) => true,
        _ => false,
    }
}

/// No retriers and catchers.
fn no_policy<'a>() -> Policy<'a>
    ensures retry { retry_of result ≡ None }
    ensures catch { catch_of result ≡ None }
{
    Policy {
        retriers: None,
        catchers: None,
    }
}

fn policy_in(completion: &Completion) -> Policy<'_>
    ensures retry { retry_of result ≡ value_in (codes "Retry") (completion_object completion.now) }
    ensures catch { catch_of result ≡ value_in (codes "Catch") (completion_object completion.now) }
{
    Policy {
        retriers: completion.retry(),
        catchers: completion.catch(),
    }
}

/// The retriers and catchers of a state.
pub(crate) fn policy_of(state: &State) -> Policy<'_>
    ensures retry { (t : List Named)
        → retry_of result ≡ value_in (codes "Retry") (state_of t state.now) }
    ensures catch { (t : List Named)
        → catch_of result ≡ value_in (codes "Catch") (state_of t state.now) }
{
    match state {
        State::Task(task) => policy_in(task.completion()),
        State::Parallel(parallel) => policy_in(parallel.completion()),
        State::Map(map) => policy_in(map.completion()),
        _ => no_policy(),
    }
}
