// What the invocations of a Task came to, by the answers of a case.
ghost use Rattle.std.specs.Prelude.{◌≡◌, not};
ghost use Rattle.asl_rules.specs.Answers.{returns, returned, some_below};

use asl_mock::{Answer, Case, answer};

/// Whether the invocation of this number, counted from 0, of the Task of this name returns.
fn returns(case: &Case, task: &str, number: u32) -> bool
    ensures { result ≡ returns case.now task.now number }
{
    matches!(answer(case, task, number), Some(Answer::Returns(_)))
}

/// How many of so many invocations return.
pub(crate) fn returned(case: &Case, task: &str, count: u32) -> u32
    ensures { result ≡ returned case.now task.now count }
{
    let mut found = 0;
    for number in 0..count {
        if returns(case, task, number) {
            found += 1;
        }
    }
    found
}

/// Whether some of so many invocations returns.
pub(crate) fn some_returns(case: &Case, task: &str, count: u32) -> bool
    ensures { result ≡ some_below (returns case.now task.now) count }
{
    for number in 0..count {
        if returns(case, task, number) {
            return true;
        }
    }
    false
}

/// Whether some of so many invocations doesn't return.
pub(crate) fn some_fails(case: &Case, task: &str, count: u32) -> bool
    ensures { result ≡ some_below (λ k. not (returns case.now task.now k)) count }
{
    for number in 0..count {
        if !returns(case, task, number) {
            return true;
        }
    }
    false
}
