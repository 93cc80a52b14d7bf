// A case under a plan.
ghost use Rattle.std.specs.Prelude.{◌≡◌, ◌≤◌, ℕ, List, IfOk};
ghost use Rattle.asl_mock.specs.Answers.{answer_to, first_with};
ghost use Rattle.asl_error_plans.specs.Injected.{answer_put, thrown, under_error, under_plan};

use crate::injected::InjectedError;
use crate::putting::with_error;
use asl_json::Txt;
use asl_mock::{Answer, Case, Response};
use std::alloc::{AllocError, Global};

/// A copy of a cause. The error is that memory ran out.
fn cause_of(alloc: Global, error: &InjectedError) -> Result<Option<Txt>, AllocError>
    ensures { IfOk result (λ t. t ≡ error.now.cause) }
{
    match &error.cause {
        Some(cause) => Ok(Some(cause.try_clone(alloc)?)),
        None => Ok(None),
    }
}

/// The response of the error's state with the error put in. The error of this call is that memory ran out.
fn failing(alloc: Global, case: &Case, error: &InjectedError) -> Result<Response, AllocError>
    ensures { IfOk result (λ r. (k : ℕ) → k ≤ 4_294_967_295
        → first_with k r ≡ answer_put error.now.number error.now.for_good (thrown error.now)
        (answer_to case.now error.now.state) k) }
{
    let answer = Answer::Throws {
        error: error.error.try_clone(alloc)?,
        cause: cause_of(alloc, error)?,
    };
    match case.response_for(error.state.as_str()) {
        Some(own) => with_error(alloc, own, error.number, error.for_good, &answer),
        None => {
            let none = Response::of_answers(alloc, Vec::new(alloc))?;
            with_error(alloc, &none, error.number, error.for_good, &answer)
        }
    }
}

/// The case with an error put in. The error of this call is that memory ran out.
fn under_error(alloc: Global, case: &Case, error: &InjectedError) -> Result<Case, AllocError>
    ensures { IfOk result (λ c. (state : List ℕ) (k : ℕ) → k ≤ 4_294_967_295
        → answer_to c state k ≡ under_error (answer_to case.now) error.now state k) }
{
    let response = failing(alloc, case, error)?;
    let own = Case::of_one_state(alloc, error.state.as_str(), &response)?;
    own.merged_with(alloc, case)
}

/// The case with each error of a plan put in, one over the other, the last one outermost: its answers are those of the definition. The error of this call is
/// that memory ran out.
pub fn case_under(alloc: Global, case: &Case, plan: &[InjectedError]) -> Result<Case, AllocError>
    ensures { IfOk result (λ c. (state : List ℕ) (k : ℕ) → k ≤ 4_294_967_295
        → answer_to c state k ≡ under_plan plan.now (answer_to case.now) state k) }
{
    let mut under = case.try_clone()?;
    for error in plan {
        under = under_error(alloc, &under, error)?;
    }
    Ok(under)
}
