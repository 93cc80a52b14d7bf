// What becomes of an error.
ghost use Rattle.std.specs.Prelude.{◌≡◌, ◌<◌, option_map};
ghost use Rattle.asl_def_fields.specs.Shown.{retrier_object};
ghost use Rattle.asl_def_shared.specs.Parts.{catcher_object};
ghost use Rattle.asl_handle.specs.Decisions.{OnAgain, decision, handlers_in, first_for, used, wait_after, delayed};
ghost use Rattle.asl_handle.specs.Seen.{seen, retry_of, catch_of};

use crate::first::first_for;
use asl_def_fields::{Retrier, Retriers};
use asl_def_shared::{Catcher, Catchers};
use asl_time::{Moment, add, delay};

/// What becomes of an error.
#[derive(Clone, Copy)]
pub enum Decision<'a> {
    /// The state is retried.
    Again {
        /// The number of the retrier that decides, from 0.
        retrier: usize,
        /// The moment of the retry.
        until: Moment,
    },
    /// The error is caught.
    Caught {
        /// The catcher that says where the execution goes on.
        catcher: &'a Catcher,
    },
    /// The branch fails.
    Unhandled,
}

/// The retriers and catchers of a state, where it has `Retry` and `Catch`.
#[derive(Clone, Copy)]
pub struct Policy<'a> {
    /// `Retry`.
    pub retriers: Option<&'a Retriers>,
    /// `Catch`.
    pub catchers: Option<&'a Catchers>,
}

/// How often the retrier of this number was used.
fn uses_at(uses: &[u32], retrier: usize) -> u32
    ensures { result ≡ used uses.now retrier }
{
    match uses.get(retrier) {
        Some(uses) => *uses,
        None => 0,
    }
}

/// The moment of a retry behind so many others.
fn retry_at(retrier: &Retrier, uses: u32, now: Moment) -> Moment
    requires { uses < 99_999_999 }
    ensures { result ≡ delayed now (wait_after (retrier_object retrier.now) uses) }
{
    let wait = delay(
        retrier.interval(),
        retrier.backoff_rate(),
        retrier.max_delay(),
        uses + 1,
    );
    add(now, wait)
}

impl<'a> Policy<'a> {
    /// The first retrier that is for the error, with its number.
    fn retrier_for(&self, error: &str) -> Option<(usize, &'a Retrier)>
        ensures { option_map (λ x. (x.0, retrier_object x.1.now)) result
            ≡ first_for error.now 0 (handlers_in (retry_of self.now)) }
    {
        match self.retriers {
            Some(retriers) => first_for(retriers.as_slice(), error),
            None => None,
        }
    }

    /// The first catcher that is for the error, with its number.
    fn catcher_for(&self, error: &str) -> Option<(usize, &'a Catcher)>
        ensures { option_map (λ x. (x.0, catcher_object x.1.now)) result
            ≡ first_for error.now 0 (handlers_in (catch_of self.now)) }
    {
        match self.catchers {
            Some(catchers) => first_for(catchers.as_slice(), error),
            None => None,
        }
    }

    /// What becomes of an error of the state at this moment, by how often each of its retriers was used since the state was
    /// entered. A retrier past the end of the list was never used.
    ///
    /// The first retrier that is for the error decides. Where it isn't used up, the state is retried after its delay, and at the
    /// last moment where that is later. Where it is used up, no other retrier is asked: the first catcher that is for the error
    /// catches it. A Fail state without `Error` has the empty error. Takes no memory. (Amazon States Language, "Retrying after
    /// error", "Fallback states".)
    pub fn decide(&self, error: &str, uses: &[u32], now: Moment) -> Decision<'a>
        ensures handling { seen result ≡ decision (retry_of self.now) (catch_of self.now) error.now
            uses.now now }
        // The count of the retrier's uses can be raised.
        ensures room { OnAgain (seen result) (λ i. used uses.now i < 99_999_999) }
    {
        if let Some((number, retrier)) = self.retrier_for(error) {
            let uses = uses_at(uses, number);
            if uses < retrier.max_attempts() {
                return Decision::Again {
                    retrier: number,
                    until: retry_at(retrier, uses, now),
                };
            }
        }
        match self.catcher_for(error) {
            Some((_, catcher)) => Decision::Caught { catcher },
            None => Decision::Unhandled,
        }
    }
}
