// Delays before retries.
ghost use Rattle.std.specs.Prelude.{◌≡◌, ◌≤◌, ◌↔◌, ◌+◌, ◌-◌, ◌*◌, ◌/◌, min, pos, ◌≤ℤ◌, IfSome, IsSome};
ghost use Rattle.asl_time.specs.Delay.{delay_after, cap_seconds};

use std::marker::Model;

/// The factor by which each delay is longer than the one before, from 1 to 1000 (`BackoffRate`). A contract sees it in
/// units of 10^-9, as a number from 10^9 to 10^12.
#[derive(Clone, Copy, Debug, PartialEq, Eq, PartialOrd, Ord)]
pub struct Rate(u64);

impl Model for Rate {
    ghost use Rattle.std.specs.Prelude.{ℕ, ◌≤◌};

    ghost Value = { ℕ };

    ghost view = { λ a. a.0 };

    ghost invariant = { λ a. (1_000_000_000 ≤ a.0) × (a.0 ≤ 1_000_000_000_000) };

    ghost inverse = { λ n. record { 0 = n } };
}

impl Rate {
    /// The rate of so many units of 10^-9; `None` below 1 and above 1000.
    pub fn of(units: i128) -> Option<Rate>
        ensures value { IfSome result (λ rate. pos rate ≡ units) }
        ensures found { IsSome result
            ↔ ((pos 1_000_000_000 ≤ℤ units) × (units ≤ℤ pos 1_000_000_000_000)) }
    {
        if units < 1_000_000_000 || units > 1_000_000_000_000 {
            return None;
        }
        Some(Rate(units as u64))
    }

    /// The delay behind this one, rounded down, and no longer than the longest.
    fn next(self, delay: u64, longest: u64) -> u64
        requires { delay ≤ 31_622_400_000 }
        ensures { result ≡ min (delay * self / 1_000_000_000) longest }
    {
        let grown = u128::from(delay) * u128::from(self.0) / 1_000_000_000;
        (grown as u64).min(longest)
    }
}

/// The milliseconds of the longest delay.
fn longest_of(cap: Option<u32>) -> u64
    requires { IfSome cap (λ seconds. seconds ≤ 31_622_400) }
    ensures value { result ≡ 1000 * cap_seconds cap }
    ensures bound { result ≤ 31_622_400_000 }
{
    u64::from(cap.unwrap_or(31_622_400)) * 1000
}

/// The milliseconds before the retry number `k`, which counts from 1 (ASL, "Retrying after error").
///
/// The first delay is the interval, in seconds (`IntervalSeconds`). Each further one is the one before it times the
/// rate, rounded down. None is longer than the cap, in seconds (`MaxDelaySeconds`), which is 366 days where none is
/// given. A delay that has stopped growing is not reckoned again.
pub fn delay(interval: u32, rate: Rate, cap: Option<u32>, k: u32) -> u64
    requires interval_in { interval ≤ 99_999_999 }
    requires cap_in { IfSome cap (λ seconds. seconds ≤ 31_622_400) }
    requires counts_from_1 { 1 ≤ k }
    ensures value { result ≡ delay_after (1000 * interval) rate (1000 * cap_seconds cap) (k - 1) }
    ensures bound { result ≤ 1000 * cap_seconds cap }
{
    let longest = longest_of(cap);
    let mut delay = (u64::from(interval) * 1000).min(longest);
    for _ in 1..k {
        let next = rate.next(delay, longest);
        // A delay that doesn't grow, as the longest, never will.
        if next == delay {
            return delay;
        }
        delay = next;
    }
    delay
}
