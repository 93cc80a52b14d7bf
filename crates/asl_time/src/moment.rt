// Moments.
ghost use Rattle.std.specs.Prelude.{◌≡◌, ◌+◌, ◌≤◌, ◌↔◌, min, IfSome, IsSome};

use std::marker::Model;

/// A point in time: milliseconds since 1970-01-01T00:00:00.000Z, from 0 to 253,402,300,799,999. Days have 86,400 seconds:
/// leap seconds don't count. A contract sees that number, and an earlier moment is a smaller one.
#[derive(Clone, Copy, Debug, PartialEq, Eq, PartialOrd, Ord)]
pub struct Moment(u64);

impl Model for Moment {
    ghost use Rattle.std.specs.Prelude.{ℕ, ◌≤◌};

    ghost Value = { ℕ };

    ghost view = { λ a. a.0 };

    ghost invariant = { λ a. a.0 ≤ 253_402_300_799_999 };

    ghost inverse = { λ n. record { 0 = n } };
}

impl Moment {
    /// The first moment, 1970-01-01T00:00:00.000Z.
    pub const FIRST: Moment = Moment(0);

    /// The last moment, 9999-12-31T23:59:59.999Z.
    pub const LAST: Moment = Moment(Self::LAST_MILLIS);

    /// The milliseconds of the last moment.
    pub const LAST_MILLIS: u64 = 253_402_300_799_999;

    /// The moment so many milliseconds after 1970-01-01T00:00:00.000Z; `None` past the last one.
    pub fn of_millis(millis: u64) -> Option<Moment>
        ensures value { IfSome result (λ moment. moment ≡ millis) }
        ensures found { IsSome result ↔ (millis ≤ Self.LAST_MILLIS) }
    {
        if millis > Self::LAST_MILLIS {
            return None;
        }
        Some(Moment(millis))
    }

    /// The milliseconds since 1970-01-01T00:00:00.000Z.
    pub fn millis(self) -> u64
        ensures value { result ≡ self }
        ensures bound { result ≤ Self.LAST_MILLIS }
    {
        self.0
    }
}

/// The moment so many milliseconds later, or the last one where there is none so late.
pub fn add(moment: Moment, millis: u64) -> Moment
    ensures { result ≡ min (moment + millis) Moment.LAST_MILLIS }
{
    let room = Moment::LAST_MILLIS - moment.0;
    Moment(moment.0 + millis.min(room))
}
