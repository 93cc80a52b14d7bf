// Whole numbers.
ghost use Rattle.std.specs.Prelude.{◌≡◌, ◌<◌, ◌^◌, IfSome, unsigned_abs};
ghost use Rattle.std.specs.Fmt.{signed_decimal};
ghost use Rattle.asl_json.specs.Whole.{whole_of};

use crate::value::Dec;
use itoa::Buffer;

/// How many units of 10^-9 there are in 1.
const ONE: i128 = 1_000_000_000;

impl Dec {
    /// The whole number that it is, where it is one. Its amount is below 10^18.
    pub fn whole(&self) -> Option<i128>
        ensures value { result ≡ whole_of self.now }
        ensures below { IfSome result (λ n. unsigned_abs n < 10 ^ 18) }
    {
        self.is_number();
        let units = self.units();
        if units % ONE == 0 {
            return Some(units / ONE);
        }
        None
    }

    /// The number of this amount, which is below 10^18, in plain decimal. It takes no memory.
    pub fn of_whole(amount: i128) -> Dec
        requires { unsigned_abs amount < 10 ^ 18 }
        ensures { result ≡ signed_decimal amount }
    {
        let mut buffer = Buffer::new();
        Dec::of_number(buffer.format(amount))
    }
}
