// How much of a number there is.
ghost use Rattle.std.specs.Prelude.{◌≡◌};
ghost use Rattle.asl_json_data.specs.private.NumberParts.{may_end};

/// How much of a number there is (RFC 8259, section 6).
#[derive(Clone, Copy, Debug)]
pub enum Part {
    /// Nothing yet.
    Start,
    Minus,
    /// A 0, behind which no digit may follow.
    Nought,
    /// Digits of which the first is not 0.
    Whole,
    Point,
    /// Digits behind the point.
    Fraction,
    /// The e or E in front of the exponent.
    Mark,
    /// The sign of the exponent.
    Sign,
    /// Digits of the exponent.
    Exponent,
}

impl Part {
    /// Whether a number may end there.
    pub fn may_end(self) -> bool
        ensures { result ≡ may_end self }
    {
        match self {
            Part::Nought | Part::Whole | Part::Fraction | Part::Exponent => true,
            Part::Start | Part::Minus | Part::Point | Part::Mark | Part::Sign => false,
        }
    }
}
