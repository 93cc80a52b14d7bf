// A law: a contract over all values.
ghost use Rattle.asl_step.specs.Equal.{IsExact, place_eq, error_eq, uses_eq, record_eq};

/// `==` of what a branch is doing, of its parts, and of places, is true exactly where the two are equal as contracts see them. The
/// law has no code.
pub fn equal_records_are_one()
    ensures place { IsExact place_eq }
    ensures error { IsExact error_eq }
    ensures uses { IsExact uses_eq }
    ensures record { IsExact record_eq }
{}
