// A law: a contract over all values.
ghost use Rattle.asl_def_fields.specs.Equal.{IsExact};
ghost use Rattle.asl_def_fields.specs.Laws.{path_eq, path_or_call_eq, count_eq, rate_eq, delay_limit_eq, stamp_eq, mode_eq, config_eq, jitter_eq, names_eq, retrier_eq, retriers_eq};

/// `==` of each type here is true exactly where the two are equal as contracts see them. The law has no code.
pub fn equal_members_are_one()
    ensures path { IsExact path_eq }
    ensures path_or_call { IsExact path_or_call_eq }
    // Numbers and timestamps are seen as they are spelled.
    ensures count { IsExact count_eq }
    ensures rate { IsExact rate_eq }
    ensures delay_limit { IsExact delay_limit_eq }
    ensures stamp { IsExact stamp_eq }
    ensures mode { IsExact mode_eq }
    ensures config { IsExact config_eq }
    ensures jitter { IsExact jitter_eq }
    ensures names { IsExact names_eq }
    ensures retrier { IsExact retrier_eq }
    ensures retriers { IsExact retriers_eq }
{}
