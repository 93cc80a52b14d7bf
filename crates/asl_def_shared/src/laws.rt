// A law: a contract over all values.
ghost use Rattle.asl_def_fields.specs.Equal.{IsExact};
ghost use Rattle.asl_def_shared.specs.Laws.{target_eq, transition_eq, catcher_eq, catchers_eq, common_eq, limits_eq, completion_eq, body_eq, bodies_eq, heading_eq};

/// `==` of each type here is true exactly where the two are equal as contracts see them. The law has no code.
pub fn equal_parts_are_one()
    ensures target { IsExact target_eq }
    ensures transition { IsExact transition_eq }
    ensures catcher { IsExact catcher_eq }
    ensures catchers { IsExact catchers_eq }
    ensures common { IsExact common_eq }
    ensures limits { IsExact limits_eq }
    ensures completion { IsExact completion_eq }
    // The numbers of its states in the table are compared too: it is for machines of one table.
    ensures body { IsExact body_eq }
    ensures bodies { IsExact bodies_eq }
    ensures heading { IsExact heading_eq }
{}
