// Laws of the faults of a definition: each is a contract, over every value and every place.
ghost use Rattle.asl_def_schema.specs.declared.fault.FaultKind.TheVariants.{NotObject, Missing, UnknownField, Unsupported, WrongType};
ghost use Rattle.asl_def_schema.specs.declared.fault.FaultKind.TheVariants.{Range, Both, Neither, NoTarget, DuplicateState};
ghost use Rattle.asl_def_schema.specs.declared.fault.FaultKind.TheVariants.{AllNotLast, Path, Expression, Nesting};
ghost use Rattle.asl_def_fault_laws.specs.Laws.{HasItWhere, ClaimsAreInOrder, AnswersAreFirst, OneIsTold};

/// When a definition has a fault, kind by kind, and at which place: exactly when what stands there, or around it, is so in
/// terms of the language. The laws have no code.
pub fn faults_are_of_the_language()
    // F2: the whole definition isn't an object.
    ensures not_object { HasItWhere NotObject }
    // F3: a member that the table of members requires of an object, and that isn't there.
    ensures missing { HasItWhere Missing }
    // F4: a member that the table doesn't have.
    ensures unknown { HasItWhere UnknownField }
    // F5: a member, a `Type`, `Version`, `QueryLanguage` or `Mode` that stands for what isn't supported.
    ensures unsupported { HasItWhere Unsupported }
    // F6: a value that isn't of the type of JSON that its member is to have.
    ensures wrong_type { HasItWhere WrongType }
    // F7: a number, a timestamp, a list or the name of a state outside of its range.
    ensures range { HasItWhere Range }
    // F8: of two members of which one may be there, the later one.
    ensures both { HasItWhere Both }
    // F9: an object without a member of a group of which one has to be there.
    ensures neither { HasItWhere Neither }
    // F10: a target that no state of the innermost machine around it has.
    ensures no_target { HasItWhere NoTarget }
    // F11: a state whose name a state before it has.
    ensures duplicate { HasItWhere DuplicateState }
    // F12: `States.ALL` beside other names, or in a retrier or catcher that others stand behind.
    ensures all { HasItWhere AllNotLast }
    // F13: a text that is to be a path and is none.
    ensures path { HasItWhere Path }
    // F14: a text that is to be a call of an intrinsic function and is none.
    ensures expression { HasItWhere Expression }
    // F15: a machine inside 16 others.
    ensures nesting { HasItWhere Nesting }
{}

/// Faults in document order. The laws have no code.
pub fn the_first_fault_is_told()
    // What is demanded of the values of a definition stands in document order.
    ensures order { ClaimsAreInOrder }
    // What the search answers is a fault of the definition, in terms of the language, and no other has a lower number, or
    // the same number and an earlier place; if it answers none, no place has a fault.
    ensures first { AnswersAreFirst }
    // There is no other answer of which this is so.
    ensures only { OneIsTold }
{}
