// What stages end with.
ghost use Rattle.asl_trace_data.specs.Laws.{StagesEnd};

/// The last stage is what the table of states says that the state gives. A law: calling it does nothing.
pub fn stages_end_with_what_states_give()
    ensures { StagesEnd }
{}
