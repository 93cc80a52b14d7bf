// Laws of searches.
ghost use Rattle.asl_explore.specs.Laws.{StepsIgnoreHistory, ClosedIsWhole, WaitlessIsWhole, DrivenIsListed, TimelessIsWhole, TriedIsDecided};

/// A step reads nothing of the history, and a search that took enough steps of each world that it met left out no outcome: of all orders, where no branch
/// ever waits. What a run without a list of steps ends in is among them. The laws have no code.
pub fn searches_leave_out_nothing()
    ensures history { StepsIgnoreHistory }
    ensures whole { ClosedIsWhole }
    ensures waitless { WaitlessIsWhole }
    ensures driven { DrivenIsListed }
    ensures timeless { TimelessIsWhole }
{}

/// The steps of which remarks speak are those that are tried. The law has no code.
pub fn remarks_speak_of_tried_steps()
    ensures { TriedIsDecided }
{}
