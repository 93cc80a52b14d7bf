// Laws of steps that may change places.
ghost use Rattle.asl_exec_swap_laws.specs.Laws.{OneBranchEach, StepsChangePlaces, NeighboursChangePlaces};

/// Two steps at places apart may be taken in either order, over all executions: where `are_exchangeable` says so, each is accepted
/// after the other, and both orders leave the same records, counts, outcome and last moment, and at each place the same events but
/// for their ids. The laws have no code.
pub fn steps_may_change_places()
    // Of an execution's branches at most one is at each place.
    ensures one { OneBranchEach }
    // Where that is so, such steps may change places;
    ensures exchange { StepsChangePlaces }
    // so in any list of steps neighbours may, whatever comes behind them.
    ensures neighbours { NeighboursChangePlaces }
{}
