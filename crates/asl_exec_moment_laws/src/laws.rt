// Laws of steps at other moments.
ghost use Rattle.asl_exec_moment_laws.specs.Laws.{MomentsMayBeAny, MomentsStayAside, OpenPlacesStay, BareWorldsStayAside};

/// What steps at whatever moments lead to, over all executions of a definition that doesn't read the clock. The laws have no code.
pub fn moments_may_be_any()
    // Either the execution's time is over, or an order of branches, each of which steps as early as it may, leads to the same but for moments.
    ensures any { MomentsMayBeAny }
    // Worlds that are the same but for moments stay so, where no time limit ends them.
    ensures aside { MomentsStayAside }
    // In them the same branches may step;
    ensures places { OpenPlacesStay }
    // and without their histories they stay so as well.
    ensures bare { BareWorldsStayAside }
{}
