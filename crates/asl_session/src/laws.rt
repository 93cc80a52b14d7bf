// Laws of sessions.
ghost use Rattle.asl_session.specs.Laws.{NoTrace, EndsUnbroken, StartsLater, UnplainStays};

/// Breakpoints leave no trace, over all sessions and commands. The laws have no code.
pub fn breakpoints_leave_no_trace()
    // Commands that are no steps and take none back leave the world.
    ensures none { NoTrace }
    // A run that is broken and goes on ends as the unbroken run of the same steps.
    ensures unbroken { EndsUnbroken }
{}

/// What is told before the first step may be told before it is known when the execution starts: the replies are the same, and
/// `Session::restart` then leads to the same session. The law has no code.
pub fn the_start_may_come_later()
    ensures { StartsLater }
{}

/// A command whose reply has a name or a record leaves the session as it is: so whoever can't copy such a reply for want of memory has
/// changed nothing. Other replies are copied without memory. The law has no code.
pub fn replies_that_take_memory_change_nothing()
    ensures { UnplainStays }
{}
