// Laws: each is a contract, over every value.
ghost use Rattle.asl_lint_warnings.specs.Laws.{WaysAreWalked, UnaskedHandlersAreIdle, ToldCallsFail};

/// Ways as the definitions of the warnings have them, by the nodes that they lead through, are ways along edges. The law has no code.
pub fn ways_are_walked()
    ensures { WaysAreWalked }
{}

/// Whatever error a retrier or a catcher is for that `unasked-handler` is told of, one before it is for. The law has no code.
pub fn unasked_handlers_are_idle()
    ensures { UnaskedHandlersAreIdle }
{}

/// A call that `failing-call` is told of has no value on any input and any Context Object. The law has no code.
pub fn told_calls_fail()
    ensures { ToldCallsFail }
{}
