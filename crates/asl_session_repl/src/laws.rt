// Laws of lines.
ghost use Rattle.asl_session_repl.specs.Laws.{MayBeTyped};

/// A line of a script may be typed: it asks for the same, and is answered as in a script. The law has no code.
pub fn lines_of_scripts_may_be_typed()
    ensures { MayBeTyped }
{}
