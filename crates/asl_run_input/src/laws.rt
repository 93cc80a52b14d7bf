// Laws of the texts of a run.
ghost use Rattle.asl_run_input.specs.Laws.{OneEmulation, AcceptedIsNotRefused, OneFault};

/// Texts spell at most one run, those that spell one aren't refused, and those that are refused have one fault, over all texts. The laws
/// have no code.
/// `files_spell_one_list_of_steps` says the same of steps.
pub fn texts_spell_one_run()
    // What an execution begins with, and the steps that it takes, are one.
    ensures one { OneEmulation }
    // Texts that spell them have no fault.
    ensures not_refused { AcceptedIsNotRefused }
    // Texts that are refused have one fault that is answered.
    ensures fault { OneFault }
{}
