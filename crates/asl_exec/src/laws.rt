// Laws of runs.
ghost use Rattle.asl_exec.specs.Laws.{CheckpointsStay, OneRun, RunIsNotRefused, StepsAppendEvents};

/// Texts have at most one run, and those that have one aren't refused, over all texts: so `emulate_texts` answers texts
/// that have a run with that run, unless memory runs out. The laws have no code.
pub fn texts_have_one_run()
    ensures one { OneRun }
    ensures not_refused { RunIsNotRefused }
{}

/// Steps only append events, over all lists of steps: so the checkpoint of an execution shows its world also once the execution has
/// gone on, and `Execution::replay_from` may be called with each checkpoint of the same execution. The laws have no code.
pub fn steps_only_append_events()
    ensures appends { StepsAppendEvents }
    ensures checkpoints { CheckpointsStay }
{}
