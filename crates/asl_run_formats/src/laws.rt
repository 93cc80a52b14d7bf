// What the steps of a run lead to.
ghost use Rattle.asl_run_formats.specs.Taken.{StepsLeadThere};

/// The steps that a run took, taken one after another, lead to the world that the run led to. A law: calling it does nothing.
pub fn taken_steps_lead_to_the_same_world()
    ensures { StepsLeadThere }
{}
