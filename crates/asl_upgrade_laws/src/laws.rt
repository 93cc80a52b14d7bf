// Laws of upgraded machines.
ghost use Rattle.std.specs.Prelude.{List};
ghost use Rattle.asl_run_input.specs.declared.step_at.StepAt.{StepAt};
ghost use Rattle.asl_upgrade_laws.specs.Laws.{RunsAlike, UpgradedStays, UpgradedIsAccepted, UpgradedIsCanonical, UpgradedIsRead, UpgradedStepsAlike, UpgradedRunsAlike, UpgradedDrivesAlike};

use asl_run_input::Setup;

/// What a definition keeps in the newer spelling. The laws have no code.
pub fn an_upgraded_definition_is_accepted()
    // To upgrade twice is to upgrade once.
    ensures stays { UpgradedStays }
    // A definition without faults has none in the newer spelling,
    ensures accepted { UpgradedIsAccepted }
    // and its canonical form, upgraded, is the canonical form of the upgraded one.
    ensures canonical { UpgradedIsCanonical }
    // What is printed of an upgraded machine is accepted as that machine, if it is no longer than a text may be.
    ensures read { UpgradedIsRead }
{}

/// An upgraded machine runs as it did before. The laws have no code.
pub fn an_upgraded_machine_runs_alike()
    // Each step has the same reply, and leaves the same world;
    ensures steps { UpgradedStepsAlike }
    // so each list of steps leaves the same world and gives the same text,
    ensures runs { UpgradedRunsAlike }
    // and each driven run.
    ensures drives { UpgradedDrivesAlike }
{}

/// So does the machine of every setup, since no machine has a definition with a fault. The law computes nothing.
pub fn every_upgraded_setup_runs_alike(setup: &Setup)
    ensures { (l : List StepAt) → RunsAlike setup.now l }
{
    setup.machine.is_accepted();
}
