// What an execution is.
ghost use Rattle.std.specs.Prelude.{◌≡◌};
ghost use Rattle.std.specs.Coded.{Coded-set};
ghost use Rattle.asl_step.specs.contracts.facts.Facts as facts_row;
ghost use Rattle.asl_exec.specs.Steps.{facts_of};

use asl_run_input::Setup;
use asl_run_state::World;
use asl_step::Context;
use std::alloc::Global;

/// A setup, and the world of the steps so far. It keeps the allocator that it was opened with.
pub struct Execution {
    pub(crate) setup: Setup,
    pub(crate) world: World,
    pub(crate) context: Context,
    pub(crate) alloc: Global,
    ghost about: { context.facts ≡ facts_of setup } by { Coded-set facts_row.the_row.coded context.facts (facts_of setup) },
}

// Written out, so that a caller's proof sees one call and not the drop of each part.
impl Drop for Execution {
    fn drop(self) {
        let Execution {
            setup: _setup,
            world: _world,
            context: _context,
            alloc: _alloc,
        } = self;
    }
}
