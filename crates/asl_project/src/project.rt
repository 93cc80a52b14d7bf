// Project files.
ghost use Rattle.std.specs.Prelude.{◌≡◌, true, None, IfOk, IfErr};
ghost use Rattle.toml.specs.Data.{Members};
ghost use Rattle.toml.specs.View.{table_view};
ghost use Rattle.asl_project.specs.Document.{IsDocument};
ghost use Rattle.asl_project.specs.Form.{first_wrong, shows};
ghost use Rattle.asl_project.specs.Places.{IsTableThat};
ghost use Rattle.asl_project.specs.Told.{IsProject, IsAnswer, IsFaultAt};
ghost use Rattle.asl_project.specs.declared.fault.ProjectFault.TheVariants.{OutOfMemory};

use crate::document::table_in;
use crate::fault::{ProjectFault, fault_at};
use crate::form::first_wrong;
use crate::places::place_of;
use crate::spelled::workflows_of;
use crate::spot::Spot;
use crate::workflow::Workflow;
use std::alloc::{AllocError, Global};

/// The workflows of a project.
pub struct Project {
    /// Each, in order.
    pub workflows: Vec<Workflow>,
}

impl Drop for Project {
    fn drop(self) {
        let Project {
            workflows: _workflows,
        } = self;
    }
}

/// The fault of what is wrong at a spot of the table of a text.
fn fault_of(alloc: Global, text: &[u8], spot: &Spot<'_>) -> ProjectFault
    requires { IsTableThat (shows spot.now) true text.now }
    ensures { IsFaultAt text.now spot.now result }
{
    match place_of(alloc, text, spot) {
        Ok(Some(place)) => fault_at(spot, place),
        Ok(None) => unreachable!(),
        Err(AllocError) => ProjectFault::OutOfMemory,
    }
}

impl Project {
    /// The workflows that a text spells, which is that of the file of this name: paths go from its folder.
    pub fn read(alloc: Global, file: &str, text: &[u8]) -> Result<Project, ProjectFault>
        // What is read is a text in which nothing is wrong, and has the workflows that it spells.
        ensures found { IfOk result (λ p. IsProject file.now text.now p.workflows.items) }
        // Each text in which nothing is wrong is read, unless memory runs out.
        ensures only { (ms : Members) → IsDocument text.now ms → first_wrong ms ≡ None
            → IfErr result (λ e. e ≡ OutOfMemory) }
        // The fault is that of the TOML text, or else what is wrong with its table by the least number, at its place.
        ensures fault { IfErr result (IsAnswer text.now) }
    {
        let table = table_in(alloc, text)?;
        match first_wrong(&table) {
            Some(spot) => Err(fault_of(alloc, text, &spot)),
            None => match workflows_of(alloc, file, &table) {
                Ok(workflows) => Ok(Project { workflows }),
                Err(AllocError) => Err(ProjectFault::OutOfMemory),
            },
        }
    }
}
