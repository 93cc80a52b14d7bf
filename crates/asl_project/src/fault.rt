// Why a text is no project.
ghost use Rattle.std.specs.Prelude.{◌≡◌, ◌+◌, IfOk, string_bytes};
ghost use Rattle.asl_project.specs.Lines.{project_line};
ghost use Rattle.asl_project.specs.Told.{fault_at};

use crate::spot::Spot;
use asl_json_spans::Position;
use std::alloc::{AllocError, Global};
use std::error::Error;
use std::fmt;

/// Why a text is no project, with the place in the text.
#[derive(Clone, Copy, Debug)]
pub enum ProjectFault {
    /// K1: it is no TOML text.
    Syntax(Position),
    /// K2: a key isn't known; or a workflow lacks one that it needs: `definition`, and `mocks` where it has `tests`.
    Key(Position),
    /// K3: a value is of another type.
    WrongType(Position),
    /// K4: two workflows are of one machine.
    Machine(Position),
    /// K5: a file that it names can't be read.
    File(Position),
    /// Memory ran out.
    OutOfMemory,
}

/// The fault of what is wrong at a spot of the table, with its place.
pub(crate) fn fault_at(spot: &Spot<'_>, place: Position) -> ProjectFault
    ensures { result ≡ fault_at spot.now place }
{
    match spot {
        Spot::UnknownKey | Spot::Workflow(_) => ProjectFault::Key(place),
        Spot::Misfit => ProjectFault::WrongType(place),
        Spot::SameMachine => ProjectFault::Machine(place),
        Spot::Member(_, _) => ProjectFault::File(place),
    }
}

/// The line of a place, from 1.
fn line_of(place: &Position) -> u128
    ensures { result ≡ place.now.lines + 1 }
{
    place.lines as u128 + 1
}

/// The column of a place, from 1, in characters.
fn column_of(place: &Position) -> u128
    ensures { result ≡ place.now.characters + 1 }
{
    place.characters as u128 + 1
}

impl fmt::Display for ProjectFault {
    ghost use Rattle.std.specs.Prelude.{Some};

    ghost output = { λ e. Some (project_line e) };

    fn fmt<W: fmt::Write>(&self, f: &mut fmt::Formatter<W>) -> fmt::Result {
        match self {
            ProjectFault::Syntax(at) => write!(f, "K1 Syntax {}:{}", line_of(at), column_of(at)),
            ProjectFault::Key(at) => write!(f, "K2 Key {}:{}", line_of(at), column_of(at)),
            ProjectFault::WrongType(at) => write!(f, "K3 Type {}:{}", line_of(at), column_of(at)),
            ProjectFault::Machine(at) => write!(f, "K4 Machine {}:{}", line_of(at), column_of(at)),
            ProjectFault::File(at) => write!(f, "K5 File {}:{}", line_of(at), column_of(at)),
            ProjectFault::OutOfMemory => f.write_str("K6 OutOfMemory"),
        }
    }
}

impl Error for ProjectFault {}

impl ProjectFault {
    /// The text of the fault, as `K2 Key 3:1`. The error is that memory ran out.
    pub fn text(&self, alloc: Global) -> Result<String, AllocError>
        ensures { IfOk result (λ t. string_bytes t ≡ project_line self.now) }
    {
        self.to_string(alloc)
    }
}
