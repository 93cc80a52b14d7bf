// A text as a table.
ghost use Rattle.std.specs.Prelude.{◌≡◌, IfOk, IfErr};
ghost use Rattle.toml.specs.View.{table_view};
ghost use Rattle.asl_project.specs.Document.{IsDocument};
ghost use Rattle.asl_project.specs.Told.{IsUndocumented};
ghost use Rattle.asl_project.specs.declared.fault.ProjectFault.{ProjectFault};

use crate::fault::ProjectFault;
use asl_json_spans::Position;
use std::alloc::Global;
use toml::Table;

/// The table that a text is; else where it stops to be one.
pub(crate) fn table_in(alloc: Global, bytes: &[u8]) -> Result<Table, ProjectFault>
    ensures table { IfOk result (λ t. IsDocument bytes.now (table_view t)) }
    ensures fault { IfErr result (IsUndocumented bytes.now) }
{
    match toml::table_from_slice(alloc, bytes) {
        Ok(table) => Ok(table),
        Err(error) => match error.span() {
            Some(span) => Err(ProjectFault::Syntax(Position::start().forward(bytes, span.start))),
            None => Err(ProjectFault::OutOfMemory),
        },
    }
}
