// The steps to a value, as the walk goes down.
ghost use Rattle.std.specs.Prelude.{◌≡◌, ◌++◌, IfOk, OnOk};
ghost use Rattle.std.specs.Fmt.{decimal};
ghost use Rattle.asl_def_schema.specs.Claims.{step};
ghost use Rattle.asl_lint_warnings.specs.private.Trails.{steps_of};
ghost use Rattle.asl_lint_warnings.specs.Kinds.{noted};
ghost use Rattle.asl_lint_warnings.specs.States.{is_named, is_inside};

use crate::warning::{Warning, WarningKind};
use asl_def_schema::Step;
use asl_json::Txt;
use std::alloc::{AllocError, Global};

/// The steps to a value, the innermost first. It borrows the names, since few values are warned of.
#[derive(Clone, Copy)]
pub(crate) enum Trail<'a> {
    /// To the whole definition.
    Root,
    /// To the member of this number and name.
    Member(usize, &'a str, &'a Trail<'a>),
    /// To the item of this number.
    Item(usize, &'a Trail<'a>),
}

fn member_step(alloc: Global, at: usize, name: &str) -> Result<Step, AllocError>
    ensures { IfOk result (λ s. s ≡ step at name.now) }
{
    let name = Txt::of(alloc, name)?;
    Ok(Step { at, name })
}

fn item_step(alloc: Global, at: usize) -> Result<Step, AllocError>
    ensures { IfOk result (λ s. s ≡ step at (decimal at)) }
{
    let mut name = String::new(alloc);
    write!(name, "{at}")?;
    member_step(alloc, at, name.as_str())
}

/// Appends the steps, the innermost first.
fn add_steps(alloc: Global, steps: &mut Vec<Step>, trail: &Trail) -> Result<(), AllocError>
    ensures { OnOk result (steps.new.items ≡ steps.old.items ++ steps_of trail.now) }
{
    match trail {
        Trail::Root => Ok(()),
        Trail::Member(at, name, outer) => {
            steps.push(member_step(alloc, *at, name)?)?;
            add_steps(alloc, steps, outer)
        }
        Trail::Item(at, outer) => {
            steps.push(item_step(alloc, *at)?)?;
            add_steps(alloc, steps, outer)
        }
    }
}

/// Whether the last step of a trail is to a member of this name.
fn is_named(alloc: Global, trail: &Trail, name: &str) -> Result<bool, AllocError>
    ensures { IfOk result (λ named. named ≡ is_named (steps_of trail.now) name.now) }
{
    match trail {
        Trail::Root => Ok(false),
        Trail::Member(_, own, _) => Ok(*own == name),
        Trail::Item(at, _) => Ok(item_step(alloc, *at)?.name.as_str() == name),
    }
}

/// Whether the value at the end of a trail is in one of this name.
pub(crate) fn is_inside(alloc: Global, trail: &Trail, name: &str) -> Result<bool, AllocError>
    ensures { IfOk result (λ inside. inside ≡ is_inside (steps_of trail.now) name.now) }
{
    match trail {
        Trail::Root => Ok(false),
        Trail::Member(_, _, outer) | Trail::Item(_, outer) => is_named(alloc, outer, name),
    }
}

/// Adds a warning at the end of a trail, where there is one.
pub(crate) fn tell(
    alloc: Global,
    told: &mut Vec<Warning>,
    trail: &Trail,
    kind: Option<WarningKind>,
) -> Result<(), AllocError>
    ensures { OnOk result (told.new.items ≡ told.old.items ++ noted (steps_of trail.now) kind) }
{
    let Some(kind) = kind else {
        return Ok(());
    };
    let mut steps = Vec::new(alloc);
    add_steps(alloc, &mut steps, trail)?;
    told.push(Warning::at(kind, steps))?;
    Ok(())
}
