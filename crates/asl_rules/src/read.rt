// Reading a rule.
ghost use Rattle.std.specs.Prelude.{◌≡◌, Ok, [], None, length};
ghost use Rattle.std.specs.Str.{IsUtf8};
ghost use Rattle.asl_rules.specs.Reading.{always_in, undo_in, Gives, judged};
ghost use Rattle.asl_rules.specs.private.Parts.{no_parts};
ghost use Rattle.asl_rules.specs.private.Steps.{Read, between, argument, operand, undone, context, run};
ghost use Rattle.asl_rules.specs.private.Leads.{Leads, placed};

use crate::atom::Task;
use crate::atoms::task;
use crate::fault::RuleFault;
use crate::front::sign;
use crate::reading::formula;
use crate::rule::Rule;
use asl_json_scan::{Stop, skip_spaces, syntax};
use std::alloc::Global;

/// What is wrong, at its place from the start.
fn placed(len: usize, stop: Stop) -> RuleFault
    ensures { result ≡ placed len stop }
{
    match stop {
        Stop::Memory => RuleFault::OutOfMemory,
        Stop::Fault(fault) => RuleFault::Syntax(len.saturating_sub(fault.left)),
    }
}

/// Two Tasks that names with `=` between them name, with the first name that no Task has.
fn pair(alloc: Global, tasks: &[Task], text: &[u8]) -> Result<(Rule, Option<usize>), Stop>
    requires { IsUtf8 text.now }
    ensures { Leads (λ x. Ok (x.0, x.1)) result (run tasks.now (between (argument undone)) (context [] no_parts None) text.now) }
{
    let (done, missing, rest) = task(alloc, tasks, text, None)?;
    let rest = sign(rest, b'=')?;
    let (undone, missing, rest) = task(alloc, tasks, rest, missing)?;
    let rest = skip_spaces(rest);
    if rest.len() > 0 {
        return Err(syntax(rest));
    }
    Ok((Rule::Undo(done, undone), missing))
}

/// The rule that a formula is, with the first name that no Task has.
fn always(alloc: Global, tasks: &[Task], text: &[u8]) -> Result<(Rule, Option<usize>), Stop>
    requires { IsUtf8 text.now }
    ensures { Leads (λ x. Ok (x.0, x.1)) result (run tasks.now (between operand) (context [] no_parts None) text.now) }
{
    let (formula, missing) = formula(alloc, tasks, text)?;
    Ok((Rule::Always(formula), missing))
}

/// The rule that was read in a text of this length, or its fault.
fn judged(len: usize, read: Result<(Rule, Option<usize>), Stop>) -> Result<Rule, RuleFault>
    ensures { (r : Read) → Leads (λ x. Ok (x.0, x.1)) read r → Gives (judged len r) result }
{
    match read {
        Ok((rule, None)) => Ok(rule),
        Ok((_, Some(left))) => Err(RuleFault::NoSuchState(len.saturating_sub(left))),
        Err(stop) => Err(placed(len, stop)),
    }
}

impl Rule {
    /// Reads a formula, which is to hold. The names in it are those of these Tasks.
    pub fn always(alloc: Global, tasks: &[Task], text: &str) -> Result<Rule, RuleFault>
        ensures { Gives (always_in tasks.now text.now) result }
    {
        judged(text.len(), always(alloc, tasks, text.as_bytes()))
    }

    /// Reads two names with `=` between them: in each run that has ended in another status than `SUCCEEDED`, as many invocations
    /// of the second Task
    /// returned as of the first. The names are those of these Tasks.
    pub fn undo(alloc: Global, tasks: &[Task], text: &str) -> Result<Rule, RuleFault>
        ensures { Gives (undo_in tasks.now text.now) result }
    {
        judged(text.len(), pair(alloc, tasks, text.as_bytes()))
    }
}
