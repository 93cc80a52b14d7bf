// Reading a formula from left to right, with what stands open in a list.
ghost use Rattle.std.specs.Prelude.{◌≡◌, ◌<◌, List, [], None, Ok, length, IfOk, IfSome};
ghost use Rattle.std.specs.Str.{IsUtf8};
ghost use Rattle.asl_json_scan.specs.private.Leads.{NoSpaceFirst};
ghost use Rattle.asl_rules.specs.private.Parts.{no_parts};
ghost use Rattle.asl_rules.specs.private.Steps.{between, operand, operator, context, behind_nots, denied_by, closed, run};
ghost use Rattle.asl_rules.specs.private.Leads.{Leads};
ghost use Rattle.asl_rules.specs.private.Hears.{heard, told, next_of, IsShorter, GoesOn};
ghost use Rattle.asl_rules.specs.declared.rule.Rule.TheVariants.{Always};
ghost use Rattle.asl_rules.specs.declared.atom.Task.{Task};

use crate::atom::Task;
use crate::atoms::atom;
use crate::formula::{Formula, Node, Operand};
use crate::front::letters;
use crate::open::{Open, Opens, Parts};
use asl_json_scan::{Stop, after_byte, skip_spaces, syntax};
use std::alloc::{AllocError, Global};

/// How many parentheses and `not`s may be open at once.
const MAX_OPEN: usize = 64;

/// What is wanted next.
#[derive(Drop)]
pub(crate) enum Place {
    /// An operand.
    Operand,
    /// What follows this operand.
    Operator(Operand),
}

/// What stands open, what the innermost formula has so far, the first name that no Task has, what is wanted, and what is left of the text.
#[derive(Drop)]
pub(crate) struct Reader<'a> {
    opens: Opens,
    parts: Parts,
    missing: Option<usize>,
    place: Place,
    rest: &'a [u8],
}

/// What a reader comes to.
#[derive(Drop)]
pub(crate) enum Turned<'a> {
    On(Reader<'a>),
    /// The formula, with the first name that no Task has.
    Over(Formula, Option<usize>),
}

/// What stands open behind an operand, whose `not`s end with it, and the operand with these. The error is that memory ran out.
fn behind_nots(
    alloc: Global,
    opens: Opens,
    operand: Operand,
) -> Result<(Opens, Operand), AllocError>
    ensures opens { IfOk result (λ x. x.0 ≡ behind_nots opens) }
    ensures operand { IfOk result (λ x. x.1 ≡ denied_by opens operand) }
{
    let mut opens = opens;
    let mut operand = operand;
    loop {
        let (innermost, others) = opens.pop();
        match innermost {
            Some(Open::Not) => {
                opens = others;
                operand = Operand {
                    node: Node::Not(Box::new(alloc, operand)?),
                };
            }
            Some(group) => return Ok((others.with(group)?, operand)),
            None => return Ok((others, operand)),
        }
    }
}

/// Reads on behind an operand in a formula, within what stands open.
fn behind<'a>(
    alloc: Global,
    opens: Opens,
    parts: Parts,
    missing: Option<usize>,
    operand: Operand,
    rest: &'a [u8],
) -> Result<Reader<'a>, AllocError>
    ensures run { IfOk result
        (λ r. (r.place ≡ Place.Operator (denied_by opens operand)) × (r.opens ≡ behind_nots opens) × (r.parts ≡ parts) × (r.missing ≡ missing)
        × (r.rest.now ≡ rest.now)) }
{
    let (opens, operand) = behind_nots(alloc, opens, operand)?;
    Ok(Reader {
        opens,
        parts,
        missing,
        place: Place::Operator(operand),
        rest,
    })
}

/// Reads a parenthesis, `not` or an atom, where no space stands in front.
fn operand<'a>(
    alloc: Global,
    tasks: &[Task],
    opens: Opens,
    parts: Parts,
    missing: Option<usize>,
    rest: &'a [u8],
) -> Result<Reader<'a>, Stop>
    requires utf8 { IsUtf8 rest.now }
    requires no_space { NoSpaceFirst rest.now }
    ensures run { Leads (heard tasks.now) result (run tasks.now (between operand) (context opens parts missing) rest.now) }
    ensures shorter { IfOk result (IsShorter rest.now) }
{
    if let Some(inside) = after_byte(rest, b'(') {
        if opens.len() >= MAX_OPEN {
            return Err(syntax(rest));
        }
        return Ok(Reader {
            opens: opens.with(Open::Group(parts))?,
            parts: Parts::new(alloc),
            missing,
            place: Place::Operand,
            rest: inside,
        });
    }
    if let Some(inside) = after_byte(rest, b'n') {
        if opens.len() >= MAX_OPEN {
            return Err(syntax(rest));
        }
        let denied = letters(inside, b"ot")?;
        return Ok(Reader {
            opens: opens.with(Open::Not)?,
            parts,
            missing,
            place: Place::Operand,
            rest: denied,
        });
    }
    let (atom, missing, rest) = atom(alloc, tasks, rest, missing)?;
    let operand = Operand {
        node: Node::Atom(atom),
    };
    Ok(behind(alloc, opens, parts, missing, operand, rest)?)
}

/// Reads on behind a closing parenthesis; `None` is that no parenthesis is open.
fn closed<'a>(
    alloc: Global,
    opens: Opens,
    parts: Parts,
    missing: Option<usize>,
    operand: Operand,
    rest: &'a [u8],
) -> Result<Option<Reader<'a>>, AllocError>
    ensures run { IfOk result (λ o. next_of o ≡ closed operand parts missing opens) }
    ensures rest { IfOk result (λ o. IfSome o (λ r. r.rest.now ≡ rest.now)) }
{
    let (innermost, others) = opens.pop();
    match innermost {
        Some(Open::Group(outer)) => {
            let group = Operand {
                node: Node::Group(Box::new(alloc, parts.whole(operand))?),
            };
            Ok(Some(behind(alloc, others, outer, missing, group, rest)?))
        }
        Some(Open::Not) => Ok(None),
        None => Ok(None),
    }
}

/// A reader that wants an operand.
fn wanting<'a>(opens: Opens, parts: Parts, missing: Option<usize>, rest: &'a [u8]) -> Reader<'a>
    ensures { result ≡ record { opens = opens; parts = parts; missing = missing; place = Place.Operand; rest = rest.entry } }
{
    Reader {
        opens,
        parts,
        missing,
        place: Place::Operand,
        rest,
    }
}

/// Reads an operator or a closing parenthesis behind an operand, where no space stands in front.
fn operator<'a>(
    alloc: Global,
    opens: Opens,
    parts: Parts,
    missing: Option<usize>,
    operand: Operand,
    rest: &'a [u8],
) -> Result<Reader<'a>, Stop>
    requires utf8 { IsUtf8 rest.now }
    requires no_space { NoSpaceFirst rest.now }
    requires some { 0 < length rest.now }
    ensures run { (ts : List Task) → Leads (heard ts) result (run ts (between (operator operand)) (context opens parts missing) rest.now) }
    ensures shorter { IfOk result (IsShorter rest.now) }
{
    if let Some(inside) = after_byte(rest, b'a') {
        let behind = letters(inside, b"nd")?;
        return Ok(wanting(opens, parts.and(operand)?, missing, behind));
    }
    if let Some(inside) = after_byte(rest, b'o') {
        let behind = letters(inside, b"r")?;
        return Ok(wanting(opens, parts.or(alloc, operand)?, missing, behind));
    }
    if let Some(inside) = after_byte(rest, b'=') {
        let behind = letters(inside, b">")?;
        return Ok(wanting(opens, parts.implies(alloc, operand)?, missing, behind));
    }
    let Some(inside) = after_byte(rest, b')') else {
        return Err(syntax(rest));
    };
    match closed(alloc, opens, parts, missing, operand, inside)? {
        Some(reader) => Ok(reader),
        None => Err(syntax(rest)),
    }
}

/// The formula that ends with an operand at the end of the text.
fn ended<'a>(
    opens: Opens,
    parts: Parts,
    missing: Option<usize>,
    operand: Operand,
    rest: &'a [u8],
) -> Result<Turned<'a>, Stop>
    requires { rest.now ≡ [] }
    ensures run { (ts : List Task) → Leads (told ts) result (run ts (between (operator operand)) (context opens parts missing) rest.now) }
    ensures over { IfOk result (GoesOn rest.now) }
{
    let (innermost, _) = opens.pop();
    match innermost {
        None => Ok(Turned::Over(parts.whole(operand), missing)),
        Some(_) => Err(syntax(rest)),
    }
}

/// Reads on by a parenthesis, an operator, `not` or an atom, or ends.
fn turn<'a>(alloc: Global, tasks: &[Task], reader: Reader<'a>) -> Result<Turned<'a>, Stop>
    requires { IsUtf8 reader.rest.now }
    ensures run { Leads (told tasks.now) result (heard tasks.now reader.entry) }
    ensures shorter { IfOk result (GoesOn reader.entry.rest.now) }
{
    let Reader {
        opens,
        parts,
        missing,
        place,
        rest,
    } = reader;
    let rest = skip_spaces(rest);
    match place {
        Place::Operand => {
            let on = operand(alloc, tasks, opens, parts, missing, rest)?;
            Ok(Turned::On(on))
        }
        Place::Operator(operand) => {
            if rest.is_empty() {
                return ended(opens, parts, missing, operand, rest);
            }
            let on = operator(alloc, opens, parts, missing, operand, rest)?;
            Ok(Turned::On(on))
        }
    }
}

/// The formula that a text is, with the first name that no Task has: by how many bytes there are from its first quote on.
pub(crate) fn formula(
    alloc: Global,
    tasks: &[Task],
    text: &[u8],
) -> Result<(Formula, Option<usize>), Stop>
    requires { IsUtf8 text.now }
    ensures { Leads (λ x. Ok (Always x.0, x.1)) result (run tasks.now (between operand) (context [] no_parts None) text.now) }
{
    let mut reader = wanting(Opens::new(alloc), Parts::new(alloc), None, text);
    loop {
        match turn(alloc, tasks, reader)? {
            Turned::On(on) => reader = on,
            Turned::Over(formula, missing) => return Ok((formula, missing)),
        }
    }
}
