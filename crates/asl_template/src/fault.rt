// Why a value is no template.
ghost use Rattle.std.specs.Prelude.{◌≡◌, ◌∷◌, ◌++◌, [], IfOk, reverse};
ghost use Rattle.asl_path.specs.declared.step.Step.TheVariants.{Name, Index};
ghost use Rattle.asl_template.specs.private.Broken.{number_of_kind, better, under_read, taken, listed, judged_read};
ghost use Rattle.asl_template.specs.Places.{pointer_text, step_part};
ghost use Rattle.asl_template.specs.Answer.{Carries};

use asl_intrinsic::CallFault;
use asl_json::Txt;
use asl_json_write::Pointer;
use asl_path::Step;
use std::alloc::{AllocError, Global};
use std::marker::Model;
use thiserror::Error;

/// Why a value isn't a template, with the place in the value. The answer is the fault with the lowest number; of
/// several places the first in document order.
#[derive(Debug, Drop, Error)]
pub enum TemplateFault {
    /// L1: the value of a member `name.$` is no text.
    #[error("L1 NotText {0}")]
    NotText(Pointer),
    /// L2: `name` and `name.$` are in one object. The place is the later of the two.
    #[error("L2 Both {0}")]
    Both(Pointer),
    /// L5: the text of a member `name.$` begins with `$` and isn't a path. The number is that of the first byte,
    /// counted from 0, that can't continue a path.
    #[error("L5 PathText {0}: P1 PathProfile {1}")]
    PathText(Pointer, usize),
    /// L6: the text of a member `name.$` is no call.
    #[error("L6 CallText {0}: {1}")]
    CallText(Pointer, CallFault),
    /// L7: memory ran out.
    #[error("L7 OutOfMemory")]
    OutOfMemory,
}

/// What is wrong with a member.
#[derive(Drop)]
pub(crate) enum Kind {
    NotText,
    Both,
    PathText(usize),
    CallText(CallFault),
}

impl Kind {
    /// The number of the fault.
    fn number(&self) -> u8
        ensures { result ≡ number_of_kind self.now }
    {
        match self {
            Kind::NotText => 1,
            Kind::Both => 2,
            Kind::PathText(_) => 5,
            Kind::CallText(_) => 6,
        }
    }
}

/// A fault and its place. The steps are kept with the innermost one first, and seen with the outermost one first.
#[derive(Drop)]
pub(crate) struct Fault {
    kind: Kind,
    steps: Vec<Step>,
}

impl Model for Fault {
    ghost use Rattle.std.specs.Prelude.{List};
    ghost use Rattle.asl_template.specs.declared.fault.Kind.{Kind};
    ghost use Rattle.asl_path.specs.declared.step.Step.{Step};

    ghost Value = { Kind × List Step };

    ghost use Rattle.asl_template.specs.private.Broken.{seen};

    ghost view = { seen };
}

impl Fault {
    pub(crate) fn here(alloc: Global, kind: Kind) -> Fault
        ensures { result ≡ (kind, []) }
    {
        Fault {
            kind,
            steps: Vec::new(alloc),
        }
    }

    fn number(&self) -> u8
        ensures { result ≡ number_of_kind self.now.0 }
    {
        self.kind.number()
    }

    /// The fault, as it is seen from one step further out.
    fn under(self, step: Step) -> Result<Fault, AllocError>
        ensures { IfOk result (λ f. f ≡ (self.0, step ∷ self.1)) }
    {
        let Fault { kind, mut steps } = self;
        steps.push(step)?;
        Ok(Fault { kind, steps })
    }

    /// The fault with its place as text.
    pub(crate) fn told(self, alloc: Global) -> TemplateFault
        ensures { Carries self.0 (pointer_text self.1) result }
    {
        let Fault { kind, steps } = self;
        match pointer_of(alloc, &steps) {
            Ok(place) => at_place(kind, place),
            Err(AllocError) => TemplateFault::OutOfMemory,
        }
    }
}

fn at_place(kind: Kind, place: Pointer) -> TemplateFault
    ensures { Carries kind place result }
{
    match kind {
        Kind::NotText => TemplateFault::NotText(place),
        Kind::Both => TemplateFault::Both(place),
        Kind::PathText(at) => TemplateFault::PathText(place, at),
        Kind::CallText(fault) => TemplateFault::CallText(place, fault),
    }
}

fn one_further(place: Pointer, step: &Step) -> Result<Pointer, AllocError>
    ensures { IfOk result (λ p. p ≡ place ++ step_part step.now) }
{
    match step {
        Step::Name(name) => place.at_name(name.as_str()),
        Step::Index(i) => place.at_index(*i),
    }
}

/// The pointer of these steps, of which the innermost is first.
fn pointer_of(alloc: Global, steps: &[Step]) -> Result<Pointer, AllocError>
    ensures { IfOk result (λ p. p ≡ pointer_text (reverse steps.now)) }
{
    let mut place = Pointer::whole(alloc);
    let count = steps.len();
    for i in 0..count {
        place = one_further(place, &steps[count - 1 - i])?;
    }
    Ok(place)
}

/// The one with the lower number, else the earlier one.
fn better(a: Fault, b: Fault) -> Fault
    ensures { result ≡ better a b }
{
    if b.number() < a.number() {
        return b;
    }
    a
}

/// What was read of the item of this number, as it is seen from the list.
pub(crate) fn under_index<T: Drop>(
    read: Result<T, Fault>,
    index: usize,
) -> Result<Result<T, Fault>, AllocError>
    ensures { IfOk result (λ r. r ≡ under_read (Index index) read) }
{
    match read {
        Ok(part) => Ok(Ok(part)),
        Err(fault) => Ok(Err(fault.under(Step::Index(index))?)),
    }
}

/// What was read of the member of this name, as it is seen from the object.
pub(crate) fn under_name<T: Drop>(
    alloc: Global,
    read: Result<T, Fault>,
    name: &str,
) -> Result<Result<T, Fault>, AllocError>
    ensures { IfOk result (λ r. r ≡ under_read (Name name.now) read) }
{
    match read {
        Ok(part) => Ok(Ok(part)),
        Err(fault) => {
            let name = Txt::of(alloc, name)?;
            Ok(Err(fault.under(Step::Name(name))?))
        }
    }
}

/// What was read of the parts so far, and of one more.
pub(crate) fn take_in<T: Drop>(
    so_far: Result<Vec<T>, Fault>,
    read: Result<T, Fault>,
) -> Result<Result<Vec<T>, Fault>, AllocError>
    ensures { IfOk result (λ r. listed r ≡ taken (listed so_far) read) }
{
    match (so_far, read) {
        (Ok(mut parts), Ok(part)) => {
            parts.push(part)?;
            Ok(Ok(parts))
        }
        (Ok(_), Err(fault)) => Ok(Err(fault)),
        (Err(fault), Ok(_)) => Ok(Err(fault)),
        (Err(first), Err(fault)) => Ok(Err(better(first, fault))),
    }
}

/// What was read of a member that is beside another of its name, or isn't.
pub(crate) fn judged<T: Drop>(
    alloc: Global,
    double: bool,
    read: Result<T, Fault>,
) -> Result<T, Fault>
    ensures { result ≡ judged_read double read }
{
    if !double {
        return read;
    }
    let beside = Fault::here(alloc, Kind::Both);
    match read {
        Ok(_) => Err(beside),
        Err(fault) => Err(better(beside, fault)),
    }
}
