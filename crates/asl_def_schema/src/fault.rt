// A fault at its place.
ghost use Rattle.std.specs.Prelude.{◌≡◌, ◌∷◌, [], IfOk, reverse};
ghost use Rattle.std.specs.Fmt.{decimal};
ghost use Rattle.asl_def_schema.specs.Demands.{number_of, words_of};
ghost use Rattle.asl_def_schema.specs.Claims.{step};
ghost use Rattle.asl_def_schema.specs.Pointers.{pointer_text};

use asl_json::Txt;
use asl_json_write::Pointer;
use std::alloc::{AllocError, Global};
use std::error::Error;
use std::fmt;
use std::marker::Model;

/// What a definition is refused for.
#[derive(Clone, Copy, Debug, PartialEq, Eq)]
pub enum FaultKind {
    /// F2: the definition isn't an object.
    NotObject,
    /// F3: a required member is missing.
    Missing,
    /// F4: the object may not have this member.
    UnknownField,
    /// F5: something of the language that isn't supported.
    Unsupported,
    /// F6: a value of a wrong type.
    WrongType,
    /// F7: a value outside its range.
    Range,
    /// F8: two members of a group of which one may be there. The place is the later of the two.
    Both,
    /// F9: no member of a group of which one has to be there. The place is the object.
    Neither,
    /// F10: no state of the same machine has this name.
    NoTarget,
    /// F11: an earlier state of the definition has this name.
    DuplicateState,
    /// F12: `States.ALL` isn't alone in its list, or isn't in the last retrier or catcher.
    AllNotLast,
    /// F13: a text that isn't a path, or is one into the Context Object where a result is put.
    Path,
    /// F14: a text that isn't a call of an intrinsic function.
    Expression,
    /// F15: a machine inside 16 others.
    Nesting,
}

impl FaultKind {
    /// The number of a fault line.
    pub fn number(self) -> u8
        ensures { result ≡ number_of self }
    {
        match self {
            FaultKind::NotObject => 2,
            FaultKind::Missing => 3,
            FaultKind::UnknownField => 4,
            FaultKind::Unsupported => 5,
            FaultKind::WrongType => 6,
            FaultKind::Range => 7,
            FaultKind::Both => 8,
            FaultKind::Neither => 9,
            FaultKind::NoTarget => 10,
            FaultKind::DuplicateState => 11,
            FaultKind::AllNotLast => 12,
            FaultKind::Path => 13,
            FaultKind::Expression => 14,
            FaultKind::Nesting => 15,
        }
    }

    /// The number and the name that a fault line begins with.
    pub fn words(self) -> &'static str
        ensures { result.now ≡ words_of self }
    {
        match self {
            FaultKind::NotObject => "F2 NotObject",
            FaultKind::Missing => "F3 Missing",
            FaultKind::UnknownField => "F4 UnknownField",
            FaultKind::Unsupported => "F5 Unsupported",
            FaultKind::WrongType => "F6 WrongType",
            FaultKind::Range => "F7 Range",
            FaultKind::Both => "F8 Both",
            FaultKind::Neither => "F9 Neither",
            FaultKind::NoTarget => "F10 NoTarget",
            FaultKind::DuplicateState => "F11 DuplicateState",
            FaultKind::AllNotLast => "F12 AllNotLast",
            FaultKind::Path => "F13 Path",
            FaultKind::Expression => "F14 Expression",
            FaultKind::Nesting => "F15 Nesting",
        }
    }
}

impl fmt::Display for FaultKind {
    ghost use Rattle.std.specs.Prelude.{Some};

    ghost output = { λ k. Some (words_of k) };

    fn fmt<W: fmt::Write>(&self, f: &mut fmt::Formatter<W>) -> fmt::Result {
        f.write_str(self.words())
    }
}

impl Error for FaultKind {}

/// A step down a definition, to a member or an item.
#[derive(Drop)]
pub struct Step {
    /// The number of the member or item, from 0. A missing member has a number after those that are there.
    pub at: usize,
    /// The member's name, or the item's number in decimal.
    pub name: Txt,
}

/// A fault and its place. It keeps the innermost step first; contracts see the outermost step first.
#[derive(Drop)]
pub struct Fault {
    kind: FaultKind,
    steps: Vec<Step>,
}

impl Model for Fault {
    ghost use Rattle.std.specs.Prelude.{List};
    ghost use Rattle.asl_def_schema.specs.declared.fault.FaultKind.{FaultKind};
    ghost use Rattle.asl_def_schema.specs.declared.fault.Step.{Step};

    ghost Value = { FaultKind × List Step };

    ghost use Rattle.asl_def_schema.specs.private.Code.{seen};

    ghost view = { seen };
}

impl Fault {
    /// A fault of this kind at the place itself.
    pub fn here(alloc: Global, kind: FaultKind) -> Fault
        ensures { result ≡ (kind, []) }
    {
        Fault {
            kind,
            steps: Vec::new(alloc),
        }
    }

    /// A fault at a place, of which the innermost step comes first.
    pub fn at(kind: FaultKind, steps: Vec<Step>) -> Fault
        ensures { result ≡ (kind, reverse steps.items) }
    {
        Fault { kind, steps }
    }

    /// The steps to its place, the innermost first.
    pub fn steps_back(&self) -> &[Step]
        ensures { reverse result.now ≡ self.now.1 }
    {
        &self.steps
    }

    /// What the definition is refused for.
    pub fn kind(&self) -> FaultKind
        ensures { result ≡ self.now.0 }
    {
        self.kind
    }

    /// The fault as seen from one step further out: its place begins with the member of this number and name. If memory
    /// runs out, the fault is dropped.
    pub fn under(self, alloc: Global, at: usize, name: &str) -> Result<Fault, AllocError>
        ensures { IfOk result (λ f. f ≡ (self.0, step at name.now ∷ self.1)) }
    {
        let mut steps = self.steps;
        let name = Txt::of(alloc, name)?;
        steps.push(Step { at, name })?;
        Ok(Fault {
            kind: self.kind,
            steps,
        })
    }

    /// The fault as seen from one step further out: its place begins with the item of this number. If memory runs out,
    /// the fault is dropped.
    pub fn under_index(self, alloc: Global, at: usize) -> Result<Fault, AllocError>
        ensures { IfOk result (λ f. f ≡ (self.0, step at (decimal at) ∷ self.1)) }
    {
        let mut name = String::new(alloc);
        write!(name, "{at}")?;
        self.under(alloc, at, name.as_str())
    }

    /// Its place in the definition as a JSON Pointer, such as `/States/A/Next`. A missing member has the place that it
    /// would have. The error is that memory ran out.
    pub fn place(&self, alloc: Global) -> Result<Pointer, AllocError>
        ensures { IfOk result (λ p. p ≡ pointer_text self.now.1) }
    {
        pointer_of(alloc, &self.steps)
    }
}

/// The pointer of these steps, of which the innermost is first.
fn pointer_of(alloc: Global, steps: &[Step]) -> Result<Pointer, AllocError>
    ensures { IfOk result (λ p. p ≡ pointer_text (reverse steps.now)) }
{
    let mut place = Pointer::whole(alloc);
    let count = steps.len();
    for i in 0..count {
        place = place.at_name(steps[count - 1 - i].name.as_str())?;
    }
    Ok(place)
}
