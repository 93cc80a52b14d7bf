// Templates.
ghost use Rattle.std.specs.Prelude.{◌≡◌, IfOk, IfErr};
ghost use Rattle.asl_json.specs.View.{data_of};
ghost use Rattle.asl_template.specs.Faults.{IsTemplate};
ghost use Rattle.asl_template.specs.Answer.{IsAnswer};
ghost use Rattle.asl_template.specs.Filling.{fill};
ghost use Rattle.asl_template.specs.Gives.{Gives};
ghost use Rattle.asl_template.specs.private.Broken.{Reads};
ghost use Rattle.asl_template.specs.private.View.{part_data};

use crate::equal::equals;
use crate::fault::TemplateFault;
use crate::fill::{FillFault, fill};
use crate::part::Part;
use crate::read::part;
use crate::rebuild::rebuild;
use asl_json::Json;
use std::alloc::{AllocError, Global};
use std::marker::Model;

/// A template that was read (Amazon States Language, "Payload Template"). Contracts see it as the value that it was
/// read from.
///
/// Any JSON value may be a template; the standard asks for an object. At any depth, in objects and lists, a member
/// `name.$` has a text. A text that begins with `$$` is a path into the Context Object, another text that begins with
/// `$` is a path into the input, and any other text is a call of an intrinsic function. No object has both `name` and
/// `name.$`.
pub struct Template {
    part: Part,
}

// Written out, so that a caller's proof sees one call and not the drop of each part.
impl Drop for Template {
    fn drop(self) {
        let Template { part: _part } = self;
    }
}

impl Model for Template {
    ghost use Rattle.asl_json_data.specs.Data.{Data};
    ghost use Rattle.asl_template.specs.private.View.{part_data};
    ghost use Rattle.asl_template.specs.Faults.{IsTemplate};
    ghost use Rattle.asl_json.specs.private.Code.{coded_data};

    ghost Value = { Data };

    ghost coded = { coded_data };

    ghost view = { λ a. part_data a.part };

    ghost invariant = { λ a. IsTemplate (part_data a.part) };
}

/// Two templates are equal where they were read from equal values, spelling and order of members included.
impl PartialEq for Template {
    ghost use Rattle.asl_json.specs.Same.{equal};
    ghost use Rattle.asl_template.specs.private.SameLaws.{equal_laws};

    ghost eq = { equal };

    ghost laws = { equal_laws };

    fn eq(&self, other: &Template) -> bool {
        equals(&self.part, &other.part)
    }
}

impl Eq for Template {
    ghost use Rattle.asl_template.specs.private.SameLaws.{equal_equivalence};

    ghost laws = { equal_equivalence };
}

impl Template {
    /// Reads a value as a template. Its paths and calls are read here, once. Its cost is the size of the value.
    pub fn read(alloc: Global, value: &Json) -> Result<Template, TemplateFault>
        ensures value { IfOk result (λ t. t ≡ data_of value.now) }
        // What is read is a template.
        ensures found { IfOk result (λ _. IsTemplate (data_of value.now)) }
        // Each template is read, unless memory runs out.
        ensures only { IsTemplate (data_of value.now)
            → IfErr result (λ fault. fault ≡ TemplateFault.OutOfMemory) }
        // The fault is the first of the lowest number.
        ensures fault { IfErr result (IsAnswer (data_of value.now)) }
    {
        match part(alloc, value) {
            Ok(Ok(part)) => Ok(Template { part }),
            Ok(Err(fault)) => Err(fault.told(alloc)),
            Err(AllocError) => Err(TemplateFault::OutOfMemory),
        }
    }

    /// Fills the template on an input and a Context Object. Each computed member gets its name without `.$`, at the
    /// same position, with the part that its path names or the value of its call. The error is the first in document
    /// order. Its cost is the size of the template and of the values that are put in.
    pub fn fill(&self, alloc: Global, input: &Json, context: &Json) -> Result<Json, FillFault>
        ensures { Gives data_of (fill self.now (data_of input.now) (data_of context.now)) result }
    {
        fill(alloc, &self.part, input, context)
    }

    /// The value that it was read from, with the spelling of its numbers and the order of its members. The error is that
    /// memory ran out.
    pub fn rebuild(&self, alloc: Global) -> Result<Json, AllocError>
        ensures value { IfOk result (λ v. data_of v ≡ self.now) }
        ensures template { IsTemplate self.now }
    {
        rebuild(alloc, &self.part)
    }

    /// A template of its own, equal to this one. The error is that memory ran out.
    pub fn try_clone(&self, alloc: Global) -> Result<Template, AllocError>
        ensures { IfOk result (λ t. t ≡ self.now) }
    {
        Ok(Template {
            part: self.part.try_clone(alloc)?,
        })
    }
}
