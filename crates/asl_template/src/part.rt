// A template that was read. Contracts see it as the value that it was read from.
ghost use Rattle.std.specs.Prelude.{◌≡◌, IfOk};
ghost use Rattle.asl_template.specs.Names.{name_of};
ghost use Rattle.asl_template.specs.private.View.{field_data, Fits};

use asl_intrinsic::Expr;
use asl_json::{Dec, Txt};
use asl_path::RefPath;
use std::alloc::{AllocError, Global};
use std::marker::Model;

/// A part of a template.
#[cycle(part)]
#[derive(Drop)]
pub(crate) enum Part {
    Null,
    Bool(bool),
    Num(Dec),
    Text(Txt),
    List(Parts),
    Dict(Fields),
}

/// The items of a list.
#[cycle(part)]
#[derive(Drop)]
pub(crate) struct Parts {
    pub(crate) parts: Vec<Part>,
}

/// The members of an object in order.
#[cycle(part)]
#[derive(Drop)]
pub(crate) struct Fields {
    pub(crate) fields: Vec<Field>,
}

/// A member of an object. The name of a computed one is its key without `.$`.
#[cycle(part)]
#[derive(Drop)]
pub(crate) enum Field {
    /// A member whose key doesn't end in `.$`.
    Kept(Txt, Part),
    /// The part of the input or of the Context Object that a path names.
    Path(Txt, RefPath),
    /// The value of a call.
    Call(Txt, Expr),
}

impl Model for Parts {
    ghost use Rattle.std.specs.Prelude.{List};
    ghost use Rattle.asl_json_data.specs.Data.{Data, items_size};
    ghost use Rattle.asl_json.specs.private.Code.{coded_items};

    ghost Value = { List Data };

    ghost coded = { coded_items };

    ghost use Rattle.asl_template.specs.private.View.{parts_data};

    ghost view = { λ a. parts_data a.parts.items };

    ghost size = { items_size };

    ghost use Rattle.asl_template.specs.private.Falls.{parts_fall};

    ghost size_decreases = { λ a h. parts_fall a.parts.items };
}

impl Model for Fields {
    ghost use Rattle.std.specs.Prelude.{List, ℕ};
    ghost use Rattle.asl_json_data.specs.Data.{Data, members_size};
    ghost use Rattle.asl_json.specs.private.Code.{coded_members};

    ghost Value = { List (List ℕ × Data) };

    ghost coded = { coded_members };

    ghost use Rattle.asl_template.specs.private.View.{fields_data, IsObject};

    ghost view = { λ a. fields_data a.fields.items };

    ghost invariant = { λ a. IsObject a.fields.items };

    ghost size = { members_size };

    ghost use Rattle.asl_template.specs.private.Falls.{fields_fall};

    ghost size_decreases = { λ a h. fields_fall a.fields.items };
}

impl Part {
    /// A part of its own, equal to this one.
    #[cycle(clone)]
    pub(crate) fn try_clone(&self, alloc: Global) -> Result<Part, AllocError>
        ensures { IfOk result (λ p. p ≡ self.now) }
    {
        match self {
            Part::Null => Ok(Part::Null),
            Part::Bool(b) => Ok(Part::Bool(*b)),
            Part::Num(number) => Ok(Part::Num(number.try_clone(alloc)?)),
            Part::Text(text) => Ok(Part::Text(text.try_clone(alloc)?)),
            Part::List(parts) => Ok(Part::List(parts.try_clone(alloc)?)),
            Part::Dict(fields) => Ok(Part::Dict(fields.try_clone(alloc)?)),
        }
    }
}

impl Field {
    /// The name of the member once the template is filled.
    pub(crate) fn name(&self) -> &Txt
        requires { Fits self.now }
        ensures { result.now ≡ name_of (field_data self.now).0 }
    {
        match self {
            Field::Kept(name, _) => name,
            Field::Path(name, _) => name,
            Field::Call(name, _) => name,
        }
    }

    #[cycle(clone)]
    fn try_clone(&self, alloc: Global) -> Result<Field, AllocError>
        ensures { IfOk result (λ f. f ≡ self.now) }
    {
        match self {
            Field::Kept(key, part) => {
                Ok(Field::Kept(key.try_clone(alloc)?, part.try_clone(alloc)?))
            }
            Field::Path(name, path) => {
                Ok(Field::Path(name.try_clone(alloc)?, path.try_clone(alloc)?))
            }
            Field::Call(name, call) => {
                Ok(Field::Call(name.try_clone(alloc)?, call.try_clone(alloc)?))
            }
        }
    }
}

impl Parts {
    #[cycle(clone)]
    fn try_clone(&self, alloc: Global) -> Result<Parts, AllocError>
        ensures { IfOk result (λ p. p ≡ self.now) }
    {
        let mut parts = Vec::new(alloc);
        for part in &self.parts {
            parts.push(part.try_clone(alloc)?)?;
        }
        Ok(Parts { parts })
    }
}

impl Fields {
    #[cycle(clone)]
    fn try_clone(&self, alloc: Global) -> Result<Fields, AllocError>
        ensures { IfOk result (λ f. f ≡ self.now) }
    {
        let mut fields = Vec::new(alloc);
        for field in &self.fields {
            fields.push(field.try_clone(alloc)?)?;
        }
        Ok(Fields { fields })
    }
}
