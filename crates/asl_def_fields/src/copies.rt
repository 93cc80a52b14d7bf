// Copies.
ghost use Rattle.std.specs.Prelude.{◌≡◌, IfOk};

use asl_intrinsic::Expr;
use asl_json::{Json, Txt};
use asl_path::RefPath;
use asl_template::Template;
use std::alloc::{AllocError, Global};

/// What a copy can be made of.
pub trait TryClone: Drop {
    /// An equal value of its own. The error is that memory ran out.
    fn try_clone(&self, alloc: Global) -> Result<Self, AllocError>
        ensures { IfOk result (λ c. c ≡ self.now) };
}

impl TryClone for Txt {
    fn try_clone(&self, alloc: Global) -> Result<Txt, AllocError> {
        self.try_clone(alloc)
    }
}

impl TryClone for Json {
    fn try_clone(&self, alloc: Global) -> Result<Json, AllocError> {
        self.try_clone(alloc)
    }
}

impl TryClone for RefPath {
    fn try_clone(&self, alloc: Global) -> Result<RefPath, AllocError> {
        self.try_clone(alloc)
    }
}

impl TryClone for Expr {
    fn try_clone(&self, alloc: Global) -> Result<Expr, AllocError> {
        self.try_clone(alloc)
    }
}

impl TryClone for Template {
    fn try_clone(&self, alloc: Global) -> Result<Template, AllocError> {
        self.try_clone(alloc)
    }
}

/// What may be there.
impl<T: TryClone> TryClone for Option<T> {
    fn try_clone(&self, alloc: Global) -> Result<Option<T>, AllocError> {
        match self {
            Some(value) => Ok(Some(value.try_clone(alloc)?)),
            None => Ok(None),
        }
    }
}

/// A copy of each of these values.
pub fn clone_all<T: TryClone>(alloc: Global, values: &[T]) -> Result<Vec<T>, AllocError>
    ensures { IfOk result (λ copies. copies.items ≡ values.now) }
{
    let mut copies = Vec::with_capacity(alloc, values.len())?;
    for value in values {
        copies.push(value.try_clone(alloc)?)?;
    }
    Ok(copies)
}
