// Paths, and what may stand in the place of one. In each call the error is that memory ran out.
ghost use Rattle.std.specs.Prelude.{◌≡◌, IfOk, IfSome, option_map};
ghost use Rattle.asl_json.specs.View.{data_of};
ghost use Rattle.asl_json_data.specs.Data.{text};
ghost use Rattle.asl_intrinsic.specs.Faults.{IsCall};
ghost use Rattle.asl_def_fields.specs.Shown.{path_shown, path_or_call_shown};
ghost use Rattle.asl_def_fields.specs.Readable.{IsPathOrNull};
ghost use Rattle.asl_def_fields.specs.Equal.{written_alike};

use crate::compiled::{Compile, Compiled};
use crate::copies::TryClone;
use crate::plain::path;
use asl_intrinsic::{CallFault, Expr};
use asl_json::{Json, Txt};
use asl_path::RefPath;
use asl_template::is_path;
use std::alloc::{AllocError, Global};

/// What `InputPath`, `ResultPath` or `OutputPath` names. (Amazon States Language, "Input and Output Processing".)
#[derive(PartialEq, Eq)]
pub enum PathField {
    /// The member is absent: the whole value.
    Whole,
    /// The member is null.
    Nowhere,
    /// The member is a path.
    At(RefPath),
}

// Written out, so that a caller's proof sees one call and not the drop of each part.
impl Drop for PathField {
    fn drop(self) {
        match self {
            PathField::Whole => {}
            PathField::Nowhere => {}
            PathField::At(_part) => {}
        }
    }
}

/// What `ErrorPath` or `CausePath` names. (Amazon States Language, "Fail State".)
#[derive(PartialEq, Eq)]
pub enum PathOrCall {
    /// A path, which begins with `$`.
    Path(RefPath),
    /// A call of an intrinsic function.
    Call(Expr),
}

impl Drop for PathOrCall {
    fn drop(self) {
        match self {
            PathOrCall::Path(_part) => {}
            PathOrCall::Call(_part) => {}
        }
    }
}

impl PathOrCall {
    /// As it is written.
    fn text(&self) -> &str
        ensures { text result.now ≡ path_or_call_shown self.now }
    {
        match self {
            PathOrCall::Path(path) => path.text(),
            PathOrCall::Call(call) => call.text(),
        }
    }

    /// Whether two are written alike. (`==` tells a path from a call of the same text too; but no call begins with `$`.) Takes no
    /// memory.
    pub fn is_written_as(&self, other: &PathOrCall) -> bool
        ensures { result ≡ written_alike self.now other.now }
    {
        self.text() == other.text()
    }
}

impl PathField {
    /// Compiles the value of a member.
    pub fn read(alloc: Global, value: Option<&Json>) -> Result<PathField, AllocError>
        requires { IfSome (option_map (λ v. data_of v.now) value) IsPathOrNull }
        ensures { IfOk result (λ p. path_shown p ≡ option_map (λ v. data_of v.now) value.entry) }
    {
        match value {
            None => Ok(PathField::Whole),
            Some(Json::Text(text)) => Ok(PathField::At(path(alloc, text.as_str())?)),
            Some(_) => Ok(PathField::Nowhere),
        }
    }

    /// The value of the member as JSON.
    pub fn json(&self, alloc: Global) -> Result<Option<Json>, AllocError>
        ensures { IfOk result (λ j. option_map data_of j ≡ path_shown self.now) }
    {
        match self {
            PathField::Whole => Ok(None),
            PathField::Nowhere => Ok(Some(Json::Null)),
            PathField::At(path) => Ok(Some(path.json(alloc)?)),
        }
    }
}

impl TryClone for PathField {
    fn try_clone(&self, alloc: Global) -> Result<PathField, AllocError> {
        match self {
            PathField::Whole => Ok(PathField::Whole),
            PathField::Nowhere => Ok(PathField::Nowhere),
            PathField::At(path) => Ok(PathField::At(path.try_clone(alloc)?)),
        }
    }
}

/// The call of a text that is one.
fn call(alloc: Global, text: &str) -> Result<Expr, AllocError>
    requires { IsCall text.now }
    ensures { IfOk result (λ e. e ≡ text.now) }
{
    match Expr::read(alloc, text) {
        Ok(call) => Ok(call),
        Err(CallFault::OutOfMemory) => Err(AllocError),
        Err(_) => unreachable!(),
    }
}

impl Compiled for PathOrCall {
    ghost use Rattle.asl_def_fields.specs.Shown.{path_or_call_shown};

    ghost shown = { path_or_call_shown };

    fn json(&self, alloc: Global) -> Result<Json, AllocError> {
        Ok(Json::Text(Txt::of(alloc, self.text())?))
    }
}

impl Compile for PathOrCall {
    ghost use Rattle.asl_def_fields.specs.Readable.{IsPathOrCall};

    ghost Fits = { IsPathOrCall };

    fn read(alloc: Global, value: &Json) -> Result<PathOrCall, AllocError> {
        let Json::Text(text) = value else {
            unreachable!();
        };
        let text = text.as_str();
        if is_path(text) {
            return Ok(PathOrCall::Path(path(alloc, text)?));
        }
        Ok(PathOrCall::Call(call(alloc, text)?))
    }
}

impl TryClone for PathOrCall {
    fn try_clone(&self, alloc: Global) -> Result<PathOrCall, AllocError> {
        match self {
            PathOrCall::Path(path) => Ok(PathOrCall::Path(path.try_clone(alloc)?)),
            PathOrCall::Call(call) => Ok(PathOrCall::Call(call.try_clone(alloc)?)),
        }
    }
}
