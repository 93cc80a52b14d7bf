// Texts, truth values, numbers, paths, templates and values of any kind.
ghost use Rattle.std.specs.Prelude.{◌≡◌, IfOk};
ghost use Rattle.asl_path.specs.Grammar.{IsPath};

use crate::compiled::{Compile, Compiled};
use asl_json::{Dec, Json, Txt};
use asl_path::{PathFault, RefPath};
use asl_template::{Template, TemplateFault};
use std::alloc::{AllocError, Global};

impl Compiled for Txt {
    ghost use Rattle.asl_json_data.specs.Data.{text};

    ghost shown = { text };

    fn json(&self, alloc: Global) -> Result<Json, AllocError> {
        Ok(Json::Text(self.try_clone(alloc)?))
    }
}

impl Compile for Txt {
    ghost use Rattle.asl_def_fields.specs.Readable.{IsText};

    ghost Fits = { IsText };

    fn read(alloc: Global, value: &Json) -> Result<Txt, AllocError> {
        let Json::Text(text) = value else {
            unreachable!();
        };
        text.try_clone(alloc)
    }
}

impl Compiled for Dec {
    ghost use Rattle.asl_json_data.specs.Data.{number};

    ghost shown = { number };

    fn json(&self, alloc: Global) -> Result<Json, AllocError> {
        Ok(Json::Num(self.try_clone(alloc)?))
    }
}

impl Compile for Dec {
    ghost use Rattle.asl_def_fields.specs.Readable.{IsNumeric};

    ghost Fits = { IsNumeric };

    fn read(alloc: Global, value: &Json) -> Result<Dec, AllocError> {
        let Json::Num(number) = value else {
            unreachable!();
        };
        number.try_clone(alloc)
    }
}

impl Compiled for bool {
    ghost use Rattle.asl_json_data.specs.Data.{boolean};

    ghost shown = { boolean };

    fn json(&self, _alloc: Global) -> Result<Json, AllocError> {
        Ok(Json::Bool(*self))
    }
}

impl Compile for bool {
    ghost use Rattle.asl_def_fields.specs.Readable.{IsTruth};

    ghost Fits = { IsTruth };

    fn read(_alloc: Global, value: &Json) -> Result<bool, AllocError> {
        let Json::Bool(truth) = value else {
            unreachable!();
        };
        Ok(*truth)
    }
}

/// The path of a text that is one.
pub(crate) fn path(alloc: Global, text: &str) -> Result<RefPath, AllocError>
    requires { IsPath text.now }
    ensures { IfOk result (λ p. p ≡ text.now) }
{
    match RefPath::read(alloc, text) {
        Ok(path) => Ok(path),
        Err(PathFault::OutOfMemory) => Err(AllocError),
        Err(PathFault::PathProfile(_)) => unreachable!(),
    }
}

impl Compiled for RefPath {
    ghost use Rattle.asl_json_data.specs.Data.{text};

    ghost shown = { text };

    fn json(&self, alloc: Global) -> Result<Json, AllocError> {
        let string = String::from_str(alloc, self.text())?;
        Ok(Json::Text(Txt::new(string)))
    }
}

impl Compile for RefPath {
    ghost use Rattle.asl_def_fields.specs.Readable.{IsPathText};

    ghost Fits = { IsPathText };

    fn read(alloc: Global, value: &Json) -> Result<RefPath, AllocError> {
        let Json::Text(text) = value else {
            unreachable!();
        };
        path(alloc, text.as_str())
    }
}

impl Compiled for Template {
    ghost shown = { λ t. t };

    fn json(&self, alloc: Global) -> Result<Json, AllocError> {
        self.rebuild(alloc)
    }
}

impl Compile for Template {
    ghost use Rattle.asl_template.specs.Faults.{IsTemplate};

    ghost Fits = { IsTemplate };

    fn read(alloc: Global, value: &Json) -> Result<Template, AllocError> {
        match Template::read(alloc, value) {
            Ok(template) => Ok(template),
            Err(TemplateFault::OutOfMemory) => Err(AllocError),
            Err(_) => unreachable!(),
        }
    }
}

impl Compiled for Json {
    ghost use Rattle.asl_json.specs.View.{data_of};

    ghost shown = { data_of };

    fn json(&self, alloc: Global) -> Result<Json, AllocError> {
        self.try_clone(alloc)
    }
}

impl Compile for Json {
    ghost use Rattle.std.specs.Prelude.{⊤};

    ghost Fits = { λ d. ⊤ };

    fn read(alloc: Global, value: &Json) -> Result<Json, AllocError> {
        value.try_clone(alloc)
    }
}
