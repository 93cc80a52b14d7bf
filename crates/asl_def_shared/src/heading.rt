// What only the outermost machine has.
ghost use Rattle.std.specs.Prelude.{◌≡◌, IfOk, codes, option_map};
ghost use Rattle.asl_json_data.specs.Data.{number, text, dict, pairs};
ghost use Rattle.asl_json.specs.Meaning.{value_at};
ghost use Rattle.asl_def_schema.specs.declared.sort.Sort.TheVariants.{Definition};
ghost use Rattle.asl_def_schema.specs.Clean.{IsClean};

use asl_def_fields::{Count, TryClone, read_optional};
use asl_json::{Members, Txt};
use std::alloc::{AllocError, Global};

/// The members that only the outermost machine may have. (Amazon States Language, "Top-level fields".)
#[derive(PartialEq, Eq)]
pub struct Heading {
    /// `QueryLanguage`: `JSONPath`, where it is there.
    pub query_language: Option<Txt>,
    /// `Version`.
    pub version: Option<Txt>,
    /// `TimeoutSeconds`.
    pub timeout: Option<Count>,
}

// Written out, so that a caller's proof sees one call and not the drop of each part.
impl Drop for Heading {
    fn drop(self) {
        let Heading {
            query_language: _query_language,
            version: _version,
            timeout: _timeout,
        } = self;
    }
}

impl Heading {
    /// Compiles these members of a definition without faults. The error is that memory ran out.
    pub fn read(alloc: Global, members: &Members) -> Result<Heading, AllocError>
        requires { IsClean Definition (dict (pairs members.now)) }
        ensures language { IfOk result (λ h. option_map text h.query_language
            ≡ value_at (codes "QueryLanguage") (pairs members.now)) }
        ensures version { IfOk result (λ h. option_map text h.version
            ≡ value_at (codes "Version") (pairs members.now)) }
        ensures timeout { IfOk result (λ h. option_map number h.timeout
            ≡ value_at (codes "TimeoutSeconds") (pairs members.now)) }
    {
        Ok(Heading {
            query_language: read_optional(alloc, members.find("QueryLanguage"))?,
            version: read_optional(alloc, members.find("Version"))?,
            timeout: read_optional(alloc, members.find("TimeoutSeconds"))?,
        })
    }
}

impl TryClone for Heading {
    fn try_clone(&self, alloc: Global) -> Result<Heading, AllocError> {
        Ok(Heading {
            query_language: self.query_language.try_clone(alloc)?,
            version: self.version.try_clone(alloc)?,
            timeout: self.timeout.try_clone(alloc)?,
        })
    }
}
