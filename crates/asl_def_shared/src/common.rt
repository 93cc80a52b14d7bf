// What every state may have.
ghost use Rattle.std.specs.Prelude.{◌≡◌, ◌++◌, [], true, IfOk, codes, option_map};
ghost use Rattle.asl_json_data.specs.Data.{text, pairs};
ghost use Rattle.asl_json.specs.Meaning.{value_at};
ghost use Rattle.asl_def_shared.specs.Built.{IsOfAny, of_any_type};
ghost use Rattle.asl_json.specs.View.{data_of};
ghost use Rattle.asl_def_fields.specs.Entries.{entries_of, are_apart};
ghost use Rattle.asl_def_shared.specs.Parts.{object as shown_object};
ghost use Rattle.asl_def_shared.specs.Parts.{common_members};

use crate::entries::{entry, joined};
use asl_def_fields::{Entry, TryClone, json_optional, object, read_optional};
use asl_json::{Json, Members, Txt};
use std::alloc::{AllocError, Global};

/// The members that a state of any type may have beside its type. (Amazon States Language, "Common State Fields".)
#[derive(PartialEq, Eq)]
pub struct Common {
    /// `Comment`.
    pub comment: Option<Txt>,
    /// `QueryLanguage`: `JSONPath`, where it is there.
    pub query_language: Option<Txt>,
}

// Written out, so that a caller's proof sees one call and not the drop of each part.
impl Drop for Common {
    fn drop(self) {
        let Common {
            comment: _comment,
            query_language: _query_language,
        } = self;
    }
}

impl Common {
    /// Compiles these members of a state without faults. The error is that memory ran out.
    pub fn read(alloc: Global, members: &Members) -> Result<Common, AllocError>
        requires { IsOfAny of_any_type members.now }
        ensures comment { IfOk result (λ c. option_map text c.comment
            ≡ value_at (codes "Comment") (pairs members.now)) }
        ensures language { IfOk result (λ c. option_map text c.query_language
            ≡ value_at (codes "QueryLanguage") (pairs members.now)) }
    {
        Ok(Common {
            comment: read_optional(alloc, members.find("Comment"))?,
            query_language: read_optional(alloc, members.find("QueryLanguage"))?,
        })
    }

    /// The object of a state of this type with these members. The error is that memory ran out.
    pub fn object(&self, alloc: Global, kind: &str, own: Vec<Entry>) -> Result<Json, AllocError>
        requires { are_apart [] (common_members kind.now self.now ++ entries_of own.items) ≡ true }
        ensures { IfOk result (λ j. data_of j
            ≡ shown_object (common_members kind.now self.now ++ entries_of own.items)) }
    {
        let kind = Json::Text(Txt::of(alloc, kind)?);
        let comment = json_optional(alloc, &self.comment)?;
        let query_language = json_optional(alloc, &self.query_language)?;
        let common = vec![in alloc;
            entry("Type", Some(kind)),
            entry("Comment", comment),
            entry("QueryLanguage", query_language),
        ]?;
        object(alloc, joined(common, own)?)
    }
}

impl TryClone for Common {
    fn try_clone(&self, alloc: Global) -> Result<Common, AllocError> {
        Ok(Common {
            comment: self.comment.try_clone(alloc)?,
            query_language: self.query_language.try_clone(alloc)?,
        })
    }
}
