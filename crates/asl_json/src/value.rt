// A JSON value. Contracts see a list as the list of its items and an object as the list of its pairs.
ghost use Rattle.std.specs.Prelude.{◌≡◌, false, length, IfOk, IfErr, slice_get, option_map, string_bytes, true, MatchOption};
ghost use Rattle.asl_json.specs.View.{data_of};
ghost use Rattle.std.specs.Str.{IsUtf8};
ghost use Rattle.asl_json_data.specs.Number.{units_of, is_over, IsNumber, IsNumeral};
ghost use Rattle.asl_json_data.specs.Data.{pairs};
ghost use Rattle.asl_json.specs.Meaning.{value_at, value_in};
ghost use Rattle.asl_json.specs.Access.{is_list, is_dict};

use arrayvec::ArrayString;
use asl_json_data::{is_over, units};
use std::alloc::{AllocError, Global};
use std::fmt;
use std::marker::Model;

/// A text in UTF-8. Contracts see it as its bytes.
pub struct Txt {
    string: String,
}

// Written out, so that a caller's proof sees one call and not the drop of each part.
impl Drop for Txt {
    fn drop(self) {
        let Txt { string: _string } = self;
    }
}

impl Model for Txt {
    ghost use Rattle.std.specs.Prelude.{List, ℕ, string_bytes, nat_eq};

    ghost Value = { List ℕ };

    ghost view = { λ a. string_bytes a.string };
}

/// A number as it is spelled (RFC 8259, section 6). Contracts see it as its spelling, which is always a number in the
/// limits: at most 40 bytes, an amount below 10^18, and a whole number of units of 10^-9.
pub struct Dec {
    spelled: ArrayString<40>,
}

impl Drop for Dec {
    fn drop(self) {
        let Dec { spelled: _spelled } = self;
    }
}

impl Model for Dec {
    ghost use Rattle.std.specs.Prelude.{List, ℕ};
    ghost use Rattle.asl_json_data.specs.Number.{IsNumber};

    ghost Value = { List ℕ };

    ghost view = { λ a. a.spelled.bytes };

    ghost invariant = { λ a. IsNumber a.spelled.bytes };
}

/// A JSON value (RFC 8259, section 3). Numbers keep their spelling, objects the order of their members.
#[cycle(json)]
pub enum Json {
    Null,
    Bool(bool),
    Num(Dec),
    Text(Txt),
    List(Items),
    Dict(Members),
}

impl Drop for Json {
    #[cycle(drop)]
    fn drop(self) {
        match self {
            Json::Null | Json::Bool(_) => {}
            Json::Num(_number) => {}
            Json::Text(_text) => {}
            Json::List(_items) => {}
            Json::Dict(_members) => {}
        }
    }
}

/// The items of a list. Contracts see them as the list of their values.
#[cycle(json)]
pub struct Items {
    pub(crate) values: Vec<Json>,
}

impl Drop for Items {
    #[cycle(drop)]
    fn drop(self) {
        let Items { values: _values } = self;
    }
}

/// The members of an object in order, no key twice. Contracts see them as the list of pairs of key and value.
#[cycle(json)]
pub struct Members {
    pub(crate) members: Vec<Member>,
}

impl Drop for Members {
    #[cycle(drop)]
    fn drop(self) {
        let Members { members: _members } = self;
    }
}

/// A member of an object.
#[cycle(json)]
#[derive(Drop)]
pub struct Member {
    pub key: Txt,
    pub value: Json,
}

impl Model for Items {
    ghost use Rattle.std.specs.Prelude.{List};
    ghost use Rattle.asl_json_data.specs.Data.{Data, items_size};
    ghost use Rattle.asl_json.specs.private.Code.{coded_items};

    ghost Value = { List Data };

    ghost coded = { coded_items };

    ghost use Rattle.asl_json.specs.View.{items_of};

    ghost view = { λ a. items_of a.values.items };

    ghost size = { items_size };

    ghost use Rattle.asl_json.specs.private.Falls.{items_fall};

    ghost size_decreases = { λ a h. items_fall a.values.items };
}

impl Model for Members {
    ghost use Rattle.std.specs.Prelude.{List, [], ℕ};
    ghost use Rattle.asl_json_data.specs.Data.{Data, members_size};
    ghost use Rattle.asl_json.specs.private.Code.{coded_members};

    ghost Value = { List (List ℕ × Data) };

    ghost coded = { coded_members };

    ghost use Rattle.asl_json.specs.View.{members_of};

    ghost view = { λ a. members_of a.members.items };

    ghost use Rattle.asl_json_data.specs.Distinct.{AreDistinct};

    ghost invariant = { λ a. AreDistinct [] (members_of a.members.items) };

    ghost size = { members_size };

    ghost use Rattle.asl_json.specs.private.Falls.{members_fall};

    ghost size_decreases = { λ a h. members_fall a.members.items };
}

impl Txt {
    /// A text of this string.
    pub fn new(string: String) -> Txt
        ensures { result ≡ string_bytes string }
    {
        Txt { string }
    }

    /// A copy of a text. The error is that memory ran out.
    pub fn of(alloc: Global, text: &str) -> Result<Txt, AllocError>
        ensures { IfOk result (λ t. t ≡ text.now) }
    {
        Ok(Txt {
            string: String::from_str(alloc, text)?,
        })
    }

    /// The text as it is.
    pub fn as_str(&self) -> &str
        ensures { result.now ≡ self.now }
    {
        self.string.as_str()
    }

    /// Its bytes are UTF-8. It does nothing: it is there for its contract.
    pub(crate) fn is_utf8(&self)
        ensures { IsUtf8 self.now }
    {
        let _string = &self.string;
    }

    /// Gives the text back, without memory.
    pub fn into_string(self) -> String
        ensures { string_bytes result ≡ self }
    {
        let Txt { string: text } = self;
        text
    }

    /// An equal text. The error is that memory ran out.
    pub fn try_clone(&self, alloc: Global) -> Result<Txt, AllocError>
        ensures { IfOk result (λ t. t ≡ self.now) }
    {
        Txt::of(alloc, self.as_str())
    }
}

impl fmt::Display for Txt {
    ghost use Rattle.std.specs.Prelude.{Some};

    ghost output = { λ t. Some t };

    fn fmt<W: fmt::Write>(&self, f: &mut fmt::Formatter<W>) -> fmt::Result {
        f.write_str(self.as_str())
    }
}

impl fmt::Debug for Txt {
    fn fmt<W: fmt::Write>(&self, f: &mut fmt::Formatter<W>) -> fmt::Result {
        fmt::Debug::fmt(self.as_str(), f)
    }
}

impl PartialEq for Txt {
    ghost use Rattle.std.specs.Prelude.{nat_eq};
    ghost use Rattle.std.specs.Cmp.Lexicographic.{pointwise};
    ghost use Rattle.std.specs.Cmp.{partial_equiv_from_equiv};
    ghost use Rattle.std.proofs.lemmas.Cmp.{nat_list_eq_equiv};

    ghost eq = { pointwise nat_eq };

    ghost laws = { partial_equiv_from_equiv nat_list_eq_equiv };

    fn eq(&self, other: &Txt) -> bool {
        self.as_str() == other.as_str()
    }
}

impl Eq for Txt {
    ghost use Rattle.std.proofs.lemmas.Cmp.{nat_list_eq_equiv};

    ghost laws = { nat_list_eq_equiv };
}

impl Dec {
    /// The value in units of 10^-9, which is worked out each time.
    pub fn units(&self) -> i128
        ensures { result ≡ units_of self.now }
    {
        self.is_number();
        match units(self.spelling().as_bytes()) {
            Some(amount) => amount,
            None => unreachable!(),
        }
    }

    /// The number as it is spelled.
    pub fn spelling(&self) -> &str
        ensures { result.now ≡ self.now }
    {
        self.spelled.as_str()
    }

    /// It is a number in the limits. It does nothing: it is there for its contract.
    pub(crate) fn is_number(&self)
        ensures { IsNumber self.now }
    {
        let _spelled = &self.spelled;
    }

    /// The number that a text spells. It takes no memory.
    #[tactic(auto, using(crate::proofs::Fitting::number_fits))]
    pub fn of_number(text: &str) -> Dec
        requires { IsNumber text.now }
        ensures { result ≡ text.now }
    {
        let Ok(spelled) = ArrayString::from(text) else {
            unreachable!();
        };
        Dec { spelled }
    }

    /// The number that a text spells, or `None` where it is past the limits. It takes no memory, and so never fails.
    pub fn of_numeral(_alloc: Global, text: &str) -> Result<Option<Dec>, AllocError>
        requires { IsNumeral text.now }
        ensures { IfOk result (λ o. MatchOption o (is_over text.now ≡ true)
            (λ d. (d ≡ text.now) × (is_over text.now ≡ false))) }
    {
        if is_over(text.as_bytes()) {
            return Ok(None);
        }
        Ok(Some(Dec::of_number(text)))
    }

    /// An equal number with the same spelling. It takes no memory, and can't fail.
    pub fn copy(&self) -> Dec
        ensures { result ≡ self.now }
    {
        Dec {
            spelled: self.spelled,
        }
    }

    /// The same as `copy`, for callers that expect a refusal. It takes no memory, and so never fails.
    pub fn try_clone(&self, _alloc: Global) -> Result<Dec, AllocError>
        ensures { IfOk result (λ d. d ≡ self.now) }
    {
        Ok(self.copy())
    }
}

impl Json {
    /// The value of the member with this key, where this is an object that has it.
    pub fn get(&self, key: &str) -> Option<&Json>
        ensures { option_map (λ v. data_of v.now) result ≡ value_in key.now (data_of self.now) }
    {
        match self {
            Json::Dict(members) => members.find(key),
            _ => None,
        }
    }

    /// Its items, where it is a list; any other value is handed back.
    pub fn into_items(self) -> Result<Items, Json>
        ensures ok { IfOk result (λ vs. self ≡ Json.List vs) }
        ensures err { IfErr result (λ v. (v ≡ self) × (is_list (data_of self) ≡ false)) }
    {
        match self {
            Json::List(items) => Ok(items),
            other => Err(other),
        }
    }

    /// Its members, where it is an object; any other value is handed back.
    pub fn into_members(self) -> Result<Members, Json>
        ensures ok { IfOk result (λ ms. self ≡ Json.Dict ms) }
        ensures err { IfErr result (λ v. (v ≡ self) × (is_dict (data_of self) ≡ false)) }
    {
        match self {
            Json::Dict(members) => Ok(members),
            other => Err(other),
        }
    }

    /// An equal value, numbers with their spelling. The error is that memory ran out.
    #[cycle(clone)]
    pub fn try_clone(&self, alloc: Global) -> Result<Json, AllocError>
        ensures { IfOk result (λ v. v ≡ self.now) }
    {
        match self {
            Json::Null => Ok(Json::Null),
            Json::Bool(b) => Ok(Json::Bool(*b)),
            Json::Num(d) => Ok(Json::Num(d.copy())),
            Json::Text(t) => Ok(Json::Text(t.try_clone(alloc)?)),
            Json::List(items) => Ok(Json::List(items.try_clone(alloc)?)),
            Json::Dict(members) => Ok(Json::Dict(members.try_clone(alloc)?)),
        }
    }
}

impl Items {
    /// How many items there are.
    pub fn len(&self) -> usize
        ensures { result ≡ length self.now }
    {
        self.values.len()
    }

    /// The item of this number, from 0; none where the list is shorter.
    pub fn get(&self, i: usize) -> Option<&Json>
        ensures { option_map (λ v. data_of v.now) result ≡ slice_get self.now i }
    {
        self.values.get(i)
    }

    /// An equal list, of copies of the items. The error is that memory ran out.
    #[cycle(clone)]
    pub fn try_clone(&self, alloc: Global) -> Result<Items, AllocError>
        ensures { IfOk result (λ v. v ≡ self.now) }
    {
        let mut values = Vec::with_capacity(alloc, self.len())?;
        for v in &self.values {
            values.push(v.try_clone(alloc)?)?;
        }
        Ok(Items { values })
    }
}

impl Members {
    /// How many members there are.
    pub fn len(&self) -> usize
        ensures { result ≡ length self.now }
    {
        self.members.len()
    }

    /// The value of the member with this key.
    pub fn find(&self, key: &str) -> Option<&Json>
        ensures { option_map (λ v. data_of v.now) result ≡ value_at key.now (pairs self.now) }
    {
        for member in &self.members {
            if key == member.key.as_str() {
                return Some(&member.value);
            }
        }
        None
    }

    /// Equal members, of copies of the keys and values. The error is that memory ran out.
    #[cycle(clone)]
    pub fn try_clone(&self, alloc: Global) -> Result<Members, AllocError>
        ensures { IfOk result (λ v. v ≡ self.now) }
    {
        let mut members = Vec::with_capacity(alloc, self.members.len())?;
        for m in &self.members {
            let key = m.key.try_clone(alloc)?;
            let value = m.value.try_clone(alloc)?;
            members.push(Member { key, value })?;
        }
        Ok(Members { members })
    }
}

/// An equal text, where there is one. The error is that memory ran out.
pub fn clone_text(alloc: Global, text: &Option<Txt>) -> Result<Option<Txt>, AllocError>
    ensures { IfOk result (λ t. t ≡ text.now) }
{
    match text {
        Some(text) => Ok(Some(text.try_clone(alloc)?)),
        None => Ok(None),
    }
}
