// Reaching a part of a value, to read it or to change it in place.
ghost use Rattle.std.specs.Prelude.{◌≡◌, ◌∷◌, ◌++◌, ◌<◌, [], false, length, option_map, slice_get, IfOk, OnOk, OnErr};
ghost use Rattle.asl_json.specs.View.{data_of, items_of, members_of};
ghost use Rattle.asl_json_data.specs.Distinct.{has_key, AreDistinct};
ghost use Rattle.asl_json.specs.Access.{items_in, key_index, members_in, member_list, member_list_at};
ghost use Rattle.asl_json_data.specs.Data.{chain, pairs};
ghost use Rattle.asl_json.specs.private.Lending.{LendsValue, LendsItem};
ghost use Rattle.std.specs.Borrow.{sem};

use crate::value::{Items, Json, Member, Members, Txt};
use std::alloc::{AllocError, Global};

impl Json {
    /// The members of an object; any other value has none.
    pub fn members(&self) -> &[Member]
        ensures members { pairs (members_of result.now) ≡ members_in (data_of self.now) }
        ensures listed { members_of result.now ≡ member_list (data_of self.now) }
        ensures distinct { AreDistinct [] (members_of result.now) }
    {
        match self {
            Json::Dict(members) => members.members(),
            _ => &[],
        }
    }

    /// The members of the object under this key; where there is no object, none.
    pub fn members_at(&self, key: &str) -> &[Member]
        ensures listed { members_of result.now ≡ member_list_at key.now (data_of self.now) }
        ensures distinct { AreDistinct [] (members_of result.now) }
    {
        match self.get(key) {
            Some(value) => value.members(),
            None => &[],
        }
    }

    /// The items of a list; any other value has none.
    pub fn items(&self) -> &[Json]
        ensures { chain (items_of result.now) ≡ items_in (data_of self.now) }
    {
        match self {
            Json::List(items) => items.values(),
            _ => &[],
        }
    }
}

impl Members {
    /// No members.
    pub fn new(alloc: Global) -> Members
        ensures { result ≡ [] }
    {
        Members {
            members: Vec::new(alloc),
        }
    }

    /// No members, with room for so many. The error is that memory ran out.
    pub fn with_capacity(alloc: Global, capacity: usize) -> Result<Members, AllocError>
        ensures { IfOk result (λ m. m ≡ []) }
    {
        Ok(Members {
            members: Vec::with_capacity(alloc, capacity)?,
        })
    }

    /// The members, in order.
    pub fn members(&self) -> &[Member]
        ensures members { members_of result.now ≡ self.now }
        ensures distinct { AreDistinct [] self.now }
    {
        &self.members
    }

    /// The number of the member with this key.
    pub fn position(&self, key: &str) -> Option<usize>
        ensures { result ≡ key_index key.now self.now }
    {
        for (i, member) in self.members.iter().enumerate() {
            if key == member.key.as_str() {
                return Some(i);
            }
        }
        None
    }

    /// The value of the member of this number, to be changed.
    pub fn value_mut(&mut self, i: usize) -> &mut Json
        requires { i < length self.old }
        ensures* writes_back { sem 𝓛 (LendsValue self.entry i result) }
        ensures value { option_map (λ m. m.1) (slice_get self.old i) ≡ Some (data_of result.now) }
    {
        let member = &mut self.members[i];
        &mut member.value
    }

    /// Adds a member behind the others.
    pub fn push(&mut self, key: Txt, value: Json) -> Result<(), AllocError>
        requires { has_key key self.old ≡ false }
        ensures ok { OnOk result (self.new ≡ self.old ++ (key, data_of value) ∷ []) }
        ensures err { OnErr result (self.new ≡ self.old) }
    {
        self.members.push(Member { key, value })?;
        Ok(())
    }
}

impl Items {
    /// A list of these values.
    pub fn of_values(values: Vec<Json>) -> Items
        ensures { result ≡ items_of values.items }
    {
        Items { values }
    }

    /// The items, in order.
    pub fn values(&self) -> &[Json]
        ensures { items_of result.now ≡ self.now }
    {
        &self.values
    }

    /// The item of this number, to be changed.
    pub fn item_mut(&mut self, i: usize) -> &mut Json
        requires { i < length self.old }
        ensures* writes_back { sem 𝓛 (LendsItem self.entry i result) }
        ensures value { slice_get self.old i ≡ Some (data_of result.now) }
    {
        &mut self.values[i]
    }
}
