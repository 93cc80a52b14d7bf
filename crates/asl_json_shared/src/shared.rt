// Values, lists and names with several owners.
ghost use Rattle.std.specs.Prelude.{◌≡◌, ◌<◌, [], Some, IfOk, IfErr, length, slice_get};
ghost use Rattle.asl_json.specs.View.{data_of, items_of};
ghost use Rattle.asl_json_shared.specs.Sharing.{items_in, part_in};

use asl_json::{Json, Txt};
use std::alloc::{AllocError, AllocFailed, Global};
use std::marker::Model;
use std::ops::Deref;
use std::sync::Arc;

/// A JSON value with several owners. Contracts see it as that value. It never changes.
pub struct Shared {
    value: Arc<Json>,
    /// Where it is an item of that value: the item's number.
    number: Option<u32>,
}

// Written out, so that a caller's proof sees one call and not the drop of each part.
impl Drop for Shared {
    fn drop(self) {
        let Shared {
            value: _value,
            number: _number,
        } = self;
    }
}

impl Model for Shared {
    ghost use Rattle.asl_json.specs.declared.value.Json.{Json};

    ghost Value = { Json };

    ghost use Rattle.asl_json.specs.contracts.value.Json as json_row;

    ghost coded = { json_row.the_row.coded };

    ghost use Rattle.std.specs.Arc.{arc_value};
    ghost use Rattle.asl_json_shared.specs.Sharing.{part_in, IsPart};

    ghost view = { λ a. part_in (arc_value a.value) a.number };

    ghost invariant = { λ a. IsPart (arc_value a.value) a.number };
}

/// The item of this number in a list.
fn item_in(list: &Json, number: u32) -> &Json
    requires { number < length (items_in list.now) }
    ensures { result.now ≡ part_in list.now (Some number) }
{
    match list {
        Json::List(items) => &items.values()[number as usize],
        _ => unreachable!(),
    }
}

impl Shared {
    /// The value, with one owner. Where memory runs out it is handed back.
    pub fn new(alloc: Global, value: Json) -> Result<Shared, AllocFailed<Json>>
        ensures ok { IfOk result (λ s. s ≡ value) }
        ensures value_returned { IfErr result (λ e. e.value ≡ value) }
    {
        match Arc::new(alloc, value) {
            Ok(value) => Ok(Shared {
                value,
                number: None,
            }),
            Err(failed) => Err(failed),
        }
    }

    /// One more owner. It takes no memory. The error is that there are too many.
    pub fn try_clone(&self) -> Result<Shared, AllocError>
        ensures { IfOk result (λ s. s ≡ self.now) }
    {
        let value = Arc::try_clone(&self.value)?;
        Ok(Shared {
            value,
            number: self.number,
        })
    }

    /// The value.
    pub fn get(&self) -> &Json
        ensures { result.now ≡ self.now }
    {
        match self.number {
            None => &self.value,
            Some(number) => item_in(&self.value, number),
        }
    }

    /// The value outright: taken out where this is its only owner, and else an equal copy. The error is that memory ran out.
    pub fn into_json(self, alloc: Global) -> Result<Json, AllocError>
        ensures { IfOk result (λ v. v ≡ self) }
    {
        let Shared { value, number } = self;
        if let Some(number) = number {
            return item_in(&value, number).try_clone(alloc);
        }
        match Arc::try_unwrap(value) {
            Ok(value) => Ok(value),
            Err(value) => value.try_clone(alloc),
        }
    }
}

impl Shared {
    ghost use Rattle.std.specs.Arc.{arc_value};

    /// An owner of the value as a whole: an item of a list is copied.
    fn into_owner(self, alloc: Global) -> Result<Arc<Json>, AllocError>
        ensures { IfOk result (λ a. arc_value a ≡ self) }
    {
        let Shared { value, number } = self;
        match number {
            None => Ok(value),
            Some(number) => Ok(Arc::new(alloc, item_in(&value, number).try_clone(alloc)?)?),
        }
    }
}

impl Deref for Shared {
    type Target = Json;

    ghost deref_gives = { λ s v. v ≡ s };

    fn deref(&self) -> &Json
        ensures { result.now ≡ self.now }
    {
        self.get()
    }
}

impl PartialEq for Shared {
    ghost use Rattle.asl_json.specs.Same.{json_equal};
    ghost use Rattle.asl_json.specs.private.SameLaws.{json_laws};

    ghost eq = { json_equal };

    ghost laws = { json_laws };

    fn eq(&self, other: &Shared) -> bool {
        self.get() == other.get()
    }
}

impl Eq for Shared {
    ghost use Rattle.asl_json.specs.private.SameLaws.{json_equivalence};

    ghost laws = { json_equivalence };
}

/// The items of a list with several owners. Contracts see them as the list of their values. They never change.
pub struct SharedItems {
    list: Option<Arc<Json>>,
}

impl Drop for SharedItems {
    fn drop(self) {
        let SharedItems { list: _list } = self;
    }
}

impl Model for SharedItems {
    ghost use Rattle.std.specs.Prelude.{List, option_map};
    ghost use Rattle.std.specs.Arc.{arc_value};
    ghost use Rattle.asl_json_data.specs.Data.{Data};
    ghost use Rattle.asl_json.specs.private.Code.{coded_items};
    ghost use Rattle.asl_json_shared.specs.Sharing.{items_within};

    ghost Value = { List Data };

    ghost coded = { coded_items };

    ghost view = { λ a. items_within (option_map arc_value a.list) };
}

impl SharedItems {
    /// No items. It takes no memory.
    pub fn none() -> SharedItems
        ensures { result ≡ [] }
    {
        SharedItems { list: None }
    }

    /// The items of a list; none of any other value. Nothing is copied, unless the list is an item itself. The error is that memory
    /// ran out.
    pub fn of(alloc: Global, list: Shared) -> Result<SharedItems, AllocError>
        ensures { IfOk result (λ s. s ≡ items_in list) }
    {
        let list = Some(list.into_owner(alloc)?);
        Ok(SharedItems { list })
    }

    /// The items, in order.
    pub fn values(&self) -> &[Json]
        ensures { items_of result.now ≡ self.now }
    {
        match &self.list {
            Some(list) => values_in(list),
            None => &[],
        }
    }

    /// The item of this number, with one more owner. It takes no memory. The error is that there are too many.
    pub fn item(&self, number: u32) -> Result<Shared, AllocError>
        requires { number < length self.now }
        ensures { IfOk result (λ s. Some (data_of s) ≡ slice_get self.now number) }
    {
        let Some(list) = &self.list else {
            unreachable!();
        };
        Ok(Shared {
            value: Arc::try_clone(list)?,
            number: Some(number),
        })
    }

    /// One more owner. It takes no memory. The error is that there are too many.
    pub fn try_clone(&self) -> Result<SharedItems, AllocError>
        ensures { IfOk result (λ s. s ≡ self.now) }
    {
        match &self.list {
            Some(list) => Ok(SharedItems {
                list: Some(Arc::try_clone(list)?),
            }),
            None => Ok(SharedItems { list: None }),
        }
    }
}

impl PartialEq for SharedItems {
    ghost use Rattle.asl_json.specs.Same.{items_equal};
    ghost use Rattle.asl_json.specs.private.SameLaws.{items_laws};

    ghost eq = { items_equal };

    ghost laws = { items_laws };

    fn eq(&self, other: &SharedItems) -> bool {
        self.values() == other.values()
    }
}

impl Eq for SharedItems {
    ghost use Rattle.asl_json.specs.private.SameLaws.{items_equivalence};

    ghost laws = { items_equivalence };
}

/// The items of a list; none of any other value.
fn values_in(value: &Json) -> &[Json]
    ensures { items_of result.now ≡ items_in value.now }
{
    match value {
        Json::List(items) => items.values(),
        _ => &[],
    }
}

/// A name with several owners: a text in UTF-8, which contracts see as its bytes. It never changes.
pub struct Name {
    text: Arc<Txt>,
}

// Written out, so that a caller's proof sees one call and not the drop of each part.
impl Drop for Name {
    fn drop(self) {
        let Name { text: _text } = self;
    }
}

impl Model for Name {
    ghost use Rattle.std.specs.Prelude.{List, ℕ};
    ghost use Rattle.std.specs.Arc.{arc_value};

    ghost Value = { List ℕ };

    ghost view = { λ a. arc_value a.text };
}

impl Name {
    /// A name that a text spells, with one owner. The error is that memory ran out.
    pub fn new(alloc: Global, text: &str) -> Result<Name, AllocError>
        ensures { IfOk result (λ n. n ≡ text.now) }
    {
        let text = Txt::of(alloc, text)?;
        match Arc::new(alloc, text) {
            Ok(text) => Ok(Name { text }),
            Err(_) => Err(AllocError),
        }
    }

    /// One more owner. It takes no memory. The error is that there are too many.
    pub fn try_clone(&self) -> Result<Name, AllocError>
        ensures { IfOk result (λ n. n ≡ self.now) }
    {
        let text = Arc::try_clone(&self.text)?;
        Ok(Name { text })
    }

    /// Its text.
    pub fn as_str(&self) -> &str
        ensures { result.now ≡ self.now }
    {
        self.text.as_str()
    }
}

impl PartialEq for Name {
    ghost use Rattle.std.specs.Prelude.{nat_eq};
    ghost use Rattle.std.specs.Cmp.Lexicographic.{pointwise};
    ghost use Rattle.std.specs.Cmp.{partial_equiv_from_equiv};
    ghost use Rattle.std.proofs.lemmas.Cmp.{nat_list_eq_equiv};

    ghost eq = { pointwise nat_eq };

    ghost laws = { partial_equiv_from_equiv nat_list_eq_equiv };

    fn eq(&self, other: &Name) -> bool {
        self.as_str() == other.as_str()
    }
}

impl Eq for Name {
    ghost use Rattle.std.proofs.lemmas.Cmp.{nat_list_eq_equiv};

    ghost laws = { nat_list_eq_equiv };
}
