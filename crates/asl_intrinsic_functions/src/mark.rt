// A mark of a value: values that are the same have the same mark, so only values of one mark have to be compared.
ghost use Rattle.std.specs.Prelude.{◌≡◌, ◌<◌, ◌%◌};
ghost use Rattle.std.specs.Int.RustNames.{unsigned_abs};
ghost use Rattle.asl_json_data.specs.Data.{chain, pairs};
ghost use Rattle.asl_json.specs.View.{data_of};
ghost use Rattle.asl_intrinsic_functions.specs.private.Marks.{blended, joined, added, text_mark, mark, items_mark, members_mark, IsApart, AreApart, HasApart};

use asl_json::{Items, Json, Members};

/// Marks are below this prime.
const MODULUS: u64 = 2_147_483_647;

/// What the mark so far is taken times before the next part.
const FACTOR: u64 = 65_599;

const NULL: u64 = 1;

const TRUE: u64 = 2;

const FALSE: u64 = 3;

/// The mark of no bytes.
const TEXT: u64 = 5;

/// The mark of no items.
const LIST: u64 = 7;

/// The mark of no members.
const DICT: u64 = 11;

/// The mark of parts in order: of those so far and the next.
#[tactic(auto, unfolding(crate::specs::private::Marks::blended))]
fn blended(mark: u64, part: u64) -> u64
    requires so_far { mark < MODULUS }
    requires next { part < MODULUS }
    ensures value { result ≡ blended mark part }
    ensures below { result < MODULUS }
{
    (mark * FACTOR + part) % MODULUS
}

/// The mark of a member: of its key and its value.
#[tactic(auto, unfolding(crate::specs::private::Marks::joined))]
fn joined(key: u64, value: u64) -> u64
    requires key { key < MODULUS }
    requires value { value < MODULUS }
    ensures value { result ≡ joined key value }
    ensures below { result < MODULUS }
{
    key * (value + 1) % MODULUS
}

/// The mark of members in any order: of those so far and one more.
#[tactic(auto, unfolding(crate::specs::private::Marks::added))]
fn added(mark: u64, member: u64) -> u64
    requires so_far { mark < MODULUS }
    requires member { member < MODULUS }
    ensures value { result ≡ added mark member }
    ensures below { result < MODULUS }
{
    (mark + member) % MODULUS
}

fn text_mark(text: &str) -> u64
    ensures value { result ≡ text_mark TEXT text.now }
    ensures below { result < MODULUS }
{
    let mut mark = TEXT;
    for byte in text.as_bytes() {
        mark = blended(mark, u64::from(*byte));
    }
    mark
}

/// The mark of a number of these units of 10^-9, which its spelling leaves open.
fn number_mark(units: i128) -> u64
    ensures value { result ≡ unsigned_abs units % MODULUS }
    ensures below { result < MODULUS }
{
    (units.unsigned_abs() % u128::from(MODULUS)) as u64
}

/// The mark of a value, in which no object has a key twice.
#[cycle(mark)]
pub(crate) fn mark(value: &Json) -> u64
    ensures value { result ≡ mark (data_of value.now) }
    ensures below { result < MODULUS }
    ensures apart { IsApart (data_of value.now) }
{
    match value {
        Json::Null => NULL,
        Json::Bool(true) => TRUE,
        Json::Bool(false) => FALSE,
        Json::Num(number) => number_mark(number.units()),
        Json::Text(text) => text_mark(text.as_str()),
        Json::List(items) => items_mark(items),
        Json::Dict(members) => members_mark(members),
    }
}

#[cycle(mark)]
fn items_mark(items: &Items) -> u64
    ensures value { result ≡ items_mark LIST (chain items.now) }
    ensures below { result < MODULUS }
    ensures apart { AreApart (chain items.now) }
{
    let values = items.values();
    let mut so_far = LIST;
    for value in values {
        so_far = blended(so_far, mark(value));
    }
    so_far
}

#[cycle(mark)]
fn members_mark(members: &Members) -> u64
    ensures value { result ≡ members_mark DICT (pairs members.now) }
    ensures below { result < MODULUS }
    ensures apart { HasApart (pairs members.now) }
{
    let pairs = members.members();
    let mut so_far = DICT;
    for member in pairs {
        let key = text_mark(member.key.as_str());
        so_far = added(so_far, joined(key, mark(&member.value)));
    }
    so_far
}
