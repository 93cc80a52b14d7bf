// Places of branches.
ghost use Rattle.std.specs.Prelude.{◌≡◌, ◌↔◌, ◌<◌, ◌^◌, [], ◌∷◌, ◌++◌, List, ℕ, IfOk, IfSome, OnOk, OnErr, IsTrue, string_bytes};
ghost use Rattle.asl_json_write.specs.Buffers.{Keeps};
ghost use Rattle.asl_history.specs.Places.{IsPlace, is_prefix, is_child, is_beside, place_text, steps_text};

use crate::number::read_step;
use asl_json_write::whole_or_none;
use asl_text::put_decimal;
use std::alloc::{AllocError, Global};
use std::marker::Model;
use std::sync::Arc;

/// The numbers of a place.
struct Numbers {
    list: Vec<u32>,
}

// Written out, so that a caller's proof sees one call and not the drop of each part.
impl Drop for Numbers {
    fn drop(self) {
        let Numbers { list: _list } = self;
    }
}

impl Model for Numbers {
    ghost use Rattle.std.specs.Prelude.{List, ℕ};

    ghost Value = { List ℕ };

    ghost view = { λ n. n.list.items };
}

/// The place of a branch: the numbers, each below 10^9, of the forks on the way to it, from the outermost. The root is the
/// branch that an execution starts with. Contracts see the list of its numbers. Copies share it; the root has none.
pub struct Place {
    numbers: Option<Arc<Numbers>>,
}

// Written out, so that a caller's proof sees one call and not the drop of each part.
impl Drop for Place {
    fn drop(self) {
        let Place { numbers: _numbers } = self;
    }
}

impl Model for Place {
    ghost use Rattle.std.specs.Prelude.{List, ℕ, option_map};
    ghost use Rattle.std.specs.Arc.{arc_value};
    ghost use Rattle.asl_history.specs.Places.{IsPlace, numbers_in};

    ghost Value = { List ℕ };

    ghost view = { λ p. numbers_in (option_map arc_value p.numbers) };

    ghost invariant = { λ p. IsPlace (numbers_in (option_map arc_value p.numbers)) };
}

impl Place {
    /// The place of the branch that an execution starts with. It takes no memory.
    pub fn root() -> Place
        ensures { result ≡ [] }
    {
        Place { numbers: None }
    }

    /// The place of these numbers. The error is that memory ran out.
    fn of(alloc: Global, list: Vec<u32>) -> Result<Place, AllocError>
        requires { IsPlace list.items }
        ensures { IfOk result (λ p. p ≡ list.items) }
    {
        match Arc::new(alloc, Numbers { list }) {
            Ok(numbers) => Ok(Place {
                numbers: Some(numbers),
            }),
            Err(_) => Err(AllocError),
        }
    }

    /// The numbers from the outermost on.
    pub fn numbers(&self) -> &[u32]
        ensures value { result.now ≡ self.now }
        ensures bound { IsPlace result.now }
    {
        match &self.numbers {
            Some(numbers) => numbers.list.as_slice(),
            None => &[],
        }
    }

    /// An equal place, which shares the numbers. It takes no memory. The error is that there are too many copies.
    pub fn try_clone(&self) -> Result<Place, AllocError>
        ensures { IfOk result (λ p. p ≡ self.now) }
    {
        match &self.numbers {
            Some(numbers) => Ok(Place {
                numbers: Some(Arc::try_clone(numbers)?),
            }),
            None => Ok(Place { numbers: None }),
        }
    }

    /// The place of the child with this number. The error is that memory ran out.
    pub fn child(&self, alloc: Global, number: u32) -> Result<Place, AllocError>
        requires { number < 10 ^ 9 }
        ensures { IfOk result (λ p. p ≡ self.now ++ number ∷ []) }
    {
        let mut numbers = Vec::from_slice(alloc, self.numbers())?;
        numbers.push(number)?;
        Place::of(alloc, numbers)
    }

    /// Whether this is the place of the branch that an execution starts with.
    pub fn is_root(&self) -> bool
        ensures { IsTrue result ↔ (self.now ≡ []) }
    {
        self.numbers().is_empty()
    }

    /// Whether the other place is this one or under it.
    pub fn is_prefix_of(&self, other: &Place) -> bool
        ensures { result ≡ is_prefix self.now other.now }
    {
        is_prefix_of(self.numbers(), other.numbers())
    }

    /// Whether the other place is directly under this one.
    pub fn is_parent_of(&self, other: &Place) -> bool
        ensures { result ≡ is_child self.now other.now }
    {
        is_child(self.numbers(), other.numbers())
    }

    /// Whether the other place is a sibling of this one, or of a place above it.
    pub fn is_beside(&self, other: &Place) -> bool
        ensures { result ≡ is_beside self.now other.now }
    {
        is_beside(self.numbers(), other.numbers())
    }

    /// The place that a text spells: `/` for the root, else `/` before each number, of 1 to 9 digits without leading
    /// zeros; `None` for any other text. The error is that memory ran out.
    pub fn read(alloc: Global, text: &str) -> Result<Option<Place>, AllocError>
        ensures found { IfOk result (λ o. IfSome o (λ p. text.now ≡ place_text p)) }
        // A text that spells a place is read as that place.
        ensures only { IfOk result (λ o. (p : List ℕ) → IsPlace p → text.now ≡ place_text p
            → o ≡ Some p) }
    {
        if is_slash(text) {
            return Ok(Some(Place::root()));
        }
        if text.is_empty() {
            return Ok(None);
        }
        read_steps(alloc, text.as_bytes())
    }

    /// The text of the place, which `read` reads back. The error is that memory ran out.
    pub fn write(&self, alloc: Global) -> Result<String, AllocError>
        ensures { IfOk result (λ t. string_bytes t ≡ place_text self.now) }
    {
        let mut out = String::new(alloc);
        self.put(&mut out)?;
        Ok(out)
    }

    /// Appends the text of the place. The error is that memory ran out, and then nothing is appended.
    pub fn put(&self, out: &mut String) -> Result<(), AllocError>
        ensures ok { OnOk result (string_bytes out.new
            ≡ string_bytes out.old ++ place_text self.now) }
        ensures err { OnErr result (string_bytes out.new ≡ string_bytes out.old) }
    {
        if self.is_root() {
            return out.push('/');
        }
        let len = out.as_str().len();
        let appended = put_steps(out, self.numbers());
        whole_or_none(out, len, appended)
    }
}

impl PartialEq for Place {
    ghost use Rattle.std.specs.Prelude.{nat_eq};
    ghost use Rattle.std.specs.Cmp.Lexicographic.{pointwise};
    ghost use Rattle.std.specs.Cmp.{partial_equiv_from_equiv};
    ghost use Rattle.std.proofs.lemmas.Cmp.{nat_list_eq_equiv};

    ghost eq = { pointwise nat_eq };

    ghost laws = { partial_equiv_from_equiv nat_list_eq_equiv };

    fn eq(&self, other: &Place) -> bool {
        self.numbers() == other.numbers()
    }
}

impl Eq for Place {
    ghost use Rattle.std.proofs.lemmas.Cmp.{nat_list_eq_equiv};

    ghost laws = { nat_list_eq_equiv };
}

/// Appends a slash and a number for each. Where memory runs out, some of them may be there.
fn put_steps(out: &mut String, numbers: &[u32]) -> Result<(), AllocError>
    ensures ok { OnOk result (string_bytes out.new
        ≡ string_bytes out.old ++ steps_text numbers.now) }
    ensures kept { Keeps (string_bytes out.old) (string_bytes out.new) }
{
    for number in numbers {
        out.push('/')?;
        put_decimal(out, u64::from(*number))?;
    }
    Ok(())
}

fn is_slash(text: &str) -> bool
    ensures { IsTrue result ↔ (text.now ≡ 47 ∷ []) }
{
    text == "/"
}

/// The place whose numbers, each behind a slash, are the whole text.
fn read_steps(alloc: Global, bytes: &[u8]) -> Result<Option<Place>, AllocError>
    ensures found { IfOk result (λ o. IfSome o (λ p. bytes.now ≡ steps_text p)) }
    ensures only { IfOk result (λ o. (p : List ℕ) → IsPlace p → bytes.now ≡ steps_text p
        → o ≡ Some p) }
{
    let mut numbers = Vec::new(alloc);
    let mut rest = bytes;
    while !rest.is_empty() {
        let Some((number, behind)) = read_step(rest) else {
            return Ok(None);
        };
        numbers.push(number)?;
        rest = behind;
    }
    Ok(Some(Place::of(alloc, numbers)?))
}

fn is_child(p: &[u32], q: &[u32]) -> bool
    ensures { result ≡ is_child p.now q.now }
{
    match p {
        [] => match q {
            [] => false,
            [_, rest @ ..] => rest.is_empty(),
        },
        [x, xs @ ..] => match q {
            [] => false,
            [y, ys @ ..] => *x == *y && is_child(xs, ys),
        },
    }
}

fn is_beside(p: &[u32], q: &[u32]) -> bool
    ensures { result ≡ is_beside p.now q.now }
{
    match q {
        [] => false,
        [y, ys @ ..] => match p {
            [] => false,
            [x, xs @ ..] => {
                if ys.is_empty() {
                    *x != *y
                } else {
                    *x == *y && is_beside(xs, ys)
                }
            }
        },
    }
}

fn is_prefix_of(p: &[u32], q: &[u32]) -> bool
    ensures { result ≡ is_prefix p.now q.now }
{
    match p {
        [] => true,
        [x, xs @ ..] => match q {
            [] => false,
            [y, ys @ ..] => *x == *y && is_prefix_of(xs, ys),
        },
    }
}
