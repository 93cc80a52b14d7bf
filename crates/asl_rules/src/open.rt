// What stands open while a formula is read.
ghost use Rattle.std.specs.Prelude.{◌≡◌, ◌∷◌, [], length, IfOk, MatchOption};
ghost use Rattle.asl_rules.specs.Tree.{any_of, all_of};
ghost use Rattle.asl_rules.specs.private.Parts.{with_and, with_or, with_implies, whole};

use crate::formula::{AllOf, AnyOf, Formula, Operand};
use std::alloc::{AllocError, Global};
use std::marker::Model;

/// What a formula has so far: premises, formulas with an `or` behind each, and operands with an `and` behind each. Contracts see
/// the three lists.
pub(crate) struct Parts {
    premises: Vec<AnyOf>,
    terms: Vec<AllOf>,
    factors: Vec<Operand>,
}

// Written out, so that a caller's proof sees one call and not the drop of each part.
impl Drop for Parts {
    fn drop(self) {
        let Parts {
            premises: _premises,
            terms: _terms,
            factors: _factors,
        } = self;
    }
}

impl Model for Parts {
    ghost use Rattle.std.specs.Prelude.{List};
    ghost use Rattle.asl_rules.specs.Tree.{AnyOf, AllOf, Operand};
    ghost use Rattle.asl_rules.specs.private.Code.{coded_any, coded_all, coded_operand};
    ghost use Rattle.std.specs.Coded.{coded_list, coded×};

    ghost Value = { List AnyOf × (List AllOf × List Operand) };

    ghost coded = { coded× (coded_list coded_any) (coded× (coded_list coded_all) (coded_list coded_operand)) };

    ghost view = { λ a. (a.premises.items, (a.terms.items, a.factors.items)) };
}

fn any_of(terms: Vec<AllOf>, factors: Vec<Operand>, operand: Operand) -> AnyOf
    ensures { result ≡ any_of terms.items (all_of factors.items operand) }
{
    AnyOf {
        before: terms,
        last: AllOf {
            before: factors,
            last: operand,
        },
    }
}

impl Parts {
    pub(crate) fn new(alloc: Global) -> Parts
        ensures { result ≡ ([], ([], [])) }
    {
        Parts {
            premises: Vec::new(alloc),
            terms: Vec::new(alloc),
            factors: Vec::new(alloc),
        }
    }

    /// With an operand, and `and` behind it. The error is that memory ran out.
    pub(crate) fn and(self, operand: Operand) -> Result<Parts, AllocError>
        ensures { IfOk result (λ p. p ≡ with_and self operand) }
    {
        let mut parts = self;
        parts.factors.push(operand)?;
        Ok(parts)
    }

    /// With an operand, and `or` behind it. The error is that memory ran out.
    pub(crate) fn or(self, alloc: Global, operand: Operand) -> Result<Parts, AllocError>
        ensures { IfOk result (λ p. p ≡ with_or self operand) }
    {
        let Parts {
            premises,
            mut terms,
            factors,
        } = self;
        terms.push(AllOf {
            before: factors,
            last: operand,
        })?;
        Ok(Parts {
            premises,
            terms,
            factors: Vec::new(alloc),
        })
    }

    /// With an operand, and `=>` behind it. The error is that memory ran out.
    pub(crate) fn implies(self, alloc: Global, operand: Operand) -> Result<Parts, AllocError>
        ensures { IfOk result (λ p. p ≡ with_implies self operand) }
    {
        let Parts {
            mut premises,
            terms,
            factors,
        } = self;
        premises.push(any_of(terms, factors, operand))?;
        Ok(Parts {
            premises,
            terms: Vec::new(alloc),
            factors: Vec::new(alloc),
        })
    }

    /// The formula that ends with an operand.
    pub(crate) fn whole(self, operand: Operand) -> Formula
        ensures { result ≡ whole self operand }
    {
        let Parts {
            premises,
            terms,
            factors,
        } = self;
        Formula {
            premises,
            conclusion: any_of(terms, factors, operand),
        }
    }
}

/// What stands before an operand that isn't read to its end.
#[derive(Drop)]
pub(crate) enum Open {
    /// A `not`.
    Not,
    /// A parenthesis, and what the formula around it has so far.
    Group(Parts),
}

/// What stands open, the innermost last. Contracts see the innermost first.
pub(crate) struct Opens {
    list: Vec<Open>,
}

// Written out, as that of `Parts` is.
impl Drop for Opens {
    fn drop(self) {
        let Opens { list: _list } = self;
    }
}

impl Model for Opens {
    ghost use Rattle.std.specs.Prelude.{List, reverse};
    ghost use Rattle.asl_rules.specs.declared.open.Open.{Open};
    ghost use Rattle.asl_rules.specs.contracts.open.Open as open_row;
    ghost use Rattle.std.specs.Coded.{coded_list};

    ghost Value = { List Open };

    ghost coded = { coded_list open_row.the_row.coded };

    ghost view = { λ a. reverse a.list.items };
}

impl Opens {
    pub(crate) fn new(alloc: Global) -> Opens
        ensures { result ≡ [] }
    {
        Opens {
            list: Vec::new(alloc),
        }
    }

    /// How many stand open.
    pub(crate) fn len(&self) -> usize
        ensures { result ≡ length self.now }
    {
        self.list.len()
    }

    /// With one more. The error is that memory ran out.
    pub(crate) fn with(self, one: Open) -> Result<Opens, AllocError>
        ensures { IfOk result (λ os. os ≡ one ∷ self) }
    {
        let mut opens = self;
        opens.list.push(one)?;
        Ok(opens)
    }

    /// The innermost, and the others.
    pub(crate) fn pop(self) -> (Option<Open>, Opens)
        ensures { MatchOption result.0 ((self ≡ []) × (result.1 ≡ [])) (λ o. self ≡ o ∷ result.1) }
    {
        let mut opens = self;
        let innermost = opens.list.pop();
        (innermost, opens)
    }
}
