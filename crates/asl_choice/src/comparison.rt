// Tests of a variable.
ghost use Rattle.std.specs.Prelude.{◌≡◌, IfOk};
ghost use Rattle.asl_json.specs.View.{data_of};
ghost use Rattle.asl_json_data.specs.Data.{text};
ghost use Rattle.asl_def_schema.specs.declared.sort.Sort.TheVariants.{Path};
ghost use Rattle.asl_def_schema.specs.Clean.{IsClean};
ghost use Rattle.asl_choice.specs.Rules.{comparison_operator, operand, operand_sort, operator_name, test_named};

use crate::operator::{Operator, Order, Property};
use asl_def_fields::{Compile, Compiled, Stamp, TryClone};
use asl_json::{Dec, Json, Txt};
use asl_path::RefPath;
use std::alloc::{AllocError, Global};

/// A test of a value, with what it is compared to or is to be.
pub enum Comparison {
    String(Order, Txt),
    StringPath(Order, RefPath),
    Numeric(Order, Dec),
    NumericPath(Order, RefPath),
    Timestamp(Order, Stamp),
    TimestampPath(Order, RefPath),
    Boolean(bool),
    BooleanPath(RefPath),
    Matches(Txt),
    Is(Property, bool),
}

// Written out, so that a caller's proof sees one call and not the drop of each part.
impl Drop for Comparison {
    fn drop(self) {
        match self {
            Comparison::String(_a, _b) => {}
            Comparison::StringPath(_a, _b) => {}
            Comparison::Numeric(_a, _b) => {}
            Comparison::NumericPath(_a, _b) => {}
            Comparison::Timestamp(_a, _b) => {}
            Comparison::TimestampPath(_a, _b) => {}
            Comparison::Boolean(_part) => {}
            Comparison::BooleanPath(_part) => {}
            Comparison::Matches(_part) => {}
            Comparison::Is(_a, _b) => {}
        }
    }
}

/// A test of the part of the input or of the Context Object that a path names (Amazon States Language, "Data-test expression").
#[derive(PartialEq, Eq)]
pub struct Test {
    pub(crate) variable: RefPath,
    pub(crate) comparison: Comparison,
}

impl Drop for Test {
    fn drop(self) {
        let Test {
            variable: _variable,
            comparison: _comparison,
        } = self;
    }
}

/// The path of a member. (`RefPath::read` alone takes a text.)
pub(crate) fn path(alloc: Global, value: &Json) -> Result<RefPath, AllocError>
    requires { IsClean Path (data_of value.now) }
    ensures { IfOk result (λ p. text p ≡ data_of value.now) }
{
    <RefPath as Compile>::read(alloc, value)
}

impl PartialEq for Comparison {
    ghost use Rattle.asl_choice.specs.Equal.{comparison_equal};
    ghost use Rattle.asl_choice.specs.private.EqualLaws.{comparison_laws};

    ghost eq = { comparison_equal };

    ghost laws = { comparison_laws };

    fn eq(&self, other: &Comparison) -> bool {
        match (self, other) {
            (Comparison::String(o, x), Comparison::String(p, y)) => *o == *p && *x == *y,
            (Comparison::StringPath(o, x), Comparison::StringPath(p, y)) => *o == *p && *x == *y,
            (Comparison::Numeric(o, x), Comparison::Numeric(p, y)) => *o == *p
                && x.spelling() == y.spelling(),
            (Comparison::NumericPath(o, x), Comparison::NumericPath(p, y)) => *o == *p && *x == *y,
            (Comparison::Timestamp(o, x), Comparison::Timestamp(p, y)) => *o == *p && *x == *y,
            (Comparison::TimestampPath(o, x), Comparison::TimestampPath(p, y)) => *o == *p
                && *x == *y,
            (Comparison::Boolean(x), Comparison::Boolean(y)) => *x == *y,
            (Comparison::BooleanPath(x), Comparison::BooleanPath(y)) => *x == *y,
            (Comparison::Matches(x), Comparison::Matches(y)) => *x == *y,
            (Comparison::Is(o, x), Comparison::Is(p, y)) => *o == *p && *x == *y,
            _ => false,
        }
    }
}

impl Eq for Comparison {
    ghost use Rattle.asl_choice.specs.private.EqualLaws.{comparison_equivalence};

    ghost laws = { comparison_equivalence };
}

impl Comparison {
    /// The test by this operator, with what stands at it.
    pub(crate) fn read(
        alloc: Global,
        operator: Operator,
        value: &Json,
    ) -> Result<Comparison, AllocError>
        requires { IsClean (operand_sort operator) (data_of value.now) }
        ensures { IfOk result (λ c. test_named c ≡ (operator_name operator, data_of value.now)) }
    {
        match operator {
            Operator::String(order) => Ok(Comparison::String(order, Txt::read(alloc, value)?)),
            Operator::StringPath(order) => Ok(Comparison::StringPath(order, path(alloc, value)?)),
            Operator::Numeric(order) => Ok(Comparison::Numeric(order, Dec::read(alloc, value)?)),
            Operator::NumericPath(order) => Ok(Comparison::NumericPath(order, path(alloc, value)?)),
            Operator::Timestamp(order) => Ok(Comparison::Timestamp(
                order,
                Stamp::read(alloc, value)?,
            )),
            Operator::TimestampPath(order) => Ok(Comparison::TimestampPath(
                order,
                path(alloc, value)?,
            )),
            Operator::Boolean => Ok(Comparison::Boolean(bool::read(alloc, value)?)),
            Operator::BooleanPath => Ok(Comparison::BooleanPath(path(alloc, value)?)),
            Operator::Matches => Ok(Comparison::Matches(Txt::read(alloc, value)?)),
            Operator::Is(property) => Ok(Comparison::Is(property, bool::read(alloc, value)?)),
        }
    }

    pub(crate) fn operator(&self) -> Operator
        ensures { result ≡ comparison_operator self.now }
    {
        match self {
            Comparison::String(order, _) => Operator::String(*order),
            Comparison::StringPath(order, _) => Operator::StringPath(*order),
            Comparison::Numeric(order, _) => Operator::Numeric(*order),
            Comparison::NumericPath(order, _) => Operator::NumericPath(*order),
            Comparison::Timestamp(order, _) => Operator::Timestamp(*order),
            Comparison::TimestampPath(order, _) => Operator::TimestampPath(*order),
            Comparison::Boolean(_) => Operator::Boolean,
            Comparison::BooleanPath(_) => Operator::BooleanPath,
            Comparison::Matches(_) => Operator::Matches,
            Comparison::Is(property, _) => Operator::Is(*property),
        }
    }

    /// What the value is compared to, as it is written.
    pub(crate) fn operand(&self, alloc: Global) -> Result<Json, AllocError>
        ensures { IfOk result (λ v. data_of v ≡ operand self.now) }
    {
        match self {
            Comparison::String(_, text) => text.json(alloc),
            Comparison::StringPath(_, path) => path.json(alloc),
            Comparison::Numeric(_, number) => number.json(alloc),
            Comparison::NumericPath(_, path) => path.json(alloc),
            Comparison::Timestamp(_, stamp) => stamp.json(alloc),
            Comparison::TimestampPath(_, path) => path.json(alloc),
            Comparison::Boolean(truth) => truth.json(alloc),
            Comparison::BooleanPath(path) => path.json(alloc),
            Comparison::Matches(pattern) => pattern.json(alloc),
            Comparison::Is(_, truth) => truth.json(alloc),
        }
    }
}

impl TryClone for Comparison {
    fn try_clone(&self, alloc: Global) -> Result<Comparison, AllocError> {
        match self {
            Comparison::String(order, text) => {
                Ok(Comparison::String(*order, text.try_clone(alloc)?))
            }
            Comparison::StringPath(order, path) => {
                Ok(Comparison::StringPath(*order, path.try_clone(alloc)?))
            }
            Comparison::Numeric(order, number) => Ok(Comparison::Numeric(*order, number.copy())),
            Comparison::NumericPath(order, path) => {
                Ok(Comparison::NumericPath(*order, path.try_clone(alloc)?))
            }
            Comparison::Timestamp(order, stamp) => {
                Ok(Comparison::Timestamp(*order, stamp.try_clone(alloc)?))
            }
            Comparison::TimestampPath(order, path) => {
                Ok(Comparison::TimestampPath(*order, path.try_clone(alloc)?))
            }
            Comparison::Boolean(truth) => Ok(Comparison::Boolean(*truth)),
            Comparison::BooleanPath(path) => Ok(Comparison::BooleanPath(path.try_clone(alloc)?)),
            Comparison::Matches(pattern) => Ok(Comparison::Matches(pattern.try_clone(alloc)?)),
            Comparison::Is(property, truth) => Ok(Comparison::Is(*property, *truth)),
        }
    }
}

impl TryClone for Test {
    fn try_clone(&self, alloc: Global) -> Result<Test, AllocError> {
        Ok(Test {
            variable: self.variable.try_clone(alloc)?,
            comparison: self.comparison.try_clone(alloc)?,
        })
    }
}
