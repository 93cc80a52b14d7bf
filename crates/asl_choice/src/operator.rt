// The operators of rules.
ghost use Rattle.std.specs.Prelude.{◌≡◌, ◌++◌, true, false, IfOk, IfSome, IsNone};
ghost use Rattle.asl_def_schema.specs.Members.{is_among};
ghost use Rattle.asl_choice.specs.Rules.{order_name, property_name, operator_name, kind_name, kind_names, written, are_named};

use asl_json::Txt;
use std::alloc::{AllocError, Global};

/// How two values stand to each other.
#[derive(Clone, Copy, Debug, PartialEq, Eq)]
pub enum Order {
    Equals,
    LessThan,
    GreaterThan,
    LessThanEquals,
    GreaterThanEquals,
}

/// What may be asked of a value alone.
#[derive(Clone, Copy, Debug, PartialEq, Eq)]
pub enum Property {
    Null,
    Present,
    Numeric,
    String,
    Boolean,
    Timestamp,
}

/// A test (Amazon States Language, "Data-test expression"). Its operand is a path where its name ends in `Path`.
#[derive(Clone, Copy, Debug, PartialEq, Eq)]
pub enum Operator {
    String(Order),
    StringPath(Order),
    Numeric(Order),
    NumericPath(Order),
    Timestamp(Order),
    TimestampPath(Order),
    Boolean,
    BooleanPath,
    Matches,
    Is(Property),
}

/// What decides a rule: rules inside it (Amazon States Language, "Boolean expression"), or a test.
#[derive(Clone, Copy, Debug, PartialEq, Eq)]
pub(crate) enum RuleKind {
    Test(Operator),
    And,
    Or,
    Not,
}

/// A name and what it says.
#[derive(Clone, Copy)]
pub(crate) struct Row(&'static str, RuleKind);

const RULE_KINDS: &[Row] = &[
    Row(
        "StringEquals",
        RuleKind::Test(Operator::String(Order::Equals)),
    ),
    Row(
        "StringEqualsPath",
        RuleKind::Test(Operator::StringPath(Order::Equals)),
    ),
    Row(
        "StringLessThan",
        RuleKind::Test(Operator::String(Order::LessThan)),
    ),
    Row(
        "StringLessThanPath",
        RuleKind::Test(Operator::StringPath(Order::LessThan)),
    ),
    Row(
        "StringGreaterThan",
        RuleKind::Test(Operator::String(Order::GreaterThan)),
    ),
    Row(
        "StringGreaterThanPath",
        RuleKind::Test(Operator::StringPath(Order::GreaterThan)),
    ),
    Row(
        "StringLessThanEquals",
        RuleKind::Test(Operator::String(Order::LessThanEquals)),
    ),
    Row(
        "StringLessThanEqualsPath",
        RuleKind::Test(Operator::StringPath(Order::LessThanEquals)),
    ),
    Row(
        "StringGreaterThanEquals",
        RuleKind::Test(Operator::String(Order::GreaterThanEquals)),
    ),
    Row(
        "StringGreaterThanEqualsPath",
        RuleKind::Test(Operator::StringPath(Order::GreaterThanEquals)),
    ),
    Row(
        "NumericEquals",
        RuleKind::Test(Operator::Numeric(Order::Equals)),
    ),
    Row(
        "NumericEqualsPath",
        RuleKind::Test(Operator::NumericPath(Order::Equals)),
    ),
    Row(
        "NumericLessThan",
        RuleKind::Test(Operator::Numeric(Order::LessThan)),
    ),
    Row(
        "NumericLessThanPath",
        RuleKind::Test(Operator::NumericPath(Order::LessThan)),
    ),
    Row(
        "NumericGreaterThan",
        RuleKind::Test(Operator::Numeric(Order::GreaterThan)),
    ),
    Row(
        "NumericGreaterThanPath",
        RuleKind::Test(Operator::NumericPath(Order::GreaterThan)),
    ),
    Row(
        "NumericLessThanEquals",
        RuleKind::Test(Operator::Numeric(Order::LessThanEquals)),
    ),
    Row(
        "NumericLessThanEqualsPath",
        RuleKind::Test(Operator::NumericPath(Order::LessThanEquals)),
    ),
    Row(
        "NumericGreaterThanEquals",
        RuleKind::Test(Operator::Numeric(Order::GreaterThanEquals)),
    ),
    Row(
        "NumericGreaterThanEqualsPath",
        RuleKind::Test(Operator::NumericPath(Order::GreaterThanEquals)),
    ),
    Row(
        "TimestampEquals",
        RuleKind::Test(Operator::Timestamp(Order::Equals)),
    ),
    Row(
        "TimestampEqualsPath",
        RuleKind::Test(Operator::TimestampPath(Order::Equals)),
    ),
    Row(
        "TimestampLessThan",
        RuleKind::Test(Operator::Timestamp(Order::LessThan)),
    ),
    Row(
        "TimestampLessThanPath",
        RuleKind::Test(Operator::TimestampPath(Order::LessThan)),
    ),
    Row(
        "TimestampGreaterThan",
        RuleKind::Test(Operator::Timestamp(Order::GreaterThan)),
    ),
    Row(
        "TimestampGreaterThanPath",
        RuleKind::Test(Operator::TimestampPath(Order::GreaterThan)),
    ),
    Row(
        "TimestampLessThanEquals",
        RuleKind::Test(Operator::Timestamp(Order::LessThanEquals)),
    ),
    Row(
        "TimestampLessThanEqualsPath",
        RuleKind::Test(Operator::TimestampPath(Order::LessThanEquals)),
    ),
    Row(
        "TimestampGreaterThanEquals",
        RuleKind::Test(Operator::Timestamp(Order::GreaterThanEquals)),
    ),
    Row(
        "TimestampGreaterThanEqualsPath",
        RuleKind::Test(Operator::TimestampPath(Order::GreaterThanEquals)),
    ),
    Row("BooleanEquals", RuleKind::Test(Operator::Boolean)),
    Row("BooleanEqualsPath", RuleKind::Test(Operator::BooleanPath)),
    Row("StringMatches", RuleKind::Test(Operator::Matches)),
    Row("IsNull", RuleKind::Test(Operator::Is(Property::Null))),
    Row("IsPresent", RuleKind::Test(Operator::Is(Property::Present))),
    Row("IsNumeric", RuleKind::Test(Operator::Is(Property::Numeric))),
    Row("IsString", RuleKind::Test(Operator::Is(Property::String))),
    Row("IsBoolean", RuleKind::Test(Operator::Is(Property::Boolean))),
    Row(
        "IsTimestamp",
        RuleKind::Test(Operator::Is(Property::Timestamp)),
    ),
    Row("And", RuleKind::And),
    Row("Or", RuleKind::Or),
    Row("Not", RuleKind::Not),
];

impl Order {
    fn name(self) -> &'static str
        ensures { result.now ≡ order_name self }
    {
        match self {
            Order::Equals => "Equals",
            Order::LessThan => "LessThan",
            Order::GreaterThan => "GreaterThan",
            Order::LessThanEquals => "LessThanEquals",
            Order::GreaterThanEquals => "GreaterThanEquals",
        }
    }
}

impl Property {
    fn name(self) -> &'static str
        ensures { result.now ≡ property_name self }
    {
        match self {
            Property::Null => "Null",
            Property::Present => "Present",
            Property::Numeric => "Numeric",
            Property::String => "String",
            Property::Boolean => "Boolean",
            Property::Timestamp => "Timestamp",
        }
    }
}

/// A name of three parts.
fn joined(alloc: Global, subject: &str, relation: &str, mark: &str) -> Result<Txt, AllocError>
    ensures { IfOk result (λ t. t ≡ subject.now ++ (relation.now ++ mark.now)) }
{
    let mut name = String::from_str(alloc, subject)?;
    name.push_str(relation)?;
    name.push_str(mark)?;
    Ok(Txt::new(name))
}

impl Operator {
    /// Its name. The error is that memory ran out.
    pub(crate) fn name(self, alloc: Global) -> Result<Txt, AllocError>
        ensures { IfOk result (λ t. t ≡ operator_name self) }
    {
        match self {
            Operator::String(order) => joined(alloc, "String", order.name(), ""),
            Operator::StringPath(order) => joined(alloc, "String", order.name(), "Path"),
            Operator::Numeric(order) => joined(alloc, "Numeric", order.name(), ""),
            Operator::NumericPath(order) => joined(alloc, "Numeric", order.name(), "Path"),
            Operator::Timestamp(order) => joined(alloc, "Timestamp", order.name(), ""),
            Operator::TimestampPath(order) => joined(alloc, "Timestamp", order.name(), "Path"),
            Operator::Boolean => joined(alloc, "Boolean", "Equals", ""),
            Operator::BooleanPath => joined(alloc, "Boolean", "Equals", "Path"),
            Operator::Matches => joined(alloc, "String", "Matches", ""),
            Operator::Is(property) => joined(alloc, "Is", property.name(), ""),
        }
    }
}

#[tactic(auto, unfolding(asl_def_schema::specs::Members::operators, asl_def_schema::specs::Members::test_rows))]
fn rule_kinds() -> &'static [Row]
    ensures all { written result.now ≡ kind_names }
    ensures named { are_named result.now ≡ true }
{
    RULE_KINDS
}

impl RuleKind {
    /// The one that a name says.
    pub(crate) fn named(name: &str) -> Option<RuleKind>
        ensures found { IfSome result (λ kind. kind_name kind ≡ name.now) }
        ensures none { IsNone result → is_among name.now kind_names ≡ false }
    {
        let rows = rule_kinds();
        for row in rows {
            if name == row.0 {
                return Some(row.1);
            }
        }
        None
    }
}
