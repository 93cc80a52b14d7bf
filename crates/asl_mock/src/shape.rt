// What a mock file is made of.
ghost use Rattle.std.specs.Prelude.{◌≡◌};
ghost use Rattle.asl_json.specs.View.{data_of};
ghost use Rattle.asl_mock.specs.Form.{part_shape, takes_any, takes_text, fits, members_count};

use asl_json::Json;

/// What a value of a mock file is. (AWS Step Functions, "Mocked service integrations", the file MockConfigFile.json.)
#[derive(Clone, Copy, Debug, PartialEq, Eq)]
pub enum Shape {
    /// Whatever it is.
    Any,
    Text,
    Top,
    Machines,
    Machine,
    Cases,
    Case,
    Responses,
    Response,
    Answer,
    Thrown,
}

impl Shape {
    /// What its member of this key is.
    pub fn part(self, key: &str) -> Shape
        ensures { result ≡ part_shape self key.now }
    {
        match self {
            Shape::Top => top_part(key),
            Shape::Machines => Shape::Machine,
            Shape::Machine => match key {
                "TestCases" => Shape::Cases,
                _ => Shape::Any,
            },
            Shape::Cases => Shape::Case,
            Shape::Case | Shape::Thrown => Shape::Text,
            Shape::Responses => Shape::Response,
            Shape::Response => Shape::Answer,
            Shape::Answer => match key {
                "Throw" => Shape::Thrown,
                _ => Shape::Any,
            },
            Shape::Any | Shape::Text => Shape::Any,
        }
    }

    /// Whether any value may stand there.
    pub fn takes_any(self) -> bool
        ensures { result ≡ takes_any self }
    {
        match self {
            Shape::Any => true,
            _ => false,
        }
    }

    /// Whether a text may stand there.
    pub fn takes_text(self) -> bool
        ensures { result ≡ takes_text self }
    {
        match self {
            Shape::Any | Shape::Text => true,
            _ => false,
        }
    }

    /// Whether an object has the members that it needs, and none besides.
    pub fn fits(self, value: &Json) -> bool
        ensures { result ≡ fits self (data_of value.now) }
    {
        match self {
            Shape::Machine => value.get("TestCases").is_some(),
            Shape::Answer => is_answer(value),
            Shape::Thrown => is_thrown(value),
            Shape::Text => false,
            _ => true,
        }
    }
}

fn top_part(key: &str) -> Shape
    ensures { result ≡ part_shape Shape.Top key.now }
{
    match key {
        "StateMachines" => Shape::Machines,
        "MockedResponses" => Shape::Responses,
        _ => Shape::Any,
    }
}

/// How many members an object has.
fn count(value: &Json) -> usize
    ensures { result ≡ members_count (data_of value.now) }
{
    match value {
        Json::Dict(members) => members.members().len(),
        _ => 0,
    }
}

fn is_answer(value: &Json) -> bool
    ensures { result ≡ fits Shape.Answer (data_of value.now) }
{
    count(value) == 1 && (value.get("Return").is_some() || value.get("Throw").is_some())
}

fn is_thrown(value: &Json) -> bool
    ensures { result ≡ fits Shape.Thrown (data_of value.now) }
{
    let known = if value.get("Cause").is_some() { 2 } else { 1 };
    value.get("Error").is_some() && count(value) == known
}
