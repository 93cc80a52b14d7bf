// What is wrong in a mock file, in one sentence on what is wrong.
use crate::gaps::put_gaps;
use crate::rule::MockRule;
use asl_def_schema::Kind;
use asl_json::{Json, Member};
use asl_lint_messages::{EFFORT, Search, States, kind_word, put_name, put_separator};
use asl_mock::Shape;
use std::alloc::{AllocError, Global};

/// The most machines that are told one by one.
const TOLD: usize = 6;

/// What a mock file stands beside: the states of a definition, where there are any, and the name of the machine that is meant, where one is
/// named.
#[derive(Clone, Copy)]
pub(crate) struct Beside<'a> {
    pub(crate) states: Option<&'a States<'a>>,
    pub(crate) machine: Option<&'a str>,
}

/// A value on the way to a place of a mock file.
#[derive(Clone, Copy)]
struct Spot<'a> {
    value: &'a Json,
    shape: Shape,
    key: &'a str,
    /// The key of the object that it is in.
    outer_key: &'a str,
    /// What that object is.
    outer_shape: Shape,
}

/// A member of an object, and what it is.
fn member_at<'a>(spot: Spot<'a>, number: usize) -> Spot<'a> {
    match spot.value.members().get(number) {
        Some(member) => Spot {
            value: &member.value,
            shape: spot.shape.part(member.key.as_str()),
            key: member.key.as_str(),
            outer_key: spot.key,
            outer_shape: spot.shape,
        },
        None => spot,
    }
}

/// What stands at a place.
fn spot_at<'a>(file: &'a Json, place: &[usize]) -> Spot<'a> {
    let mut spot = Spot {
        value: file,
        shape: Shape::Top,
        key: "",
        outer_key: "",
        outer_shape: Shape::Any,
    };
    for number in place {
        spot = member_at(spot, *number);
    }
    spot
}

/// What a value has to be.
fn wanted(spot: Spot<'_>) -> &'static str {
    match spot.shape {
        Shape::Top => "an object with StateMachines and MockedResponses",
        Shape::Machines => "an object: machines by their names",
        Shape::Machine => "an object with TestCases",
        Shape::Cases => "an object: cases by their names",
        Shape::Case => "an object: for each Task the name of a response",
        Shape::Responses => "an object: responses by their names",
        Shape::Response => "an object: answers by their numbers",
        Shape::Answer => "an object with either Return or Throw",
        Shape::Thrown => "an object with Error, and Cause at most",
        Shape::Text if spot.outer_shape == Shape::Case => "a text: the name of a response",
        Shape::Text | Shape::Any => "a text",
    }
}

fn put_misfit(out: &mut String, spot: Spot<'_>) -> Result<(), AllocError> {
    out.push_str("this has to be ")?;
    out.push_str(wanted(spot))
}

/// The text that a value is; of any other an empty one.
fn text_in(value: &Json) -> &str {
    match value {
        Json::Text(text) => text.as_str(),
        _ => "",
    }
}

fn put_lost(out: &mut String, spot: Spot<'_>) -> Result<(), AllocError> {
    out.push_str("no response has the name ")?;
    put_name(out, text_in(spot.value))
}

/// Appends that no machine has a name, and which may be meant.
fn put_no_machine(
    alloc: Global,
    out: &mut String,
    name: &str,
    machines: &[Member],
) -> Result<(), AllocError> {
    out.push_str("no machine of the mock file has the name ")?;
    put_name(out, name)?;
    let mut search = Search::new(alloc, name);
    let mut effort = EFFORT;
    for member in machines {
        search.add(member.key.as_str(), &mut effort)?;
    }
    search.put(out)
}

/// Appends that one of several machines has to be named.
fn put_machines(out: &mut String, machines: &[Member]) -> Result<(), AllocError> {
    out.push_str(
        "the mock file has several machines, and the command line has to name one behind it: ",
    )?;
    let count = machines.len().min(TOLD);
    for (number, member) in machines.iter().take(TOLD).enumerate() {
        put_separator(out, number, count)?;
        put_name(out, member.key.as_str())?;
    }
    if machines.len() > count {
        out.push_str(", ..")?;
    }
    Ok(())
}

fn put_unclear(
    alloc: Global,
    out: &mut String,
    file: &Json,
    machine: Option<&str>,
) -> Result<(), AllocError> {
    let machines = file.members_at("StateMachines");
    match machine {
        Some(name) => put_no_machine(alloc, out, name, machines),
        None => put_machines(out, machines),
    }
}

/// Begins to tell that a case has an answer for a name.
fn put_answer_for(out: &mut String, spot: Spot<'_>) -> Result<(), AllocError> {
    out.push_str("case ")?;
    put_name(out, spot.outer_key)?;
    out.push_str(" has an answer for ")?;
    put_name(out, spot.key)
}

/// Appends that a case has an answer for what is no state, and which Task may be meant.
fn put_unknown(
    alloc: Global,
    out: &mut String,
    spot: Spot<'_>,
    states: Option<&States<'_>>,
    effort: &mut usize,
) -> Result<(), AllocError> {
    put_answer_for(out, spot)?;
    out.push_str(", and no Task has that name")?;
    let Some(states) = states else {
        return Ok(());
    };
    let mut search = Search::new(alloc, spot.key);
    for state in &states.list {
        if state.kind() == Some(Kind::Task) {
            search.add(state.name(), effort)?;
        }
    }
    search.put(out)
}

/// Appends that a case has an answer for a state that is no Task.
fn put_no_task(
    out: &mut String,
    spot: Spot<'_>,
    states: Option<&States<'_>>,
) -> Result<(), AllocError> {
    put_answer_for(out, spot)?;
    let Some(states) = states else {
        return Ok(());
    };
    if let Some(state) = states.find(spot.key) {
        if let Some(kind) = state.kind() {
            out.push_str(", which is a ")?;
            out.push_str(kind_word(kind))?;
            out.push_str(" state and no Task")?;
        }
    }
    Ok(())
}

fn put_behind(out: &mut String, name: &str, words: &str) -> Result<(), AllocError> {
    put_name(out, name)?;
    out.push_str(words)
}

/// Appends what is wrong at a place of a mock file. The error is that memory ran out.
pub(crate) fn put_mock(
    alloc: Global,
    out: &mut String,
    rule: MockRule,
    file: &Json,
    beside: Beside<'_>,
    place: &[usize],
    effort: &mut usize,
) -> Result<(), AllocError> {
    let spot = spot_at(file, place);
    match rule {
        MockRule::Json => out.push_str("this is no JSON text"),
        MockRule::Shape => put_misfit(out, spot),
        MockRule::Key => put_behind(
            out,
            spot.key,
            " is neither a number nor a range of numbers, as 0 or 1-3",
        ),
        MockRule::Overlap => put_behind(out, spot.key, " has a number of an answer before it"),
        MockRule::NoResponse => put_lost(out, spot),
        MockRule::NoMachine => put_unclear(alloc, out, file, beside.machine),
        MockRule::UnknownState => put_unknown(alloc, out, spot, beside.states, effort),
        MockRule::NotTask => put_no_task(out, spot, beside.states),
        MockRule::UnansweredTask => {
            out.push_str("no case of the mock file has an answer for the Task ")?;
            put_name(out, spot.key)
        }
        MockRule::UnusedResponse => {
            out.push_str("no case names the response ")?;
            put_name(out, spot.key)
        }
        MockRule::MissingAnswer => put_gaps(alloc, out, spot.key, spot.value.members()),
    }
}
