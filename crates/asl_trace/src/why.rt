// Why a step of a state raises an error: what was looked for, in which member, and what is there instead.
use crate::absent::{path_in, put_absent, put_value};
use crate::deciding::{Staged, decided_at};
use crate::unfilled::{Sources, put_unfilled};
use asl_def_states::State;
use asl_exec::{Execution, state_of};
use asl_json::Json;
use asl_path::RefPath;
use asl_run_input::StepAt;
use asl_step::{Context, ErrorOut};
use asl_template::Template;
use asl_trace_data::{Part, Stage};
use std::alloc::{AllocError, Global};

/// An error that a step raises, and why, in words; these are empty where the error says all.
#[derive(Drop)]
pub struct Raised {
    pub error: ErrorOut,
    pub why: String,
}

/// What a field's path is to name.
fn wanted_by(field: &str) -> &'static str {
    match field {
        "SecondsPath" | "TimeoutSecondsPath" | "HeartbeatSecondsPath" => {
            "no whole number from 0 to 99999999"
        }
        "TimestampPath" => "no timestamp",
        "ItemsPath" => "no list that a Map can go over",
        _ => "no text",
    }
}

/// Appends why a field's path has no value: it names nothing, or something else than the field wants.
fn put_field(
    alloc: Global,
    out: &mut String,
    field: &str,
    path: &RefPath,
    value: &Json,
) -> Result<(), AllocError> {
    out.push_str(field)?;
    out.push_str(": ")?;
    match path.get(value) {
        Some(part) => {
            out.push_str(path.text())?;
            out.push_str(" is ")?;
            put_value(alloc, out, part)?;
            out.push_str(", and ")?;
            out.push_str(wanted_by(field))
        }
        None => put_absent(alloc, out, path.text(), value),
    }
}

/// The value of a stage, where it has one.
fn value_of(stage: &Stage) -> Option<&Json> {
    match &stage.given {
        Ok(value) => Some(value.get()),
        Err(_) => None,
    }
}

/// What the stage of this part goes from: `ResultPath` from the raw input, `ItemSelector` from the effective input, and any other from the
/// value before it.
fn base_of(part: Part, stages: &[Stage]) -> Option<&Json> {
    let mut last = None;
    for stage in stages {
        if let Some(value) = value_of(stage) {
            last = Some(value);
        }
        match (part, stage.part) {
            (Part::ResultPath, Part::Input) | (Part::ItemSelector, Part::InputPath) => return last,
            _ => {}
        }
    }
    last
}

/// The cause of an error; empty where it has none.
fn cause_of(error: &ErrorOut) -> &str {
    match &error.cause {
        Some(cause) => cause.as_str(),
        None => "",
    }
}

/// The name of the member that has the template of this part, and the template.
fn template_of(state: &State, part: Part) -> Option<(&'static str, &Template)> {
    for name in ["Parameters", "ItemSelector", "ResultSelector"] {
        let is_selector = name == "ResultSelector";
        if is_selector == (part == Part::ResultSelector)
            && let Some(template) = state.template(name)
        {
            return Some((name, template));
        }
    }
    None
}

/// Appends why a stage raises this error.
fn put_why(
    alloc: Global,
    out: &mut String,
    state: &State,
    part: Part,
    error: &ErrorOut,
    sources: Sources<'_>,
) -> Result<(), AllocError> {
    let cause = cause_of(error);
    let subject = match cause.rsplit_once(": ") {
        Some((subject, _)) => subject,
        None => cause,
    };
    match error.name() {
        "States.ParameterPathFailure" | "States.IntrinsicFailure" => {
            match template_of(state, part) {
                Some((name, template)) => {
                    put_unfilled(alloc, out, name, template, subject, sources)
                }
                None => Ok(()),
            }
        }
        "States.ResultPathMatchFailure" => match state.path("ResultPath") {
            Some(path) => put_field(alloc, out, "ResultPath", path, sources.input),
            None => Ok(()),
        },
        "States.Runtime" => match state.path(subject) {
            Some(path) => put_field(alloc, out, subject, path, sources.of(path.text())),
            None => match path_in(alloc, subject)? {
                Some(path) => put_absent(alloc, out, path.text(), sources.of(path.text())),
                None => Ok(()),
            },
        },
        _ => Ok(()),
    }
}

/// The error with which these stages of a state end, and why; none where they end well.
fn raised_by(
    alloc: Global,
    state: &State,
    stages: &[Stage],
    context: &Json,
) -> Result<Option<Raised>, AllocError> {
    let Some(stage) = stages.last() else {
        return Ok(None);
    };
    let Err(error) = &stage.given else {
        return Ok(None);
    };
    let mut why = String::new(alloc);
    if let Some(input) = base_of(stage.part, stages) {
        let sources = Sources { input, context };
        put_why(alloc, &mut why, state, stage.part, error, sources)?;
    }
    let error = error.try_clone(alloc)?;
    Ok(Some(Raised { error, why }))
}

/// The error that the branch at a place raises in a step that it takes at this moment, and why; none where it raises none. The context is the
/// execution's; it is written over. The error is that memory ran out.
pub fn raised_at(
    alloc: Global,
    execution: &Execution,
    context: &mut Context,
    at: &StepAt,
) -> Result<Option<Raised>, AllocError> {
    let decided = decided_at(alloc, execution, Staged::All, context, at)?;
    let Some(frame) = execution.world().frame_at(&at.place) else {
        return Ok(None);
    };
    let (_, state) = state_of(&execution.setup().machine, frame.held());
    match state {
        Some(state) => raised_by(alloc, state, &decided.stages, context.shown()),
        None => Ok(None),
    }
}
