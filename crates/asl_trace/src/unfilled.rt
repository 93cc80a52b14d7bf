// Why a payload template has no value.
use crate::absent::{path_in, put_absent, put_value};
use asl_json::{Json, Members, Txt};
use asl_json_write::put_quoted;
use asl_template::{FillFault, Template, TemplateFault, Word, is_on_context, is_path};
use std::alloc::{AllocError, Global};

/// A definition has at most so many values: it has no more bytes.
const MOST_VALUES: usize = 1_048_576;

/// What a template is filled from.
#[derive(Clone, Copy)]
pub(crate) struct Sources<'a> {
    pub(crate) input: &'a Json,
    pub(crate) context: &'a Json,
}

impl<'a> Sources<'a> {
    /// What a path goes from.
    pub(crate) fn of(&self, path: &str) -> &'a Json {
        if is_on_context(path) {
            self.context
        } else {
            self.input
        }
    }
}

/// A part of a template, and the place where it is in it.
#[derive(Drop)]
struct Spot<'a> {
    place: String,
    value: &'a Json,
}

/// The place of a member of a part.
fn place_of(alloc: Global, place: &str, key: &str) -> Result<String, AllocError> {
    let mut inner = String::from_str(alloc, place)?;
    inner.push('/')?;
    inner.push_str(key)?;
    Ok(inner)
}

/// Adds the parts below a part, the last one first.
fn add_below<'a>(
    alloc: Global,
    spots: &mut Vec<Spot<'a>>,
    spot: &Spot<'a>,
) -> Result<(), AllocError> {
    let place = spot.place.as_str();
    match spot.value {
        Json::Dict(members) => {
            for member in members.members().iter().rev() {
                let place = place_of(alloc, place, member.key.as_str())?;
                let value = &member.value;
                spots.push(Spot { place, value })?;
            }
            Ok(())
        }
        Json::List(items) => {
            for (number, value) in items.values().iter().enumerate().rev() {
                let mut place = String::from_str(alloc, place)?;
                write!(place, "/{number}")?;
                spots.push(Spot { place, value })?;
            }
            Ok(())
        }
        _ => Ok(()),
    }
}

/// Why a member of this key and this text alone has no value; none where it has one.
fn fault_of(
    alloc: Global,
    key: &str,
    text: &str,
    sources: Sources<'_>,
) -> Result<Option<FillFault>, AllocError> {
    let mut members = Members::with_capacity(alloc, 1)?;
    members.push(Txt::of(alloc, key)?, Json::Text(Txt::of(alloc, text)?))?;
    let template = match Template::read(alloc, &Json::Dict(members)) {
        Ok(template) => template,
        Err(TemplateFault::OutOfMemory) => return Err(AllocError),
        Err(_) => return Ok(None),
    };
    match template.fill(alloc, sources.input, sources.context) {
        Ok(_) => Ok(None),
        Err(FillFault::OutOfMemory) => Err(AllocError),
        Err(fault) => Ok(Some(fault)),
    }
}

/// The paths among the arguments of a call, in order.
fn paths_in<'a>(alloc: Global, call: &'a str) -> Result<Vec<&'a str>, AllocError> {
    let mut paths = Vec::new(alloc);
    let mut quoted = false;
    let mut escaped = false;
    let mut start = None;
    for (at, character) in call.char_indices() {
        let ends = !quoted && (character == ',' || character == ')' || character == ' ');
        if let Some(from) = start
            && ends
        {
            paths.push(call.get(from..at).unwrap_or(""))?;
            start = None;
        }
        if character == '$' && !quoted && start.is_none() {
            start = Some(at);
        }
        quoted = quoted != (character == '\'' && !escaped);
        escaped = character == '\\' && !escaped;
    }
    Ok(paths)
}

/// Appends what each path among the arguments of a call names; where one names nothing, that alone.
fn put_arguments(
    alloc: Global,
    out: &mut String,
    call: &str,
    sources: Sources<'_>,
) -> Result<(), AllocError> {
    for text in paths_in(alloc, call)? {
        let Some(path) = path_in(alloc, text)? else {
            continue;
        };
        out.push_str("; ")?;
        match path.get(sources.of(text)) {
            Some(value) => {
                out.push_str(text)?;
                out.push_str(" is ")?;
                put_value(alloc, out, value)?;
            }
            None => put_absent(alloc, out, text, sources.of(text))?,
        }
    }
    Ok(())
}

/// Appends why a member has no value.
fn put_fault(
    alloc: Global,
    out: &mut String,
    text: &str,
    word: Option<Word>,
    sources: Sources<'_>,
) -> Result<(), AllocError> {
    match word {
        Some(word) => {
            put_quoted(out, text)?;
            write!(out, " has {word}")?;
            put_arguments(alloc, out, text, sources)
        }
        None => put_absent(alloc, out, text, sources.of(text)),
    }
}

/// The word for what is wrong with a call, where a call is at fault.
fn word_of(fault: &FillFault) -> Option<Word> {
    match fault {
        FillFault::IntrinsicFails(_, word) => Some(*word),
        _ => None,
    }
}

/// Appends which member of this key it is that has no value, and why. Nothing where each one has a value.
pub(crate) fn put_unfilled(
    alloc: Global,
    out: &mut String,
    name: &str,
    template: &Template,
    key: &str,
    sources: Sources<'_>,
) -> Result<(), AllocError> {
    let whole = template.rebuild(alloc)?;
    let mut spots = Vec::new(alloc);
    let place = String::from_str(alloc, name)?;
    spots.push(Spot {
        place,
        value: &whole,
    })?;
    for _ in 0..MOST_VALUES {
        let Some(spot) = spots.pop() else {
            return Ok(());
        };
        let is_asked = spot.place.as_str().rsplit('/').next() == Some(key);
        if let Json::Text(text) = spot.value
            && is_asked
        {
            let text = text.as_str();
            if let Some(fault) = fault_of(alloc, key, text, sources)? {
                out.push_str(spot.place.as_str())?;
                out.push_str(": ")?;
                return put_fault(alloc, out, text, word_of(&fault), sources);
            }
        }
        add_below(alloc, &mut spots, &spot)?;
    }
    Ok(())
}
