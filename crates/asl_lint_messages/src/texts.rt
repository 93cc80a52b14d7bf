// Texts that are no names, paths or calls of what is supported.
use crate::near::{EFFORT, Search, put_near};
use crate::nouns::{KINDS, put_subject};
use crate::quoting::{put_key, put_name, put_separator, put_words};
use crate::standing::Standing;
use asl_def_schema::Sort;
use asl_intrinsic::{CallFault, Expr};
use asl_intrinsic_functions::Function;
use asl_path::{PathFault, RefPath};
use std::alloc::{AllocError, Global};

const FUNCTIONS: [Function; 16] = [
    Function::Format,
    Function::StringToJson,
    Function::JsonToString,
    Function::Array,
    Function::ArrayPartition,
    Function::ArrayContains,
    Function::ArrayRange,
    Function::ArrayGetItem,
    Function::ArrayLength,
    Function::ArrayUnique,
    Function::Base64Encode,
    Function::Base64Decode,
    Function::Hash,
    Function::JsonMerge,
    Function::MathAdd,
    Function::StringSplit,
];

/// Appends that something isn't supported, and what is.
pub(crate) fn put_unsupported(
    alloc: Global,
    out: &mut String,
    standing: &Standing<'_>,
) -> Result<(), AllocError> {
    match standing.sort {
        Sort::KindName => {
            put_text_of(out, standing)?;
            out.push_str(" is not supported; the types of states are ")?;
            put_words(out, &KINDS)?;
            put_near(alloc, out, standing.text(), &KINDS)
        }
        Sort::Version => put_only(out, standing, "\"1.0\""),
        Sort::QueryLanguage => put_only(out, standing, "\"JSONPath\""),
        Sort::Mode => put_only(out, standing, "\"INLINE\""),
        _ => {
            put_key(out, standing.key)?;
            out.push_str(" is not supported")?;
            out.push_str(instead(standing.key))
        }
    }
}

/// Appends a member and its text.
fn put_text_of(out: &mut String, standing: &Standing<'_>) -> Result<(), AllocError> {
    put_subject(out, standing)?;
    out.push(' ')?;
    put_name(out, standing.text())
}

fn put_only(out: &mut String, standing: &Standing<'_>, word: &str) -> Result<(), AllocError> {
    put_text_of(out, standing)?;
    out.push_str(" is not supported; ")?;
    out.push_str(word)?;
    out.push_str(" is")
}

/// What can be written in the place of a member that isn't supported.
fn instead(key: &str) -> &'static str {
    match key {
        "Assign" => ": it sets a variable; ResultPath keeps a result in the state's output",
        "Arguments" => ": it belongs to JSONata; Parameters is for JSONPath",
        "Output" =>
            ": it belongs to JSONata; ResultSelector, ResultPath and OutputPath are for JSONPath",
        "Items" => ": it belongs to JSONata; ItemsPath is for JSONPath",
        "Condition" =>
            ": it belongs to JSONata; for JSONPath a rule has Variable and a test, as StringEquals",
        "MaxConcurrencyPath" => "; MaxConcurrency is",
        _ => ": it belongs to Map states in distributed mode; inline mode is supported",
    }
}

/// The text from a byte on; empty where no character begins there.
fn tail(text: &str, from: usize) -> &str {
    match text.get(from..) {
        Some(tail) => tail,
        None => "",
    }
}

/// Appends where a text is wrong: from which byte on, and what stands there.
fn put_wrong_from(out: &mut String, text: &str, from: usize) -> Result<(), AllocError> {
    if from >= text.len() {
        return out.push_str(" ends too early");
    }
    out.push_str(" is wrong from ")?;
    put_name(out, tail(text, from))?;
    write!(out, " on, byte {from} of it")
}

/// Appends what is wrong with a path.
pub(crate) fn put_path(
    alloc: Global,
    out: &mut String,
    standing: &Standing<'_>,
) -> Result<(), AllocError> {
    let text = standing.text();
    put_subject(out, standing)?;
    out.push_str(" is no path: ")?;
    put_name(out, text)?;
    match RefPath::read(alloc, text) {
        Ok(_) => out.push_str(
            " leads into the Context Object, and a result can only be put into the input",
        ),
        Err(PathFault::PathProfile(from)) => put_path_fault(out, text, from),
        Err(PathFault::OutOfMemory) => Err(AllocError),
    }
}

fn put_path_fault(out: &mut String, text: &str, from: usize) -> Result<(), AllocError> {
    if from == 0 {
        return out.push_str(" doesn't begin with \"$\"");
    }
    put_wrong_from(out, text, from)?;
    out.push_str(
        "; supported are steps as $.name, $['a name'] and $[0]; wildcards, slices, filters and \"..\" are not supported",
    )
}

/// Appends what is wrong with a call of an intrinsic function.
pub(crate) fn put_call(
    alloc: Global,
    out: &mut String,
    standing: &Standing<'_>,
) -> Result<(), AllocError> {
    let text = standing.text();
    put_subject(out, standing)?;
    if !text.starts_with("States.") {
        out.push_str(
            " is neither a path, which begins with \"$\", nor a call of an intrinsic function, as States.Format('{}', $.a): ",
        )?;
        put_name(out, text)?;
        return put_dollar(out, standing);
    }
    out.push_str(" is no call of an intrinsic function: ")?;
    put_name(out, text)?;
    match Expr::read(alloc, text) {
        Ok(_) => Ok(()),
        Err(CallFault::Syntax(from)) => put_wrong_from(out, text, from),
        Err(CallFault::Unknown(name)) => put_unknown(alloc, out, name.as_str()),
        Err(CallFault::Depth) => out.push_str(" has a call inside ten others"),
        Err(CallFault::Arity) => { out.push_str(" gives a function too many arguments or too few") }
        Err(CallFault::OutOfMemory) => Err(AllocError),
    }
}

/// Appends what a text is that is meant as it stands, where its key ends in `.$`.
fn put_dollar(out: &mut String, standing: &Standing<'_>) -> Result<(), AllocError> {
    match standing.key.strip_suffix(".$") {
        Some(key) if standing.sort == Sort::Computed => {
            out.push_str("; a text that is meant as it stands has the key ")?;
            put_name(out, key)
        }
        _ => Ok(()),
    }
}

/// Appends that there is no function of a name, and which there are.
fn put_unknown(alloc: Global, out: &mut String, name: &str) -> Result<(), AllocError> {
    out.push_str("; States.")?;
    out.push_str(name)?;
    out.push_str(" is not supported")?;
    let mut search = Search::new(alloc, name);
    let mut effort = EFFORT;
    for function in FUNCTIONS {
        search.add(function.name(), &mut effort)?;
    }
    if let Some(function) = search.best() {
        out.push_str("; did you mean States.")?;
        out.push_str(function)?;
        return out.push('?');
    }
    out.push_str("; there are ")?;
    for (number, function) in FUNCTIONS.iter().enumerate() {
        put_separator(out, number, FUNCTIONS.len())?;
        out.push_str(function.name())?;
    }
    Ok(())
}
