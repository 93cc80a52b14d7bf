// What is demanded of a value by itself.
ghost use Rattle.std.specs.Prelude.{◌≡◌, ◌↔◌, ◌∷◌, [], IfOk, IsTrue, if◌then◌else◌, pos, nat_le, ◌==◌, ◌&&◌};
ghost use Rattle.asl_json.specs.Whole.{whole_of};
ghost use Rattle.asl_json_data.specs.Number.{units_of};
ghost use Rattle.asl_json.specs.View.{data_of};
ghost use Rattle.asl_json_data.specs.Data.{chain};
ghost use Rattle.asl_path.specs.Grammar.{IsPath, StartsFrom};
ghost use Rattle.asl_path.specs.declared.step.Root.TheVariants.{Input};
ghost use Rattle.asl_def_judge.specs.private.Spots.{spot_of};
ghost use Rattle.asl_def_schema.specs.Demands.{form_of, is_of, path, place, call, timestamp};
ghost use Rattle.asl_def_schema.specs.Claims.{is_name, is_jitter, path_or_call, is_template, is_nonempty, item_count, has_all, is_last, spot_demands, form_demand, text_demands, number_demands, list_demands, value_demands, demands, is_between_whole, is_between, is_list, is_object};
ghost use Rattle.asl_def_judge.specs.private.Firsts.{Judges, sooner, unless};

use crate::spot::{MAX_MACHINES, Spot};
use asl_def_schema::{FaultKind, Form, MOST_WHOLE, Sort, kind_of};
use asl_intrinsic::{CallFault, Expr};
use asl_json::{Dec, Items, Json};
use asl_path::{PathFault, RefPath, Root};
use asl_template::is_path;
use asl_time::read_stamp;
use std::alloc::{AllocError, Global};

/// The types of JSON that a value may be of.
fn form_of(sort: Sort) -> Form
    ensures { result ≡ form_of sort }
{
    match sort {
        Sort::Definition
        | Sort::Machine
        | Sort::ItemProcessor
        | Sort::ProcessorConfig
        | Sort::States
        | Sort::State
        | Sort::Rule
        | Sort::InnerRule
        | Sort::Retrier
        | Sort::Catcher => Form::Object,
        Sort::Machines
        | Sort::Rules
        | Sort::InnerRules
        | Sort::Retriers
        | Sort::Catchers
        | Sort::ErrorNames => Form::List,
        Sort::KindName
        | Sort::Version
        | Sort::Mode
        | Sort::QueryLanguage
        | Sort::Text
        | Sort::Target
        | Sort::Path
        | Sort::PathOrCall
        | Sort::Computed
        | Sort::Timestamp
        | Sort::Jitter => Form::Text,
        Sort::PathOrNull | Sort::PlaceOrNull => Form::TextOrNull,
        Sort::Truth => Form::Truth,
        Sort::Number | Sort::FromZero | Sort::FromOne | Sort::Rate | Sort::DelayLimit => {
            Form::Number
        }
        Sort::Template | Sort::Any | Sort::Unsupported | Sort::Unknown => Form::Value,
    }
}

/// Whether a value of this sort is a template, or a part of one.
pub fn is_template(sort: Sort) -> bool
    ensures { result ≡ is_template sort }
{
    matches!(sort, Sort::Template)
}

/// Whether lists of this sort are searched.
pub fn is_list(sort: Sort) -> bool
    ensures { result ≡ is_list sort }
{
    matches!(form_of(sort), Form::List) || is_template(sort)
}

/// Whether objects of this sort are searched.
pub fn is_object(sort: Sort) -> bool
    ensures { result ≡ is_object sort }
{
    matches!(form_of(sort), Form::Object) || is_template(sort)
}

fn is_of(form: Form, value: &Json) -> bool
    ensures { result ≡ is_of form (data_of value.now) }
{
    match form {
        Form::Object => matches!(value, Json::Dict(_)),
        Form::List => matches!(value, Json::List(_)),
        Form::Text => matches!(value, Json::Text(_)),
        Form::TextOrNull => matches!(value, Json::Text(_)) || matches!(value, Json::Null),
        Form::Truth => matches!(value, Json::Bool(_)),
        Form::Number => matches!(value, Json::Num(_)),
        Form::Value => true,
    }
}

/// No fault where the demand holds, else this one.
pub fn unless(holds: bool, kind: FaultKind) -> Option<FaultKind>
    ensures { result ≡ unless holds kind }
{
    if holds {
        return None;
    }
    Some(kind)
}

/// The one with the lower number, else the first.
pub(crate) fn sooner(a: Option<FaultKind>, b: Option<FaultKind>) -> Option<FaultKind>
    ensures { result ≡ sooner a b }
{
    match (a, b) {
        (None, b) => b,
        (Some(a), None) => Some(a),
        (Some(a), Some(b)) => {
            if b.number() < a.number() {
                return Some(b);
            }
            Some(a)
        }
    }
}

/// Whether a text has from 1 to 80 characters.
fn is_name(text: &str) -> bool
    ensures { result ≡ is_name text.now }
{
    let characters = text
        .as_bytes()
        .iter()
        .filter(|b| **b < 128 || 192 <= **b)
        .count();
    0 < characters && characters <= 80
}

/// The fault of a value by where it stands.
pub fn spot_fault(spot: Spot, sort: Sort) -> Option<FaultKind>
    ensures { Judges (spot_demands (spot_of spot.entry) sort) result }
{
    match sort {
        Sort::State => unless(is_name(spot.key), FaultKind::Range),
        Sort::Machine | Sort::ItemProcessor => {
            unless(spot.level < MAX_MACHINES, FaultKind::Nesting)
        }
        Sort::Unsupported => Some(FaultKind::Unsupported),
        Sort::Unknown => Some(FaultKind::UnknownField),
        _ => None,
    }
}

/// The fault of a value by its type of JSON.
pub fn form_fault(sort: Sort, value: &Json) -> Option<FaultKind>
    ensures { Judges (form_demand sort (data_of value.now) ∷ []) result }
{
    let fits = is_of(form_of(sort), value);
    match sort {
        Sort::Definition => unless(fits, FaultKind::NotObject),
        _ => unless(fits, FaultKind::WrongType),
    }
}

fn is_ref_path(alloc: Global, text: &str) -> Result<bool, AllocError>
    ensures { IfOk result (λ b. IsTrue b ↔ IsPath text.now) }
{
    match RefPath::read(alloc, text) {
        Ok(_) => Ok(true),
        Err(PathFault::PathProfile(_)) => Ok(false),
        Err(PathFault::OutOfMemory) => Err(AllocError),
    }
}

fn path_fault(alloc: Global, text: &str) -> Result<Option<FaultKind>, AllocError>
    ensures { IfOk result (Judges (path text.now ∷ [])) }
{
    let fits = is_ref_path(alloc, text)?;
    Ok(unless(fits, FaultKind::Path))
}

fn is_in_input(path: &RefPath) -> bool
    ensures { IsTrue result ↔ StartsFrom Input path.now }
{
    match path.root() {
        Root::Input => true,
        Root::Context => false,
    }
}

/// Whether a text is a path into the input.
fn is_place(alloc: Global, text: &str) -> Result<bool, AllocError>
    ensures { IfOk result (λ b. IsTrue b ↔ StartsFrom Input text.now) }
{
    match RefPath::read(alloc, text) {
        Ok(path) => Ok(is_in_input(&path)),
        Err(PathFault::PathProfile(_)) => Ok(false),
        Err(PathFault::OutOfMemory) => Err(AllocError),
    }
}

fn place_fault(alloc: Global, text: &str) -> Result<Option<FaultKind>, AllocError>
    ensures { IfOk result (Judges (place text.now ∷ [])) }
{
    let fits = is_place(alloc, text)?;
    Ok(unless(fits, FaultKind::Path))
}

fn call_fault(alloc: Global, text: &str) -> Result<Option<FaultKind>, AllocError>
    ensures { IfOk result (Judges (call text.now ∷ [])) }
{
    match Expr::read(alloc, text) {
        Ok(_) => Ok(None),
        Err(fault) => match fault {
            CallFault::OutOfMemory => Err(AllocError),
            _fault => Ok(Some(FaultKind::Expression)),
        },
    }
}

fn path_or_call_fault(alloc: Global, text: &str) -> Result<Option<FaultKind>, AllocError>
    ensures { IfOk result (Judges (path_or_call text.now ∷ [])) }
{
    if is_path(text) {
        return path_fault(alloc, text);
    }
    call_fault(alloc, text)
}

fn stamp_fault(text: &str) -> Option<FaultKind>
    ensures { Judges (timestamp text.now ∷ []) result }
{
    match read_stamp(text) {
        Some(_) => None,
        None => Some(FaultKind::Range),
    }
}

/// Whether a text is one of a retrier's `JitterStrategy`.
fn is_jitter(text: &str) -> bool
    ensures { result ≡ is_jitter text.now }
{
    text == "FULL" || text == "NONE"
}

/// The fault of a text by what it is to be. The error is that memory ran out.
pub fn text_fault(
    alloc: Global,
    spot: Spot,
    sort: Sort,
    text: &str,
) -> Result<Option<FaultKind>, AllocError>
    ensures { IfOk result (Judges (text_demands (spot_of spot.entry) sort text.now)) }
{
    match sort {
        Sort::KindName => Ok(unless(kind_of(text).is_some(), FaultKind::Unsupported)),
        Sort::Version => Ok(unless(text == "1.0", FaultKind::Unsupported)),
        Sort::QueryLanguage => Ok(unless(text == "JSONPath", FaultKind::Unsupported)),
        Sort::Mode => Ok(unless(text == "INLINE", FaultKind::Unsupported)),
        Sort::Target => Ok(unless(spot.names.contains(text), FaultKind::NoTarget)),
        Sort::Path | Sort::PathOrNull => path_fault(alloc, text),
        Sort::PlaceOrNull => place_fault(alloc, text),
        Sort::PathOrCall => path_or_call_fault(alloc, text),
        Sort::Computed => path_or_call_fault(alloc, text),
        Sort::Timestamp => Ok(stamp_fault(text)),
        Sort::Jitter => Ok(unless(is_jitter(text), FaultKind::Range)),
        _ => Ok(None),
    }
}

/// Whether a number is a whole one, neither below the first of these nor above the second.
fn is_whole_between(low: i128, high: i128, number: &Dec) -> bool
    ensures { result ≡ is_between_whole low high (whole_of number.now) }
{
    match number.whole() {
        Some(n) => low <= n && n <= high,
        None => false,
    }
}

fn is_rate(number: &Dec) -> bool
    ensures { result ≡ is_between (pos 1000000000) (pos 1000000000000) (units_of number.now) }
{
    let units = number.units();
    1_000_000_000 <= units && units <= 1_000_000_000_000
}

/// The fault of a number by its range.
pub fn number_fault(sort: Sort, number: &Dec) -> Option<FaultKind>
    ensures { Judges (number_demands sort number.now) result }
{
    match sort {
        Sort::FromZero => unless(is_whole_between(0, MOST_WHOLE, number), FaultKind::Range),
        Sort::FromOne => unless(is_whole_between(1, MOST_WHOLE, number), FaultKind::Range),
        Sort::Rate => unless(is_rate(number), FaultKind::Range),
        Sort::DelayLimit => unless(is_whole_between(1, 31_622_399, number), FaultKind::Range),
        _ => None,
    }
}

/// Whether a list has the name that stands for all errors.
fn has_all(items: &Items) -> bool
    ensures { result ≡ has_all (chain items.now) }
{
    for item in items.values() {
        if matches!(item, Json::Text(text) if text.as_str() == "States.ALL") {
            return true;
        }
    }
    false
}

fn is_single(items: &Items) -> bool
    ensures { result ≡ (item_count (chain items.now) == 1) }
{
    items.values().len() == 1
}

/// Whether the name that stands for all errors stands alone, and in the last of the list.
pub fn is_last(ends: bool, items: &Items) -> bool
    ensures { result ≡ is_last ends (chain items.now) }
{
    !has_all(items) || (ends && is_single(items))
}

/// Whether a list has an item.
pub fn is_nonempty(items: &Items) -> bool
    ensures { result ≡ is_nonempty (chain items.now) }
{
    !items.values().is_empty()
}

fn is_short(items: &Items) -> bool
    ensures { result ≡ nat_le (item_count (chain items.now)) 999999999 }
{
    items.values().len() <= 999_999_999
}

/// Whether there are some machines, and not too many.
pub fn is_fork(items: &Items) -> bool
    ensures { result ≡ (is_nonempty (chain items.now)
        && nat_le (item_count (chain items.now)) 999999999) }
{
    is_nonempty(items) && is_short(items)
}

fn list_fault(spot: Spot, sort: Sort, items: &Items) -> Option<FaultKind>
    ensures { Judges (list_demands (spot_of spot.entry) sort (chain items.now)) result }
{
    match sort {
        Sort::Machines => unless(is_fork(items), FaultKind::Range),
        Sort::Rules => unless(is_nonempty(items), FaultKind::Range),
        Sort::InnerRules => unless(is_nonempty(items), FaultKind::Range),
        Sort::ErrorNames => sooner(
            unless(is_nonempty(items), FaultKind::Range),
            unless(is_last(spot.ends, items), FaultKind::AllNotLast),
        ),
        _ => None,
    }
}

fn value_fault(
    alloc: Global,
    spot: Spot,
    sort: Sort,
    value: &Json,
) -> Result<Option<FaultKind>, AllocError>
    ensures { IfOk result (Judges (value_demands (spot_of spot.entry) sort (data_of value.now))) }
{
    match value {
        Json::Text(text) => text_fault(alloc, spot, sort, text.as_str()),
        Json::Num(number) => Ok(number_fault(sort, number)),
        Json::List(items) => Ok(list_fault(spot, sort, items)),
        _ => Ok(None),
    }
}

/// The first fault of a value by itself.
pub(crate) fn own_fault(
    alloc: Global,
    spot: Spot,
    sort: Sort,
    value: &Json,
) -> Result<Option<FaultKind>, AllocError>
    ensures { IfOk result (Judges (demands (spot_of spot.entry) sort (data_of value.now))) }
{
    let alone = unless(!spot.doubled, FaultKind::Both);
    let known = spot_fault(spot, sort);
    let typed = form_fault(sort, value);
    let fits = value_fault(alloc, spot, sort, value)?;
    Ok(sooner(alone, sooner(known, sooner(typed, fits))))
}
