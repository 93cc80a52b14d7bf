// A record as JSON.
ghost use Rattle.std.specs.Prelude.{◌≡◌, ◌∷◌, ◌++◌, [], map, IfOk};
ghost use Rattle.asl_json_data.specs.Data.{Data, text, list, chain};
ghost use Rattle.asl_json.specs.View.{data_of, items_of};
ghost use Rattle.asl_time.specs.StampText.{stamp_of};
ghost use Rattle.asl_session.specs.ReplyLines.{uses_data, record_data};

use asl_json::{Dec, Items, Json, Txt};
use asl_json_shared::{Name, Shared, SharedItems};
use asl_step::{Record, error_output};
use asl_time::{Moment, put_stamp};
use std::alloc::{AllocError, Global};

/// The kind, the name of the state and its raw input.
fn begun(alloc: Global, kind: &str, state: &Name, input: &Shared) -> Result<Vec<Json>, AllocError>
    ensures { IfOk result (λ v. items_of v.items
        ≡ text kind.now ∷ text state.now ∷ data_of input.now ∷ []) }
{
    let mut fields = one(alloc, kind, Json::Text(Txt::of(alloc, state.as_str())?))?;
    fields.push(input.get().try_clone(alloc)?)?;
    Ok(fields)
}

/// The kind and one field.
fn one(alloc: Global, kind: &str, field: Json) -> Result<Vec<Json>, AllocError>
    ensures { IfOk result (λ v. items_of v.items ≡ text kind.now ∷ data_of field ∷ []) }
{
    let mut fields = Vec::new(alloc);
    fields.push(Json::Text(Txt::of(alloc, kind)?))?;
    fields.push(field)?;
    Ok(fields)
}

/// These fields, and a moment as its stamp.
fn and_stamp(alloc: Global, fields: Vec<Json>, moment: Moment) -> Result<Vec<Json>, AllocError>
    ensures { IfOk result (λ v. items_of v.items
        ≡ items_of fields.items ++ text (stamp_of moment) ∷ []) }
{
    let mut fields = fields;
    let mut stamp = String::new(alloc);
    put_stamp(&mut stamp, moment)?;
    fields.push(Json::Text(Txt::new(stamp)))?;
    Ok(fields)
}

/// These fields, and how often each retrier was used.
fn and_uses(alloc: Global, fields: Vec<Json>, uses: &[u32]) -> Result<Vec<Json>, AllocError>
    ensures { IfOk result (λ v. items_of v.items
        ≡ items_of fields.items ++ uses_data uses.now ∷ []) }
{
    let mut fields = fields;
    let counts = counts(alloc, uses)?;
    fields.push(Json::List(Items::of_values(counts)))?;
    Ok(fields)
}

/// Numbers as JSON.
fn counts(alloc: Global, uses: &[u32]) -> Result<Vec<Json>, AllocError>
    ensures { IfOk result (λ v. list (chain (items_of v.items)) ≡ uses_data uses.now) }
{
    let mut counts = Vec::with_capacity(alloc, uses.len())?;
    for count in uses {
        counts.push(Json::Num(Dec::of_whole(i128::from(*count))))?;
    }
    Ok(counts)
}

/// These fields, and the items of a Map.
fn and_items(alloc: Global, fields: Vec<Json>, items: &SharedItems) -> Result<Vec<Json>, AllocError>
    ensures { IfOk result (λ v. items_of v.items
        ≡ items_of fields.items ++ list (chain items.now) ∷ []) }
{
    let mut fields = fields;
    let values = copies(alloc, items.values())?;
    fields.push(Json::List(Items::of_values(values)))?;
    Ok(fields)
}

/// Equal values.
fn copies(alloc: Global, values: &[Json]) -> Result<Vec<Json>, AllocError>
    ensures { IfOk result (λ v. v.items ≡ values.now) }
{
    let mut copies = Vec::with_capacity(alloc, values.len())?;
    for value in values {
        copies.push(value.try_clone(alloc)?)?;
    }
    Ok(copies)
}

/// The kind of a record and its fields.
fn fields(alloc: Global, current: &Record) -> Result<Vec<Json>, AllocError>
    ensures { IfOk result (λ v. list (chain (items_of v.items)) ≡ record_data current.now) }
{
    match current {
        Record::New { state, input } => begun(alloc, "New", state, input),
        Record::Ready { state, input } => begun(alloc, "Ready", state, input),
        Record::Pausing {
            state,
            input,
            since,
            until,
        } => {
            let fields = begun(alloc, "Pausing", state, input)?;
            let fields = and_stamp(alloc, fields, *since)?;
            and_stamp(alloc, fields, *until)
        }
        Record::Again {
            state,
            input,
            since,
            uses,
            until,
        } => {
            let fields = begun(alloc, "Again", state, input)?;
            let fields = and_stamp(alloc, fields, *since)?;
            let fields = and_uses(alloc, fields, &uses.counts)?;
            and_stamp(alloc, fields, *until)
        }
        Record::Forked {
            state,
            input,
            since,
            uses,
            items,
        } => {
            let fields = begun(alloc, "Forked", state, input)?;
            let fields = and_stamp(alloc, fields, *since)?;
            let fields = and_uses(alloc, fields, &uses.counts)?;
            and_items(alloc, fields, items)
        }
        Record::Done(output) => one(alloc, "Done", output.get().try_clone(alloc)?),
        Record::Failed(error) => one(alloc, "Failed", error_output(alloc, error)?),
    }
}

/// A record as a list: its kind, then its fields in order.
pub(crate) fn record_json(alloc: Global, current: &Record) -> Result<Json, AllocError>
    ensures { IfOk result (λ v. data_of v ≡ record_data current.now) }
{
    let fields = fields(alloc, current)?;
    Ok(Json::List(Items::of_values(fields)))
}
