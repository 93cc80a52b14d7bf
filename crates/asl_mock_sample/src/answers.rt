// What services answer.
ghost use Rattle.std.specs.Prelude.{◌≡◌, IfOk, OnOk, codes};
ghost use Rattle.asl_json_data.specs.Data as Data;
ghost use Rattle.asl_json_data.specs.Data.{list, item, no_items};
ghost use Rattle.asl_json.specs.View.{data_of};
ghost use Rattle.asl_mock_sample.specs.Answers.{empty, with_text, with_value, invoked, sent, events_put, ended, answer_of};
ghost use Rattle.asl_mock_sample.specs.Merging.{with_member};

use crate::merging::put_member;
use asl_json::{Dec, Items, Json, Members, Txt};
use std::alloc::{AllocError, Global};

/// An object with nothing in it.
fn empty(alloc: Global) -> Json
    ensures { data_of result ≡ empty }
{
    Json::Dict(Members::new(alloc))
}

/// Adds a member with a text.
fn put_text(alloc: Global, members: &mut Members, key: &str, text: &str) -> Result<(), AllocError>
    ensures { OnOk result (members.new ≡ with_member members.old key.now (Data.text text.now)) }
{
    let key = Txt::of(alloc, key)?;
    put_member(members, key, Json::Text(Txt::of(alloc, text)?))
}

/// Adds a member with a value.
fn put_value(alloc: Global, members: &mut Members, key: &str, value: Json) -> Result<(), AllocError>
    ensures { OnOk result (members.new ≡ with_member members.old key.now (data_of value)) }
{
    put_member(members, Txt::of(alloc, key)?, value)
}

/// An object with one text.
fn with_text(alloc: Global, key: &str, text: &str) -> Result<Json, AllocError>
    ensures { IfOk result (λ v. data_of v ≡ with_text key.now text.now) }
{
    let mut members = Members::new(alloc);
    put_text(alloc, &mut members, key, text)?;
    Ok(Json::Dict(members))
}

/// An object with one value.
fn with_value(alloc: Global, key: &str, value: Json) -> Result<Json, AllocError>
    ensures { IfOk result (λ v. data_of v ≡ with_value key.now (data_of value)) }
{
    let mut members = Members::new(alloc);
    put_value(alloc, &mut members, key, value)?;
    Ok(Json::Dict(members))
}

/// Of Lambda.
fn invoked(alloc: Global) -> Result<Json, AllocError>
    ensures { IfOk result (λ v. data_of v ≡ invoked) }
{
    let mut members = Members::new(alloc);
    put_text(alloc, &mut members, "ExecutedVersion", "$LATEST")?;
    put_value(alloc, &mut members, "Payload", empty(alloc))?;
    put_value(
        alloc,
        &mut members,
        "StatusCode",
        Json::Num(Dec::of_whole(200)),
    )?;
    Ok(Json::Dict(members))
}

/// Of SQS.
fn sent(alloc: Global) -> Result<Json, AllocError>
    ensures { IfOk result (λ v. data_of v ≡ sent) }
{
    let mut members = Members::new(alloc);
    put_text(
        alloc,
        &mut members,
        "MD5OfMessageBody",
        "d41d8cd98f00b204e9800998ecf8427e",
    )?;
    put_text(alloc, &mut members, "MessageId", "message-1")?;
    Ok(Json::Dict(members))
}

/// The entries of EventBridge, of which there is one.
fn entries(alloc: Global) -> Result<Json, AllocError>
    ensures { IfOk result (λ v. data_of v
        ≡ list (item (with_text (codes "EventId") (codes "event-1")) no_items)) }
{
    let mut entries = Vec::new(alloc);
    entries.push(with_text(alloc, "EventId", "event-1")?)?;
    Ok(Json::List(Items::of_values(entries)))
}

/// Of EventBridge.
fn events_put(alloc: Global) -> Result<Json, AllocError>
    ensures { IfOk result (λ v. data_of v ≡ events_put) }
{
    let mut members = Members::new(alloc);
    let entries = entries(alloc)?;
    put_value(alloc, &mut members, "Entries", entries)?;
    put_value(
        alloc,
        &mut members,
        "FailedEntryCount",
        Json::Num(Dec::of_whole(0)),
    )?;
    Ok(Json::Dict(members))
}

/// Of an execution that ended with this output.
fn ended(alloc: Global, output: Json) -> Result<Json, AllocError>
    ensures { IfOk result (λ v. data_of v ≡ ended (data_of output)) }
{
    let mut members = Members::new(alloc);
    put_value(alloc, &mut members, "Output", output)?;
    put_text(alloc, &mut members, "Status", "SUCCEEDED")?;
    Ok(Json::Dict(members))
}

/// A value of the shape that the service integration with this resource returns; an empty object where it isn't known.
pub(crate) fn answer_of(alloc: Global, resource: &str) -> Result<Json, AllocError>
    ensures { IfOk result (λ v. data_of v ≡ answer_of resource.now) }
{
    match resource {
        "arn:aws:states:::lambda:invoke" => invoked(alloc),
        "arn:aws:states:::sqs:sendMessage" => sent(alloc),
        "arn:aws:states:::sns:publish" => with_text(alloc, "MessageId", "message-1"),
        "arn:aws:states:::dynamodb:getItem" => with_value(alloc, "Item", empty(alloc)),
        "arn:aws:states:::events:putEvents" => events_put(alloc),
        "arn:aws:states:::states:startExecution.sync:2" => ended(alloc, empty(alloc)),
        "arn:aws:states:::states:startExecution.sync" => {
            ended(alloc, Json::Text(Txt::of(alloc, "{}")?))
        }
        _ => Ok(empty(alloc)),
    }
}
