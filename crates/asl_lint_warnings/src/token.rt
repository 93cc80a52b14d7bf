// Tasks whose token nobody gets.
ghost use Rattle.std.specs.Prelude.{◌≡◌, option_map};
ghost use Rattle.asl_json_data.specs.Data.{pairs, chain};
ghost use Rattle.asl_json.specs.View.{data_of, members_of};
ghost use Rattle.asl_lint_warnings.specs.Tokens.{has_context, is_token_text, has_token, items_have_token, members_have_token, template_has_token, is_on_context, sends_token};

use crate::naming::begins;
use asl_def_schema::find;
use asl_json::{Items, Json, Member, Members};

/// Whether a path on the Context Object stands in a call.
fn has_context(call: &str) -> bool
    ensures { result ≡ has_context call.now }
{
    let bytes = call.as_bytes();
    for i in 0..bytes.len() {
        if bytes[i..].starts_with("$$".as_bytes()) {
            return true;
        }
    }
    false
}

/// Whether a path or a call takes the token, or what it is in.
fn is_token_text(text: &str) -> bool
    ensures { result ≡ is_token_text text.now }
{
    text == "$$"
        || begins(text, "$$.Task")
        || begins(text, "$$[")
        || (begins(text, "States.") && has_context(text))
}

/// Whether such a text stands in a value.
#[cycle(token)]
fn has_token(value: &Json) -> bool
    ensures { result ≡ has_token (data_of value.now) }
{
    match value {
        Json::Text(text) => is_token_text(text.as_str()),
        Json::List(items) => items_have_token(items),
        Json::Dict(members) => members_have_token(members),
        _ => false,
    }
}

#[cycle(token)]
fn items_have_token(items: &Items) -> bool
    ensures { result ≡ items_have_token (chain items.now) }
{
    for item in items.values() {
        if has_token(item) {
            return true;
        }
    }
    false
}

#[cycle(token)]
fn members_have_token(members: &Members) -> bool
    ensures { result ≡ members_have_token (pairs members.now) }
{
    for member in members.members() {
        if has_token(&member.value) {
            return true;
        }
    }
    false
}

fn template_has_token(template: Option<&Json>) -> bool
    ensures { result ≡ template_has_token (option_map (λ v. data_of v.now) template.entry) }
{
    match template {
        Some(template) => has_token(template),
        None => false,
    }
}

/// Whether the effective input is made of the Context Object.
fn is_on_context(input: Option<&Json>) -> bool
    ensures { result ≡ is_on_context (option_map (λ v. data_of v.now) input.entry) }
{
    match input {
        Some(Json::Text(path)) => begins(path.as_str(), "$$"),
        _ => false,
    }
}

/// Whether the input that the service of a Task gets may have the token.
pub(crate) fn sends_token(members: &[Member]) -> bool
    ensures { result ≡ sends_token (pairs (members_of members.now)) }
{
    is_on_context(find(members, "InputPath")) || template_has_token(find(members, "Parameters"))
}
