// A time limit of the execution that a Wait doesn't keep.
ghost use Rattle.std.specs.Prelude.{◌≡◌, option_map};
ghost use Rattle.asl_json_data.specs.Data.{pairs};
ghost use Rattle.asl_json.specs.View.{data_of, members_of};
ghost use Rattle.asl_def_schema.specs.declared.sort.Kind.{Kind};
ghost use Rattle.asl_lint_warnings.specs.States.{is_wait, is_as_long, outlasts, has_outlasting, limit_kind};

use crate::standing::states_in;
use crate::warning::{WarningKind, kind_if};
use asl_def_schema::{Kind, find, kind_named};
use asl_json::{Json, Member};

fn is_wait(kind: Option<Kind>) -> bool
    ensures { result ≡ is_wait kind }
{
    matches!(kind, Some(Kind::Wait))
}

fn is_as_long(limit: i128, seconds: Option<&Json>) -> bool
    ensures { result ≡ is_as_long limit (option_map (λ v. data_of v.now) seconds.entry) }
{
    match seconds {
        Some(Json::Num(seconds)) => seconds.units() >= limit,
        _ => false,
    }
}

/// Whether a state is a Wait for this time or longer.
fn outlasts(limit: i128, state: &Json) -> bool
    ensures { result ≡ outlasts limit (data_of state.now) }
{
    match state {
        Json::Dict(members) => {
            let members = members.members();
            is_wait(kind_named(find(members, "Type")))
                && is_as_long(limit, find(members, "Seconds"))
        }
        _ => false,
    }
}

fn has_outlasting(limit: i128, states: &[Member]) -> bool
    ensures { result ≡ has_outlasting limit (pairs (members_of states.now)) }
{
    for state in states {
        if outlasts(limit, &state.value) {
            return true;
        }
    }
    false
}

/// What the member of this key and value is warned of, of a definition of these members.
pub(crate) fn limit_kind(members: &[Member], key: &str, value: &Json) -> Option<WarningKind>
    ensures { result ≡ limit_kind (pairs (members_of members.now)) key.now (data_of value.now) }
{
    match value {
        Json::Num(limit) => {
            let late = key == "TimeoutSeconds" && has_outlasting(limit.units(), states_in(members));
            kind_if(late, WarningKind::LimitBelowWait)
        }
        _ => None,
    }
}
