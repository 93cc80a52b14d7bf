// Making objects.
ghost use Rattle.std.specs.Prelude.{◌≡◌, ◌∷◌, ◌++◌, [], false, IfOk};
ghost use Rattle.asl_json_data.specs.Data.{text};
ghost use Rattle.asl_json_data.specs.Distinct.{has_key, Members};
ghost use Rattle.asl_json.specs.View.{data_of};

use asl_json::{Json, Members, Txt};
use std::alloc::{AllocError, Global};

/// These members with one more behind them. The error is that memory ran out.
pub fn with(alloc: Global, members: Members, key: &str, value: Json) -> Result<Members, AllocError>
    requires { has_key key.now members ≡ false }
    ensures { IfOk result (λ ms. ms ≡ members ++ (key.now, data_of value) ∷ []) }
{
    let mut members = members;
    members.push(Txt::of(alloc, key)?, value)?;
    Ok(members)
}

/// A text as a value. The error is that memory ran out.
pub fn told(alloc: Global, told: &str) -> Result<Json, AllocError>
    ensures { IfOk result (λ v. data_of v ≡ text told.now) }
{
    Ok(Json::Text(Txt::of(alloc, told)?))
}
