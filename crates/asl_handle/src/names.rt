// Which errors a retrier or a catcher is for.
ghost use Rattle.std.specs.Prelude.{◌≡◌, Some};
ghost use Rattle.asl_def_fields.specs.Shown.{names_shown};
ghost use Rattle.asl_handle.specs.Names.{is_beyond, stands_for, names};

use asl_def_fields::ErrorNames;

/// Whether nothing names the error.
fn is_beyond(error: &str) -> bool
    ensures { result ≡ is_beyond error.now }
{
    error == "States.Runtime" || error == "States.DataLimitExceeded"
}

/// Whether a name stands for the error.
fn stands_for(name: &str, error: &str) -> bool
    ensures { result ≡ stands_for name.now error.now }
{
    name == error
        || name == "States.ALL"
        || (name == "States.TaskFailed" && error != "States.Timeout")
}

/// Whether one of these names is for the error.
pub(crate) fn are_for(errors: &ErrorNames, error: &str) -> bool
    ensures { result ≡ names (Some (names_shown errors.now)) error.now }
{
    if is_beyond(error) {
        return false;
    }
    for name in errors.as_slice() {
        if stands_for(name.as_str(), error) {
            return true;
        }
    }
    false
}
