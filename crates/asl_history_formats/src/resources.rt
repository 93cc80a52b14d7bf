// What the resource of a Task names.
ghost use Rattle.std.specs.Prelude.{◌≡◌, IfOk, string_bytes};
ghost use Rattle.std.specs.List.{before_first, after_first};
ghost use Rattle.asl_history_formats.specs.Resources.{action_named, behind, is_colon, is_integration, is_sdk, name_in, resource_name, resource_type, service_in, type_named};

use std::alloc::{AllocError, Global};

/// What stands before the first colon.
fn before_colon(text: &str) -> &str
    ensures { result.now ≡ before_first is_colon text.now }
{
    match text.split_once(':') {
        Some((before, _behind)) => before,
        None => text,
    }
}

/// What stands behind the first colon; nothing where there is none.
fn behind_colon(text: &str) -> &str
    ensures { result.now ≡ after_first is_colon text.now }
{
    match text.split_once(':') {
        Some((_before, behind)) => behind,
        None => "",
    }
}

/// The service in an ARN.
fn service_in(resource: &str) -> &str
    ensures { result.now ≡ service_in resource.now }
{
    before_colon(behind_colon(behind_colon(resource)))
}

/// What an ARN names of its service.
fn name_in(resource: &str) -> &str
    ensures { result.now ≡ name_in resource.now }
{
    behind_colon(behind_colon(behind_colon(behind_colon(behind_colon(resource)))))
}

fn is_integration(resource: &str) -> bool
    ensures { result ≡ is_integration resource.now }
{
    service_in(resource) == "states"
}

fn is_sdk(name: &str) -> bool
    ensures { result ≡ is_sdk name.now }
{
    before_colon(name) == "aws-sdk"
}

/// The type of an integration of this name. The error is that memory ran out.
fn type_named(alloc: Global, name: &str) -> Result<String, AllocError>
    ensures { IfOk result (λ t. string_bytes t ≡ type_named name.now) }
{
    if is_sdk(name) {
        let mut text = String::from_str(alloc, "aws-sdk:")?;
        text.push_str(before_colon(behind_colon(name)))?;
        return Ok(text);
    }
    String::from_str(alloc, before_colon(name))
}

/// What of an integration of this name is called.
fn action_named(name: &str) -> &str
    ensures { result.now ≡ action_named name.now }
{
    if is_sdk(name) {
        behind_colon(behind_colon(name))
    } else {
        behind_colon(name)
    }
}

/// The type of a resource. The error is that memory ran out.
#[tactic(auto, unfolding(crate::specs::Resources::resource_type))]
pub(crate) fn resource_type(alloc: Global, resource: &str) -> Result<String, AllocError>
    ensures { IfOk result (λ t. string_bytes t ≡ resource_type resource.now) }
{
    if is_integration(resource) {
        type_named(alloc, name_in(resource))
    } else {
        String::from_str(alloc, service_in(resource))
    }
}

/// What of a resource is called.
#[tactic(auto, unfolding(crate::specs::Resources::resource_name))]
pub(crate) fn resource_name(resource: &str) -> &str
    ensures { result.now ≡ resource_name resource.now }
{
    if is_integration(resource) {
        action_named(name_in(resource))
    } else {
        resource
    }
}
