// Tasks that invoke services.
use asl_json::Txt;

/// A Task: its name, and the resource that it invokes.
#[derive(Drop)]
pub(crate) struct Call {
    pub(crate) name: Txt,
    pub(crate) resource: Txt,
}
