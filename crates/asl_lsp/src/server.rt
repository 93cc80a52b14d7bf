// The machine.
ghost use Rattle.std.specs.Prelude.{◌≡◌, IfOk, OnOk, OnErr, option_map, string_bytes};
ghost use Rattle.asl_json_rpc.specs.Calls.{seen};
ghost use Rattle.asl_lsp.specs.declared.phase.Phase.{Phase};
ghost use Rattle.asl_lsp.specs.Replies.{IsReply, IsSent};
ghost use Rattle.asl_lsp.specs.Server.{has_ended, initialized, shut_down, answered, notified, IsReceived};

use crate::capabilities::initialize_result;
use crate::method::{Notification, Request, notification_of, request_of};
use crate::params::offered;
use crate::phase::Phase;
use crate::refusal::Refusal;
use crate::reply::{refuse, respond};
use crate::session::Session;
use asl_json::Json;
use asl_json_rpc::{CallFault, Id, Incoming, read_call};
use std::alloc::{AllocError, Global};
use std::marker::Model;

/// A language server. Contracts see where it is in its life.
#[derive(Drop)]
pub struct Server {
    phase: Phase,
}

impl Model for Server {
    ghost use Rattle.asl_lsp.specs.declared.phase.Phase.{Phase};

    ghost Value = { Phase };

    ghost view = { λ s. s.phase };
}

impl Server {
    /// A server that waits for `initialize`.
    pub fn new() -> Server
        ensures { result ≡ Phase.Uninitialized }
    {
        Server {
            phase: Phase::Uninitialized,
        }
    }

    /// Whether it has received `exit`.
    pub fn has_ended(&self) -> bool
        ensures { result ≡ has_ended self.now }
    {
        matches!(self.phase, Phase::Exited)
    }

    /// `initialize`.
    fn initialize(
        &mut self,
        alloc: Global,
        id: &Id,
        params: Option<&Json>,
    ) -> Result<String, AllocError>
        requires { self.old ≡ Phase.Uninitialized }
        ensures sent { IfOk result (λ t. IsReply (initialized id.now (seen params.entry)).1 (string_bytes t)) }
        ensures next { OnOk result (self.new ≡ (initialized id.now (seen params.entry)).0) }
        ensures err { OnErr result (self.new ≡ self.old) }
    {
        let Some(encoding) = offered(params) else {
            return refuse(alloc, id, Refusal::BadParams);
        };
        let value = initialize_result(alloc, encoding)?;
        let text = respond(alloc, id, &value)?;
        self.phase = Phase::Running(Session::begin(alloc, encoding));
        Ok(text)
    }

    /// `shutdown`.
    fn shut_down(&mut self, alloc: Global, id: &Id) -> Result<String, AllocError>
        ensures sent { IfOk result (λ t. IsReply (shut_down id.now).1 (string_bytes t)) }
        ensures next { OnOk result (self.new ≡ (shut_down id.now).0) }
        ensures err { OnErr result (self.new ≡ self.old) }
    {
        let text = respond(alloc, id, &Json::Null)?;
        self.phase = Phase::ShutDown;
        Ok(text)
    }

    /// What is answered to a request.
    fn answer(
        &mut self,
        alloc: Global,
        id: &Id,
        request: Request,
        params: Option<&Json>,
    ) -> Result<String, AllocError>
        ensures sent { IfOk result (λ t. IsReply (answered self.old id.now request (seen params.entry)).1 (string_bytes t)) }
        ensures next { OnOk result (self.new ≡ (answered self.old id.now request (seen params.entry)).0) }
        ensures err { OnErr result (self.new ≡ self.old) }
    {
        match (&self.phase, request) {
            (Phase::Uninitialized, Request::Initialize) => self.initialize(alloc, id, params),
            (Phase::Uninitialized, _) => refuse(alloc, id, Refusal::NotInitialized),
            (Phase::Running(_), Request::Initialize) => {
                refuse(alloc, id, Refusal::InitializedBefore)
            }
            (Phase::Running(_), Request::Shutdown) => self.shut_down(alloc, id),
            (Phase::Running(session), Request::About(query)) => {
                session.ask(alloc, id, query, params)
            }
            (Phase::Running(_), Request::Unknown) => refuse(alloc, id, Refusal::UnknownMethod),
            (Phase::ShutDown | Phase::Exited, _) => refuse(alloc, id, Refusal::ShutDown),
        }
    }

    /// What is sent at a notification.
    fn notify(
        &mut self,
        alloc: Global,
        notification: Notification,
        params: Option<&Json>,
    ) -> Result<Option<String>, AllocError>
        ensures sent { IfOk result (λ o. IsSent (notified self.old notification (seen params.entry)).1 (option_map (λ t. string_bytes t) o)) }
        ensures next { OnOk result (self.new ≡ (notified self.old notification (seen params.entry)).0) }
        ensures err { OnErr result (self.new ≡ self.old) }
    {
        if notification == Notification::Exit {
            self.phase = Phase::Exited;
            return Ok(None);
        }
        match &mut self.phase {
            Phase::Running(session) => session.note(alloc, notification, params),
            Phase::Uninitialized | Phase::ShutDown | Phase::Exited => Ok(None),
        }
    }

    /// Takes a message, without its header, and gives the one that is sent for it, if any. The error is that memory ran out: then it is as it was before the
    /// message, and nothing is sent.
    pub fn receive(&mut self, alloc: Global, message: &[u8]) -> Result<Option<String>, AllocError>
        ensures ok { IfOk result (λ o. IsReceived self.old message.now self.new (option_map (λ t. string_bytes t) o)) }
        ensures err { OnErr result (self.new ≡ self.old) }
    {
        match read_call(alloc, message) {
            Ok(Incoming::Request { id, method, params }) => {
                let request = request_of(method.as_str());
                Ok(Some(self.answer(alloc, &id, request, params.as_ref())?))
            }
            Ok(Incoming::Notification { method, params }) => {
                let notification = notification_of(method.as_str());
                self.notify(alloc, notification, params.as_ref())
            }
            Ok(Incoming::Response) => Ok(None),
            Err(CallFault::ParseError) => Ok(Some(refuse(alloc, &Id::Null, Refusal::NoJson)?)),
            Err(CallFault::InvalidRequest(id)) => Ok(Some(refuse(alloc, &id, Refusal::NoCall)?)),
            Err(CallFault::OutOfMemory) => Err(AllocError),
        }
    }
}
