// A warning at its place.
ghost use Rattle.std.specs.Prelude.{◌≡◌};
ghost use Rattle.asl_lint_warnings.specs.Kinds.{name_of, kind_if};

use asl_def_schema::Step;
use std::marker::Model;

/// What a definition is warned of.
#[derive(Clone, Copy, Debug, PartialEq, Eq)]
pub enum WarningKind {
    /// `unreachable-state`: nothing leads to a state.
    UnreachableState,
    /// `no-end`: from a state no end can be reached.
    NoEnd,
    /// `no-default`: a Choice has no `Default`.
    NoDefault,
    /// `own-default`: the `Default` of a Choice leads back to it.
    OwnDefault,
    /// `repeated-rule`: an earlier rule of a Choice has the same test.
    RepeatedRule,
    /// `impossible-and`: two rules of an And never hold both.
    ImpossibleAnd,
    /// `endless-wait`: a Task that waits for a token has no time limit.
    EndlessWait,
    /// `unsent-token`: a Task that waits for a token gives it to nobody.
    UnsentToken,
    /// `heartbeat-not-shorter`: a heartbeat isn't shorter than the time limit.
    HeartbeatNotShorter,
    /// `limit-below-wait`: a Wait lasts as long as the time limit of the execution, or longer.
    LimitBelowWait,
    /// `unasked-handler`: an earlier retrier or catcher is for each error that this one is for.
    UnaskedHandler,
    /// `unknown-error`: no error has this name.
    UnknownError,
    /// `repeated-error`: the list names this error before.
    RepeatedError,
    /// `unused-delay`: a retrier that never retries says how long it waits.
    UnusedDelay,
    /// `max-delay-below-interval`: the longest delay is shorter than the first one.
    MaxDelayBelowInterval,
    /// `forgotten-dollar`: a text of a template looks like a path or a call and is none.
    ForgottenDollar,
    /// `not-computed`: a value that stays as it is looks computed.
    NotComputed,
    /// `unknown-context-member`: the Context Object never has what a path names.
    UnknownContextMember,
    /// `failing-call`: a call of an intrinsic function fails on each input.
    FailingCall,
}

impl WarningKind {
    /// The name that a warning is told by.
    pub fn name(self) -> &'static str
        ensures { result.now ≡ name_of self }
    {
        match self {
            WarningKind::UnreachableState => "unreachable-state",
            WarningKind::NoEnd => "no-end",
            WarningKind::NoDefault => "no-default",
            WarningKind::OwnDefault => "own-default",
            WarningKind::RepeatedRule => "repeated-rule",
            WarningKind::ImpossibleAnd => "impossible-and",
            WarningKind::EndlessWait => "endless-wait",
            WarningKind::UnsentToken => "unsent-token",
            WarningKind::HeartbeatNotShorter => "heartbeat-not-shorter",
            WarningKind::LimitBelowWait => "limit-below-wait",
            WarningKind::UnaskedHandler => "unasked-handler",
            WarningKind::UnknownError => "unknown-error",
            WarningKind::RepeatedError => "repeated-error",
            WarningKind::UnusedDelay => "unused-delay",
            WarningKind::MaxDelayBelowInterval => "max-delay-below-interval",
            WarningKind::ForgottenDollar => "forgotten-dollar",
            WarningKind::NotComputed => "not-computed",
            WarningKind::UnknownContextMember => "unknown-context-member",
            WarningKind::FailingCall => "failing-call",
        }
    }
}

/// A warning and its place: the steps to it, the innermost first.
#[derive(Drop)]
pub struct Warning {
    kind: WarningKind,
    steps: Vec<Step>,
}

impl Model for Warning {
    ghost use Rattle.std.specs.Prelude.{List};
    ghost use Rattle.asl_lint_warnings.specs.declared.warning.WarningKind.{WarningKind};
    ghost use Rattle.asl_def_schema.specs.declared.fault.Step.{Step};

    ghost Value = { WarningKind × List Step };

    ghost view = { λ a. (a.kind, a.steps.items) };
}

impl Warning {
    /// A warning at a place, of which the innermost step comes first.
    pub(crate) fn at(kind: WarningKind, steps: Vec<Step>) -> Warning
        ensures { result ≡ (kind, steps.items) }
    {
        Warning { kind, steps }
    }

    /// What the definition is warned of.
    pub fn kind(&self) -> WarningKind
        ensures { result ≡ self.now.0 }
    {
        self.kind
    }

    /// The steps to its place, the innermost first.
    pub fn steps_back(&self) -> &[Step]
        ensures { result.now ≡ self.now.1 }
    {
        &self.steps
    }
}

pub(crate) fn kind_if(holds: bool, kind: WarningKind) -> Option<WarningKind>
    ensures { result ≡ kind_if holds kind }
{
    if holds {
        return Some(kind);
    }
    None
}
