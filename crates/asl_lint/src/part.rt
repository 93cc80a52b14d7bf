// At what of a value a finding points.
ghost use Rattle.std.specs.Prelude.{◌≡◌};
ghost use Rattle.asl_lint.specs.Findings.{part_of};

use crate::rule::{MockRule, Rule};
use asl_def_schema::FaultKind;
use asl_lint_warnings::WarningKind;

/// Which part of what stands at its place a finding points at.
#[derive(Clone, Copy, Debug, PartialEq, Eq)]
pub(crate) enum Part {
    /// The key of the value.
    Key,
    /// The value.
    Value,
    /// The last byte of the value in which the last step of the place is missing.
    End,
}

fn part_of_fault(kind: FaultKind) -> Part
    ensures { result ≡ part_of (Rule.Fault kind) }
{
    match kind {
        FaultKind::Missing => Part::End,
        FaultKind::UnknownField | FaultKind::Both | FaultKind::DuplicateState => Part::Key,
        _ => Part::Value,
    }
}

fn part_of_warning(kind: WarningKind) -> Part
    ensures { result ≡ part_of (Rule.Warning kind) }
{
    match kind {
        WarningKind::UnreachableState
        | WarningKind::NoEnd
        | WarningKind::NoDefault
        | WarningKind::EndlessWait => Part::Key,
        _ => Part::Value,
    }
}

fn part_of_mock(rule: MockRule) -> Part
    ensures { result ≡ part_of (Rule.Mock rule) }
{
    match rule {
        MockRule::Json | MockRule::Shape | MockRule::NoResponse | MockRule::NoMachine =>
            Part::Value,
        _ => Part::Key,
    }
}

/// Which part a finding of this rule points at.
pub(crate) fn part_of(rule: Rule) -> Part
    ensures { result ≡ part_of rule }
{
    match rule {
        Rule::Json | Rule::File(_) => Part::Value,
        Rule::Fault(kind) => part_of_fault(kind),
        Rule::Warning(kind) => part_of_warning(kind),
        Rule::Mock(rule) => part_of_mock(rule),
    }
}
