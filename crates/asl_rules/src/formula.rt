// Formulas as they are written. Loosest first: `=>`, `or`, `and`, `not`.

use crate::atom::Atom;
use std::marker::Model;

/// A formula: premises with `=>` behind each, and what they imply. `=>` associates to the right.
#[cycle(formula)]
#[derive(Drop)]
pub struct Formula {
    pub(crate) premises: Vec<AnyOf>,
    pub(crate) conclusion: AnyOf,
}

/// Formulas with `or` between them, of which some holds: those before the last, and the last.
#[cycle(formula)]
#[derive(Drop)]
pub struct AnyOf {
    pub(crate) before: Vec<AllOf>,
    pub(crate) last: AllOf,
}

/// Formulas with `and` between them, of which each holds: those before the last, and the last.
#[cycle(formula)]
#[derive(Drop)]
pub struct AllOf {
    pub(crate) before: Vec<Operand>,
    pub(crate) last: Operand,
}

/// What may stand between `and`s.
#[cycle(formula)]
#[derive(Drop)]
pub struct Operand {
    pub(crate) node: Node,
}

/// An operand, as its first word tells.
#[cycle(formula)]
#[derive(Drop)]
pub(crate) enum Node {
    Atom(Atom),
    /// `not`, and what it denies.
    Not(Box<Operand>),
    /// A formula in parentheses.
    Group(Box<Formula>),
}

impl Model for Formula {
    ghost use Rattle.asl_rules.specs.Tree.{Formula, formula, formula_size};

    ghost Value = { Formula };

    ghost use Rattle.asl_rules.specs.private.Code.{coded_formula};

    ghost coded = { coded_formula };

    ghost view = { λ a. formula a.premises.items a.conclusion };

    ghost size = { formula_size };

    ghost use Rattle.asl_rules.specs.private.Falls.{formula_falls};

    ghost size_decreases = { λ a h. formula_falls a.premises.items a.conclusion };
}

impl Model for AnyOf {
    ghost use Rattle.asl_rules.specs.Tree.{AnyOf, any_of, any_size};

    ghost Value = { AnyOf };

    ghost use Rattle.asl_rules.specs.private.Code.{coded_any};

    ghost coded = { coded_any };

    ghost view = { λ a. any_of a.before.items a.last };

    ghost size = { any_size };

    ghost use Rattle.asl_rules.specs.private.Falls.{any_falls};

    ghost size_decreases = { λ a h. any_falls a.before.items a.last };
}

impl Model for AllOf {
    ghost use Rattle.asl_rules.specs.Tree.{AllOf, all_of, all_size};

    ghost Value = { AllOf };

    ghost use Rattle.asl_rules.specs.private.Code.{coded_all};

    ghost coded = { coded_all };

    ghost view = { λ a. all_of a.before.items a.last };

    ghost size = { all_size };

    ghost use Rattle.asl_rules.specs.private.Falls.{all_falls};

    ghost size_decreases = { λ a h. all_falls a.before.items a.last };
}

impl Model for Operand {
    ghost use Rattle.asl_rules.specs.Tree.{Operand, operand_size};

    ghost Value = { Operand };

    ghost use Rattle.asl_rules.specs.private.Code.{coded_operand};

    ghost coded = { coded_operand };

    ghost use Rattle.asl_rules.specs.private.View.{operand};

    ghost view = { λ a. operand a.node };

    ghost size = { operand_size };

    ghost use Rattle.asl_rules.specs.private.Falls.{operand_falls};

    ghost size_decreases = { λ a h. operand_falls a.node };
}
