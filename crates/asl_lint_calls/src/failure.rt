// Why a call fails.
use crate::want::Want;
use asl_intrinsic_functions::{Function, Reason};

/// What makes a call fail, whatever its paths lead to.
#[derive(Clone, Copy, Debug, PartialEq, Eq)]
pub enum Cause {
    /// The argument of this number, counted from 0, is not this.
    Unfit(usize, Want),
    /// The template has so many `{}`, and so many arguments stand behind it.
    Holes(usize, usize),
    /// The arguments are all known, and the function has no value for them.
    Together(Reason),
}

/// A function whose call fails, and why.
#[derive(Clone, Copy, Debug, PartialEq, Eq)]
pub struct Failure {
    pub function: Function,
    pub cause: Cause,
}
