// What workers run, and why there may be no reports.
use asl_suite::CaseReport;
use std::alloc::{AllocError, Global};
use std::error::Error;
use std::fmt;

/// What has numbered cases.
pub trait Cases {
    ghost use Rattle.std.specs.Prelude.{◌≡◌, ◌<◌, ℕ, Result};
    ghost use Rattle.std.specs.declared.alloc.AllocError.{AllocError};
    ghost use Rattle.asl_suite.specs.declared.case_report.CaseReport.{CaseReport};

    ghost count: { Self → ℕ };

    ghost gives: { Self → ℕ → Result CaseReport AllocError → Type 0 };

    /// How many there are.
    fn len(&self) -> usize
        ensures { result ≡ count self.now };

    /// Runs the case of a number. The error is that memory ran out.
    fn run_case(&self, alloc: Global, number: usize) -> Result<CaseReport, AllocError>
        requires { number < count self.now }
        ensures { gives self.now number result };
}

/// Why a suite has no reports.
#[derive(Debug, Clone, Copy, PartialEq, Eq)]
pub enum SuiteFault {
    /// H4: the case of this number found no memory, the least of those that found none.
    NotRun(usize),
    /// H5: there was no memory for the list of reports.
    OutOfMemory,
}

impl From<AllocError> for SuiteFault {
    ghost use Rattle.std.specs.Prelude.{◌≡◌};
    ghost use Rattle.asl_suite_workers.specs.declared.cases.SuiteFault.{SuiteFault};
    ghost use Rattle.asl_suite_workers.specs.declared.cases.SuiteFault.TheVariants.{OutOfMemory};

    ghost from_gives = { λ _ e. e ≡ OutOfMemory };

    fn from(_refused: AllocError) -> SuiteFault {
        SuiteFault::OutOfMemory
    }
}

impl fmt::Display for SuiteFault {
    ghost use Rattle.std.specs.Prelude.{Some};
    ghost use Rattle.asl_suite_workers.specs.Lines.{suite_line};

    ghost output = { λ e. Some (suite_line e) };

    fn fmt<W: fmt::Write>(&self, f: &mut fmt::Formatter<W>) -> fmt::Result {
        match self {
            SuiteFault::NotRun(case) => write!(f, "H4 NotRun {case}"),
            SuiteFault::OutOfMemory => f.write_str("H5 OutOfMemory"),
        }
    }
}

impl Error for SuiteFault {}
