// Why a run fails.
use asl_run_input::{EmulateFault, Emulation, RunTexts, Setup, StepAt};
use asl_trace::why_failed;
use std::alloc::{AllocError, Global};

/// Why the execution of these steps, or, without a list, of at most so many that come next, fails, in words: the state that raised the error, what
/// was looked for there, in which member, and what is there instead. Its steps are taken for that. Empty where it doesn't fail, and where its
/// error says all. The error is that memory ran out.
pub fn why_in(
    alloc: Global,
    setup: Setup,
    steps: Option<&[StepAt]>,
    limit: u32,
) -> Result<String, AllocError> {
    why_failed(alloc, setup, steps, limit)
}

/// The same of the run of these texts; where they spell none, empty.
pub fn why_of(alloc: Global, texts: &RunTexts<'_>, limit: u32) -> Result<String, AllocError> {
    let Emulation { setup, steps } = match Emulation::read(alloc, texts) {
        Ok(emulation) => emulation,
        Err(EmulateFault::OutOfMemory) => return Err(AllocError),
        Err(_) => return Ok(String::new(alloc)),
    };
    match &steps {
        Some(steps) => why_in(alloc, setup, Some(steps), limit),
        None => why_in(alloc, setup, None, limit),
    }
}
