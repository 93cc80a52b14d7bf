// Executions.
use crate::setups::{INPUT, MOCKS, RETRIED, put_ended, setup_of, unchanged};
use asl_exec::{Emulated, Execution, emulate, emulate_driven};
use asl_run_input::{EmulateFault, StepAt, put_steps};
use asl_run_state::{Refusal, put_step};
use std::alloc::{AllocError, Global};
use std::test::Fail;

/// An execution of the Parallel that is retried.
fn opened(alloc: Global) -> Result<Execution, Fail> {
    match Execution::open(alloc, setup_of(alloc, RETRIED)?) {
        Ok(execution) => Ok(execution),
        Err(AllocError) => Ok(Execution::open(alloc, setup_of(alloc, RETRIED)?)?),
    }
}

/// The step that comes next.
fn chosen(execution: &Execution) -> Result<Option<StepAt>, Fail> {
    match execution.chosen() {
        Ok(at) => Ok(at),
        Err(AllocError) => Ok(execution.chosen()?),
    }
}

/// Takes a step, again where it was refused memory.
fn stepped(execution: &mut Execution, at: &StepAt) -> Result<(), Fail> {
    let events = execution.history().len();
    match execution.step(&at.place, at.moment) {
        Ok(()) => Ok(()),
        Err(Refusal::OutOfMemory) => {
            unchanged(execution.history().len() == events)?;
            Ok(execution.step(&at.place, at.moment).map_err(|_| "refused")?)
        }
        Err(_) => Err("refused")?,
    }
}

/// Appends the line of a step that was taken.
fn put_taken(out: &mut String, at: &StepAt) -> Result<(), Fail> {
    match put_step(out, &at.place, None) {
        Ok(()) => Ok(()),
        Err(AllocError) => Ok(put_step(out, &at.place, None)?),
    }
}

/// The line of a step in a file of steps.
fn line_of(alloc: Global, at: &StepAt) -> Result<String, AllocError> {
    let mut line = String::new(alloc);
    let at = at.try_clone()?;
    put_steps(&mut line, &[at])?;
    Ok(line)
}

/// Appends the line of a step in a file of steps.
fn put_line(alloc: Global, out: &mut String, at: &StepAt) -> Result<(), Fail> {
    let line = match line_of(alloc, at) {
        Ok(line) => line,
        Err(AllocError) => line_of(alloc, at)?,
    };
    match out.push_str(line.as_str()) {
        Ok(()) => Ok(()),
        Err(AllocError) => Ok(out.push_str(line.as_str())?),
    }
}

fn emulated(alloc: Global, steps: &str) -> Result<Emulated, EmulateFault> {
    let (definition, mocks, input) = (RETRIED.as_bytes(), MOCKS.as_bytes(), INPUT.as_bytes());
    emulate(alloc, definition, mocks, "M#c", input, steps.as_bytes())
}

/// The text of the run of a file of steps.
fn run_by(alloc: Global, steps: &str) -> Result<String, Fail> {
    let run = match emulated(alloc, steps) {
        Err(EmulateFault::OutOfMemory) => emulated(alloc, steps),
        run => run,
    };
    Ok(run.map_err(|_| "refused")?.text)
}

#[test]
fn each_step_is_taken_once(rt: HostRuntime) -> Result<(), Fail> {
    let alloc = rt.alloc();
    let mut execution = opened(alloc)?;
    let mut text = String::new(alloc);
    let mut file = String::new(alloc);
    for _ in 0..20 {
        let Some(at) = chosen(&execution)? else {
            break;
        };
        stepped(&mut execution, &at)?;
        put_taken(&mut text, &at)?;
        put_line(alloc, &mut file, &at)?;
    }
    put_ended(alloc, &mut text, execution.world())?;
    assert!(rt; text.as_str().ends_with("status SUCCEEDED {\"n\":2}\n"));
    let whole = run_by(alloc, file.as_str())?;
    assert_eq!(rt; text.as_str(), whole.as_str());
    Ok(())
}

fn driven(alloc: Global) -> Result<Emulated, EmulateFault> {
    let (definition, mocks, input) = (RETRIED.as_bytes(), MOCKS.as_bytes(), INPUT.as_bytes());
    emulate_driven(alloc, definition, mocks, "M#c", input, 100)
}

/// The text of the driven run.
fn driven_run(alloc: Global) -> Result<String, Fail> {
    let run = match driven(alloc) {
        Err(EmulateFault::OutOfMemory) => driven(alloc),
        run => run,
    };
    Ok(run.map_err(|_| "refused")?.text)
}

#[test]
fn a_run_is_driven_on(rt: HostRuntime) -> Result<(), Fail> {
    let alloc = rt.alloc();
    let mut execution = opened(alloc)?;
    let count = match execution.drive(100) {
        Ok((count, _)) => count,
        Err((count, AllocError)) => {
            let (more, _) = execution.drive(100).map_err(|_| "no memory")?;
            count.saturating_add(more)
        }
    };
    // The Parallel forks, its Task throws twice, and it is retried; then both branches end, it joins, and five states follow.
    assert_eq!(rt; count, 14);
    let mut text = String::new(alloc);
    put_ended(alloc, &mut text, execution.world())?;
    let whole = driven_run(alloc)?;
    assert_eq!(rt; text.as_str(), whole.as_str());
    Ok(())
}
