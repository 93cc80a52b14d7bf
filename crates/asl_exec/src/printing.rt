// The text of a run.
ghost use Rattle.std.specs.Prelude.{◌≡◌, ◌++◌, OnOk, OnErr, IfOk, option_map, string_bytes};
ghost use Rattle.asl_run_state.specs.Lines.{end_text, is_success};
ghost use Rattle.asl_exec.specs.Driving.{end_of};
ghost use Rattle.asl_exec.specs.Lacking.{unanswered_in};
ghost use Rattle.asl_exec.specs.RunText.{step_lines, lines_by, world_by, text_by};
ghost use Rattle.asl_exec.specs.Steps.{opening, refusal_in, step, world_after};
ghost use Rattle.asl_exec.specs.Views.{setup_of, world_of};

use crate::emulation::Emulated;
use crate::execution::Execution;
use asl_run_input::{Setup, StepAt};
use asl_run_state::{Refusal, is_success, put_end, put_step};
use std::alloc::{AllocError, Global};

impl Execution {
    /// Takes a step, and tells why it was refused, if it was. The error is that memory ran out.
    #[tactic(auto, using(crate::proofs::Accepting::step_refused))]
    pub fn reply(&mut self, at: &StepAt) -> Result<Option<Refusal>, AllocError>
        ensures reply { IfOk result (λ r. r
            ≡ refusal_in (setup_of self.old) (world_of self.old) at.now.place at.now.moment) }
        ensures world { OnOk result (world_of self.new
            ≡ step (setup_of self.old) (world_of self.old) at.now.place at.now.moment) }
        ensures err { OnErr result (world_of self.new ≡ world_of self.old) }
        ensures setup { setup_of self.new ≡ setup_of self.old }
    {
        match self.step(&at.place, at.moment) {
            Ok(()) => Ok(None),
            Err(Refusal::OutOfMemory) => Err(AllocError),
            Err(refusal) => Ok(Some(refusal)),
        }
    }

    /// Takes steps in order, with a line for each. The error is that memory ran out.
    fn put_steps(&mut self, out: &mut String, steps: &[StepAt]) -> Result<(), AllocError>
        ensures text { OnOk result (string_bytes out.new
            ≡ string_bytes out.old
            ++ step_lines (setup_of self.old) (world_of self.old) steps.now) }
        ensures world { OnOk result (world_of self.new
            ≡ world_after (setup_of self.old) (world_of self.old) steps.now) }
        ensures setup { setup_of self.new ≡ setup_of self.old }
    {
        for at in steps {
            let reply = self.reply(at)?;
            put_step(out, &at.place, reply)?;
        }
        Ok(())
    }

    /// Takes the steps of a list in order, with a line for each; without a list those that come next, at most so many. The error is
    /// that memory ran out.
    fn put_run(
        &mut self,
        out: &mut String,
        steps: Option<&[StepAt]>,
        limit: u32,
    ) -> Result<(), AllocError>
        ensures text { OnOk result (string_bytes out.new
            ≡ string_bytes out.old
            ++ lines_by (setup_of self.old) (world_of self.old)
            (option_map (λ ss. ss.now) steps.entry)) }
        ensures world { OnOk result (world_of self.new
            ≡ world_by limit (setup_of self.old) (world_of self.old)
            (option_map (λ ss. ss.now) steps.entry)) }
        ensures setup { setup_of self.new ≡ setup_of self.old }
    {
        let Some(steps) = steps else {
            return match self.drive(limit) {
                Ok(_) => Ok(()),
                Err((_, AllocError)) => Err(AllocError),
            };
        };
        self.put_steps(out, steps)
    }

    /// The text so far with the history and the status behind it, and what else is told of the run. The error is that memory ran out.
    fn ended(&self, text: String) -> Result<Emulated, AllocError>
        ensures text { IfOk result (λ e. string_bytes e.text
            ≡ string_bytes text ++ end_text (world_of self.now)) }
        ensures good { IfOk result (λ e. e.good ≡ is_success (world_of self.now).outcome) }
        ensures lacking { IfOk result (λ e. e.lacking
            ≡ unanswered_in (setup_of self.now).case (world_of self.now)) }
        ensures end { IfOk result (λ e. e.end ≡ end_of (world_of self.now)) }
    {
        let mut text = text;
        put_end(self.alloc(), &mut text, self.world())?;
        let lacking = self.lacking()?;
        Ok(Emulated {
            text,
            good: is_success(self.outcome()),
            lacking,
            end: self.end(),
        })
    }

    /// Takes steps as `put_run` does: the text of them, of the history and of the status, and what else is told of the run. The error is
    /// that memory ran out.
    fn print(&mut self, steps: Option<&[StepAt]>, limit: u32) -> Result<Emulated, AllocError>
        ensures text { IfOk result (λ e. string_bytes e.text
            ≡ lines_by (setup_of self.old) (world_of self.old) (option_map (λ ss. ss.now) steps.entry)
            ++ end_text (world_by limit (setup_of self.old) (world_of self.old)
            (option_map (λ ss. ss.now) steps.entry))) }
        ensures good { IfOk result (λ e. e.good
            ≡ is_success (world_by limit (setup_of self.old) (world_of self.old)
            (option_map (λ ss. ss.now) steps.entry)).outcome) }
        ensures lacking { IfOk result (λ e. e.lacking
            ≡ unanswered_in (setup_of self.old).case
            (world_by limit (setup_of self.old) (world_of self.old)
            (option_map (λ ss. ss.now) steps.entry))) }
        ensures end { IfOk result (λ e. e.end
            ≡ end_of (world_by limit (setup_of self.old) (world_of self.old)
            (option_map (λ ss. ss.now) steps.entry))) }
    {
        let mut text = String::new(self.alloc());
        self.put_run(&mut text, steps, limit)?;
        self.ended(text)
    }
}

/// The run of these steps, or, without a list, of those that come next, at most so many. The error is that memory ran out.
pub(crate) fn run(
    alloc: Global,
    setup: Setup,
    steps: Option<&[StepAt]>,
    limit: u32,
) -> Result<Emulated, AllocError>
    ensures text { IfOk result (λ e. string_bytes e.text
        ≡ text_by limit setup (option_map (λ ss. ss.now) steps.entry)) }
    ensures good { IfOk result (λ e. e.good
        ≡ is_success (world_by limit setup (opening setup)
        (option_map (λ ss. ss.now) steps.entry)).outcome) }
    ensures lacking { IfOk result (λ e. e.lacking
        ≡ unanswered_in setup.case (world_by limit setup (opening setup)
        (option_map (λ ss. ss.now) steps.entry))) }
    ensures end { IfOk result (λ e. e.end
        ≡ end_of (world_by limit setup (opening setup) (option_map (λ ss. ss.now) steps.entry))) }
{
    let mut execution = Execution::open(alloc, setup)?;
    let printed = execution.print(steps, limit);
    drop(execution);
    printed
}
