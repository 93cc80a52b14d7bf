// The lines of an execution's steps.
ghost use Rattle.std.specs.Prelude.{◌≡◌, ◌++◌, ◌∷◌, [], max, Option, Some, None, List, IfOk, IfSome, OnOk, option_map, string_bytes};
ghost use Rattle.std.specs.Option.{option_copied};
ghost use Rattle.asl_json.specs.View.{data_of};
ghost use Rattle.asl_json_data.specs.Compact.{compact};
ghost use Rattle.asl_def_states.specs.Show.{state_of as state_shown};
ghost use Rattle.asl_def_schema.specs.Canon.{Named};
ghost use Rattle.asl_step.specs.Rows.{error_output};
ghost use Rattle.asl_step.specs.Seen.{Seen};
ghost use Rattle.asl_run_branches.specs.Branches.{record_at, children_at};
ghost use Rattle.asl_run_branches.specs.Trees.{branches_of};
ghost use Rattle.asl_run_state.specs.Lines.{step_line, status_line, status_text};
ghost use Rattle.asl_exec.specs.Steps.{facts_of, object_in, seen_at, refusal_in, step, world_after};
ghost use Rattle.asl_exec.specs.Views.{setup_of, world_of};
ghost use Rattle.asl_trace_lines.specs.Lines.{timed_out_line};
ghost use Rattle.asl_trace_data.specs.Kinds.{stages_of};
ghost use Rattle.asl_trace_lines.specs.Views.{seen_in};
ghost use Rattle.asl_trace.specs.Steps.{input_text, input_line, rule_in, happened, lines_of, happening_lines, branch_lines, lines_of_step, lines_of_steps};
ghost use Rattle.asl_trace.specs.Stopped.{stopped_lines};
ghost use Rattle.asl_trace.specs.Views.{text_of, shows_of, facts_in};
ghost use Rattle.asl_trace.specs.private.Known.{staged_by, IsKnown};

use crate::deciding::{Decided, Deciding, Staged, decided_in, raised_by};
use crate::sides::{kind_of, policy_of};
use crate::stopping::put_stopped_under;
use asl_def_states::State;
use asl_exec::{Execution, facts_of, state_of};
use asl_json::Json;
use asl_json_diff::put_short;
use asl_json_shared::Name;
use asl_json_write::put;
use asl_run_branches::Frame;
use asl_run_input::{Setup, StepAt};
use asl_run_state::{Outcome, put_step};
use asl_step::{Context, ErrorOut, Facts, Record, error_output};
use asl_time::Moment;
use asl_trace_data::{Stage, put_stages, put_whole};
use asl_trace_lines::{Happening, put_happening, put_row, put_timed_out, under};
use std::alloc::{AllocError, Global};

/// What is told of a state's data.
#[derive(Clone, Copy, PartialEq, Eq)]
pub enum Shows {
    /// What is otherwise in its output than in its raw input.
    Changes,
    /// What each stage of it gives.
    Stages,
}

impl Shows {
    /// Of which states the stages are wanted.
    fn staged(self) -> Staged
        ensures { result ≡ staged_by self }
    {
        match self {
            Shows::Changes => Staged::Handling,
            Shows::Stages => Staged::All,
        }
    }
}

/// The lines of an execution's steps so far, and what is needed to tell the next one.
pub struct Tree {
    alloc: Global,
    out: String,
    shows: Shows,
    context: Context,
}

// Written out, so that a caller's proof sees one call and not the drop of each part.
impl Drop for Tree {
    fn drop(self) {
        let Tree {
            alloc: _alloc,
            out: _out,
            shows: _shows,
            context: _context,
        } = self;
    }
}

/// What a branch was doing before a step, how often its state was invoked, what decides, and when the step is taken.
struct Before {
    doing: Record,
    count: u32,
    decided: Decided,
    moment: Moment,
}

impl Drop for Before {
    fn drop(self) {
        let Before {
            doing: _doing,
            count: _count,
            decided: _decided,
            moment: _moment,
        } = self;
    }
}

/// The Context Object of an execution that begins with this, for what decides in its steps. The error is that memory ran out.
pub fn context_of(alloc: Global, setup: &Setup) -> Result<Context, AllocError>
    ensures { IfOk result (λ c. c.facts ≡ facts_of setup.now) }
{
    let facts = facts_of(alloc, setup)?;
    Context::new(alloc, facts)
}

/// The number of the rule that decided, where one did.
fn rule_in(deciding: Deciding) -> Option<usize>
    ensures { result ≡ rule_in deciding }
{
    match deciding {
        Deciding::Rule(number) => Some(number),
        _ => None,
    }
}

/// Appends an input: the whole of it where stages are shown.
fn put_input(alloc: Global, out: &mut String, shows: Shows, input: &Json) -> Result<(), AllocError>
    ensures { OnOk result (string_bytes out.new ≡ string_bytes out.old ++ input_text shows input.now) }
{
    match shows {
        Shows::Changes => put_short(alloc, out, input),
        Shows::Stages => put_whole(alloc, out, input),
    }
}

/// Appends the lines of what happened in a step, in a state with these stages.
fn put_lines(
    alloc: Global,
    out: &mut String,
    shows: Shows,
    step: &Happening,
    stages: &[Stage],
) -> Result<(), AllocError>
    ensures { OnOk result (string_bytes out.new
        ≡ string_bytes out.old ++ lines_of shows (seen_in step.now) stages.now) }
{
    match shows {
        Shows::Changes => put_happening(alloc, out, step),
        Shows::Stages => {
            put_row(alloc, out, step)?;
            let lead = under(alloc, step.place)?;
            put_stages(alloc, out, lead.as_str(), stages)
        }
    }
}

/// Appends the lines of a step, by what is known from before it, and by the frame of the branch and the state in which it was.
fn put_happened<'x>(
    alloc: Global,
    out: &mut String,
    shows: Shows,
    execution: &'x Execution,
    at: &'x StepAt,
    before: &'x Before,
    frame: &'x Frame,
    state: &'x State,
) -> Result<(), AllocError>
    ensures { (f : Facts) → (v : Seen) → (t : List Named)
        → IsKnown (staged_by shows) f (setup_of execution.now) v before.now
        → at.now.place ≡ v.place
        → children_at [] (branches_of frame.now)
        ≡ children_at at.now.place (world_of execution.now).branches
        → object_in (setup_of execution.now).machine v.current ≡ Some (state_shown t state.now)
        → OnOk result (string_bytes out.new ≡ string_bytes out.old ++ lines_of shows
        (happened f (setup_of execution.now) (world_of execution.now) v (state_shown t state.now)
        frame.now.head.current) (stages_of (state_shown t state.now) f v)) }
{
    let step = Happening {
        start: execution.setup().start,
        moment: before.moment,
        place: &at.place,
        kind: kind_of(state),
        policy: policy_of(state),
        count: before.count,
        before: &before.doing,
        after: frame.held(),
        branches: frame.children().len(),
        raised: raised_by(state, &before.decided.stages),
        rule: rule_in(before.decided.deciding),
    };
    put_lines(alloc, out, shows, &step, &before.decided.stages)
}

impl Tree {
    /// The line of the input of an execution that no step was taken of yet. The error is that memory ran out.
    pub fn open(alloc: Global, execution: &Execution, shows: Shows) -> Result<Tree, AllocError>
        ensures text { IfOk result (λ t. text_of t
            ≡ input_line shows (setup_of execution.now).input) }
        ensures shows { IfOk result (λ t. shows_of t ≡ shows) }
        ensures facts { IfOk result (λ t. facts_in t ≡ facts_of (setup_of execution.now)) }
    {
        let setup = execution.setup();
        let context = context_of(alloc, setup)?;
        let mut out = String::new(alloc);
        out.push_str("input ")?;
        put_input(alloc, &mut out, shows, setup.input.get())?;
        out.push('\n')?;
        Ok(Tree {
            alloc,
            out,
            shows,
            context,
        })
    }

    /// Appends the lines of the branches that a step stops.
    fn put_stopped(&mut self, execution: &Execution, at: &StepAt) -> Result<(), AllocError>
        ensures text { OnOk result (text_of self.new ≡ text_of self.old
            ++ stopped_lines (setup_of execution.now).start
            (max (world_of execution.now).last at.now.moment) at.now.place
            (world_of execution.now).branches) }
        ensures shows { shows_of self.new ≡ shows_of self.old }
        ensures facts { facts_in self.new ≡ facts_in self.old }
    {
        let (start, world) = (execution.setup().start, execution.world());
        let now = world.present(at.moment);
        put_stopped_under(self.alloc, &mut self.out, start, now, world, &at.place)
    }

    /// What the branch at a place is doing before it steps, and what decides. None where no branch runs there. The time of the execution
    /// isn't over.
    fn before(&mut self, execution: &Execution, at: &StepAt) -> Result<Option<Before>, AllocError>
        ensures doing { IfOk result (λ o. option_map (λ b. b.doing) o
            ≡ record_at at.now.place (world_of execution.now).branches) }
        ensures known { IfOk result (λ o. IfSome o (λ b. IsKnown (staged_by (shows_of self.old))
            (facts_in self.old) (setup_of execution.now)
            (seen_at (setup_of execution.now).machine (setup_of execution.now).case
            (world_of execution.now) at.now.place (max (world_of execution.now).last at.now.moment)
            b.doing) b)) }
        ensures text { text_of self.new ≡ text_of self.old }
        ensures shows { shows_of self.new ≡ shows_of self.old }
        ensures facts { facts_in self.new ≡ facts_in self.old }
    {
        let alloc = self.alloc;
        let world = execution.world();
        let Some(frame) = world.frame_at(&at.place) else {
            return Ok(None);
        };
        let moment = world.present(at.moment);
        let doing = frame.held().try_clone(alloc)?;
        let (number, _) = state_of(&execution.setup().machine, &doing);
        let count = world.count(number);
        let staged = self.shows.staged();
        let setup = execution.setup();
        let decided = decided_in(
            alloc,
            &setup.machine,
            &setup.case,
            world,
            staged,
            &mut self.context,
            &at.place,
            frame,
            moment,
        )?;
        Ok(Some(Before {
            doing,
            count,
            decided,
            moment,
        }))
    }

    /// Appends the lines of the branch that took a step.
    fn put_taken<'x>(
        &mut self,
        execution: &'x Execution,
        at: &'x StepAt,
        before: &'x Before,
    ) -> Result<(), AllocError>
        ensures text { (f : Facts) → (v : Seen)
            → IsKnown (staged_by (shows_of self.old)) f (setup_of execution.now) v before.now
            → at.now.place ≡ v.place
            → OnOk result (text_of self.new ≡ text_of self.old
            ++ happening_lines (shows_of self.old) f (setup_of execution.now)
            (world_of execution.now) v
            (record_at at.now.place (world_of execution.now).branches)
            (object_in (setup_of execution.now).machine v.current)) }
        ensures shows { shows_of self.new ≡ shows_of self.old }
        ensures facts { facts_in self.new ≡ facts_in self.old }
    {
        let Some(frame) = execution.world().frame_at(&at.place) else {
            return Ok(());
        };
        let (_, state) = state_of(&execution.setup().machine, &before.doing);
        let Some(state) = state else {
            return Ok(());
        };
        let shows = self.shows;
        put_happened(
            self.alloc,
            &mut self.out,
            shows,
            execution,
            at,
            before,
            frame,
            state,
        )
    }

    /// A step that is refused, with the line that a run prints.
    fn refuse(&mut self, execution: &mut Execution, at: &StepAt) -> Result<(), AllocError>
        ensures text { OnOk result (text_of self.new ≡ text_of self.old
            ++ step_line at.now.place (refusal_in (setup_of execution.old) (world_of execution.old)
            at.now.place at.now.moment)) }
        ensures shows { shows_of self.new ≡ shows_of self.old }
        ensures facts { facts_in self.new ≡ facts_in self.old }
        ensures world { OnOk result (world_of execution.new
            ≡ step (setup_of execution.old) (world_of execution.old) at.now.place at.now.moment) }
        ensures setup { setup_of execution.new ≡ setup_of execution.old }
    {
        let reply = execution.reply(at)?;
        put_step(&mut self.out, &at.place, reply)
    }

    /// A step with which the time of the execution is over.
    fn time_out(&mut self, execution: &mut Execution, at: &StepAt) -> Result<(), AllocError>
        ensures text { OnOk result (text_of self.new ≡ text_of self.old
            ++ timed_out_line (setup_of execution.old).start
            (max (world_of execution.old).last at.now.moment)) }
        ensures shows { shows_of self.new ≡ shows_of self.old }
        ensures facts { facts_in self.new ≡ facts_in self.old }
        ensures world { OnOk result (world_of execution.new
            ≡ step (setup_of execution.old) (world_of execution.old) at.now.place at.now.moment) }
        ensures setup { setup_of execution.new ≡ setup_of execution.old }
    {
        let start = execution.setup().start;
        let now = execution.world().present(at.moment);
        put_timed_out(self.alloc, &mut self.out, start, now)?;
        let _refused = execution.reply(at)?;
        Ok(())
    }

    /// A step that isn't refused, while the time of the execution isn't over: the branches that it stops, then the one that takes it.
    fn take(&mut self, execution: &mut Execution, at: &StepAt) -> Result<(), AllocError>
        ensures text { OnOk result (text_of self.new ≡ text_of self.old
            ++ (stopped_lines (setup_of execution.old).start
            (max (world_of execution.old).last at.now.moment) at.now.place
            (world_of execution.old).branches
            ++ branch_lines (shows_of self.old) (facts_in self.old) (setup_of execution.old)
            (world_of execution.old)
            (step (setup_of execution.old) (world_of execution.old) at.now.place at.now.moment)
            at.now.place (max (world_of execution.old).last at.now.moment)
            (record_at at.now.place (world_of execution.old).branches))) }
        ensures shows { shows_of self.new ≡ shows_of self.old }
        ensures facts { facts_in self.new ≡ facts_in self.old }
        ensures world { OnOk result (world_of execution.new
            ≡ step (setup_of execution.old) (world_of execution.old) at.now.place at.now.moment) }
        ensures setup { setup_of execution.new ≡ setup_of execution.old }
    {
        self.put_stopped(execution, at)?;
        let before = self.before(execution, at)?;
        let _refused = execution.reply(at)?;
        match &before {
            Some(before) => self.put_taken(execution, at, before),
            None => Ok(()),
        }
    }

    /// Takes a step, and appends its lines: of one that is refused the line that a run prints. The error is that memory ran out.
    pub fn step(&mut self, execution: &mut Execution, at: &StepAt) -> Result<(), AllocError>
        ensures text { OnOk result (text_of self.new ≡ text_of self.old
            ++ lines_of_step (shows_of self.old) (facts_in self.old) (setup_of execution.old)
            (world_of execution.old) at.now.place at.now.moment) }
        ensures shows { shows_of self.new ≡ shows_of self.old }
        ensures facts { facts_in self.new ≡ facts_in self.old }
        ensures world { OnOk result (world_of execution.new
            ≡ step (setup_of execution.old) (world_of execution.old) at.now.place at.now.moment) }
        ensures setup { setup_of execution.new ≡ setup_of execution.old }
    {
        if execution.refusal(&at.place, at.moment).is_some() {
            return self.refuse(execution, at);
        }
        if execution.world().is_late(at.moment) {
            return self.time_out(execution, at);
        }
        self.take(execution, at)
    }

    /// Takes steps in order, and appends their lines. The error is that memory ran out, behind some of them.
    pub fn steps(&mut self, execution: &mut Execution, steps: &[StepAt]) -> Result<(), AllocError>
        ensures text { OnOk result (text_of self.new ≡ text_of self.old
            ++ lines_of_steps (shows_of self.old) (facts_in self.old) (setup_of execution.old)
            (world_of execution.old) steps.now) }
        ensures world { OnOk result (world_of execution.new
            ≡ world_after (setup_of execution.old) (world_of execution.old) steps.now) }
        ensures setup { setup_of execution.new ≡ setup_of execution.old }
    {
        for at in steps {
            self.step(execution, at)?;
        }
        Ok(())
    }

    /// No lines so far of an execution that goes on from here. The error is that memory ran out.
    pub fn resume(alloc: Global, execution: &Execution, shows: Shows) -> Result<Tree, AllocError>
        ensures text { IfOk result (λ t. text_of t ≡ []) }
        ensures shows { IfOk result (λ t. shows_of t ≡ shows) }
        ensures facts { IfOk result (λ t. facts_in t ≡ facts_of (setup_of execution.now)) }
    {
        let context = context_of(alloc, execution.setup())?;
        Ok(Tree {
            alloc,
            out: String::new(alloc),
            shows,
            context,
        })
    }

    /// The lines.
    pub fn into_lines(self) -> String
        ensures { string_bytes result ≡ text_of self }
    {
        let Tree {
            alloc: _alloc,
            out,
            shows: _shows,
            context: _context,
        } = self;
        out
    }

    /// The lines, and that of the outcome behind them. The error is that memory ran out.
    pub fn close(self, execution: &Execution) -> Result<String, AllocError>
        ensures { IfOk result (λ t. string_bytes t
            ≡ text_of self ++ status_line (world_of execution.now).outcome) }
    {
        let alloc = self.alloc;
        let Tree {
            alloc: _alloc,
            mut out,
            shows: _shows,
            context: _context,
        } = self;
        put_status(alloc, &mut out, execution.outcome())?;
        Ok(out)
    }
}

fn put_failure(
    alloc: Global,
    out: &mut String,
    status: &str,
    error: &ErrorOut,
) -> Result<(), AllocError>
    ensures { OnOk result (string_bytes out.new
        ≡ string_bytes out.old ++ (status.now ++ compact (data_of (error_output error.now)))) }
{
    out.push_str(status)?;
    let output = error_output(alloc, error)?;
    put(out, &output)
}

/// Appends the status, and the output or the error output.
fn put_outcome(alloc: Global, out: &mut String, outcome: &Outcome) -> Result<(), AllocError>
    ensures { OnOk result (string_bytes out.new ≡ string_bytes out.old ++ status_text outcome.now) }
{
    match outcome {
        Outcome::Running => out.push_str("status RUNNING"),
        Outcome::Succeeded(output) => {
            out.push_str("status SUCCEEDED ")?;
            put(out, output.get())
        }
        Outcome::Failed(error) => put_failure(alloc, out, "status FAILED ", error),
        Outcome::TimedOut => out.push_str("status TIMED_OUT {\"Error\":\"States.Timeout\"}"),
    }
}

/// Appends the line of the outcome.
fn put_status(alloc: Global, out: &mut String, outcome: &Outcome) -> Result<(), AllocError>
    ensures { OnOk result (string_bytes out.new ≡ string_bytes out.old ++ status_line outcome.now) }
{
    put_outcome(alloc, out, outcome)?;
    out.push('\n')
}
