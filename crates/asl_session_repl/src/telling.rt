// Answers that tell what happened at each state.
ghost use Rattle.std.specs.Prelude.{◌≡◌, ◌≤◌, ◌++◌, List, ℕ, None, length, if◌then◌else◌, IfOk, IfSome, OnOk, string_bytes};
ghost use Rattle.asl_run_state.specs.Lines.{end_text, status_line};
ghost use Rattle.asl_exec.specs.Steps.{world_after};
ghost use Rattle.asl_exec.specs.Views.{setup_of, world_of};
ghost use Rattle.asl_trace.specs.Steps.{tree_lines};
ghost use Rattle.asl_session.specs.Sessions.{world_in};
ghost use Rattle.asl_session_repl.specs.Answers.{first_console, IsRefusedLine};
ghost use Rattle.asl_session_repl.specs.Telling.{AreShown, AreToldThere, IsToldOf, told_back, IsTold, Answers, greeting, IsEndText};
ghost use Rattle.asl_session_repl.specs.private.Shadows.{IsBehind};

use crate::console::{Answer, Console};
use crate::views::put_places;
use asl_exec::Execution;
use asl_run_input::{Setup, StepAt};
use asl_run_state::put_end;
use asl_session::Session;
use asl_text::{coloured, put_coloured};
use asl_trace::{Shows, Tree};
use std::alloc::{AllocError, Global};
use std::marker::Model;

/// How the steps that a line takes are told.
#[derive(Clone, Copy, Debug, PartialEq, Eq)]
pub enum Look {
    /// Each with what was replied to it.
    Transcript,
    /// As lines of the tree: what happened at each state; behind them where each branch stands.
    Tree,
    /// The same in colours.
    Colours,
}

/// A console that tells what happened at each state, where that is wanted. Contracts see the console.
pub struct Teller {
    console: Console,
    /// The same execution, stepped anew while its steps are told: as far as the console's, where it is kept.
    shadow: Option<Execution>,
    alloc: Global,
}

impl Drop for Teller {
    fn drop(self) {
        let Teller {
            console: _console,
            shadow: _shadow,
            alloc: _alloc,
        } = self;
    }
}

impl Model for Teller {
    ghost use Rattle.asl_session_repl.specs.Answers.{Console};

    ghost Value = { Console };

    ghost use Rattle.std.specs.Coded.{codes};
    ghost use Rattle.asl_run_input.specs.contracts.setup.Setup as setup_row;
    ghost use Rattle.asl_run_input.specs.contracts.step_at.StepAt as step_row;

    ghost coded = { Prim.hlevel (codes, setup_row.the_row.coded, step_row.the_row.coded) };

    ghost view = { λ t. t.console };

    ghost use Rattle.std.specs.Prelude.{IfSome, length};
    ghost use Rattle.asl_session_repl.specs.private.Shadows.{IsBehind};

    ghost invariant = { λ t. IfSome t.shadow
        (IsBehind (length t.console.session.steps) t.console.session) };
}

/// Takes steps in order; the lines that tell of them. The error is that memory ran out.
fn lines_of(
    alloc: Global,
    execution: &mut Execution,
    steps: &[StepAt],
) -> Result<String, AllocError>
    ensures text { IfOk result (λ t. string_bytes t ≡ tree_lines Shows.Changes
        (setup_of execution.old) (world_of execution.old) steps.now) }
    ensures world { OnOk result (world_of execution.new
        ≡ world_after (setup_of execution.old) (world_of execution.old) steps.now) }
    ensures setup { setup_of execution.new ≡ setup_of execution.old }
{
    let mut tree = Tree::resume(alloc, execution, Shows::Changes)?;
    tree.steps(execution, steps)?;
    Ok(tree.into_lines())
}

/// An execution that has taken the first so many steps of a session. The error is that memory ran out.
fn replayed(alloc: Global, session: &Session, count: usize) -> Result<Execution, AllocError>
    requires { count ≤ length session.now.steps }
    ensures { IfOk result (IsBehind count session.now) }
{
    let setup = session.execution().setup().try_clone(alloc)?;
    let mut execution = Execution::open(alloc, setup)?;
    execution.take_all(&session.steps()[..count])?;
    Ok(execution)
}

/// The same, where one is kept that is as far: that one.
fn shadow_at(
    alloc: Global,
    kept: Option<Execution>,
    session: &Session,
    count: usize,
) -> Result<Execution, AllocError>
    requires few { count ≤ length session.now.steps }
    requires kept { IfSome kept (IsBehind count session.now) }
    ensures { IfOk result (IsBehind count session.now) }
{
    match kept {
        Some(shadow) => Ok(shadow),
        None => replayed(alloc, session, count),
    }
}

/// An execution, where it may be kept.
fn kept_where(may: bool, shadow: Option<Execution>) -> Option<Execution>
    ensures { result ≡ (if may then shadow else None) }
{
    if may { shadow } else { None }
}

/// Appends lines of the tree. The error is that memory ran out.
fn put_lines(out: &mut String, look: Look, lines: &str) -> Result<(), AllocError>
    ensures { OnOk result ((shown : List ℕ) × AreShown look lines.now shown
        × (string_bytes out.new ≡ string_bytes out.old ++ shown)) }
{
    match look {
        Look::Colours => put_coloured(out, lines),
        Look::Transcript | Look::Tree => out.push_str(lines),
    }
}

/// Lines of the tree, and behind them where each branch stands. The error is that memory ran out.
fn told_of(alloc: Global, look: Look, lines: &str, session: &Session) -> Result<String, AllocError>
    ensures { IfOk result (λ t. AreToldThere look lines.now session.now (string_bytes t)) }
{
    let mut text = String::new(alloc);
    put_lines(&mut text, look, lines)?;
    put_places(alloc, &mut text, session)?;
    Ok(text)
}

/// Appends where each branch stands, if that is told. The error is that memory ran out.
fn put_places_if(
    told: bool,
    alloc: Global,
    out: &mut String,
    session: &Session,
) -> Result<(), AllocError>
    ensures { OnOk result (string_bytes out.new
        ≡ told_back told (string_bytes out.old) session.now) }
{
    if told {
        put_places(alloc, out, session)
    } else {
        Ok(())
    }
}

/// The history of an execution, and its status.
fn end_of(alloc: Global, execution: &Execution) -> Result<String, AllocError>
    ensures { IfOk result (λ t. string_bytes t ≡ end_text (world_of execution.now)) }
{
    let mut text = String::new(alloc);
    put_end(alloc, &mut text, execution.world())?;
    Ok(text)
}

/// The status of an execution.
fn status_of(alloc: Global, execution: &Execution) -> Result<String, AllocError>
    ensures { IfOk result (λ t.
        string_bytes t ≡ status_line (world_of execution.now).outcome) }
{
    Tree::resume(alloc, execution, Shows::Changes)?.close(execution)
}

impl Teller {
    /// A session of no line. The error is that memory ran out.
    pub fn open(alloc: Global, setup: Setup) -> Result<Teller, AllocError>
        ensures { IfOk result (λ t. t ≡ first_console setup) }
    {
        let console = Console::open(alloc, setup)?;
        Ok(Teller {
            console,
            shadow: None,
            alloc,
        })
    }

    /// The session as it is now.
    pub fn session(&self) -> &Session
        ensures { result.now ≡ self.now.session }
    {
        self.console.session()
    }

    /// What a person is greeted with: where each branch stands, and the words that lead on. The error is that memory ran out.
    pub fn greeting(&self) -> Result<String, AllocError>
        ensures { IfOk result (λ t. string_bytes t ≡ greeting self.now.session) }
    {
        let mut text = String::new(self.alloc);
        put_places(self.alloc, &mut text, self.session())?;
        text.push_str("next takes a step, help tells what else a line may say\n")?;
        Ok(text)
    }

    /// What stands behind all answers: the history and the status; where the tree is told the status alone. The error is that memory ran
    /// out.
    pub fn end(&self, look: Look) -> Result<String, AllocError>
        ensures { IfOk result (λ t.
            IsEndText look (world_in self.now.session) (string_bytes t)) }
    {
        let execution = self.session().execution();
        match look {
            Look::Transcript => end_of(self.alloc, execution),
            Look::Tree => status_of(self.alloc, execution),
            Look::Colours => {
                let status = status_of(self.alloc, execution)?;
                coloured(self.alloc, status.as_str())
            }
        }
    }

    /// Answers a line, and tells so of its steps. The error is that memory ran out.
    pub fn answer(&mut self, look: Look, line: &[u8]) -> Result<Answer, AllocError>
        ensures answer { IfOk result (λ a.
            Answers look self.old line.now (string_bytes a.text) a.quits self.new) }
        ensures refused { IfOk result (λ a. IsRefusedLine self.old line.now a.refused) }
    {
        match look {
            Look::Transcript => {
                self.shadow = None;
                self.console.answer(line)
            }
            Look::Tree | Look::Colours => self.tell(look, line),
        }
    }

    /// Answers a line, and tells what happened at each state in its steps, and where each branch stands where steps were taken back. The
    /// error is that memory ran out.
    fn tell(&mut self, look: Look, line: &[u8]) -> Result<Answer, AllocError>
        ensures told { IfOk result (λ a.
            IsTold look self.old line.now (string_bytes a.text) a.quits self.new) }
        ensures refused { IfOk result (λ a. IsRefusedLine self.old line.now a.refused) }
    {
        let shadow = self.shadow.take();
        let kept = kept_where(self.console.is_settled(), shadow);
        let before = self.console.session().steps().len();
        let mut answer = self.console.answer(line)?;
        let after = self.console.session().steps().len();
        if before < after {
            let text = self.tell_steps(look, kept, before)?;
            return Ok(Answer {
                text,
                quits: answer.quits,
                refused: answer.refused,
            });
        }
        self.shadow = kept_where(before == after, kept);
        put_places_if(
            after < before,
            self.alloc,
            &mut answer.text,
            self.console.session(),
        )?;
        Ok(answer)
    }

    /// What is told of the steps behind the first so many. The error is that memory ran out.
    fn tell_steps(
        &mut self,
        look: Look,
        kept: Option<Execution>,
        before: usize,
    ) -> Result<String, AllocError>
        requires few { before ≤ length self.old.session.steps }
        requires kept { IfSome kept (IsBehind before self.old.session) }
        ensures text { IfOk result (λ t.
            IsToldOf look before self.old.session (string_bytes t)) }
        ensures console { self.new ≡ self.old }
    {
        let session = self.console.session();
        let mut shadow = shadow_at(self.alloc, kept, session, before)?;
        let lines = lines_of(self.alloc, &mut shadow, &session.steps()[before..])?;
        let text = told_of(self.alloc, look, lines.as_str(), session)?;
        self.shadow = Some(shadow);
        Ok(text)
    }
}
