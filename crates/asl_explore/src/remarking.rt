// What is remarkable, of what was seen.
ghost use Rattle.std.specs.Prelude.{◌≡◌, ◌<◌, ◌++◌, ◌∷◌, [], ◌&&◌, ℕ, List, true, false, not, length, nat_le, slice_index_or, IfOk, IfSome, OnOk};
ghost use Rattle.std.specs.List.{All};
ghost use Rattle.asl_run_state.specs.World.{World};
ghost use Rattle.asl_run_input.specs.declared.setup.Setup.{Setup};
ghost use Rattle.asl_explore.specs.declared.orders.Orders.{Orders};
ghost use Rattle.asl_explore.specs.States.{IsStated};
ghost use Rattle.asl_explore.specs.Remarks.{AreOneBelow, AreRemarks, AreTold, AreUnanswered, IsCutOff, IsNamed, IsShared, IsUnentered, answers_from};
ghost use Rattle.asl_explore.specs.private.Seeing.{AreSeen};
ghost use Rattle.asl_explore.specs.private.Remarking.{ArePut, IsUnlike};

use crate::answers::{Run, are_one, runs_of};
use crate::remarks::{Answers, Remarks};
use crate::sights::{NOTHING, Sight};
use crate::states::Stated;
use asl_json_shared::Name;
use asl_mock::Case;
use std::alloc::{AllocError, Global};

/// What was seen of the state of this number.
fn sight_of(sights: &[Sight], number: usize) -> Sight
    ensures { number < length sights.now → result ≡ slice_index_or sights.now number result }
{
    match sights.get(number) {
        Some(sight) => *sight,
        None => NOTHING,
    }
}

/// Whether the answers to a state aren't all equal from the first on that two branches were about to ask for at once. The error is that
/// memory ran out.
fn is_shared(alloc: Global, case: &Case, name: &Name, sight: Sight) -> Result<bool, AllocError>
    ensures yes { IfOk result (λ b. b ≡ true → IsUnlike case.now name.now sight) }
    ensures no { IfOk result (λ b. b ≡ false → IfSome sight.shared_from
        (λ n. AreOneBelow case.now name.now n sight.most)) }
{
    let Some(number) = sight.shared_from else {
        return Ok(false);
    };
    let runs = runs_of(alloc, case, name.as_str())?;
    Ok(!are_one(&runs, number, sight.most))
}

/// Appends a name, if it is wanted. The error is that memory ran out.
fn put_name(out: &mut Vec<Name>, name: &Name, wanted: bool) -> Result<(), AllocError>
    ensures yes { OnOk result
        (wanted ≡ true → out.new.items ≡ out.old.items ++ name.now ∷ []) }
    ensures no { OnOk result (wanted ≡ false → out.new.items ≡ out.old.items) }
{
    if wanted {
        out.push(name.try_clone()?)?;
    }
    Ok(())
}

/// The states of which two branches were about to ask for unlike answers at once. The error is that memory ran out.
fn shared_in(
    alloc: Global,
    case: &Case,
    states: &[Stated],
    sights: &[Sight],
) -> Result<Vec<Name>, AllocError>
    ensures { (o : Orders) (s : Setup) (ws : List World) → case.now ≡ s.case
        → All (IsStated s.machine) states.now → AreSeen o s ws sights.now
        → IfOk result (λ v. AreTold (IsNamed (IsShared o s ws)) states.now v.items) }
{
    let mut names = Vec::new(alloc);
    for state in states {
        let wanted = is_shared(alloc, case, &state.name, sight_of(sights, state.number))?;
        put_name(&mut names, &state.name, wanted)?;
    }
    Ok(names)
}

/// Whether nothing was left out, and no branch entered a state.
fn is_unentered(complete: bool, sight: Sight) -> bool
    ensures { result ≡ (complete && not sight.is_entered) }
{
    complete && !sight.is_entered
}

/// The states that no branch entered, if nothing was left out. The error is that memory ran out.
fn unentered_in(
    alloc: Global,
    states: &[Stated],
    sights: &[Sight],
    complete: bool,
) -> Result<Vec<Name>, AllocError>
    ensures { (o : Orders) (s : Setup) (ws : List World)
        → All (IsStated s.machine) states.now → AreSeen o s ws sights.now
        → IfOk result
        (λ v. AreTold (IsNamed (IsUnentered complete o s ws)) states.now v.items) }
{
    let mut names = Vec::new(alloc);
    for state in states {
        let wanted = is_unentered(complete, sight_of(sights, state.number));
        put_name(&mut names, &state.name, wanted)?;
    }
    Ok(names)
}

/// The states inside which a branch was stopped. The error is that memory ran out.
fn cut_off_in(alloc: Global, states: &[Stated], sights: &[Sight]) -> Result<Vec<Name>, AllocError>
    ensures { (o : Orders) (s : Setup) (ws : List World)
        → All (IsStated s.machine) states.now → AreSeen o s ws sights.now
        → IfOk result (λ v. AreTold (IsNamed (IsCutOff s ws)) states.now v.items) }
{
    let mut names = Vec::new(alloc);
    for state in states {
        let sight = sight_of(sights, state.number);
        put_name(&mut names, &state.name, sight.is_cut_off)?;
    }
    Ok(names)
}

/// Whether a run of numbers has an answer, and begins at this number or behind it.
fn begins_from(run: &Run, number: u32) -> bool
    ensures { result ≡ (run.now.is_answer && nat_le number run.now.low) }
{
    run.is_answer && number <= run.low
}

/// Appends the runs of answers that begin at this number or behind it. The error is that memory ran out.
fn put_answers(
    out: &mut Vec<Answers>,
    name: &Name,
    number: u32,
    runs: &[Run],
) -> Result<(), AllocError>
    ensures { OnOk result (out.new.items
        ≡ out.old.items ++ answers_from name.now number runs.now) }
{
    for run in runs {
        if begins_from(run, number) {
            out.push(Answers {
                task: name.try_clone()?,
                low: run.low,
                high: run.high,
            })?;
        }
    }
    Ok(())
}

/// Whether nothing was left out, and a state is a Task that a branch entered.
fn is_answered(complete: bool, is_task: bool, sight: Sight) -> bool
    ensures { result ≡ (complete && (is_task && sight.is_entered)) }
{
    complete && is_task && sight.is_entered
}

/// Appends the answers to a state of which none was asked for, if it is a Task that a branch entered, and nothing was left out. The error
/// is that memory ran out.
fn put_unanswered(
    out: &mut Vec<Answers>,
    alloc: Global,
    case: &Case,
    state: &Stated,
    sight: Sight,
    complete: bool,
) -> Result<(), AllocError>
    ensures { OnOk result (ArePut case.now state.now sight complete out.old.items out.new.items) }
{
    if !is_answered(complete, state.is_task, sight) {
        return Ok(());
    }
    let runs = runs_of(alloc, case, state.name.as_str())?;
    put_answers(out, &state.name, sight.most, &runs)
}

/// The answers of which none was asked for, if nothing was left out. The error is that memory ran out.
fn unanswered_in(
    alloc: Global,
    case: &Case,
    states: &[Stated],
    sights: &[Sight],
    complete: bool,
) -> Result<Vec<Answers>, AllocError>
    ensures { (o : Orders) (s : Setup) (ws : List World) → case.now ≡ s.case
        → All (IsStated s.machine) states.now → AreSeen o s ws sights.now
        → IfOk result (λ v. AreTold (AreUnanswered complete o s ws) states.now v.items) }
{
    let mut unanswered = Vec::new(alloc);
    for state in states {
        let sight = sight_of(sights, state.number);
        put_unanswered(&mut unanswered, alloc, case, state, sight, complete)?;
    }
    Ok(unanswered)
}

/// No remarks.
pub(crate) fn no_remarks(alloc: Global) -> Remarks {
    Remarks {
        shared: Vec::new(alloc),
        unentered: Vec::new(alloc),
        unanswered: Vec::new(alloc),
        cut_off: Vec::new(alloc),
    }
}

/// What is remarkable of these states, of what was seen of each, in their order. What never happens isn't told where something was left
/// out. The error is that memory ran out.
pub(crate) fn remarks_on(
    alloc: Global,
    case: &Case,
    states: &[Stated],
    sights: &[Sight],
    complete: bool,
) -> Result<Remarks, AllocError>
    ensures { (o : Orders) (s : Setup) (ws : List World) → case.now ≡ s.case
        → All (IsStated s.machine) states.now → AreSeen o s ws sights.now
        → IfOk result (AreRemarks complete o s ws states.now) }
{
    Ok(Remarks {
        shared: shared_in(alloc, case, states, sights)?,
        unentered: unentered_in(alloc, states, sights, complete)?,
        unanswered: unanswered_in(alloc, case, states, sights, complete)?,
        cut_off: cut_off_in(alloc, states, sights)?,
    })
}
