// Choice (ASL, "Choice State").
ghost use Rattle.std.specs.Prelude.{◌≡◌, List, ℕ, option_map};
ghost use Rattle.asl_json_data.specs.Data.{text};
ghost use Rattle.asl_json.specs.View.{data_of};
ghost use Rattle.asl_choice.specs.Seen.{fault_of, seen as rules_say};
ghost use Rattle.asl_def_states.specs.Show.{choice_object};
ghost use Rattle.asl_step.specs.Context.{context_of};
ghost use Rattle.asl_step.specs.Seen.{seen};
ghost use Rattle.asl_step_io.specs.Gives.{IsRaised, GivesSeen};
ghost use Rattle.asl_kinds.specs.Members.{undecided, target_by, chosen_target, choice_output};

use crate::kind::StateKind;
use asl_choice::RuleFault;
use asl_def_shared::Target;
use asl_def_states::Choice;
use asl_history::EventKind;
use asl_json::Json;
use asl_json_shared::Shared;
use asl_step::{Context, Effect, Visit, entering, failing, idle, leaving};
use asl_step_io::{Fault, missing, raised, taken};
use std::alloc::{AllocError, Global};

/// Why it can't be said which rule holds, as an error.
fn undecided(alloc: Global, fault: RuleFault) -> Fault
    ensures { IsRaised (undecided (fault_of fault.entry)) result }
{
    match fault {
        RuleFault::Missing(path) => missing(alloc, path),
        RuleFault::OpenEscape => raised(alloc, "States.Runtime", "StringMatches: open escape"),
    }
}

/// The state where a Choice goes on whose rules say this: that of the first rule that holds, else `Default`.
fn target_by<'a>(
    alloc: Global,
    default: Option<&'a Target>,
    next: Result<Option<&'a Target>, RuleFault<'a>>,
) -> Result<&'a str, Fault>
    ensures { GivesSeen (λ t. t.now)
        (target_by (option_map (λ t. text t.now.name) default.entry)
        (rules_say (λ t. option_map (λ t. text t.now.name) t) next.entry)) result }
{
    match next {
        Ok(Some(target)) => Ok(target.name.as_str()),
        Ok(None) => match default {
            Some(target) => Ok(target.name.as_str()),
            None => Err(raised(alloc, "States.NoChoiceMatched", "no rule holds")),
        },
        Err(fault) => Err(undecided(alloc, fault)),
    }
}

/// The state where a Choice goes on that has this value.
fn target<'a>(
    alloc: Global,
    choice: &'a Choice,
    value: &Json,
    visit: &Visit,
    context: &mut Context,
) -> Result<&'a str, Fault>
    ensures given { GivesSeen (λ t. t.now)
        (chosen_target (choice_object choice.now) (data_of value.now)
        (context_of context.old.facts (seen visit.now))) result }
    ensures facts { context.new.facts ≡ context.old.facts }
{
    context.show(alloc, visit)?;
    let next = choice.choices().next(value, context.shown());
    target_by(alloc, choice.default(), next)
}

/// Where a Choice goes on for a raw input, and with what.
fn output<'a>(
    alloc: Global,
    choice: &'a Choice,
    input: &Shared,
    visit: &Visit,
    context: &mut Context,
) -> Result<(&'a str, Shared), Fault>
    ensures given { GivesSeen (λ g. (g.0.now, g.1))
        (choice_output (choice_object choice.now) input.now
        (context_of context.old.facts (seen visit.now))) result }
    ensures facts { context.new.facts ≡ context.old.facts }
{
    let effective = taken(
        alloc,
        "InputPath",
        choice.input_path(),
        input,
        visit,
        context,
    )?;
    let target = target(alloc, choice, &effective, visit, context)?;
    let output = taken(
        alloc,
        "OutputPath",
        choice.output_path(),
        &effective,
        visit,
        context,
    )?;
    Ok((target, output))
}

impl StateKind for Choice {
    ghost use Rattle.std.specs.Prelude.{false};
    ghost use Rattle.asl_def_states.specs.Show.{choice_object};
    ghost use Rattle.asl_kinds.specs.Table.{choice_effect};
    ghost use Rattle.asl_kinds.specs.private.Laws.{choice-lawful};

    ghost effect = { λ k. choice_effect (choice_object k) };

    ghost is_invoking = { λ k. false };

    ghost slots = { λ k. 0 };

    ghost bounded = { λ k f v. (choice-lawful (choice_object k) f v).bounds };

    ghost use Rattle.asl_kinds.specs.private.Telling.{choice-told};

    ghost entered = { λ k. choice-told (choice_object k) };

    fn visit(
        &self,
        alloc: Global,
        visit: &Visit,
        context: &mut Context,
    ) -> Result<Effect, AllocError> {
        let Some(input) = visit.current.entering() else {
            return idle(alloc, visit.current);
        };
        let done = entering(alloc, visit, EventKind::ChoiceStateEntered, input)?;
        match output(alloc, self, input, visit, context) {
            Ok((target, output)) => {
                leaving(
                    alloc,
                    visit,
                    done,
                    EventKind::ChoiceStateExited,
                    Some(target),
                    output,
                )
            }
            Err(Fault::Raised(error)) => failing(alloc, visit, done, error),
            Err(Fault::Memory) => Err(AllocError),
        }
    }

    fn invokes(&self) -> bool {
        false
    }

    fn slots(&self) -> u32 {
        0
    }
}
