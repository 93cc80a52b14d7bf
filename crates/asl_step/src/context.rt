// The Context Object.
ghost use Rattle.std.specs.Prelude.{◌≡◌, ◌≤◌, ◌<◌, ◌++◌, Some, option_map, slice_get, ◌∷◌, ◌^◌, [], false, true, pos, length, IfOk, OnOk, sum, codes};
ghost use Rattle.std.specs.Fmt.{signed_decimal};
ghost use Rattle.asl_json_data.specs.Data.{Data, null, text, number, dict, pairs};
ghost use Rattle.asl_json.specs.Access.{with_value};
ghost use Rattle.asl_json_data.specs.Distinct.{has_key};
ghost use Rattle.asl_json.specs.View.{data_of};
ghost use Rattle.asl_time.specs.StampText.{stamp_of};
ghost use Rattle.asl_step.specs.Records.{entered_at, uses_in};
ghost use Rattle.asl_step.specs.Seen.{seen};
ghost use Rattle.asl_step.specs.Context.{execution_id, execution_of, state_machine_of, retry_count, state_of, item_of, map_part, token_of, task_part, members_with, context_of, IsAbout};

use crate::facts::Facts;
use crate::record::{Record, Uses};
use crate::visit::Visit;
use asl_json::{Dec, Json, Members, Txt};
use asl_time::{Moment, put_stamp};
use std::alloc::{AllocError, Global};
use std::marker::Model;
use std::mem;

/// The greatest whole number that JSON spells here.
const MOST: u128 = 999_999_999_999_999_999;

/// The Context Object of an execution. Its fixed members, the input among them, are made once; those that each step changes are
/// made anew when a state asks for them. Contracts see the facts of the execution and the object that was made last.
pub struct Context {
    facts: Facts,
    value: Json,
}

// Written out, so that a caller's proof sees one call and not the drop of each part.
impl Drop for Context {
    fn drop(self) {
        let Context {
            facts: _facts,
            value: _value,
        } = self;
    }
}

impl Model for Context {
    ghost use Rattle.asl_step.specs.Context.{Scene, IsAbout};

    ghost Value = { Scene };

    ghost use Rattle.std.specs.Coded.{codes as coded_codes};
    ghost use Rattle.asl_json.specs.private.Code.{coded_data};
    ghost use Rattle.asl_json.specs.contracts.value.Json as json;

    ghost coded = { Prim.hlevel (coded_codes, coded_data, json.the_row.coded) };

    ghost view = { λ c. record { facts = c.facts; shown = c.value } };

    ghost invariant = { λ c. IsAbout c.facts c.value };
}

/// These members and one more behind them.
fn with(alloc: Global, members: Members, key: &str, value: Json) -> Result<Members, AllocError>
    requires { has_key key.now members ≡ false }
    ensures { IfOk result (λ ms. ms ≡ members ++ (key.now, data_of value) ∷ []) }
{
    let mut members = members;
    members.push(Txt::of(alloc, key)?, value)?;
    Ok(members)
}

/// A text as a value.
fn told(alloc: Global, told: &str) -> Result<Json, AllocError>
    ensures { IfOk result (λ v. data_of v ≡ text told.now) }
{
    Ok(Json::Text(Txt::of(alloc, told)?))
}

/// The stamp of a moment as a value.
fn stamp(alloc: Global, moment: Moment) -> Result<Json, AllocError>
    ensures { IfOk result (λ v. data_of v ≡ text (stamp_of moment)) }
{
    let mut stamp = String::new(alloc);
    put_stamp(&mut stamp, moment)?;
    Ok(Json::Text(Txt::new(stamp)))
}

/// The id of an execution, as a value.
fn execution_id(alloc: Global, facts: &Facts) -> Result<Json, AllocError>
    ensures { IfOk result (λ v. data_of v ≡ text (execution_id facts.now)) }
{
    let mut id = String::from_str(alloc, "execution:")?;
    id.push_str(facts.machine.as_str())?;
    id.push(':')?;
    id.push_str(facts.name.as_str())?;
    Ok(Json::Text(Txt::new(id)))
}

/// `Execution`.
fn execution(alloc: Global, facts: &Facts) -> Result<Json, AllocError>
    ensures { IfOk result (λ v. data_of v ≡ execution_of facts.now) }
{
    let members = with(
        alloc,
        Members::new(alloc),
        "Id",
        execution_id(alloc, facts)?,
    )?;
    let members = with(alloc, members, "Name", told(alloc, facts.name.as_str())?)?;
    let members = with(alloc, members, "Input", facts.input.get().try_clone(alloc)?)?;
    let members = with(alloc, members, "StartTime", stamp(alloc, facts.start)?)?;
    Ok(Json::Dict(members))
}

/// `StateMachine`.
fn state_machine(alloc: Global, facts: &Facts) -> Result<Json, AllocError>
    ensures { IfOk result (λ v. data_of v ≡ state_machine_of facts.now) }
{
    let mut id = String::from_str(alloc, "stateMachine:")?;
    id.push_str(facts.machine.as_str())?;
    let members = with(alloc, Members::new(alloc), "Id", Json::Text(Txt::new(id)))?;
    let members = with(alloc, members, "Name", told(alloc, facts.machine.as_str())?)?;
    Ok(Json::Dict(members))
}

/// How often retriers were used.
fn sum_of(uses: &Uses) -> u128
    ensures { result ≡ sum uses.now }
{
    let mut total = 0u128;
    for count in &uses.counts {
        total += u128::from(*count);
    }
    total
}

/// `RetryCount`, where a branch is doing this.
fn retry_count(current: &Record) -> i128
    ensures { pos (retry_count (uses_in current.now)) ≡ result }
{
    match current {
        Record::Again { uses, .. } | Record::Forked { uses, .. } => {
            let total = sum_of(uses);
            if total < MOST {
                total as i128
            } else {
                MOST as i128
            }
        }
        _ => 0,
    }
}

/// When the state of a branch was entered.
pub(crate) fn entered_at(current: &Record, now: Moment) -> Moment
    ensures { result ≡ entered_at now current.now }
{
    match current {
        Record::Pausing { since, .. }
        | Record::Again { since, .. }
        | Record::Forked { since, .. } => *since,
        _ => now,
    }
}

/// `State`, where a branch is doing this.
fn state_of(alloc: Global, current: &Record, now: Moment) -> Result<Json, AllocError>
    ensures { IfOk result (λ v. data_of v ≡ state_of now current.now) }
{
    let count = Json::Num(Dec::of_whole(retry_count(current)));
    let members = with(
        alloc,
        Members::new(alloc),
        "Name",
        told(alloc, current.name())?,
    )?;
    let entered = stamp(alloc, entered_at(current, now))?;
    let members = with(alloc, members, "EnteredTime", entered)?;
    let members = with(alloc, members, "RetryCount", count)?;
    Ok(Json::Dict(members))
}

/// `Item`, of an iteration of this number over this item.
fn item_of(alloc: Global, number: u32, value: &Json) -> Result<Json, AllocError>
    ensures { IfOk result (λ v. data_of v ≡ item_of (number, data_of value.now)) }
{
    let index = Json::Num(Dec::of_whole(i128::from(number)));
    let members = with(alloc, Members::new(alloc), "Index", index)?;
    let members = with(alloc, members, "Value", value.try_clone(alloc)?)?;
    Ok(Json::Dict(members))
}

/// These members, and `Map` where the branch is in an iteration of one.
fn with_map(
    alloc: Global,
    members: Members,
    iteration: Option<(u32, &Json)>,
) -> Result<Members, AllocError>
    requires { has_key (codes "Map") members ≡ false }
    ensures { IfOk result (λ ms. ms
        ≡ members ++ map_part (option_map (λ i. (i.0, data_of i.1.now)) iteration.entry)) }
{
    let Some((number, value)) = iteration else {
        return Ok(members);
    };
    let item = item_of(alloc, number, value)?;
    let map = with(alloc, Members::new(alloc), "Item", item)?;
    with(alloc, members, "Map", Json::Dict(map))
}

/// The token of a Task, as a value.
fn token(alloc: Global, facts: &Facts, visit: &Visit) -> Result<Json, AllocError>
    ensures { IfOk result (λ v. data_of v ≡ text (token_of facts.now (seen visit.now))) }
{
    let mut token = String::from_str(alloc, "token:")?;
    token.push_str(facts.name.as_str())?;
    token.push(':')?;
    token.push_str(visit.current.name())?;
    token.push(':')?;
    write!(token, "{}", visit.count)?;
    Ok(Json::Text(Txt::new(token)))
}

/// These members, and `Task` where the state is one.
fn with_task(
    alloc: Global,
    members: Members,
    facts: &Facts,
    visit: &Visit,
) -> Result<Members, AllocError>
    requires { has_key (codes "Task") members ≡ false }
    ensures { IfOk result (λ ms. ms ≡ members ++ task_part facts.now (seen visit.now)) }
{
    if !visit.invokes {
        return Ok(members);
    }
    let token = token(alloc, facts, visit)?;
    let task = with(alloc, Members::new(alloc), "Token", token)?;
    with(alloc, members, "Task", Json::Dict(task))
}

/// The members of a Context Object whose fixed parts aren't there yet.
fn unfixed(alloc: Global) -> Result<Members, AllocError>
    ensures { IfOk result (λ ms. ms
        ≡ (codes "Execution", null) ∷ (codes "StateMachine", null) ∷ []) }
{
    let members = with(alloc, Members::new(alloc), "Execution", Json::Null)?;
    with(alloc, members, "StateMachine", Json::Null)
}

/// These members, the one of this number with another value.
fn with_member(members: Members, number: usize, value: Json) -> Members
    requires { number < length members }
    ensures { result ≡ with_value members number (data_of value) }
{
    let mut members = members;
    *members.value_mut(number) = value;
    members
}

/// Takes the value of a member out, and leaves null.
fn take_value(members: &mut Members, number: usize) -> Json
    requires { number < length members.old }
    ensures value { option_map (λ m. m.1) (slice_get members.old number) ≡ Some (data_of result) }
    ensures left { members.new ≡ with_value members.old number null }
{
    mem::replace(members.value_mut(number), Json::Null)
}

impl Context {
    /// The Context Object of an execution with these facts. The error is that memory ran out.
    pub fn new(alloc: Global, facts: Facts) -> Result<Context, AllocError>
        ensures { IfOk result (λ c. c.facts ≡ facts) }
    {
        let members = with(
            alloc,
            Members::new(alloc),
            "Execution",
            execution(alloc, &facts)?,
        )?;
        let members = with(
            alloc,
            members,
            "StateMachine",
            state_machine(alloc, &facts)?,
        )?;
        Ok(Context {
            facts,
            value: Json::Dict(members),
        })
    }

    /// What stays the same as the execution goes on.
    pub fn facts(&self) -> &Facts
        ensures { result.now ≡ self.now.facts }
    {
        &self.facts
    }

    /// Makes the object that a step sees. The error is that memory ran out.
    #[tactic(auto, unfolding(crate::specs::Context::context_of))]
    pub fn show(&mut self, alloc: Global, visit: &Visit) -> Result<(), AllocError>
        ensures shown { OnOk result (data_of self.new.shown
            ≡ context_of self.old.facts (seen visit.now)) }
        ensures facts { self.new.facts ≡ self.old.facts }
    {
        let state = state_of(alloc, visit.current, visit.moment)?;
        let members = with(alloc, unfixed(alloc)?, "State", state)?;
        let members = with_map(alloc, members, visit.iteration)?;
        let members = with_task(alloc, members, &self.facts, visit)?;
        let Ok(before) = mem::replace(&mut self.value, Json::Null).into_members() else {
            unreachable!();
        };
        let mut before = before;
        let execution = take_value(&mut before, 0);
        let state_machine = take_value(&mut before, 1);
        let members = with_member(members, 0, execution);
        self.value = Json::Dict(with_member(members, 1, state_machine));
        Ok(())
    }

    /// The object that was made last.
    pub fn shown(&self) -> &Json
        ensures { result.now ≡ self.now.shown }
    {
        &self.value
    }
}
