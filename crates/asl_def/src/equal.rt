// Whether two machines show the same: a walk through both tables at once, that takes no memory.
ghost use Rattle.std.specs.Prelude.{◌≡◌, ◌≤◌, ◌+◌, length, take, drop, string_bytes};
ghost use Rattle.asl_json_data.specs.Data.{list, chain, pairs};
ghost use Rattle.asl_json.specs.Same.{bytes_eq, equal, equal_members};
ghost use Rattle.asl_def_shared.specs.Bodies.{IsWithin, AreWithin, bodies_of, processor_of};
ghost use Rattle.asl_def_states.specs.Show.{StateIsWithin, state_of};

use crate::table::Table;
use asl_def_fields::ProcessorConfig;
use asl_def_shared::Body;
use asl_def_states::State;

fn are_one_name(a: &String, b: &String) -> bool
    ensures { result ≡ bytes_eq (string_bytes a.now) (string_bytes b.now) }
{
    a.as_str() == b.as_str()
}

/// Whether so many states with the numbers from `first` on are those of the other table from `other_first` on, names
/// included.
#[cycle(equal)]
pub(crate) fn equals_states(
    table: &Table,
    first: usize,
    count: usize,
    other_table: &Table,
    other_first: usize,
    other_count: usize,
) -> bool
    requires within { first + count ≤ length table.now }
    requires other_within { other_first + other_count ≤ length other_table.now }
    ensures { result
        ≡ equal_members (pairs (take count (drop first table.now)))
        (pairs (take other_count (drop other_first other_table.now))) }
{
    if count != other_count {
        return false;
    }
    let _len = table.len();
    let _other_len = other_table.len();
    for i in 0..count {
        let number = first + i;
        let other_number = other_first + i;
        let Some((name, state)) = table.at(number) else {
            unreachable!();
        };
        let Some((other_name, other)) = other_table.at(other_number) else {
            unreachable!();
        };
        if !are_one_name(name, other_name) {
            return false;
        }
        if !equals_state(table, number, state, other_table, other_number, other) {
            return false;
        }
    }
    true
}

#[cycle(equal)]
fn equals_state(
    table: &Table,
    number: usize,
    state: &State,
    other_table: &Table,
    other_number: usize,
    other: &State,
) -> bool
    requires within { StateIsWithin number state.now }
    requires inside { number ≤ length table.now }
    requires other_within { StateIsWithin other_number other.now }
    requires other_inside { other_number ≤ length other_table.now }
    ensures { result ≡ equal (state_of table.now state.now) (state_of other_table.now other.now) }
{
    if !state.is_same_but_machines(other) {
        return false;
    }
    match (state, other) {
        (State::Parallel(parallel), State::Parallel(its)) => equals_bodies(
            table,
            number,
            parallel.branches.as_slice(),
            other_table,
            other_number,
            its.branches.as_slice(),
        ),
        (State::Map(map), State::Map(its)) => equals_body(
            table,
            map.processor.config(),
            map.processor.machine(),
            other_table,
            its.processor.config(),
            its.processor.machine(),
        ),
        _ => true,
    }
}

#[cycle(equal)]
fn equals_bodies(
    table: &Table,
    number: usize,
    bodies: &[Body],
    other_table: &Table,
    other_number: usize,
    others: &[Body],
) -> bool
    requires within { AreWithin number bodies.now }
    requires inside { number ≤ length table.now }
    requires other_within { AreWithin other_number others.now }
    requires other_inside { other_number ≤ length other_table.now }
    ensures { result
        ≡ equal (list (chain (bodies_of table.now bodies.now)))
        (list (chain (bodies_of other_table.now others.now))) }
{
    if bodies.len() != others.len() {
        return false;
    }
    for i in 0..bodies.len() {
        if !equals_body(table, None, &bodies[i], other_table, None, &others[i]) {
            return false;
        }
    }
    true
}

#[cycle(equal)]
fn equals_body(
    table: &Table,
    config: Option<ProcessorConfig>,
    body: &Body,
    other_table: &Table,
    other_config: Option<ProcessorConfig>,
    other: &Body,
) -> bool
    requires within { IsWithin (length table.now) body.now }
    requires other_within { IsWithin (length other_table.now) other.now }
    ensures { result
        ≡ equal (processor_of table.now config body.now)
        (processor_of other_table.now other_config other.now) }
{
    body.comment == other.comment
        && config == other_config
        && body.start == other.start
        && equals_states(
            table,
            body.first,
            body.count,
            other_table,
            other.first,
            other.count,
        )
}
