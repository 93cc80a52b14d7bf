// Whether seats and rows agree.
ghost use Rattle.std.specs.Prelude.{◌≡◌, ◌↔◌, ℕ, IsTrue, All, Any, MatchOption, count_by, min, ◌==◌};
ghost use Rattle.std.specs.Option.{option_map_or};
ghost use Rattle.asl_threads.specs.Runs.{rows_of, entry_of};
ghost use Rattle.asl_threads.specs.Closing.{run_view, IsWhole, Refuses, AreAllThere, IsLeastMissing, Agrees, IsLeastMismatch};

use crate::closing::Cause;
use crate::row::Row;
use crate::seat::{Entry, Seat};
use crate::shared::Shared;
use asl_run_input::Setup;

/// Why a run with this behind its lock isn't closed with these seats. Takes no memory.
pub(crate) fn refusal(
    setup: &Setup,
    label: u64,
    count: usize,
    shared: &Shared,
    seats: &[Seat],
) -> Option<Cause>
    ensures { let run = run_view setup.now label count in MatchOption result
        (IsWhole run shared.now seats.now)
        (λ cause. Refuses run shared.now seats.now cause) }
{
    if shared.label() != label || !is_same_setup(shared.setup(), setup) {
        return Some(Cause::OtherSetup);
    }
    if !all_labelled(seats, label) {
        return Some(Cause::Foreign);
    }
    if let Some(number) = missing(count, seats) {
        return Some(Cause::SeatMissing(number));
    }
    match mismatch(count, shared.rows(), seats) {
        Some(number) => Some(Cause::Mismatch(number)),
        None => None,
    }
}

/// Whether the two are equal.
fn is_same_setup(one: &Setup, other: &Setup) -> bool
    ensures { IsTrue result ↔ (one.now ≡ other.now) }
{
    *one == *other
}

/// Whether all have this label.
fn all_labelled(seats: &[Seat], label: u64) -> bool
    ensures { IsTrue result ↔ All (λ s. s.label ≡ label) seats.now }
{
    seats.iter().all(|seat| seat.label() == label)
}

/// Whether one of them has this number.
fn has_seat(seats: &[Seat], number: usize) -> bool
    ensures { IsTrue result ↔ Any (λ s. s.number ≡ number) seats.now }
{
    seats.iter().any(|seat| seat.number() == number)
}

/// The least number below `count` that none of them has.
fn missing(count: usize, seats: &[Seat]) -> Option<usize>
    ensures { MatchOption result (AreAllThere count seats.now) (IsLeastMissing count seats.now) }
{
    for number in 0..count {
        if !has_seat(seats, number) {
            return Some(number);
        }
    }
    None
}

/// The least number of a seat that doesn't agree with the rows.
fn mismatch(count: usize, rows: &[Row], seats: &[Seat]) -> Option<usize>
    ensures { MatchOption result (All (Agrees count rows.now seats.now) seats.now)
        (IsLeastMismatch count rows.now seats.now) }
{
    let mut least: Option<usize> = None;
    for seat in seats {
        if !agrees(count, rows, seats, seat) {
            least = Some(lesser(least, seat.number()));
        }
    }
    least
}

/// The lesser number.
fn lesser(least: Option<usize>, number: usize) -> usize
    ensures { result ≡ option_map_or (λ k. min k number) least number }
{
    least.map_or(number, |k| k.min(number))
}

/// Whether the seat is one of so many, is there once, and has the list of its rows.
fn agrees(count: usize, rows: &[Row], seats: &[Seat], seat: &Seat) -> bool
    ensures { IsTrue result ↔ Agrees count rows.now seats.now seat.now }
{
    let number = seat.number();
    if number >= count {
        return false;
    }
    if times(seats, number) != 1 {
        return false;
    }
    is_own(rows, number, seat.list())
}

/// How many of them have this number.
fn times(seats: &[Seat], number: usize) -> usize
    ensures { result ≡ count_by (λ s. s.number == number) seats.now }
{
    seats.iter().filter(|seat| seat.number() == number).count()
}

/// Whether the list is that of the rows with this number.
fn is_own(rows: &[Row], number: usize, list: &[Entry]) -> bool
    ensures { IsTrue result ↔ (list.now ≡ rows_of number rows.now) }
{
    let mut at = 0;
    for row in rows {
        if row.seat == number {
            if at == list.len() || !is_entry(row, &list[at]) {
                return false;
            }
            at += 1;
        }
    }
    at == list.len()
}

/// Whether the entry has the row's command and reply.
fn is_entry(row: &Row, entry: &Entry) -> bool
    ensures { IsTrue result ↔ (entry.now ≡ entry_of row.now) }
{
    entry.command == row.command && entry.reply == row.reply
}
