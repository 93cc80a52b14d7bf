// The cases of a suite, run by several workers.
ghost use Rattle.std.specs.Prelude.{◌≡◌, ◌<◌, ◌≤◌, All, IfOk, MatchResult, None, Option, length, slice_index_or, slice_set, vec_len, vec_capacity, []};
ghost use Rattle.std.specs.Option.{ForSome};
ghost use Rattle.asl_suite_workers.specs.Cases.{IsRun, IsDone, AreDone, IsAnswered, IsEach, IsFault, IsNotRun};

use crate::cases::{Cases, SuiteFault};
use crate::claims::{Claims, Done};
use asl_suite::CaseReport;
use asl_threads_base::Gate;
use core::thread::Stack;
use std::alloc::{AllocError, Global};
use std::marker::PhantomData;
use std::snapshot::Snapshot;
use std::sync::{Mutex, Wait};
use std::thread;
use std::thread::{Promise, Scope, Threads};

/// The stack of a worker's thread, in bytes, as large as the program's own; the system gives it page by page, as it is used. A case may put a
/// value into itself again and again.
const STACK: usize = 1 << 30;

/// What came of a case, where somebody has run it.
type Found = Option<Result<CaseReport, AllocError>>;

/// Runs a case as the worker of a number.
fn run_as<S: Cases, G: Gate>(
    alloc: Global,
    suite: &S,
    gate: &G,
    worker: usize,
    case: usize,
) -> Result<CaseReport, AllocError>
    requires { case < S.count suite.now }
    ensures { IsRun G.began G.ended (S.gives suite.now) case result }
{
    gate.before(worker, case);
    let outcome = suite.run_case(alloc, case);
    gate.after(worker, case);
    outcome
}

/// What one worker runs: a case after another, as long as one is left. One that finds no room for what it would hand back claims none.
fn serve<R: Wait, S: Cases, G: Gate>(
    rt: &R,
    alloc: Global,
    suite: &S,
    gate: &G,
    claims: &Mutex<Claims>,
    worker: usize,
) -> Vec<Done>
    ensures { AreDone (S.count suite.now) (IsRun G.began G.ended (S.gives suite.now)) result.items }
{
    let mut all = Vec::new(alloc);
    let count = suite.len();
    'claims: for _ in 0..count {
        if all.reserve(1).is_err() {
            break;
        }
        let claimed = claims.lock(rt).claim(count);
        let Some(case) = claimed else {
            break;
        };
        let outcome = run_as(alloc, suite, gate, worker, case);
        all.push_reserved(Done { case, outcome });
    }
    all
}

/// What a worker hands back is of cases of this suite.
#[derive(Drop)]
struct OfSuite<S, G> {
    suite: Snapshot<S>,
    gate: PhantomData<G>,
}

impl<S: Cases, G: Gate> Promise<Vec<Done>> for OfSuite<S, G> {
    ghost use Rattle.asl_suite_workers.specs.Cases.{IsRun, AreDone};

    ghost kept_by = { λ p r. AreDone (S.count p.suite.value) (IsRun G.began G.ended (S.gives p.suite.value)) r.items };
}

/// Writes a value over the one at a place.
fn put_at<T: Drop>(list: &mut Vec<T>, at: usize, value: T)
    requires { at < length list.old.items }
    ensures items { list.new.items ≡ slice_set list.old.items at value }
    ensures len { vec_len list.new ≡ vec_len list.old }
{
    list[at] = value;
}

/// Takes the value at a place, and leaves none there.
fn take_at<T>(list: &mut Vec<Option<T>>, at: usize) -> Option<T>
    requires { at < length list.old.items }
    ensures value { (d : Option T) → result ≡ slice_index_or list.old.items at d }
    ensures items { list.new.items ≡ slice_set list.old.items at None }
    ensures len { vec_len list.new ≡ vec_len list.old }
{
    list[at].take()
}

/// Puts each outcome at its place.
fn place<S: Cases, G: Gate>(suite: &S, mut list: Vec<Done>, found: &mut Vec<Found>)
    requires list { AreDone (S.count suite.now) (IsRun G.began G.ended (S.gives suite.now)) list.items }
    requires count { vec_len found.old ≡ S.count suite.now }
    requires found { IsAnswered (IsRun G.began G.ended (S.gives suite.now)) found.old.items }
    ensures count { vec_len found.new ≡ S.count suite.now }
    ensures found { IsAnswered (IsRun G.began G.ended (S.gives suite.now)) found.new.items }
{
    'items: while let Some(done) = list.pop() {
        put_at(found, done.case, Some(done.outcome));
    }
}

/// Starts the workers from this number on, serves as worker 0, and puts what all of these ran at its place. A worker that can't be started
/// runs nothing.
#[cycle(serve_from)]
fn serve_from<'s, 'e, R: Threads + Wait + Sync, S: Cases + Sync, G: Gate + Sync>(
    scope: &Scope<'s, &'e ()>,
    rt: &'s R,
    alloc: Global,
    suite: &'s S,
    gate: &'s G,
    claims: &'s Mutex<Claims>,
    worker: usize,
    workers: usize,
    found: &mut Vec<Found>,
)
    requires count { vec_len found.old ≡ S.count suite.now }
    requires found { IsAnswered (IsRun G.began G.ended (S.gives suite.now)) found.old.items }
    ensures count { vec_len found.new ≡ S.count suite.now }
    ensures found { IsAnswered (IsRun G.began G.ended (S.gives suite.now)) found.new.items }
{
    if worker >= workers {
        place::<S, G>(suite, serve(rt, alloc, suite, gate, claims, 0), found);
        return;
    }
    let promise: OfSuite<S, G> = OfSuite {
        suite: Snapshot::of(suite),
        gate: PhantomData,
    };
    let started = Stack::new().stack_size(STACK).spawn_scoped_with(
        scope,
        promise,
        move || -> Vec<Done>
            ensures { AreDone (S.count suite.entry.now) (IsRun G.began G.ended (S.gives suite.entry.now)) result.items }
        { serve(rt, alloc, suite, gate, claims, worker) },
    );
    serve_from(
        scope,
        rt,
        alloc,
        suite,
        gate,
        claims,
        worker + 1,
        workers,
        found,
    );
    if let Ok(child) = started {
        place::<S, G>(suite, child.join(rt), found);
    }
}

/// What all workers run, each case at its place.
fn serve_all<R: Threads + Wait + Sync, S: Cases + Sync, G: Gate + Sync>(
    rt: &R,
    alloc: Global,
    suite: &S,
    workers: usize,
    gate: &G,
    found: Vec<Found>,
) -> Vec<Found>
    requires count { vec_len found ≡ S.count suite.now }
    requires found { IsAnswered (IsRun G.began G.ended (S.gives suite.now)) found.items }
    ensures count { vec_len result ≡ S.count suite.now }
    ensures found { IsAnswered (IsRun G.began G.ended (S.gives suite.now)) result.items }
{
    let fresh = Mutex::new(Claims::new());
    let claims = &fresh;
    thread::scope(
        thread::scope_env(),
        rt,
        move |scope| -> Vec<Found>
            requires { (vec_len found ≡ S.count suite.now) × IsAnswered (IsRun G.began G.ended (S.gives suite.now)) found.items }
            ensures { (vec_len result ≡ S.count suite.entry.now) × IsAnswered (IsRun G.began G.ended (S.gives suite.entry.now)) result.items }
        {
            let mut found = found;
            serve_from(
                scope, rt, alloc, suite, gate, claims, 1, workers, &mut found,
            );
            found
        },
    )
}

/// A place for each case, with nothing in it.
fn no_outcomes<S: Cases, G: Gate>(alloc: Global, suite: &S) -> Result<Vec<Found>, AllocError>
    ensures count { IfOk result (λ v. vec_len v ≡ S.count suite.now) }
    ensures found { IfOk result (λ v. IsAnswered (IsRun G.began G.ended (S.gives suite.now)) v.items) }
{
    let count = suite.len();
    let mut found = Vec::with_capacity(alloc, count)?;
    'places: for _ in 0..count {
        found.push(None)?;
    }
    Ok(found)
}

/// What a worker found, or what the caller finds where none reported.
fn outcome_of<S: Cases, G: Gate>(
    alloc: Global,
    suite: &S,
    gate: &G,
    found: Found,
    case: usize,
) -> Result<CaseReport, AllocError>
    requires case { case < S.count suite.now }
    requires found { ForSome found (IsRun G.began G.ended (S.gives suite.now) case) }
    ensures { IsRun G.began G.ended (S.gives suite.now) case result }
{
    match found {
        Some(outcome) => outcome,
        None => run_as(alloc, suite, gate, 0, case),
    }
}

/// The reports of all cases in order, into a list with room for them; or the number of the first case that found no memory.
fn collect<S: Cases, G: Gate>(
    alloc: Global,
    suite: &S,
    gate: &G,
    mut found: Vec<Found>,
    mut reports: Vec<CaseReport>,
) -> Result<Vec<CaseReport>, usize>
    requires count { vec_len found ≡ S.count suite.now }
    requires found { IsAnswered (IsRun G.began G.ended (S.gives suite.now)) found.items }
    requires none { reports.items ≡ [] }
    requires room { S.count suite.now ≤ vec_capacity reports }
    ensures { MatchResult result (λ v. IsEach (S.count suite.now) (IsRun G.began G.ended (S.gives suite.now)) v.items)
        (IsNotRun (S.count suite.now) (IsRun G.began G.ended (S.gives suite.now))) }
{
    'cases: for case in 0..suite.len() {
        match outcome_of(alloc, suite, gate, take_at(&mut found, case), case) {
            Ok(report) => reports.push_reserved(report),
            Err(_) => return Err(case),
        }
    }
    Ok(reports)
}

/// The reports of all cases in order, for any number of workers and any gate, at which each was told before and after it was run. A fault is
/// the number of a case whose run found no memory, where each before it has a report; or that there was none for the list. The first
/// worker is the caller, each other has a thread of its own, and one for which the system gives no thread runs nothing. The caller runs a
/// case that no worker reported.
pub fn run_cases<R: Threads + Wait + Sync, S: Cases + Sync, G: Gate + Sync>(
    rt: &R,
    alloc: Global,
    suite: &S,
    workers: usize,
    gate: &G,
) -> Result<Vec<CaseReport>, SuiteFault>
    requires { (1 ≤ workers) × (workers ≤ 64) }
    ensures { MatchResult result (λ v. IsEach (S.count suite.now) (IsRun G.began G.ended (S.gives suite.now)) v.items)
        (IsFault (S.count suite.now) (IsRun G.began G.ended (S.gives suite.now))) }
{
    let reports = Vec::with_capacity(alloc, suite.len())?;
    let found = no_outcomes::<S, G>(alloc, suite)?;
    let found = serve_all(rt, alloc, suite, workers, gate, found);
    match collect(alloc, suite, gate, found, reports) {
        Ok(reports) => Ok(reports),
        Err(case) => Err(SuiteFault::NotRun(case)),
    }
}
