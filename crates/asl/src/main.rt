//! The program `asl`: judges, prints and emulates state machines of the Amazon States Language. What it does stands in `asl_cli`; here it gets its
//! words, files and streams from the system, and a stack.
#![tactic(auto)]

use asl_cli::{Progress, refuse_words, run_words};
use asl_host::{HostFiles, HostOutputs, Stream, Typed, given, tell_fault};
use asl_words::Screen;
use std::io::{BufReader, IsTerminal};
use std::process::ExitCode;
use std::sync::Wait;
use std::thread::{Builder, Threads};

/// The stack that the program runs with, in bytes; the system gives it page by page, as it is used. A run may put a value into itself again
/// and again, and writing, cloning, comparing and dropping one take up to 336 bytes for each of its levels.
const STACK: usize = 1 << 30;

/// The stack with which it runs where the system doesn't give that much. A state's output has at most 262,144 bytes, so what a state begins with
/// nests some 131,072 levels deep; a path of a definition, which has at most 1,048,576 bytes, may put it below as many as 524,288 more.
const LESS_STACK: usize = 1 << 28;

/// Does what the words of the command line ask for, and tells the status. The handle is for threads.
fn program<R: Threads + Wait + Sync>(handle: &R, rt: HostRuntime) -> u8 {
    let alloc = rt.alloc();
    let mut out = Stream::new(rt.stdout());
    let mut err = Stream::new(rt.stderr());
    let mut files = HostFiles::new(&rt, rt.stdin());
    let Ok(reader) = BufReader::new(alloc, rt.stdin()) else {
        tell_fault(&mut err, "OutOfMemory");
        return 2;
    };
    let prompt = if rt.stdin().is_terminal() {
        Some(rt.stderr())
    } else {
        None
    };
    let mut input = Typed::new(reader, prompt);
    let mut outputs = HostOutputs::new(&rt);
    let screen = Screen::new(&rt, rt.stdin().is_terminal(), rt.stdout().is_terminal());
    let progress = Progress::new(&rt, rt.stderr().is_terminal());
    let status = match given(&rt) {
        Ok(words) => run_words(
            handle,
            &progress,
            alloc,
            words.as_slice(),
            screen,
            &mut files,
            &mut input,
            &mut outputs,
            &mut out,
            &mut err,
        ),
        Err(fault) => refuse_words(alloc, fault, &mut err),
    };
    if out.has_failed() {
        tell_fault(&mut err, "file standard output: a write failed");
    }
    status
}

/// Tells that the system gives no stack.
fn refuse_stack(rt: HostRuntime) -> u8 {
    let mut err = Stream::new(rt.stderr());
    tell_fault(&mut err, "OutOfMemory");
    2
}

fn main(rt: HostRuntime) -> ExitCode {
    let roomy = Builder::new().stack_size(STACK);
    let status = match roomy.spawn(&rt, move || program(&rt, rt)) {
        Ok(thread) => thread.join(&rt),
        Err(_) => {
            let less = Builder::new().stack_size(LESS_STACK);
            match less.spawn(&rt, move || program(&rt, rt)) {
                Ok(thread) => thread.join(&rt),
                // On the usual stack deep data would end the program by a signal.
                Err(_) => refuse_stack(rt),
            }
        }
    };
    ExitCode::from(status)
}
