// Where the program's answers are read.
use std::env::{self, VarError};
use std::rt::Env;

/// What is known of where lines are typed and answers are read.
#[derive(Clone, Copy)]
pub struct Screen {
    /// A person types lines and reads their answers: standard input and standard output are terminals.
    pub typed: bool,
    /// Answers may have colours: standard output is a terminal, and the environment doesn't refuse them.
    pub coloured: bool,
}

impl Screen {
    /// What is known where standard input, and standard output, is a terminal or isn't.
    pub fn new<R: Env + AllocGlobal>(rt: &R, input: bool, output: bool) -> Screen {
        Screen {
            typed: input && output,
            coloured: output && !refuses_colours(rt),
        }
    }
}

/// Whether `NO_COLOR` is set and not empty (<https://no-color.org>), or can't be had.
fn refuses_colours<R: Env + AllocGlobal>(rt: &R) -> bool {
    match env::var(rt, "NO_COLOR") {
        Ok(value) => !value.is_empty(),
        Err(VarError::NotPresent) => false,
        Err(_) => true,
    }
}
