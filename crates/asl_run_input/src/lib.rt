//! What an execution begins with and the steps that it takes, read from texts.
//!
//! Modules in reading order: `setup` is what an execution begins with, `step_at` a step; `steps_file`
//! reads and writes steps, `texts` each other text, `fault` says why they are refused; `run_texts` is all texts of a run, `emulation` reads them,
//! and `laws` says that they spell one run.
#![tactic(auto)]

mod emulation;
mod fault;
mod laws;
mod run_texts;
mod setup;
mod step_at;
mod steps_file;
mod texts;

pub use emulation::Emulation;
pub use fault::EmulateFault;
pub use laws::texts_spell_one_run;
pub use run_texts::RunTexts;
pub use setup::Setup;
pub use step_at::{StepAt, equal_steps_are_one};
pub use steps_file::{
    StepsFault, files_spell_one_list_of_steps, put_steps, read_step, read_steps, split_line,
};
