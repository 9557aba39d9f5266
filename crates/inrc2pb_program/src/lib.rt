//! The program under one contract: `program` does the work that the words of the command line ask for, over any files, input
//! and outputs, and returns the exit code. `perform` does the work of a job, after the words have been read.
#![tactic(auto)]

mod command;
mod command_line;
mod job;
mod job_run;
/// What each exit status says of the files.
pub mod laws;
mod open_inputs;
mod optional_file;
mod run;

pub use job::{Inputs, Job};
pub use job_run::perform;
pub use run::program;
