//! The program `inrc2pb-bound` under one contract: `program` proves how good rosters of one or more weeks can be, over
//! any files and any output, and returns the exit code.
#![tactic(auto)]

mod command;
mod command_line;
mod fixes;
mod job;
mod job_run;
/// What each exit status says of the files.
pub mod laws;
mod open_files;
mod run;

pub use job::BoundJob;
pub use job_run::perform;
pub use run::program;
