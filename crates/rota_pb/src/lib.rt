//! The runs: they read whole files and write a model, a roster or an answer, over any readers and writers.
//!
//! Writes the model of a week whose three files are in memory. No cell is held, so the fourth reader is not
//! touched:
//!
//! ```
//! let plan = CallPlan::new(4096, None);
//! let mut sce = MemorySource::new(scenario, plan);
//! let mut his = MemorySource::new(history, plan);
//! let mut week = MemorySource::new(week, plan);
//! let mut fix = MemorySource::new(b"", plan);
//! let mut out = MemoryTarget::new(alloc, 4096, plan)?;
//! let choice = Choice {
//!     early: false,
//!     fixed: false,
//! };
//! run_encode(
//!     alloc, choice, &mut sce, &mut his, &mut week, &mut fix, &mut out,
//! )?;
//! assert!(rt; out.bytes().starts_with(b"* #variable= "));
//! ```
#![tactic(auto)]

mod answer_pieces;
mod decoded;
mod decoding;
mod encoding;
mod extending;
mod extension_answer;
mod fault;
mod file_bytes;
pub mod laws;
mod model_text;
mod period_fault;
mod report;
mod roster_files;
mod week_files;
mod written_solution;

pub use decoded::{Decoded, decode};
pub use decoding::run_decode;
pub use encoding::{encode, run_encode};
pub use extending::{extend, run_extend};
pub use fault::{Fault, status_of};
pub use file_bytes::read_file;
pub use period_fault::{PeriodFault, period_status};
pub use report::write_report;
pub use roster_files::{read_held, read_roster};
pub use week_files::{
    Choice, read_history_from, read_instance, read_scenario_from, read_week_from,
};
pub use written_solution::write_solution;
