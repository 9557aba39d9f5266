//! Readers of the files of a rostering week. They return the value that a text spells, or the text's one
//! fault.
//!
//! Reads a scenario, and detects a history that ends too early:
//!
//! ```
//! let scenario = read_scenario(alloc, text)?;
//! assert_eq!(rt; scenario.name(), b"s1".as_slice());
//! if let Err(fault) = read_history(alloc, &scenario, b"HISTORY\n0 s1\n") {
//!     let line = format!(in alloc; "{fault}")?;
//!     assert_eq!(rt; line.as_str(), "history line 2: end of file");
//! }
//! ```
#![tactic(auto)]

mod contracts;
mod days;
mod history;
pub mod laws;
mod names;
mod nurses;
mod requirements;
mod rows;
mod scenario;
mod shift_types;
mod solution;
mod week;
mod week_tables;

pub use days::day_name;
pub use history::read_history;
pub use scenario::read_scenario;
pub use solution::{read_fixed, read_solution};
pub use week::read_week;
