//! The model of a week as rows, which are sent to a taker.
//!
//! Counts the rows of the model of the week that `instance` describes:
//!
//! ```
//! let mut counter = Counter::new();
//! let Ok(()) = drive_constraints(&instance, &mut counter);
//! assert_eq!(rt; counter.counts, counts(&instance));
//! ```
#![tactic(auto)]

// The rows: their kinds, their takers, the numbers of their variables, their sums of cells, and the rows of
// the hard rules.
mod cell_sum;
mod hard;
mod part;
mod sum_terms;
mod sums;
mod takers;
mod variables;

// The items, which are constraints with charged slacks that cost the penalty of the soft rules; the items of
// a nurse's runs; and the items and terms of each soft rule.
mod items;
mod rules;
mod runs;

// The model: its constraints and its objective, sent to a taker.
mod drive;
mod objective;

// The counts: the numbers of variables and of constraints of the model.
mod counting;

// The laws of the rows as they are sent.
pub mod laws;

pub use cell_sum::{CellSum, DayPattern, DayProperty};
pub use counting::{Counter, Counts, counts, patterns_of, windows_of};
pub use drive::drive_constraints;
pub use items::item_takers::ItemTaker;
pub use items::run_takers::RunTaker;
pub use items::soft_item::{NurseRuns, RunCharge, SoftItem};
pub use objective::drive_objective;
pub use part::Part;
pub use rules::{constant, constant_of_rule, constant_parts, visit_soft_items};
pub use runs::run_visits::visit_runs;
pub use sum_terms::emit_sum;
pub use sums::Sign;
pub use takers::Taker;
pub use variables::{cell_var, unit_var, var_cell};
