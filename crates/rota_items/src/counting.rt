//! The number of variables and of constraints of a model.

mod counter;
mod item_counts;
mod model_counts;
mod run_counts;

pub use counter::{Counter, Counts};
pub use model_counts::counts;
pub use run_counts::{patterns_of, windows_of};
