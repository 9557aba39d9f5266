//! The laws of the rows as they are sent. Each law holds for all weeks, and does nothing when it runs.

mod row_laws;

pub use row_laws::constraints_are_no_objective;
