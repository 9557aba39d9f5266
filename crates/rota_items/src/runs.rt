//! The items that charge the runs of a nurse's days.

pub mod run_patterns;
pub mod run_visits;
