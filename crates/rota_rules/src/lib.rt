//! The soft rules: the weights, and the cost of a roster in a week.
//!
//! The specs define the costs. With `--early` a week charges the assignments above the maximum when they occur. A nurse
//! who may work 15 times has worked 12 times; in the next two weeks she works 3 and 2 times, so 2 assignments are charged:
//!
//! ```
//! assert_eq!(rt; early_excess(15, 12, &[3, 2]), 2);
//! ```
#![tactic(auto)]

// What consecutive weeks charge with `--early`.
mod early_totals;

// The laws of the costs.
pub mod laws;

pub use early_totals::early_excess;

// The weights of the soft rules, in points.

/// S1: a nurse below the optimal number of a place.
pub const OPTIMUM_WEIGHT: u16 = 30;

/// S2: a day too many or too few in a run on a shift type.
pub const SHIFT_RUN_WEIGHT: u16 = 15;

/// S2: a day too many or too few in a run of working days.
pub const WORK_RUN_WEIGHT: u16 = 30;

/// S3: a day too many or too few in a run of days off.
pub const OFF_RUN_WEIGHT: u16 = 30;

/// S4: a request row that a cell matches.
pub const REQUEST_WEIGHT: u16 = 10;

/// S5: a weekend with one working day, if the contract asks for complete weekends.
pub const COMPLETE_WEEKEND_WEIGHT: u16 = 30;

/// S6: an assignment below the minimum or above the maximum total.
pub const ASSIGNMENT_WEIGHT: u16 = 20;

/// S7: a worked weekend above the maximum.
pub const WORKED_WEEKEND_WEIGHT: u16 = 30;

/// Each penalty is a multiple of this number of points.
pub const STEP: u64 = 5;
