//! The laws of the costs. Each law holds for all weeks and rosters, and does nothing when it runs.

mod early_weeks;
mod penalties;

pub use early_weeks::early_weeks_charge_what_they_add;
pub use penalties::{
    instances_are_within_limits, penalty_is_small, worked_rosters_have_their_penalties,
};
