//! The items of the soft rules, and their use.

pub mod item_rows;
pub mod item_takers;
pub mod run_takers;
pub mod slack_weights;
pub mod soft_item;
