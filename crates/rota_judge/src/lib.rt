//! The meaning of the model of a week: its judge, the extension of a roster, and the laws.
//!
//! Judges a roster of the week that `instance` describes. Here it breaks one soft rule:
//!
//! ```
//! let verdict = verdict_of(&instance, Judge::of_roster(&instance, &roster));
//! for (rule, cost) in Rule::SOFT.into_iter().zip(verdict.costs) {
//!     let wanted = if rule == Rule::S2 { 30 } else { 0 };
//!     assert_eq!(rt; cost, wanted, "{rule}");
//! }
//! assert!(rt; verdict.unmet.is_none());
//! ```
#![tactic(auto)]

// The judge: a taker that evaluates a model.
mod judge;

// The literals of a roster's extension, variable by variable, sent to a taker.
mod literals;

// The laws: the meaning of the model.
pub mod laws;

pub use judge::{Judge, Verdict, verdict_of};
pub use literals::{LiteralTaker, drive_extension};
