//! The lower bound that a certificate proves: a tree of cases of plans, with prices for each case.
//!
//! `lower_bound` is the bound of the cost, and `no_plan_exists` the one without the soft rules.
//! `repeats_fact` says whether a fact is on a path of the tree more than once, and `first_unmet`
//! finds the first condition that a plan does not meet.
#![tactic(auto, using(crate::proofs::Sums::looping))]

// The charges and costs of a nurse's days, her rebates, and the choices that a case allows her.
mod allowed;
mod charges;
mod costs;
mod rebates;

// The value of a point of the penalty.
mod points;

// Pasts that cost the same.
mod capped;
mod charged_pasts;

// The bound of a nurse in a leaf.
mod known;
mod nurses;
mod stages;

// The demand of a place in a case, its price, and the bounds of places.
mod demand;
mod place_prices;
mod places;

// The limits that conditions set, and the tariffs of a leaf.
mod leaves;
mod limits;
mod surcharges;
mod tariffs;

// Whether rosters meet conditions.
mod conditions;
mod counted;

// The tree of cases.
mod paths;
mod repeats;
mod tree;

/// The laws of the bound.
pub mod laws;

pub use conditions::first_unmet;
pub use counted::past_after_week;
pub use repeats::repeats_fact;
pub use tree::{lower_bound, no_plan_exists};
