//! The kinds of rows of a model.

use rota_core::Rule;

/// The part of the model to which a row belongs.
#[derive(Clone, Copy, PartialEq, Eq, Debug)]
pub enum Part {
    /// The objective, whose value must be as low as possible.
    Objective,
    /// A constraint of a hard rule, or the one of `Rule::Unit`, which makes the unit variable true.
    Hard(Rule),
    /// A constraint of a soft rule, and the weight of each of its slacks.
    Soft(Rule, u64),
}
