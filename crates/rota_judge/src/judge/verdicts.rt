//! The verdict of a judge.

use rota_core::{Rule, SOFT_RULES};

/// The judge's findings about an assignment to a model's variables.
#[derive(Clone, Copy, PartialEq, Eq, Debug)]
pub struct Verdict {
    /// The first constraint that is not satisfied: its number, from 1 in the order of the model, and its
    /// rule.
    pub unmet: Option<(u32, Rule)>,
    /// The value of the objective.
    pub objective: u64,
    /// The charges of the model for the soft rules, in their order: the weighted shortages of the rule's
    /// constraints, the weights of the requests that are not granted, and the rule's part of the constant.
    /// They are the costs of the rules under the conditions of `Judge::verdict`.
    pub costs: [u64; SOFT_RULES],
}
