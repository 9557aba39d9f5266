//! The items of the soft rules as values, which a walk over them sends to a taker.
ghost use Rattle.std.specs.Prelude.{◌≡◌, ◌+◌, ◌<◌};
ghost use Rattle.rota_items.specs.RowsOfItems.{slacks_within};
ghost use Rattle.rota_items.specs.MachineBounds.{word_limit};

use crate::cell_sum::{CellSum, DayProperty};
use rota_core::{Rule, Span};

/// An item: the sum of its terms and its `slacks` slacks must be at least the degree, and each true slack
/// costs the weight.
#[derive(Clone, Copy)]
pub struct SoftItem {
    pub rule: Rule,
    pub weight: u32,
    pub slacks: u32,
    pub sum: CellSum,
    pub degree: i64,
}

impl SoftItem {
    /// The item with those of its slacks, from the first on, for which there are numbers. The model of a week
    /// has numbers for all.
    pub fn within_numbers(self, first: u32) -> SoftItem
        ensures slacks_fit { first + result.slacks < word_limit }
        ensures item { result ≡ record self { slacks = slacks_within first self.slacks } }
    {
        SoftItem {
            slacks: self.slacks.min(u32::MAX - first),
            ..self
        }
    }
}

/// How a nurse's runs are charged: the rule, the weight of a unit, and the property that the days of a
/// pattern must have.
#[derive(Clone, Copy)]
pub struct RunCharge {
    pub rule: Rule,
    pub weight: u16,
    pub nurse: u16,
    pub property: DayProperty,
}

/// A nurse's runs: the length of the run that the history left, and the limits of a run's length.
#[derive(Clone, Copy)]
pub struct NurseRuns {
    pub charge: RunCharge,
    pub history: u16,
    pub limits: Span,
}
