//! Takers of the rows of the hard rules, row by row.
ghost use Rattle.std.specs.Prelude.{◌≡◌, ℕ, MatchResult};
ghost use Rattle.rota_core.specs.InstanceTables.{problem_of};
ghost use Rattle.rota_items.specs.CellSums.{IsSumOf};
ghost use Rattle.rota_items.specs.SentItems.{hard_row_of};
ghost use Rattle.rota_items.specs.Rows.{LinearRow};
ghost use Rattle.rota_items.specs.WeekModel.{numbered_row};

use crate::cell_sum::CellSum;
use crate::part::Part;
use crate::sum_terms::emit_sum;
use crate::takers::Taker;
use rota_core::{Instance, Rule};

/// A row of a hard rule: the sum of its terms must be at least the degree.
#[derive(Clone, Copy)]
pub struct HardRow {
    pub rule: Rule,
    pub sum: CellSum,
    pub degree: i64,
}

/// A taker of the rows of the hard rules, one at a time. It sends on their events, or counts them.
///
/// Like a taker of events it has an abstract value, and a row that it takes is a step of that value.
pub trait RowTaker {
    /// The reason why a row may be refused.
    type Fault;

    ghost Value: { Type 0 };

    ghost value: { Self → Value };

    ghost step: { Value → LinearRow ℕ → Value };

    ghost left: { Value → LinearRow ℕ → Self → Type 0 };

    /// Takes a row of the instance's week.
    fn row(&mut self, instance: &Instance, row: HardRow) -> Result<(), Self::Fault>
        requires { IsSumOf row.sum }
        ensures { let problem = problem_of instance.now in
            let one = numbered_row problem (hard_row_of problem row) in
            MatchResult result
            (λ _. value self.new ≡ step (value self.old) one)
            (λ _. left (value self.old) one self.new) };
}

// A taker of events takes the row's events.
impl<T: Taker> RowTaker for T {
    type Fault = T::Fault;

    ghost use Rattle.rota_items.specs.Events.{row_events};
    ghost use Rattle.rota_items.specs.RowsOfItems.{with_row};
    ghost use Rattle.rota_items.specs.Takes.{RefusedFrom};

    ghost Value = { T.Value };

    ghost value = { T.value };

    ghost step = { with_row T.step };

    ghost left = { λ before row. RefusedFrom T.value T.step T.left before (row_events row) };

    fn row(&mut self, instance: &Instance, row: HardRow) -> Result<(), T::Fault> {
        self.start_row(Part::Hard(row.rule))?;
        emit_sum(instance, self, row.sum)?;
        self.close_row(row.degree)
    }
}
