//! The weights of items' slacks, sent to a taker of rows as terms of the objective.
ghost use Rattle.rota_core.specs.InstanceTables.{problem_of};
ghost use Rattle.rota_items.specs.Events.{term_events};
ghost use Rattle.rota_items.specs.WeekModel.{slack_weights, first_slack, numbered_items};
ghost use Rattle.rota_items.specs.Takes.{Takes};

use crate::items::item_takers::ItemTaker;
use crate::items::run_takers::RunTaker;
use crate::items::soft_item::{NurseRuns, SoftItem};
use crate::rules::visit_soft_items;
use crate::runs::run_visits::visit_runs;
use crate::sums::emit_range;
use crate::takers::Taker;
use crate::variables::unit_var;
use rota_core::Instance;

// Sends a taker of rows the slacks of each item, each with the item's weight.
#[derive(Drop)]
struct SlackWeights<'t, T: Taker> {
    taker: &'t mut T,
    next: u32,
}

impl<'t, T: Taker> ItemTaker for SlackWeights<'t, T> {
    type Fault = T::Fault;

    ghost use Rattle.rota_items.specs.RowsOfItems.{RowsState, StopsAtRow, weights_of_item, with_item};

    ghost Value = { RowsState T.Value };

    ghost value = { λ weights. record { name = weights.taker.ghost_name; value = T.value weights.taker.now; next = weights.next } };

    ghost step = { with_item T.step weights_of_item };

    ghost left = { λ before item weights. StopsAtRow T.Taker weights_of_item before item weights.taker.ghost_name weights.taker.now };

    fn item(&mut self, instance: &Instance, item: SoftItem) -> Result<(), T::Fault> {
        let item = item.within_numbers(self.next);
        emit_range(self.taker, i64::from(item.weight), self.next, item.slacks)?;
        self.next += item.slacks;
        Ok(())
    }
}

impl<'t, T: Taker> RunTaker for SlackWeights<'t, T> {
    fn runs(&mut self, instance: &Instance, runs: NurseRuns) -> Result<(), T::Fault> {
        visit_runs(instance, self, runs)
    }
}

/// Sends the taker a term for each slack of the soft rules' items, in ascending order of the variables. Its
/// coefficient is the weight of the item.
pub fn emit_slack_weights<T: Taker>(instance: &Instance, taker: &mut T) -> Result<(), T::Fault>
    ensures { let problem = problem_of instance.now in
        Takes T.Taker (term_events (slack_weights (first_slack problem) (numbered_items problem)))
        taker.old taker.new result }
{
    let mut weights = SlackWeights {
        taker,
        next: unit_var(instance) + 1,
    };
    visit_soft_items(instance, &mut weights)
}
