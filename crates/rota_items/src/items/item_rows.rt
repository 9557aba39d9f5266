//! The rows of items, sent to a taker of rows.
ghost use Rattle.rota_core.specs.InstanceTables.{problem_of};
ghost use Rattle.rota_items.specs.Events.{events};
ghost use Rattle.rota_items.specs.WeekModel.{item_rows, first_slack, numbered_items};
ghost use Rattle.rota_items.specs.Takes.{Takes};

use crate::items::item_takers::ItemTaker;
use crate::items::run_takers::RunTaker;
use crate::items::soft_item::{NurseRuns, SoftItem};
use crate::part::Part;
use crate::rules::visit_soft_items;
use crate::runs::run_visits::visit_runs;
use crate::sum_terms::emit_sum;
use crate::sums::emit_range;
use crate::takers::Taker;
use crate::variables::unit_var;
use rota_core::Instance;

// Sends a taker of rows the row of each item. Its slacks follow the slacks of the item before.
#[derive(Drop)]
struct ItemRows<'t, T: Taker> {
    taker: &'t mut T,
    next: u32,
}

impl<'t, T: Taker> ItemTaker for ItemRows<'t, T> {
    type Fault = T::Fault;

    ghost use Rattle.rota_items.specs.RowsOfItems.{RowsState, StopsAtRow, row_of_item, with_item};

    ghost Value = { RowsState T.Value };

    ghost value = { λ rows. record { name = rows.taker.ghost_name; value = T.value rows.taker.now; next = rows.next } };

    ghost step = { with_item T.step row_of_item };

    ghost left = { λ before item rows. StopsAtRow T.Taker row_of_item before item rows.taker.ghost_name rows.taker.now };

    fn item(&mut self, instance: &Instance, item: SoftItem) -> Result<(), T::Fault> {
        let item = item.within_numbers(self.next);
        self.taker
            .start_row(Part::Soft(item.rule, u64::from(item.weight)))?;
        emit_sum(instance, self.taker, item.sum)?;
        emit_range(self.taker, 1, self.next, item.slacks)?;
        self.taker.close_row(item.degree)?;
        self.next += item.slacks;
        Ok(())
    }
}

impl<'t, T: Taker> RunTaker for ItemRows<'t, T> {
    fn runs(&mut self, instance: &Instance, runs: NurseRuns) -> Result<(), T::Fault> {
        visit_runs(instance, self, runs)
    }
}

/// Sends the taker the row of each item of the soft rules, in the order of the rules.
///
/// A row has the item's terms in ascending order of the variables, then its slacks with coefficient 1. The
/// slacks of all items follow one another, from the variable after the unit variable on.
pub fn emit_item_rows<T: Taker>(instance: &Instance, taker: &mut T) -> Result<(), T::Fault>
    ensures { let problem = problem_of instance.now in
        Takes T.Taker (events (item_rows (first_slack problem) (numbered_items problem)))
        taker.old taker.new result }
{
    let mut rows = ItemRows {
        taker,
        next: unit_var(instance) + 1,
    };
    visit_soft_items(instance, &mut rows)
}
