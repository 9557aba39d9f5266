//! The walk over the items that charge a nurse's runs.
ghost use Rattle.std.specs.Prelude.{◌<◌};
ghost use Rattle.rota_core.specs.InstanceTables.{problem_of};
ghost use Rattle.rota_core.specs.Lists.{concat_below};
ghost use Rattle.rota_items.specs.Takes.{TakesItems};
ghost use Rattle.rota_items.specs.SentItems.{runs_of};
ghost use Rattle.rota_items.specs.RunItemParts.{pattern_items_on, window_items_on};
ghost use Rattle.rota_items.specs.RunItems.{run_items};

use crate::cell_sum::DayPattern;
use crate::items::item_takers::ItemTaker;
use crate::items::soft_item::{NurseRuns, RunCharge};
use crate::runs::run_patterns::{closed_before, edge_before, pattern_item, window_on};
use rota_core::{DAYS, Instance};

// The windows of the week.
#[tactic(auto, using(crate::proofs::Taking::taking), unfolding(crate::specs::SentItems::numbered_list))]
fn visit_windows<T: ItemTaker>(
    instance: &Instance,
    taker: &mut T,
    runs: NurseRuns,
) -> Result<(), T::Fault>
    ensures { let problem = problem_of instance.now in
        TakesItems T.ItemTaker problem (concat_below DAYS (window_items_on (runs_of problem runs)))
        taker.old taker.new result }
{
    for day in 0..DAYS {
        if let Some(window) = window_on(runs.history, runs.limits, day) {
            taker.item(instance, pattern_item(runs.charge, window))?;
        }
    }
    Ok(())
}

// The runs that end before a day.
#[tactic(auto, using(crate::proofs::Taking::taking), unfolding(crate::specs::SentItems::numbered_list))]
fn visit_patterns_on<T: ItemTaker>(
    instance: &Instance,
    taker: &mut T,
    runs: NurseRuns,
    day: u8,
) -> Result<(), T::Fault>
    requires day_in { day < DAYS }
    ensures { let problem = problem_of instance.now in
        TakesItems T.ItemTaker problem (pattern_items_on (runs_of problem runs) day)
        taker.old taker.new result }
{
    for count in 0..day {
        if let Some(closed) = closed_before(runs.limits.min, day, count) {
            taker.item(instance, pattern_item(runs.charge, closed))?;
        }
    }
    match edge_before(runs.history, runs.limits.min, day) {
        Some(edge) => taker.item(instance, pattern_item(runs.charge, edge)),
        None => Ok(()),
    }
}

/// The items of a nurse's runs: the windows of the week, then the runs that end in it.
#[tactic(auto, using(crate::proofs::Taking::taking), unfolding(crate::specs::SentItems::numbered_list))]
pub fn visit_runs<T: ItemTaker>(
    instance: &Instance,
    taker: &mut T,
    runs: NurseRuns,
) -> Result<(), T::Fault>
    ensures { let problem = problem_of instance.now in
        TakesItems T.ItemTaker problem (run_items (runs_of problem runs)) taker.old taker.new result }
{
    visit_windows(instance, taker, runs)?;
    for day in 0..DAYS {
        visit_patterns_on(instance, taker, runs, day)?;
    }
    Ok(())
}
