//! The items of a nurse's weekend, which two rules charge.
ghost use Rattle.std.specs.Prelude.{◌≡◌, [], ◌∷◌};
ghost use Rattle.rota_core.specs.InstanceTables.{problem_of};
ghost use Rattle.rota_items.specs.Takes.{TakesItems};
ghost use Rattle.rota_items.specs.CellSums.{IsInWeek, pattern_of};
ghost use Rattle.rota_items.specs.SentItems.{charged_items};
ghost use Rattle.rota_items.specs.RunItems.{only_sunday, saturday};

use crate::cell_sum::DayPattern;
use crate::items::item_takers::ItemTaker;
use crate::items::soft_item::RunCharge;
use crate::runs::run_patterns::pattern_item;
use rota_core::{DAYS, Instance};

// Work on Saturday, and no work on Sunday if Saturday must be alone.
#[tactic(auto, unfolding(rota_core::specs::Lists::singleton_if))]
fn saturday(alone: bool) -> DayPattern
    ensures days_in { IsInWeek result }
    ensures pattern { pattern_of result ≡ saturday alone }
{
    DayPattern {
        first: 5,
        end: 6,
        without_before: false,
        without_after: alone,
        units: 1,
    }
}

// Work on Sunday, and no work on Saturday.
#[tactic(auto, unfolding(rota_core::specs::Lists::singleton_if))]
fn only_sunday() -> DayPattern
    ensures days_in { IsInWeek result }
    ensures pattern { pattern_of result ≡ only_sunday }
{
    DayPattern {
        first: 6,
        end: DAYS,
        without_before: true,
        without_after: false,
        units: 1,
    }
}

/// The items that charge a nurse's Saturday, alone or not, and her Sunday without Saturday.
pub fn visit_weekend<T: ItemTaker>(
    instance: &Instance,
    taker: &mut T,
    charge: RunCharge,
    alone: bool,
) -> Result<(), T::Fault>
    ensures { let problem = problem_of instance.now in
        TakesItems T.ItemTaker problem (charged_items problem charge (saturday alone ∷ only_sunday ∷ []))
        taker.old taker.new result }
{
    taker.item(instance, pattern_item(charge, saturday(alone)))?;
    taker.item(instance, pattern_item(charge, only_sunday()))
}
