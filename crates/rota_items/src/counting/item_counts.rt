//! The number of items and of their slacks.
ghost use Rattle.std.specs.Prelude.{◌≡◌, length};
ghost use Rattle.rota_core.specs.InstanceTables.{IsInstance, problem_of};
ghost use Rattle.rota_items.specs.WeekModel.{slack_count};
ghost use Rattle.rota_items.specs.RuleItems.{soft_items};

use crate::counting::run_counts::{patterns_of, windows_of};
use crate::items::item_takers::ItemTaker;
use crate::items::run_takers::RunTaker;
use crate::items::soft_item::{NurseRuns, SoftItem};
use crate::rules::visit_soft_items;
use rota_core::Instance;
use std::convert::Infallible;

/// Counts items and their slacks. A number that would overflow stays at the maximum.
#[derive(Clone, Copy)]
pub struct ItemCounts {
    pub items: u32,
    pub slacks: u32,
}

impl ItemTaker for ItemCounts {
    type Fault = Infallible;

    ghost use Rattle.rota_items.specs.ItemCounting.{ItemNumbers, with_one};

    ghost Value = { ItemNumbers };

    ghost value = { λ counts. record { items = counts.items; slacks = counts.slacks } };

    ghost step = { with_one };

    ghost left = { λ _ _ _. ⊥ };

    fn item(&mut self, _instance: &Instance, item: SoftItem) -> Result<(), Infallible> {
        self.items = self.items.saturating_add(1);
        self.slacks = self.slacks.saturating_add(item.slacks);
        Ok(())
    }
}

impl RunTaker for ItemCounts {
    // Each window and each pattern is an item with one slack.
    #[tactic(auto, using(crate::proofs::EachPattern::run_counting))]
    fn runs(&mut self, _instance: &Instance, runs: NurseRuns) -> Result<(), Infallible> {
        let items = windows_of(runs.history, runs.limits) + patterns_of(runs.history, runs.limits);
        self.items = self.items.saturating_add(items);
        self.slacks = self.slacks.saturating_add(items);
        Ok(())
    }
}

/// The number of the soft rules' items, and of their slacks.
#[tactic(auto, using(crate::proofs::ItemCounting::week_counted))]
pub fn count_soft_items(instance: &Instance) -> ItemCounts
    requires limits { IsInstance instance.now }
    ensures items { result.items ≡ length (soft_items (problem_of instance.now)) }
    ensures slacks { result.slacks ≡ slack_count (soft_items (problem_of instance.now)) }
{
    let mut counts = ItemCounts {
        items: 0,
        slacks: 0,
    };
    match visit_soft_items(instance, &mut counts) {
        Ok(()) => counts,
        Err(never) => match never {},
    }
}
