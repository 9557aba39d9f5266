//! Takers of the items of a nurse's runs in one call.
ghost use Rattle.rota_core.specs.InstanceTables.{problem_of};
ghost use Rattle.rota_items.specs.SentItems.{numbered_list, runs_of};
ghost use Rattle.rota_items.specs.RunItems.{run_items};
ghost use Rattle.rota_items.specs.Takes.{TakesAll};

use crate::items::item_takers::ItemTaker;
use crate::items::soft_item::NurseRuns;
use rota_core::Instance;

/// A taker of all items of a nurse's runs in one call, with the same result as one by one.
pub trait RunTaker: ItemTaker {
    /// Takes the items of a nurse's runs: the windows of the week, then the runs that end in it.
    fn runs(&mut self, instance: &Instance, runs: NurseRuns) -> Result<(), Self::Fault>
        ensures { let problem = problem_of instance.now in
            TakesAll Self.value Self.step Self.left
            (numbered_list problem (run_items (runs_of problem runs))) self.old self.new result };
}
