//! A step of a walk over the items of the soft rules.
ghost use Rattle.rota_core.specs.InstanceTables.{problem_of};
ghost use Rattle.rota_core.specs.Lists.{singleton_if};
ghost use Rattle.rota_items.specs.Takes.{TakesItems};
ghost use Rattle.rota_items.specs.CellSums.{IsSumOf};
ghost use Rattle.rota_items.specs.SentItems.{item_of};

use crate::items::item_takers::ItemTaker;
use crate::items::soft_item::SoftItem;
use rota_core::Instance;

/// Sends the item to the taker if the condition holds.
#[tactic(auto, using(crate::proofs::Taking::calling), unfolding(crate::specs::SentItems::numbered_list, rota_core::specs::Lists::singleton_if))]
pub fn emit_item_if<T: ItemTaker>(
    instance: &Instance,
    taker: &mut T,
    there: bool,
    item: SoftItem,
) -> Result<(), T::Fault>
    requires { IsSumOf item.sum }
    ensures { let problem = problem_of instance.now in
        TakesItems T.ItemTaker problem (singleton_if there (item_of problem item)) taker.old taker.new result }
{
    if there {
        taker.item(instance, item)
    } else {
        Ok(())
    }
}
