//! S5, complete weekends: a nurse works on only one day of the weekend although her contract asks for
//! complete weekends.
ghost use Rattle.rota_core.specs.InstanceTables.{problem_of};
ghost use Rattle.rota_items.specs.Takes.{TakesItems};
ghost use Rattle.rota_items.specs.rules.CompleteWeekends.{complete_weekends_of};

use crate::cell_sum::DayProperty;
use crate::items::item_takers::ItemTaker;
use crate::items::soft_item::RunCharge;
use crate::rules::weekend_visits::visit_weekend;
use rota_core::{Instance, Rule};
use rota_rules::COMPLETE_WEEKEND_WEIGHT;

/// Saturday without Sunday, and Sunday without Saturday, if the contract asks for complete weekends.
#[tactic(auto, using(crate::proofs::Taking::taking), unfolding(crate::specs::SentItems::numbered_list))]
pub fn visit<T: ItemTaker>(instance: &Instance, taker: &mut T, nurse: u16) -> Result<(), T::Fault>
    ensures { let problem = problem_of instance.now in
        TakesItems T.ItemTaker problem (complete_weekends_of problem nurse) taker.old taker.new result }
{
    if !instance.contract(nurse).complete {
        return Ok(());
    }
    let charge = RunCharge {
        rule: Rule::S5,
        weight: COMPLETE_WEEKEND_WEIGHT,
        nurse,
        property: DayProperty::Work,
    };
    visit_weekend(instance, taker, charge, true)
}
