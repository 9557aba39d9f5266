//! S7, worked weekends: the weekends above the nurse's maximum.
ghost use Rattle.std.specs.Prelude.{◌≡◌, ◌&&◌, nat_le};
ghost use Rattle.rota_core.specs.InstanceTables.{problem_of};
ghost use Rattle.rota_items.specs.CountedItems.{max_totals_count};
ghost use Rattle.rota_items.specs.Takes.{TakesItems};
ghost use Rattle.rota_items.specs.rules.WorkedWeekends.{weekend_constant_of, weekends_above, worked_weekends_of};

use crate::cell_sum::DayProperty;
use crate::items::item_takers::ItemTaker;
use crate::items::soft_item::RunCharge;
use crate::rules::counted_totals::{excess_before_counts, max_totals_count};
use crate::rules::weekend_visits::visit_weekend;
use rota_core::{Instance, Rule};
use rota_rules::WORKED_WEEKEND_WEIGHT;

// Whether a weekend that the nurse works now is charged: the number of weekends before is at least the
// maximum of her contract.
fn is_charged(instance: &Instance, nurse: u16) -> bool
    ensures { let problem = problem_of instance.now in
        result ≡ (max_totals_count problem && nat_le (problem.contract nurse).weekends (problem.past nurse).weekends) }
{
    max_totals_count(instance) && instance.contract(nurse).weekends <= instance.past(nurse).weekends
}

/// Work on Saturday, and on Sunday without Saturday, if it is charged.
#[tactic(auto, using(crate::proofs::Taking::taking), unfolding(crate::specs::SentItems::numbered_list))]
pub fn visit<T: ItemTaker>(instance: &Instance, taker: &mut T, nurse: u16) -> Result<(), T::Fault>
    ensures { let problem = problem_of instance.now in
        TakesItems T.ItemTaker problem (worked_weekends_of problem nurse) taker.old taker.new result }
{
    if !is_charged(instance, nurse) {
        return Ok(());
    }
    let charge = RunCharge {
        rule: Rule::S7,
        weight: WORKED_WEEKEND_WEIGHT,
        nurse,
        property: DayProperty::Work,
    };
    visit_weekend(instance, taker, charge, false)
}

// The number of the nurse's weekends in the history above her maximum.
fn weekends_above(instance: &Instance, nurse: u16) -> u16
    ensures { result ≡ weekends_above (problem_of instance.now) nurse }
{
    if !excess_before_counts(instance) {
        return 0;
    }
    let maximum = instance.contract(nurse).weekends;
    instance.past(nurse).weekends.saturating_sub(maximum)
}

/// A nurse's part of the constant, which no roster of the week can avoid: the weekends in the history above
/// her maximum, unless excess is charged early.
pub fn constant(instance: &Instance, nurse: u16) -> u64
    ensures { result ≡ weekend_constant_of (problem_of instance.now) nurse }
{
    u64::from(WORKED_WEEKEND_WEIGHT) * u64::from(weekends_above(instance, nurse))
}
