//! S1, optimal coverage: nurses below the optimal number of a day's shift type and skill.
ghost use Rattle.std.specs.Prelude.{◌≡◌, nat_lt};
ghost use Rattle.rota_core.specs.InstanceTables.{problem_of};
ghost use Rattle.rota_core.specs.Lists.{concat_below};
ghost use Rattle.rota_items.specs.CellSums.{IsSumOf};
ghost use Rattle.rota_items.specs.SentItems.{item_of};
ghost use Rattle.rota_items.specs.Takes.{TakesItems};
ghost use Rattle.rota_items.specs.rules.OptimalCoverage.{optimum_item, optimum_items, optimum_items_at};

use crate::cell_sum::CellSum;
use crate::items::item_takers::ItemTaker;
use crate::items::soft_item::SoftItem;
use crate::rules::item_visits::emit_item_if;
use rota_core::{DAYS, Instance, Rule};
use rota_rules::OPTIMUM_WEIGHT;

// The item of a day's shift type and skill: each nurse missing below the optimal number.
fn optimum_item(instance: &Instance, day: u8, shift: u8, skill: u8) -> SoftItem
    ensures item { let problem = problem_of instance.now in
        item_of problem result ≡ optimum_item problem day shift skill }
    ensures sum_in { IsSumOf result.sum }
{
    let demand = instance.demand(day, shift, skill);
    SoftItem {
        rule: Rule::S1,
        weight: u32::from(OPTIMUM_WEIGHT),
        slacks: u32::from(demand.optimal.saturating_sub(demand.minimum)),
        sum: CellSum::Demand { day, shift, skill },
        degree: i64::from(demand.optimal),
    }
}

// Whether the optimal number of nurses is above the minimum.
fn is_above_minimum(instance: &Instance, day: u8, shift: u8, skill: u8) -> bool
    ensures { let demand = (problem_of instance.now).demand day shift skill in
        result ≡ nat_lt demand.minimum demand.optimal }
{
    let demand = instance.demand(day, shift, skill);
    demand.minimum < demand.optimal
}

// The nurses missing for each skill of a day's shift type.
#[tactic(auto, using(crate::proofs::LoopSteps::item_loops))]
fn visit_shift<T: ItemTaker>(
    instance: &Instance,
    taker: &mut T,
    day: u8,
    shift: u8,
) -> Result<(), T::Fault>
    ensures { let problem = problem_of instance.now in
        TakesItems T.ItemTaker problem (concat_below problem.skills (optimum_items_at problem day shift))
        taker.old taker.new result }
{
    for skill in 0..instance.skills() {
        let is_charged = is_above_minimum(instance, day, shift, skill);
        let item = optimum_item(instance, day, shift, skill);
        emit_item_if(instance, taker, is_charged, item)?;
    }
    Ok(())
}

// The nurses missing for each shift type and skill of a day.
#[tactic(auto, using(crate::proofs::LoopSteps::item_loops))]
fn visit_day<T: ItemTaker>(instance: &Instance, taker: &mut T, day: u8) -> Result<(), T::Fault>
    ensures { let problem = problem_of instance.now in
        TakesItems T.ItemTaker problem
        (concat_below problem.shifts (λ shift. concat_below problem.skills (optimum_items_at problem day shift)))
        taker.old taker.new result }
{
    for shift in 0..instance.shifts() {
        visit_shift(instance, taker, day, shift)?;
    }
    Ok(())
}

/// Each nurse missing below the optimal number, for each day, shift type and skill for which it is above the
/// minimum.
#[tactic(auto, using(crate::proofs::LoopSteps::item_loops))]
pub fn visit<T: ItemTaker>(instance: &Instance, taker: &mut T) -> Result<(), T::Fault>
    ensures { let problem = problem_of instance.now in
        TakesItems T.ItemTaker problem (optimum_items problem) taker.old taker.new result }
{
    for day in 0..DAYS {
        visit_day(instance, taker, day)?;
    }
    Ok(())
}
