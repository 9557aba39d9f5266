//! S6, total assignments: assignments outside the limits of the nurse's total.
ghost use Rattle.std.specs.Prelude.{◌≡◌, ◌&&◌, nat_lt};
ghost use Rattle.rota_core.specs.InstanceTables.{problem_of};
ghost use Rattle.rota_items.specs.CountedItems.{max_totals_count};
ghost use Rattle.rota_items.specs.Takes.{TakesItems};
ghost use Rattle.rota_items.specs.CellSums.{IsSumOf};
ghost use Rattle.rota_items.specs.SentItems.{item_of};
ghost use Rattle.rota_items.specs.rules.TotalAssignments.{assignment_constant_of, assignments_above, max_total_item, min_total_item};
ghost use Rattle.rota_items.specs.rules.TotalAssignments.{still_allowed, still_wanted, totals_of, wanted_beyond_days};

use crate::cell_sum::CellSum;
use crate::items::item_takers::ItemTaker;
use crate::items::soft_item::SoftItem;
use crate::rules::counted_totals::{excess_before_counts, max_totals_count};
use crate::rules::item_visits::emit_item_if;
use crate::sums::Sign;
use rota_core::{DAYS, Instance, Rule};
use rota_rules::ASSIGNMENT_WEIGHT;

// The number of assignments that the nurse still needs for her minimum total.
fn still_wanted(instance: &Instance, nurse: u16) -> u16
    ensures { result ≡ still_wanted (problem_of instance.now) nurse }
{
    let minimum = instance.contract(nurse).total.min;
    minimum.saturating_sub(instance.past(nurse).assignments)
}

// The number of assignments that the nurse may still have without exceeding her maximum total.
fn still_allowed(instance: &Instance, nurse: u16) -> u16
    ensures { result ≡ still_allowed (problem_of instance.now) nurse }
{
    let maximum = instance.contract(nurse).total.max;
    maximum.saturating_sub(instance.past(nurse).assignments)
}

// Whether the minimum total counts and needs more assignments.
fn asks_for_more(instance: &Instance, nurse: u16) -> bool
    ensures { let problem = problem_of instance.now in
        result ≡ (problem.is_last && nat_lt 0 (still_wanted problem nurse)) }
{
    instance.last_week() && 0 < still_wanted(instance, nurse)
}

// Whether the maximum total counts and the week can exceed it.
fn can_exceed(instance: &Instance, nurse: u16) -> bool
    ensures { let problem = problem_of instance.now in
        result ≡ (max_totals_count problem && nat_lt (still_allowed problem nurse) DAYS) }
{
    max_totals_count(instance) && still_allowed(instance, nurse) < u16::from(DAYS)
}

// The item of a nurse's minimum total: the assignments that are still needed, at most one a day.
fn min_total(instance: &Instance, nurse: u16) -> SoftItem
    ensures item { let problem = problem_of instance.now in item_of problem result ≡ min_total_item problem nurse }
    ensures sum_in { IsSumOf result.sum }
{
    let missing = still_wanted(instance, nurse).min(u16::from(DAYS));
    SoftItem {
        rule: Rule::S6,
        weight: u32::from(ASSIGNMENT_WEIGHT),
        slacks: u32::from(missing),
        sum: CellSum::Total {
            nurse,
            sign: Sign::Plus,
        },
        degree: i64::from(missing),
    }
}

// The item of a nurse's maximum total: no more assignments than are allowed.
fn max_total(instance: &Instance, nurse: u16) -> SoftItem
    ensures item { let problem = problem_of instance.now in item_of problem result ≡ max_total_item problem nurse }
    ensures sum_in { IsSumOf result.sum }
{
    let room = still_allowed(instance, nurse);
    SoftItem {
        rule: Rule::S6,
        weight: u32::from(ASSIGNMENT_WEIGHT),
        slacks: u32::from(u16::from(DAYS).saturating_sub(room)),
        sum: CellSum::Total {
            nurse,
            sign: Sign::Minus,
        },
        degree: 0 - i64::from(room),
    }
}

/// The item of a nurse's minimum total, if it counts and needs more assignments, and the item of her maximum,
/// if it counts and the week can exceed it.
#[tactic(auto, using(crate::proofs::Taking::calling), unfolding(crate::specs::SentItems::numbered_list))]
pub fn visit<T: ItemTaker>(instance: &Instance, taker: &mut T, nurse: u16) -> Result<(), T::Fault>
    ensures { let problem = problem_of instance.now in
        TakesItems T.ItemTaker problem (totals_of problem nurse) taker.old taker.new result }
{
    let asks = asks_for_more(instance, nurse);
    emit_item_if(instance, taker, asks, min_total(instance, nurse))?;
    let exceeds = can_exceed(instance, nurse);
    emit_item_if(instance, taker, exceeds, max_total(instance, nurse))
}

// The number of needed assignments beyond one for each day of the week.
fn wanted_beyond_days(instance: &Instance, nurse: u16) -> u16
    ensures { result ≡ wanted_beyond_days (problem_of instance.now) nurse }
{
    if !instance.last_week() {
        return 0;
    }
    still_wanted(instance, nurse).saturating_sub(u16::from(DAYS))
}

// The number of the nurse's assignments in the history above her maximum total.
fn assignments_above(instance: &Instance, nurse: u16) -> u16
    ensures { result ≡ assignments_above (problem_of instance.now) nurse }
{
    if !excess_before_counts(instance) {
        return 0;
    }
    let maximum = instance.contract(nurse).total.max;
    instance.past(nurse).assignments.saturating_sub(maximum)
}

/// A nurse's part of the constant, which no roster that keeps H1 can avoid: needed assignments beyond seven,
/// and, unless excess is charged early, assignments in the history above the maximum total.
pub fn constant(instance: &Instance, nurse: u16) -> u64
    ensures { result ≡ assignment_constant_of (problem_of instance.now) nurse }
{
    let wanted = u64::from(wanted_beyond_days(instance, nurse));
    u64::from(ASSIGNMENT_WEIGHT) * (wanted + u64::from(assignments_above(instance, nurse)))
}
