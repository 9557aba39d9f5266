//! H3: no shift type after one that it may not follow.
ghost use Rattle.std.specs.Prelude.{◌≡◌, ◌<◌, ◌+◌, ◌-◌};
ghost use Rattle.rota_core.specs.InstanceTables.{problem_of};
ghost use Rattle.rota_core.specs.Lists.{concat_below};
ghost use Rattle.rota_items.specs.HardRows.{h3_monday_rows, h3_rows, h3_rows_at, h3_rows_between, h3_rows_of};
ghost use Rattle.rota_core.specs.Successions.{is_forbidden_after};
ghost use Rattle.rota_items.specs.Takes.{TakesRows};

use crate::cell_sum::CellSum;
use crate::hard::row_takers::{HardRow, RowTaker};
use crate::hard::row_visits::emit_row_if;
use rota_core::{DAYS, Instance, Rule};

// Whether the nurse may not have the shift type on Monday, after the last one of the history.
fn forbidden_on_monday(instance: &Instance, nurse: u16, shift: u8) -> bool
    ensures { let problem = problem_of instance.now in
        result ≡ is_forbidden_after problem (problem.past nurse).last shift }
{
    match instance.past(nurse).last {
        None => false,
        Some(last) => instance.forbidden(last, shift),
    }
}

// The shift types that a nurse may not have on Monday, after the last one of the history.
#[tactic(auto, using(crate::proofs::LoopSteps::row_loops))]
fn visit_monday<T: RowTaker>(instance: &Instance, taker: &mut T, nurse: u16) -> Result<(), T::Fault>
    ensures { let problem = problem_of instance.now in
        TakesRows T.RowTaker problem (h3_monday_rows problem nurse) taker.old taker.new result }
{
    for shift in 0..instance.shifts() {
        let row = HardRow {
            rule: Rule::H3,
            sum: CellSum::NurseDayShift {
                nurse,
                shift,
                day: 0,
            },
            degree: 0,
        };
        emit_row_if(
            instance,
            taker,
            forbidden_on_monday(instance, nurse, shift),
            row,
        )?;
    }
    Ok(())
}

// Not both the shift type on a day and another on the next, if the other may not follow it.
#[tactic(auto, using(crate::proofs::LoopSteps::row_loops))]
fn visit_after<T: RowTaker>(
    instance: &Instance,
    taker: &mut T,
    nurse: u16,
    day: u8,
    first: u8,
) -> Result<(), T::Fault>
    requires day_in { day + 1 < DAYS }
    ensures { let problem = problem_of instance.now in
        TakesRows T.RowTaker problem (concat_below problem.shifts (h3_rows_at problem nurse day first))
        taker.old taker.new result }
{
    for second in 0..instance.shifts() {
        let row = HardRow {
            rule: Rule::H3,
            sum: CellSum::ShiftPair {
                nurse,
                day,
                first,
                second,
            },
            degree: -1,
        };
        emit_row_if(instance, taker, instance.forbidden(first, second), row)?;
    }
    Ok(())
}

// Not both shift types on a day and the next, if the second may not follow the first.
#[tactic(auto, using(crate::proofs::LoopSteps::row_loops))]
fn visit_between<T: RowTaker>(
    instance: &Instance,
    taker: &mut T,
    nurse: u16,
    day: u8,
) -> Result<(), T::Fault>
    requires day_in { day + 1 < DAYS }
    ensures { let problem = problem_of instance.now in
        TakesRows T.RowTaker problem (h3_rows_between problem nurse day) taker.old taker.new result }
{
    for first in 0..instance.shifts() {
        visit_after(instance, taker, nurse, day, first)?;
    }
    Ok(())
}

// The forbidden successions of a nurse within the week.
#[tactic(auto, using(crate::proofs::LoopSteps::row_loops))]
fn visit_days<T: RowTaker>(instance: &Instance, taker: &mut T, nurse: u16) -> Result<(), T::Fault>
    ensures { let problem = problem_of instance.now in
        TakesRows T.RowTaker problem (concat_below (DAYS - 1) (h3_rows_between problem nurse))
        taker.old taker.new result }
{
    for day in 0..DAYS - 1 {
        visit_between(instance, taker, nurse, day)?;
    }
    Ok(())
}

// The forbidden successions of a nurse.
#[tactic(auto, using(crate::proofs::Taking::calling), unfolding(crate::specs::SentItems::numbered_rows))]
fn visit_nurse<T: RowTaker>(instance: &Instance, taker: &mut T, nurse: u16) -> Result<(), T::Fault>
    ensures { let problem = problem_of instance.now in
        TakesRows T.RowTaker problem (h3_rows_of problem nurse) taker.old taker.new result }
{
    visit_monday(instance, taker, nurse)?;
    visit_days(instance, taker, nurse)
}

/// No forbidden succession of shift types.
#[tactic(auto, using(crate::proofs::LoopSteps::row_loops))]
pub fn visit<T: RowTaker>(instance: &Instance, taker: &mut T) -> Result<(), T::Fault>
    ensures { let problem = problem_of instance.now in
        TakesRows T.RowTaker problem (h3_rows problem) taker.old taker.new result }
{
    for nurse in 0..instance.nurses() {
        visit_nurse(instance, taker, nurse)?;
    }
    Ok(())
}
