//! H2: the minimum number of nurses, if it is above 0.
ghost use Rattle.std.specs.Prelude.{◌≡◌};
ghost use Rattle.rota_core.specs.InstanceTables.{problem_of};
ghost use Rattle.rota_core.specs.Lists.{concat_below};
ghost use Rattle.rota_items.specs.CellSums.{IsSumOf};
ghost use Rattle.rota_items.specs.HardRows.{h2_row, h2_rows, h2_rows_at};
ghost use Rattle.rota_items.specs.SentItems.{hard_row_of};
ghost use Rattle.rota_items.specs.Takes.{TakesRows};

use crate::cell_sum::CellSum;
use crate::hard::row_takers::{HardRow, RowTaker};
use crate::hard::row_visits::emit_row_if;
use rota_core::{DAYS, Instance, Rule};

// The row of a day's shift type and skill: at least the minimum number of nurses.
fn minimum_row(instance: &Instance, day: u8, shift: u8, skill: u8) -> HardRow
    ensures row { let problem = problem_of instance.now in
        hard_row_of problem result ≡ h2_row problem day shift skill }
    ensures sum_in { IsSumOf result.sum }
{
    HardRow {
        rule: Rule::H2,
        sum: CellSum::Demand { day, shift, skill },
        degree: i64::from(instance.demand(day, shift, skill).minimum),
    }
}

// The minimum number of nurses for each skill of a day's shift type.
#[tactic(auto, using(crate::proofs::LoopSteps::row_loops))]
fn visit_shift<T: RowTaker>(
    instance: &Instance,
    taker: &mut T,
    day: u8,
    shift: u8,
) -> Result<(), T::Fault>
    ensures { let problem = problem_of instance.now in
        TakesRows T.RowTaker problem (concat_below problem.skills (h2_rows_at problem day shift))
        taker.old taker.new result }
{
    for skill in 0..instance.skills() {
        let is_asked = instance.demand(day, shift, skill).minimum > 0;
        let row = minimum_row(instance, day, shift, skill);
        emit_row_if(instance, taker, is_asked, row)?;
    }
    Ok(())
}

// The minimum number of nurses for each shift type and skill of a day.
#[tactic(auto, using(crate::proofs::LoopSteps::row_loops))]
fn visit_day<T: RowTaker>(instance: &Instance, taker: &mut T, day: u8) -> Result<(), T::Fault>
    ensures { let problem = problem_of instance.now in
        TakesRows T.RowTaker problem (concat_below problem.shifts (λ shift. concat_below problem.skills (h2_rows_at problem day shift)))
        taker.old taker.new result }
{
    for shift in 0..instance.shifts() {
        visit_shift(instance, taker, day, shift)?;
    }
    Ok(())
}

/// The minimum number of nurses, for each day, shift type and skill for which it is above 0.
#[tactic(auto, using(crate::proofs::LoopSteps::row_loops))]
pub fn visit<T: RowTaker>(instance: &Instance, taker: &mut T) -> Result<(), T::Fault>
    ensures { let problem = problem_of instance.now in
        TakesRows T.RowTaker problem (h2_rows problem) taker.old taker.new result }
{
    for day in 0..DAYS {
        visit_day(instance, taker, day)?;
    }
    Ok(())
}
