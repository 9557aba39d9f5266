//! H1: at most one cell of a nurse's day.
ghost use Rattle.std.specs.Prelude.{[], ◌∷◌};
ghost use Rattle.rota_core.specs.InstanceTables.{problem_of};
ghost use Rattle.rota_core.specs.Lists.{concat_below};
ghost use Rattle.rota_items.specs.HardRows.{h1_row, h1_rows};
ghost use Rattle.rota_items.specs.Takes.{TakesRows};

use crate::cell_sum::CellSum;
use crate::hard::row_takers::{HardRow, RowTaker};
use crate::hard::row_visits::emit_row;
use rota_core::{DAYS, Instance, Rule};

// At most one cell for each day of the nurse.
#[tactic(auto, using(crate::proofs::LoopSteps::row_loops))]
fn visit_nurse<T: RowTaker>(instance: &Instance, taker: &mut T, nurse: u16) -> Result<(), T::Fault>
    ensures { let problem = problem_of instance.now in
        TakesRows T.RowTaker problem (concat_below DAYS (λ day. h1_row problem nurse day ∷ []))
        taker.old taker.new result }
{
    for day in 0..DAYS {
        let row = HardRow {
            rule: Rule::H1,
            sum: CellSum::NurseDay { nurse, day },
            degree: -1,
        };
        emit_row(instance, taker, row)?;
    }
    Ok(())
}

/// At most one cell for each nurse and day.
#[tactic(auto, using(crate::proofs::LoopSteps::row_loops))]
pub fn visit<T: RowTaker>(instance: &Instance, taker: &mut T) -> Result<(), T::Fault>
    ensures { let problem = problem_of instance.now in
        TakesRows T.RowTaker problem (h1_rows problem) taker.old taker.new result }
{
    for nurse in 0..instance.nurses() {
        visit_nurse(instance, taker, nurse)?;
    }
    Ok(())
}
