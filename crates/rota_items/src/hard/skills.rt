//! H4: no cell that needs a skill that the nurse does not have.
ghost use Rattle.rota_core.specs.InstanceTables.{problem_of};
ghost use Rattle.rota_core.specs.Lists.{concat_below};
ghost use Rattle.rota_items.specs.HardRows.{h4_rows, h4_rows_at};
ghost use Rattle.rota_items.specs.Takes.{TakesRows};

use crate::cell_sum::CellSum;
use crate::hard::row_takers::{HardRow, RowTaker};
use crate::hard::row_visits::emit_row_if;
use rota_core::{Instance, Rule};

// No cell that needs a skill, for each skill that the nurse does not have.
#[tactic(auto, using(crate::proofs::LoopSteps::row_loops))]
fn visit_nurse<T: RowTaker>(instance: &Instance, taker: &mut T, nurse: u16) -> Result<(), T::Fault>
    ensures { let problem = problem_of instance.now in
        TakesRows T.RowTaker problem (concat_below problem.skills (h4_rows_at problem nurse)) taker.old taker.new result }
{
    for skill in 0..instance.skills() {
        let row = HardRow {
            rule: Rule::H4,
            sum: CellSum::Skill { nurse, skill },
            degree: 0,
        };
        emit_row_if(instance, taker, !instance.has_skill(nurse, skill), row)?;
    }
    Ok(())
}

/// No cell of a nurse that needs a skill, for each nurse and each skill that she does not have.
#[tactic(auto, using(crate::proofs::LoopSteps::row_loops))]
pub fn visit<T: RowTaker>(instance: &Instance, taker: &mut T) -> Result<(), T::Fault>
    ensures { let problem = problem_of instance.now in
        TakesRows T.RowTaker problem (h4_rows problem) taker.old taker.new result }
{
    for nurse in 0..instance.nurses() {
        visit_nurse(instance, taker, nurse)?;
    }
    Ok(())
}
