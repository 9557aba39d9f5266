//! H5: each held cell is in the roster.
ghost use Rattle.rota_core.specs.InstanceTables.{problem_of};
ghost use Rattle.rota_items.specs.HardRows.{h5_rows};
ghost use Rattle.rota_items.specs.Takes.{TakesRows};

use crate::cell_sum::CellSum;
use crate::hard::row_takers::{HardRow, RowTaker};
use rota_core::{Instance, Rule};

/// Each held cell, in ascending order of the variables.
#[tactic(auto, using(crate::proofs::Taking::taking_held), unfolding(crate::specs::SentItems::numbered_rows))]
pub fn visit<T: RowTaker>(instance: &Instance, taker: &mut T) -> Result<(), T::Fault>
    ensures { let problem = problem_of instance.now in
        TakesRows T.RowTaker problem (h5_rows problem) taker.old taker.new result }
{
    for cell in instance.held_cells() {
        let row = HardRow {
            rule: Rule::H5,
            sum: CellSum::Single(cell),
            degree: 1,
        };
        taker.row(instance, row)?;
    }
    Ok(())
}
