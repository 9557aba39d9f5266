//! A step of a walk over the rows of the hard rules.
ghost use Rattle.std.specs.Prelude.{[], ◌∷◌};
ghost use Rattle.rota_core.specs.InstanceTables.{problem_of};
ghost use Rattle.rota_core.specs.Lists.{singleton_if};
ghost use Rattle.rota_items.specs.CellSums.{IsSumOf};
ghost use Rattle.rota_items.specs.SentItems.{hard_row_of};
ghost use Rattle.rota_items.specs.Takes.{TakesRows};

use crate::hard::row_takers::{HardRow, RowTaker};
use rota_core::Instance;

/// Sends the row to the taker.
#[tactic(auto, using(crate::proofs::Taking::calling), unfolding(crate::specs::SentItems::numbered_rows))]
pub fn emit_row<T: RowTaker>(
    instance: &Instance,
    taker: &mut T,
    row: HardRow,
) -> Result<(), T::Fault>
    requires { IsSumOf row.sum }
    ensures { let problem = problem_of instance.now in
        TakesRows T.RowTaker problem (hard_row_of problem row ∷ []) taker.old taker.new result }
{
    taker.row(instance, row)
}

/// Sends the row to the taker if the condition holds.
#[tactic(auto, using(crate::proofs::Taking::calling), unfolding(crate::specs::SentItems::numbered_rows, rota_core::specs::Lists::singleton_if))]
pub fn emit_row_if<T: RowTaker>(
    instance: &Instance,
    taker: &mut T,
    there: bool,
    row: HardRow,
) -> Result<(), T::Fault>
    requires { IsSumOf row.sum }
    ensures { let problem = problem_of instance.now in
        TakesRows T.RowTaker problem (singleton_if there (hard_row_of problem row)) taker.old taker.new result }
{
    if there {
        taker.row(instance, row)
    } else {
        Ok(())
    }
}
