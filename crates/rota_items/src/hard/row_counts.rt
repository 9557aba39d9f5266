//! The number of rows of the hard rules.
ghost use Rattle.std.specs.Prelude.{◌≡◌, ℕ, length};
ghost use Rattle.rota_core.specs.InstanceTables.{IsInstance, problem_of};
ghost use Rattle.rota_items.specs.HardRows.{rule_rows};

use crate::hard::row_takers::{HardRow, RowTaker};
use crate::hard::visit_rule_rows;
use rota_core::Instance;
use std::convert::Infallible;

// Counts rows. A number that would overflow stays at the maximum.
#[derive(Drop)]
struct RowCount {
    rows: u32,
}

impl RowTaker for RowCount {
    type Fault = Infallible;

    ghost use Rattle.rota_items.specs.ItemCounting.{one_row_more};

    ghost Value = { ℕ };

    ghost value = { λ count. count.rows };

    ghost step = { one_row_more };

    ghost left = { λ _ _ _. ⊥ };

    fn row(&mut self, _instance: &Instance, _row: HardRow) -> Result<(), Infallible> {
        self.rows = self.rows.saturating_add(1);
        Ok(())
    }
}

/// The number of rows of the hard rules.
pub fn count_rule_rows(instance: &Instance) -> u32
    requires limits { IsInstance instance.now }
    ensures number { result ≡ length (rule_rows (problem_of instance.now)) }
{
    let mut count = RowCount { rows: 0 };
    match visit_rule_rows(instance, &mut count) {
        Ok(()) => count.rows,
        Err(never) => match never {},
    }
}
