//! The numbers of a model's variables: the variables of the cells from 1 on, then the unit variable, then the
//! slacks.
ghost use Rattle.std.specs.Prelude.{◌≡◌, ◌+◌, ◌<◌, ◌≤◌, ◌⊎◌, ◌↔◌, IfSome, IsNone};
ghost use Rattle.rota_core.specs.InstanceTables.{IsInstance, problem_of};
ghost use Rattle.rota_core.specs.Roster.{InWeek, cell};
ghost use Rattle.rota_items.specs.Variables.{cell_number, unit_number};
ghost use Rattle.rota_rules.specs.CostBounds.{max_cells_of_nurse};
ghost use Rattle.rota_items.specs.MachineBounds.{word_limit};

use rota_core::{Cell, DAYS, Instance};

/// The variable of the cell of nurse n, day d, shift type s and skill k: ((n * DAYS + d) * S + s) * K + k + 1
/// for S shift types and K skills. It is true if the nurse works there.
pub fn cell_var(instance: &Instance, cell: Cell) -> u32
    ensures { result ≡ cell_number (problem_of instance.now) cell }
{
    instance.index_of(cell) + 1
}

/// The variable of the first cell of a nurse's day on a shift type. After it come the variables of her other
/// cells on the shift type, then of her next shift types, then of her next days.
pub fn first_var_on(instance: &Instance, nurse: u16, day: u8, shift: u8) -> u32
    ensures number { result ≡ cell_number (problem_of instance.now) (cell nurse day shift 0) }
    ensures numbers_follow { result + max_cells_of_nurse < word_limit }
{
    let day_index = u32::from(nurse) * DAYS as u32 + u32::from(day);
    let shift_index = day_index * u32::from(instance.shifts()) + u32::from(shift);
    shift_index * u32::from(instance.skills()) + 1
}

/// The variable that is true in every satisfying assignment. It follows the variables of the cells.
pub fn unit_var(instance: &Instance) -> u32
    ensures number { result ≡ unit_number (problem_of instance.now) }
    ensures limits { IsInstance instance.now }
{
    instance.cell_count() + 1
}

/// The cell of a variable, or `None` for 0, the unit variable, and the numbers above it.
pub fn var_cell(instance: &Instance, variable: u32) -> Option<Cell>
    ensures inside { IfSome result (λ cell. InWeek (problem_of instance.now) cell) }
    ensures number { IfSome result (λ cell. cell_number (problem_of instance.now) cell ≡ variable) }
    ensures none { IsNone result ↔ ((variable ≡ 0) ⊎ (unit_number (problem_of instance.now) ≤ variable)) }
{
    if variable == 0 || variable >= unit_var(instance) {
        return None;
    }
    Some(instance.cell(variable - 1))
}
