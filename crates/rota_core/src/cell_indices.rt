//! The indices of the cells. Rosters store cells by index, and models number their variables by it.
ghost use Rattle.std.specs.Prelude.{◌≡◌, ◌+◌, ◌<◌, ◌≤◌, ◌^◌};
ghost use Rattle.rota_core.specs.CellIndex.{cell_index, cell_count};
ghost use Rattle.rota_core.specs.RosterCells.{cell_at};

use crate::instance::Instance;
use crate::limits::{DAYS, MAX_NURSES, MAX_SHIFTS, MAX_SKILLS};
use crate::values::Cell;

impl Instance {
    ghost use Rattle.rota_core.specs.InstanceTables.{IsInstance, problem_of};
    ghost use Rattle.rota_core.specs.Roster.{InWeek};

    /// The index of the cell of nurse n, day d, shift type s and skill k: ((n * DAYS + d) * S + s) * K + k for S
    /// shift types and K skills.
    pub fn index_of(&self, cell: Cell) -> u32
        ensures index { let problem = problem_of self.now in result ≡ cell_index problem.shifts problem.skills cell }
        ensures small { result + 1 < 2 ^ 32 }
    {
        index_of_cell(self.shifts(), self.skills(), cell)
    }

    /// The cell at the index.
    pub fn cell(&self, index: u32) -> Cell
        requires { let problem = problem_of self.now in index < cell_count problem.nurses problem.shifts problem.skills }
        ensures in_week { InWeek (problem_of self.now) result }
        ensures index { let problem = problem_of self.now in cell_index problem.shifts problem.skills result ≡ index }
    {
        cell_at_index(self.shifts(), self.skills(), index)
    }

    /// The number of cells. Each nurse, day, shift type and skill has one.
    pub fn cell_count(&self) -> u32
        ensures count { let problem = problem_of self.now in result ≡ cell_count problem.nurses problem.shifts problem.skills }
        ensures limits { IsInstance self.now }
    {
        count_of_cells(self.nurses(), self.shifts(), self.skills())
    }
}

/// The index of the cell of nurse n, day d, shift type s and skill k, for these numbers of shift types and
/// skills: ((n * DAYS + d) * shifts + s) * skills + k.
pub(crate) fn index_of_cell(shifts: u8, skills: u8, cell: Cell) -> u32
    requires shifts_in { shifts ≤ MAX_SHIFTS }
    requires skills_in { skills ≤ MAX_SKILLS }
    ensures index { result ≡ cell_index shifts skills cell }
    ensures small { result + 1 < 2 ^ 32 }
{
    let day = u32::from(cell.nurse) * DAYS as u32 + u32::from(cell.day);
    let row = day * u32::from(shifts) + u32::from(cell.shift);
    row * u32::from(skills) + u32::from(cell.skill)
}

/// The cell at the index, for these numbers of shift types and skills.
pub(crate) fn cell_at_index(shifts: u8, skills: u8, index: u32) -> Cell
    requires shifts_in { shifts ≤ MAX_SHIFTS }
    requires skills_in { skills ≤ MAX_SKILLS }
    requires below { index < cell_count MAX_NURSES shifts skills }
    ensures { result ≡ cell_at shifts skills index }
{
    let row = index / u32::from(skills);
    let day = row / u32::from(shifts);
    Cell {
        nurse: (day / DAYS as u32) as u16,
        day: (day % DAYS as u32) as u8,
        shift: (row % u32::from(shifts)) as u8,
        skill: (index % u32::from(skills)) as u8,
    }
}

/// The number of cells, for these numbers of nurses, shift types and skills.
pub(crate) fn count_of_cells(nurses: u16, shifts: u8, skills: u8) -> u32
    requires nurses_in { nurses ≤ MAX_NURSES }
    requires shifts_in { shifts ≤ MAX_SHIFTS }
    requires skills_in { skills ≤ MAX_SKILLS }
    ensures { result ≡ cell_count nurses shifts skills }
{
    DAYS as u32 * u32::from(nurses) * u32::from(shifts) * u32::from(skills)
}
