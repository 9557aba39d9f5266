//! A roster: a set of cells.

ghost use Rattle.std.specs.Prelude.{◌≡◌, ◌<◌, ◌≤◌, not, IfOk, false, length, slice_index_or};
ghost use Rattle.rota_core.specs.CellIndex.{cell_index, cell_count};

use crate::bits::Bits;
use crate::cell_indices::{count_of_cells, index_of_cell};
use crate::instance::Instance;
use crate::roster_cells::Cells;
use crate::values::Cell;
use std::alloc::{AllocError, Global};
use std::marker::Model;

/// A set of cells within the numbers of an instance: its nurses, the days 0 to 6, its shift types and its
/// skills.
pub struct Roster {
    nurses: u16,
    shifts: u8,
    skills: u8,
    bits: Bits,
}

impl Drop for Roster {
    fn drop(self) {
        let Roster {
            nurses: _,
            shifts: _,
            skills: _,
            bits: _,
        } = self;
    }
}

impl Model for Roster {
    ghost use Rattle.rota_core.specs.RosterTables.{RosterTables};
    ghost use Rattle.rota_core.specs.RosterCalls.{roster_tables, HoldsRoster};

    ghost Value = { RosterTables };

    ghost view = { λ r. roster_tables r.nurses r.shifts r.skills r.bits };

    ghost invariant = { λ r. HoldsRoster r.nurses r.shifts r.skills r.bits };
}

impl Roster {
    ghost use Rattle.rota_core.specs.RosterTables.{set_of, HasShapeOf, IsRoster};
    ghost use Rattle.rota_core.specs.RosterCalls.{count_of, InShape, AddsCell, cells_in};
    ghost use Rattle.rota_core.specs.Roster.{InWeek};
    ghost use Rattle.rota_core.specs.InstanceTables.{problem_of};

    /// The roster of the instance's shape without cells.
    pub fn new(alloc: Global, instance: &Instance) -> Result<Roster, AllocError>
        ensures shape { IfOk result (λ roster. HasShapeOf (problem_of instance.now) roster) }
        ensures empty { IfOk result (λ roster. (cell : Cell) → set_of roster cell ≡ false) }
    {
        let (nurses, shifts, skills) = (instance.nurses(), instance.shifts(), instance.skills());
        Ok(Roster {
            nurses,
            shifts,
            skills,
            bits: Bits::new(alloc, count_of_cells(nurses, shifts, skills))?,
        })
    }

    /// The roster of the instance's shape that contains the cells whose truth value in `bits` is true. The
    /// cell of nurse n, day d, shift type s and skill k has index ((n * DAYS + d) * S + s) * K + k for S shift
    /// types and K skills. `bits` has a value for each cell; further values are ignored.
    pub fn of_bits(bits: Bits, instance: &Instance) -> Roster
        requires enough { let problem = problem_of instance.now in
            cell_count problem.nurses problem.shifts problem.skills ≤ length bits }
        ensures shape { HasShapeOf (problem_of instance.now) result }
        ensures cells { let problem = problem_of instance.now in
            (cell : Cell) → InWeek problem cell →
            set_of result cell ≡ slice_index_or bits (cell_index problem.shifts problem.skills cell) false }
    {
        Roster {
            nurses: instance.nurses(),
            shifts: instance.shifts(),
            skills: instance.skills(),
            bits,
        }
    }

    /// Puts the cell into the roster, and returns whether it was new.
    ///
    /// Here the same cell is put twice into an empty roster, which then contains one cell:
    ///
    /// ```
    /// let is_new = (roster.put(SUNDAY), roster.put(SUNDAY));
    /// let has = (roster.has(SUNDAY), roster.has(SATURDAY));
    /// is_new == (true, false) && has == (true, false) && roster.count() == 1
    /// ```
    pub fn put(&mut self, cell: Cell) -> bool
        requires { InShape self.old cell }
        ensures is_new { result ≡ not (set_of self.old cell) }
        ensures adds { AddsCell self.old self.new cell }
    {
        let index = index_of_cell(self.shifts, self.skills, cell);
        let is_new = !self.bits.get(index);
        self.bits.set(index);
        is_new
    }

    /// Whether the cell is in the roster. A cell outside the roster's shape may have the index of another.
    pub fn has(&self, cell: Cell) -> bool
        ensures { result ≡ set_of self.now cell }
    {
        let index = index_of_cell(self.shifts, self.skills, cell);
        if index >= count_of_cells(self.nurses, self.shifts, self.skills) {
            return false;
        }
        self.bits.get(index)
    }

    /// Whether the cell at the index is in the roster. `Instance::index_of` numbers the cells.
    pub fn has_index(&self, index: u32) -> bool
        requires { index < cell_count self.now.nurses self.now.shifts self.now.skills }
        ensures { result ≡ slice_index_or self.now.cells index false }
    {
        self.bits.get(index)
    }

    /// The roster's cells, in the order of nurse, day, shift type and skill.
    ///
    /// See the example at the top of the crate.
    pub fn cells(&self) -> Cells<'_>
        ensures { result ≡ cells_in self.now }
    {
        let count = count_of_cells(self.nurses, self.shifts, self.skills);
        let indices = self.bits.true_indices_below(count);
        Cells::at(Some(indices), self.shifts, self.skills)
    }

    /// The number of cells in the roster.
    pub fn count(&self) -> u32
        ensures count { result ≡ count_of self.now }
        ensures within { IsRoster self.now }
    {
        let end = count_of_cells(self.nurses, self.shifts, self.skills);
        self.bits.true_indices_below(end).count() as u32
    }
}
