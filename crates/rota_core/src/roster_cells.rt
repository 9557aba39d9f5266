//! The cells of a roster, one after another.
ghost use Rattle.std.specs.Prelude.{◌≡◌, map};
ghost use Rattle.std.specs.Iterator.{YieldsFirst, item_count};
ghost use Rattle.rota_core.specs.RosterCells.{cell_at};
ghost use Rattle.rota_core.specs.RosterCalls.{AreIndices, given_indices};

use crate::cell_indices::cell_at_index;
use crate::true_indices::TrueIndices;
use crate::values::Cell;
use std::marker::Model;

/// The cells of a roster, in the order of nurse, day, shift type and skill. Its view is the list of the cells
/// that are left.
#[derive(Drop)]
pub struct Cells<'a> {
    // `None` if there is no roster.
    indices: Option<TrueIndices<'a>>,
    shifts: u8,
    skills: u8,
}

impl<'a> Model for Cells<'a> {
    ghost use Rattle.std.specs.Prelude.{List, map};
    ghost use Rattle.rota_core.specs.RosterCells.{cell_at};
    ghost use Rattle.rota_core.specs.RosterCalls.{AreIndices, given_indices};
    ghost use Rattle.rota_core.specs.declared.values.Cell.{Cell};

    ghost Value = { List Cell };

    ghost view = { λ it. map (cell_at it.shifts it.skills) (given_indices it.indices) };

    ghost invariant = { λ it. AreIndices it.shifts it.skills (given_indices it.indices) };
}

impl<'a> Cells<'a> {
    /// The cells at the indices, if any, for these numbers of shift types and skills.
    pub(crate) fn at(indices: Option<TrueIndices<'a>>, shifts: u8, skills: u8) -> Cells<'a>
        requires { AreIndices shifts skills (given_indices indices) }
        ensures { result ≡ map (cell_at shifts skills) (given_indices indices.entry) }
    {
        Cells {
            indices,
            shifts,
            skills,
        }
    }
}

impl<'a> Iterator for Cells<'a> {
    type Item = Cell;

    ghost next_gives = { YieldsFirst (λ left. left) };

    ghost remaining = { item_count (λ left. left) };

    fn next(&mut self) -> Option<Cell> {
        let index = self.indices.as_mut()?.next()?;
        Some(cell_at_index(self.shifts, self.skills, index))
    }
}
