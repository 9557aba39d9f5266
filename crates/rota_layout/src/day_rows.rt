//! Rows of a pair of a shift type and a skill, with a value for each day.

ghost use Rattle.std.specs.Prelude.{◌≡◌, ◌*◌, ◌<◌, length, IfOk};
ghost use Rattle.rota_layout.specs.DayPairs.{new_pair};
ghost use Rattle.rota_layout.specs.DayRows.{day_table};
ghost use Rattle.rota_layout.specs.Reading.{read_layout, Reads};

use crate::cursor::Cursor;
use crate::fault::LayoutError;
use rota_core::{DAYS, Scenario};
use std::alloc::{AllocError, Global};

impl<'a> Cursor<'a> {
    /// Reads a skill, and returns the index of the shift type and it. It fails with `Repeated` if a row has the two.
    #[tactic(auto, using(crate::proofs::NameSteps::known_taken), unfolding(crate::specs::DayPairs::new_pair, crate::specs::Reading::read_layout))]
    pub fn new_pair<T>(
        &mut self,
        scenario: &Scenario,
        shift: u8,
        rows: &[Option<T>],
    ) -> Result<usize, LayoutError>
        requires shift { shift < length scenario.now.shifts }
        requires rows { length rows.now ≡ length scenario.now.shifts * length scenario.now.skills }
        ensures read { Reads (λ p. p) result self.new (read_layout (new_pair scenario.now.skills shift rows.now) self.old) }
        ensures below { IfOk result (λ p. p < length rows.now) }
    {
        let skill = self.skill(scenario)?;
        let pair = usize::from(shift) * usize::from(scenario.skills()) + usize::from(skill);
        self.unless_taken(rows[pair].is_some())?;
        Ok(pair)
    }
}

/// The values of all pairs, day by day. A pair without a row has this value.
pub fn day_table<T: Copy>(
    alloc: Global,
    rows: &[Option<[T; DAYS as usize]>],
    absent: T,
) -> Result<Vec<T>, AllocError>
    ensures { IfOk result (λ v. v.items ≡ day_table absent rows.now) }
{
    let mut table = Vec::new(alloc);
    for day in 0..DAYS as usize {
        for row in rows {
            table.push(match row {
                Some(of_week) => of_week[day],
                None => absent,
            })?;
        }
    }
    Ok(table)
}
