//! Reads the requirements of a week's file.

ghost use Rattle.std.specs.Prelude.{◌≡◌, ◌<◌, ◌*◌, length};
ghost use Rattle.rota_layout.specs.Layout.{many};
ghost use Rattle.rota_layout.specs.Reading.{read_layout, Reads};
ghost use Rattle.rota_layout.specs.DayRows.{day_row, no_day_rows};
ghost use Rattle.rota_read.specs.WeekLayout.{demand, requirement_rows, max_rows};

use crate::rows::pair;
use rota_core::{DAYS, Demand, Scenario};
use rota_layout::{Cursor, LayoutError};
use std::alloc::Global;

// A minimum and an optimal number.
#[tactic(auto, unfolding(crate::specs::WeekLayout::demand, rota_layout::specs::Reading::read_layout))]
fn demand(cursor: &mut Cursor<'_>) -> Result<Demand, LayoutError>
    ensures { Reads (λ d. d) result cursor.new (read_layout demand cursor.old) }
{
    let numbers = pair(cursor)?;
    Ok(Demand {
        minimum: numbers.min,
        optimal: numbers.max,
    })
}

// The demands of Monday to Sunday.
#[tactic(auto, unfolding(rota_layout::specs::Layout::many, rota_layout::specs::Layout::repeat, rota_layout::specs::Layout::one_more, rota_layout::specs::Reading::read_layout))]
fn demands_of_days(cursor: &mut Cursor<'_>) -> Result<[Demand; DAYS as usize], LayoutError>
    ensures { Reads (λ d. d) result cursor.new (read_layout (many DAYS (λ _. demand)) cursor.old) }
{
    let monday = demand(cursor)?;
    let tuesday = demand(cursor)?;
    let wednesday = demand(cursor)?;
    let thursday = demand(cursor)?;
    let friday = demand(cursor)?;
    let saturday = demand(cursor)?;
    let sunday = demand(cursor)?;
    Ok([
        monday, tuesday, wednesday, thursday, friday, saturday, sunday,
    ])
}

// Reads the rest of a row of requirements, after its shift type.
#[tactic(auto, using(rota_layout::proofs::ReadingLaws::day_by_pair), unfolding(rota_layout::specs::Reading::read_layout))]
fn requirement(
    cursor: &mut Cursor<'_>,
    scenario: &Scenario,
    shift: u8,
    rows: &mut Vec<Option<[Demand; DAYS as usize]>>,
) -> Result<(), LayoutError>
    requires shift { shift < length scenario.now.shifts }
    requires rows { length rows.old.items ≡ length scenario.now.shifts * length scenario.now.skills }
    ensures read { Reads (λ _. rows.new.items) result cursor.new (read_layout (day_row demand scenario.now.skills shift rows.old.items) cursor.old) }
    ensures rows { length rows.new.items ≡ length rows.old.items }
{
    let pair = cursor.new_pair(scenario, shift, rows)?;
    rows[pair] = Some(demands_of_days(cursor)?);
    Ok(())
}

/// The rows of requirements, and the word that ends them.
pub fn requirement_rows(
    cursor: &mut Cursor<'_>,
    alloc: Global,
    scenario: &Scenario,
) -> Result<Vec<Option<[Demand; DAYS as usize]>>, LayoutError>
    ensures { Reads (λ v. v.items) result cursor.new (read_layout (requirement_rows scenario.now (max_rows scenario.now) (no_day_rows scenario.now)) cursor.old) }
{
    // one row more than there are pairs of a shift type and a skill
    let pairs = usize::from(scenario.shifts()) * usize::from(scenario.skills());
    let mut rows = vec![in alloc; None; pairs]?;
    for _ in 0..pairs + 1 {
        let Some(shift) = cursor.shift_or(b"SHIFT_OFF_REQUESTS", scenario)? else {
            return Ok(rows);
        };
        requirement(cursor, scenario, shift, &mut rows)?;
    }
    Ok(rows)
}
