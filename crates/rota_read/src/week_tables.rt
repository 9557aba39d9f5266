//! The table that the requests of a week's file make.

ghost use Rattle.std.specs.Prelude.{◌≡◌, ◌*◌, ◌+◌, ◌<◌, ◌≤◌, ◌&&◌, ℕ, IfOk, length, nat_le, nat_lt, slice_index, if◌then◌else◌};
ghost use Rattle.std.specs.List.{All};
ghost use Rattle.rota_read.specs.WeekLayout.{request_table};
ghost use Rattle.rota_read.specs.WeekRows.{asks_at, IsRequest};

use crate::week::RequestRow;
use rota_core::{DAYS, MAX_NUMBER, MAX_NURSES};
use std::alloc::{AllocError, Global};

// Adds one at `count` indices, from `first` on.
fn add_one(table: &mut Vec<u16>, first: usize, count: usize)
    requires room { first + count ≤ length table.old.items }
    requires small { All (λ n. n < MAX_NUMBER) table.old.items }
    ensures length { length table.new.items ≡ length table.old.items }
    ensures sums { (k : ℕ) → slice_index table.new.items k
        ≡ slice_index table.old.items k + (if nat_le first k && nat_lt k (first + count) then 1 else 0) }
{
    for index in first..first + count {
        table[index] += 1;
    }
}

// Counts a row: for one shift type, or for each.
fn count_row(table: &mut Vec<u16>, nurses: u16, shifts: u8, row: RequestRow)
    requires nurses { nurses ≤ MAX_NURSES }
    requires shifts { 1 ≤ shifts }
    requires within { IsRequest nurses shifts row }
    requires length { length table.old.items ≡ nurses * DAYS * shifts }
    requires small { All (λ n. n < MAX_NUMBER) table.old.items }
    ensures length { length table.new.items ≡ length table.old.items }
    ensures sums { (k : ℕ) → slice_index table.new.items k
        ≡ slice_index table.old.items k + (if asks_at shifts k row then 1 else 0) }
{
    let shifts = usize::from(shifts);
    let first = (usize::from(row.nurse) * DAYS as usize + usize::from(row.day)) * shifts;
    match row.shift {
        Some(shift) => add_one(table, first + usize::from(shift), 1),
        None => add_one(table, first, shifts),
    }
}

/// The number of rows that ask for each nurse's days off, day by day and shift type by shift type.
pub fn requests_of(
    alloc: Global,
    nurses: u16,
    shifts: u8,
    rows: &[RequestRow],
) -> Result<Vec<u16>, AllocError>
    requires nurses { nurses ≤ MAX_NURSES }
    requires shifts { 1 ≤ shifts }
    requires within { All (IsRequest nurses shifts) rows.now }
    requires few { length rows.now ≤ MAX_NUMBER }
    ensures { IfOk result (λ v. v.items ≡ request_table nurses shifts rows.now) }
{
    let mut table = vec![in alloc; 0; usize::from(nurses) * DAYS as usize * usize::from(shifts)]?;
    for row in rows {
        count_row(&mut table, nurses, shifts, *row);
    }
    Ok(table)
}
