//! Reads the shift types and the forbidden successions of a scenario file.

ghost use Rattle.std.specs.Prelude.{◌≡◌, ◌≤◌, ◌+◌, [], codes, length, None, replicate, unwrap_or, IfOk, OnOk};
ghost use Rattle.std.specs.Option.{option_map};
ghost use Rattle.rota_core.specs.Parts.{bytes_of};
ghost use Rattle.rota_core.specs.ScenarioTables.{reserved};
ghost use Rattle.rota_layout.specs.Layout.{repeat};
ghost use Rattle.rota_read.specs.SharedSlots.{known_row, pair, value_of_each};
ghost use Rattle.rota_layout.specs.Reading.{read_layout, Reads};
ghost use Rattle.rota_read.specs.ScenarioLayout.{section, new_row, none_named, known_names, successions};
ghost use Rattle.rota_read.specs.ScenarioRows.{shifts_of, successions_of, forbidden_table};

use crate::names::{known_name, new_shift_name};
use crate::rows::{append_marks, known_names, pair};
use indexmap::IndexSet;
use rota_core::{MAX_SHIFTS, Span, add_name};
use rota_layout::{Cursor, LayoutError};
use std::alloc::{AllocError, Global};

#[derive(Drop)]
pub struct ShiftRows {
    pub names: IndexSet<Vec<u8>>,
    pub limits: Vec<Span>,
}

// The shift types that may not follow a shift type, if a row has given them.
type SuccessionRow = Option<Vec<usize>>;

#[tactic(auto, unfolding(crate::specs::ScenarioLayout::new_row, rota_layout::specs::Reading::read_layout))]
fn shift_row(
    cursor: &mut Cursor<'_>,
    alloc: Global,
    rows: &mut ShiftRows,
) -> Result<(), LayoutError>
    ensures read { Reads (λ _. shifts_of rows.new) result cursor.new (read_layout (new_row reserved pair (shifts_of rows.old)) cursor.old) }
    ensures longer { OnOk result (length (bytes_of rows.new.names) ≡ length (bytes_of rows.old.names) + 1) }
{
    let name = new_shift_name(cursor, &rows.names)?;
    let limit = pair(cursor)?;
    add_name(alloc, &mut rows.names, name)?;
    Ok(rows.limits.push(limit)?)
}

#[tactic(auto, using(rota_layout::proofs::ReadingLaws::row_steps))]
fn shift_rows(
    cursor: &mut Cursor<'_>,
    alloc: Global,
    count: u16,
    rows: &mut ShiftRows,
) -> Result<(), LayoutError>
    ensures read { Reads (λ _. shifts_of rows.new) result cursor.new (read_layout (repeat count (new_row reserved pair) (shifts_of rows.old)) cursor.old) }
    ensures longer { OnOk result (length (bytes_of rows.new.names) ≡ length (bytes_of rows.old.names) + count) }
{
    for _ in 0..count {
        shift_row(cursor, alloc, rows)?;
    }
    Ok(())
}

#[tactic(auto, unfolding(crate::specs::ScenarioLayout::section, rota_layout::specs::Reading::read_layout))]
pub fn shifts_part(
    cursor: &mut Cursor<'_>,
    alloc: Global,
    rows: &mut ShiftRows,
) -> Result<(), LayoutError>
    requires { shifts_of rows.old ≡ none_named }
    ensures read { Reads (λ _. shifts_of rows.new) result cursor.new (read_layout (section (codes "SHIFT_TYPES") MAX_SHIFTS (new_row reserved pair) none_named) cursor.old) }
    ensures few { OnOk result (length (bytes_of rows.new.names) ≤ MAX_SHIFTS) }
{
    let count = cursor.setting(b"SHIFT_TYPES", 1, MAX_SHIFTS)?;
    shift_rows(cursor, alloc, count, rows)
}

#[tactic(auto, using(crate::proofs::SuccessionRows::succession_steps), unfolding(crate::specs::SharedSlots::known_row, rota_layout::specs::Reading::read_layout))]
fn succession_row(
    cursor: &mut Cursor<'_>,
    alloc: Global,
    names: &IndexSet<Vec<u8>>,
    rows: &mut [SuccessionRow],
) -> Result<(), LayoutError>
    requires few { length (bytes_of names.now) ≤ MAX_SHIFTS }
    requires rows { length rows.old ≡ length (bytes_of names.now) }
    ensures { Reads (λ _. successions_of rows.new) result cursor.new (read_layout (known_row (bytes_of names.now) (known_names (bytes_of names.now)) (successions_of rows.old)) cursor.old) }
{
    let shift = known_name(cursor, names)?;
    cursor.unless_taken(rows[shift].is_some())?;
    rows[shift] = Some(known_names(cursor, alloc, names)?);
    Ok(())
}

#[tactic(auto, using(rota_layout::proofs::ReadingLaws::row_steps))]
fn rows_of_shifts(
    cursor: &mut Cursor<'_>,
    alloc: Global,
    names: &IndexSet<Vec<u8>>,
    rows: &mut [SuccessionRow],
) -> Result<(), LayoutError>
    requires few { length (bytes_of names.now) ≤ MAX_SHIFTS }
    requires rows { length rows.old ≡ length (bytes_of names.now) }
    ensures { Reads (λ _. successions_of rows.new) result cursor.new (read_layout (repeat (length rows.old) (known_row (bytes_of names.now) (known_names (bytes_of names.now))) (successions_of rows.old)) cursor.old) }
{
    for _ in 0..rows.len() {
        succession_row(cursor, alloc, names, rows)?;
    }
    Ok(())
}

// The row of each shift type, ordered by shift type.
#[tactic(auto, unfolding(crate::specs::SharedSlots::value_of_each))]
fn succession_rows(
    cursor: &mut Cursor<'_>,
    alloc: Global,
    names: &IndexSet<Vec<u8>>,
) -> Result<Vec<SuccessionRow>, LayoutError>
    requires few { length (bytes_of names.now) ≤ MAX_SHIFTS }
    ensures { Reads (λ v. successions_of v.items) result cursor.new (read_layout (value_of_each (bytes_of names.now) (known_names (bytes_of names.now))) cursor.old) }
{
    let mut rows = no_successions(alloc, names.len())?;
    rows_of_shifts(cursor, alloc, names, &mut rows)?;
    Ok(rows)
}

#[tactic(auto, unfolding(crate::specs::ScenarioLayout::successions, rota_layout::specs::Reading::read_layout))]
pub fn successions_part(
    cursor: &mut Cursor<'_>,
    alloc: Global,
    names: &IndexSet<Vec<u8>>,
    table: &mut Vec<bool>,
) -> Result<(), LayoutError>
    requires few { length (bytes_of names.now) ≤ MAX_SHIFTS }
    requires none { table.old.items ≡ [] }
    ensures { Reads (λ _. table.new.items) result cursor.new (read_layout (successions (bytes_of names.now)) cursor.old) }
{
    cursor.exactly(b"FORBIDDEN_SHIFT_TYPES_SUCCESSIONS")?;
    let rows = succession_rows(cursor, alloc, names)?;
    Ok(append_forbidden(table, names.len(), &rows)?)
}

/// The rows before the first shift type.
pub fn no_shift_types(alloc: Global) -> ShiftRows
    ensures { shifts_of result ≡ none_named }
{
    ShiftRows {
        names: IndexSet::new(alloc),
        limits: Vec::new(alloc),
    }
}

// No shift type has a row.
fn no_successions(alloc: Global, shifts: usize) -> Result<Vec<SuccessionRow>, AllocError>
    ensures none { IfOk result (λ v. successions_of v.items ≡ replicate shifts None) }
    ensures length { IfOk result (λ v. length v.items ≡ shifts) }
{
    let mut rows = Vec::with_capacity(alloc, shifts)?;
    for _ in 0..shifts {
        rows.push(None)?;
    }
    Ok(rows)
}

fn after_shift(row: &SuccessionRow) -> &[usize]
    ensures { result.now ≡ unwrap_or (option_map (λ indices. indices.items) row.now) [] }
{
    match row {
        Some(indices) => indices,
        None => &[],
    }
}

fn append_forbidden(
    table: &mut Vec<bool>,
    size: usize,
    rows: &[SuccessionRow],
) -> Result<(), AllocError>
    requires { table.old.items ≡ [] }
    ensures { OnOk result (table.new.items ≡ forbidden_table size (successions_of rows.now)) }
{
    for row in rows {
        append_marks(table, after_shift(row), size)?;
    }
    Ok(())
}
