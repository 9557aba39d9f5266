//! Reads the nurses of a scenario file.

ghost use Rattle.std.specs.Prelude.{◌≡◌, ◌≤◌, [], codes, length, map, IfOk};
ghost use Rattle.rota_core.specs.Parts.{bytes_of};
ghost use Rattle.rota_layout.specs.Layout.{repeat, known_name, none_taken};
ghost use Rattle.rota_layout.specs.Reading.{read_layout, Reads};
ghost use Rattle.rota_read.specs.ScenarioLayout.{new_row, none_named, nurse, section};
ghost use Rattle.rota_read.specs.ScenarioRows.{nurse_of, nurses_of, contract_column, skill_table};

use crate::names::{known_name, new_name};
use crate::rows::{append_marks, known_names};
use indexmap::IndexSet;
use rota_core::{MAX_CONTRACTS, MAX_NURSES, MAX_SKILLS, add_name};
use rota_layout::{Cursor, LayoutError};
use std::alloc::{AllocError, Global};

/// A nurse's contract and skills, by their indices.
#[derive(Drop)]
pub struct NurseRow {
    pub contract: u8,
    pub skills: Vec<usize>,
}

#[derive(Drop)]
pub struct NurseRows {
    pub names: IndexSet<Vec<u8>>,
    pub rows: Vec<NurseRow>,
}

// The number of a contract.
fn known_contract(cursor: &mut Cursor<'_>, contracts: &IndexSet<Vec<u8>>) -> Result<u8, LayoutError>
    requires { length (bytes_of contracts.now) ≤ MAX_CONTRACTS }
    ensures { Reads (λ n. n) result cursor.new (read_layout (known_name (bytes_of contracts.now) none_taken) cursor.old) }
{
    let contract = known_name(cursor, contracts)?;
    Ok(contract as u8)
}

#[tactic(auto, unfolding(crate::specs::ScenarioLayout::new_row, crate::specs::ScenarioLayout::nurse, rota_layout::specs::Reading::read_layout))]
fn nurse_row(
    cursor: &mut Cursor<'_>,
    alloc: Global,
    contracts: &IndexSet<Vec<u8>>,
    skills: &IndexSet<Vec<u8>>,
    rows: &mut NurseRows,
) -> Result<(), LayoutError>
    requires contracts { length (bytes_of contracts.now) ≤ MAX_CONTRACTS }
    requires skills { length (bytes_of skills.now) ≤ MAX_SKILLS }
    ensures { Reads (λ _. nurses_of rows.new) result cursor.new (read_layout (new_row [] (nurse (bytes_of contracts.now) (bytes_of skills.now)) (nurses_of rows.old)) cursor.old) }
{
    let name = new_name(cursor, &rows.names)?;
    let contract = known_contract(cursor, contracts)?;
    let row = known_names(cursor, alloc, skills)?;
    add_name(alloc, &mut rows.names, name)?;
    Ok(
        rows.rows.push(NurseRow {
            contract,
            skills: row,
        })?,
    )
}

#[tactic(auto, using(rota_layout::proofs::ReadingLaws::row_steps))]
fn nurse_rows(
    cursor: &mut Cursor<'_>,
    alloc: Global,
    contracts: &IndexSet<Vec<u8>>,
    skills: &IndexSet<Vec<u8>>,
    count: u16,
    rows: &mut NurseRows,
) -> Result<(), LayoutError>
    requires contracts { length (bytes_of contracts.now) ≤ MAX_CONTRACTS }
    requires skills { length (bytes_of skills.now) ≤ MAX_SKILLS }
    ensures { Reads (λ _. nurses_of rows.new) result cursor.new (read_layout (repeat count (new_row [] (nurse (bytes_of contracts.now) (bytes_of skills.now))) (nurses_of rows.old)) cursor.old) }
{
    for _ in 0..count {
        nurse_row(cursor, alloc, contracts, skills, rows)?;
    }
    Ok(())
}

#[tactic(auto, unfolding(crate::specs::ScenarioLayout::section, rota_layout::specs::Reading::read_layout))]
pub fn nurses_part(
    cursor: &mut Cursor<'_>,
    alloc: Global,
    contracts: &IndexSet<Vec<u8>>,
    skills: &IndexSet<Vec<u8>>,
    rows: &mut NurseRows,
) -> Result<(), LayoutError>
    requires contracts { length (bytes_of contracts.now) ≤ MAX_CONTRACTS }
    requires skills { length (bytes_of skills.now) ≤ MAX_SKILLS }
    requires none { nurses_of rows.old ≡ none_named }
    ensures { Reads (λ _. nurses_of rows.new) result cursor.new (read_layout (section (codes "NURSES") MAX_NURSES (new_row [] (nurse (bytes_of contracts.now) (bytes_of skills.now))) none_named) cursor.old) }
{
    let count = cursor.setting(b"NURSES", 1, MAX_NURSES)?;
    nurse_rows(cursor, alloc, contracts, skills, count, rows)
}

/// The rows before the first nurse.
pub fn no_nurses(alloc: Global) -> NurseRows
    ensures { nurses_of result ≡ none_named }
{
    NurseRows {
        names: IndexSet::new(alloc),
        rows: Vec::new(alloc),
    }
}

/// The contract of each nurse.
pub fn contract_column(alloc: Global, rows: &[NurseRow]) -> Result<Vec<u8>, AllocError>
    ensures { IfOk result (λ v. v.items ≡ contract_column (map nurse_of rows.now)) }
{
    let mut column = Vec::with_capacity(alloc, rows.len())?;
    for row in rows {
        column.push(row.contract)?;
    }
    Ok(column)
}

/// For each nurse and each skill, whether she has it.
pub fn skill_table(alloc: Global, size: usize, rows: &[NurseRow]) -> Result<Vec<bool>, AllocError>
    ensures { IfOk result (λ v. v.items ≡ skill_table size (map nurse_of rows.now)) }
{
    let mut table = Vec::new(alloc);
    for row in rows {
        append_marks(&mut table, &row.skills, size)?;
    }
    Ok(table)
}
