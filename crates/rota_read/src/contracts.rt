//! Reads the contracts of a scenario file.

ghost use Rattle.std.specs.Prelude.{◌≡◌, ◌≤◌, ◌+◌, [], codes, length, OnOk};
ghost use Rattle.rota_core.specs.Parts.{bytes_of};
ghost use Rattle.rota_layout.specs.Layout.{repeat};
ghost use Rattle.rota_layout.specs.Reading.{read_layout, Reads};
ghost use Rattle.rota_read.specs.ScenarioLayout.{contract, new_row, none_named, section};
ghost use Rattle.rota_read.specs.ScenarioRows.{contracts_of};

use crate::names::new_name;
use crate::rows::pair;
use indexmap::IndexSet;
use rota_core::{Contract, MAX_CONTRACTS, MAX_NUMBER, add_name};
use rota_layout::{Cursor, LayoutError};
use std::alloc::Global;

#[derive(Drop)]
pub struct ContractRows {
    pub names: IndexSet<Vec<u8>>,
    pub contracts: Vec<Contract>,
}

// The numbers of a contract.
#[tactic(auto, unfolding(crate::specs::ScenarioLayout::contract, rota_layout::specs::Reading::read_layout))]
fn contract(cursor: &mut Cursor<'_>) -> Result<Contract, LayoutError>
    ensures { Reads (λ c. c) result cursor.new (read_layout contract cursor.old) }
{
    let total = pair(cursor)?;
    let work = pair(cursor)?;
    let off = pair(cursor)?;
    let weekends = cursor.number(0, MAX_NUMBER)?;
    let complete = cursor.number(0, 1)?;
    Ok(Contract {
        total,
        work,
        off,
        weekends,
        complete: complete == 1,
    })
}

#[tactic(auto, unfolding(crate::specs::ScenarioLayout::new_row, rota_layout::specs::Reading::read_layout))]
fn contract_row(
    cursor: &mut Cursor<'_>,
    alloc: Global,
    rows: &mut ContractRows,
) -> Result<(), LayoutError>
    ensures read { Reads (λ _. contracts_of rows.new) result cursor.new (read_layout (new_row [] contract (contracts_of rows.old)) cursor.old) }
    ensures longer { OnOk result (length (bytes_of rows.new.names) ≡ length (bytes_of rows.old.names) + 1) }
{
    let name = new_name(cursor, &rows.names)?;
    let contract = contract(cursor)?;
    add_name(alloc, &mut rows.names, name)?;
    Ok(rows.contracts.push(contract)?)
}

#[tactic(auto, using(rota_layout::proofs::ReadingLaws::row_steps))]
fn contract_rows(
    cursor: &mut Cursor<'_>,
    alloc: Global,
    count: u16,
    rows: &mut ContractRows,
) -> Result<(), LayoutError>
    ensures read { Reads (λ _. contracts_of rows.new) result cursor.new (read_layout (repeat count (new_row [] contract) (contracts_of rows.old)) cursor.old) }
    ensures longer { OnOk result (length (bytes_of rows.new.names) ≡ length (bytes_of rows.old.names) + count) }
{
    for _ in 0..count {
        contract_row(cursor, alloc, rows)?;
    }
    Ok(())
}

#[tactic(auto, unfolding(crate::specs::ScenarioLayout::section, rota_layout::specs::Reading::read_layout))]
pub fn contracts_part(
    cursor: &mut Cursor<'_>,
    alloc: Global,
    rows: &mut ContractRows,
) -> Result<(), LayoutError>
    requires { contracts_of rows.old ≡ none_named }
    ensures read { Reads (λ _. contracts_of rows.new) result cursor.new (read_layout (section (codes "CONTRACTS") MAX_CONTRACTS (new_row [] contract) none_named) cursor.old) }
    ensures few { OnOk result (length (bytes_of rows.new.names) ≤ MAX_CONTRACTS) }
{
    let count = cursor.setting(b"CONTRACTS", 1, MAX_CONTRACTS)?;
    contract_rows(cursor, alloc, count, rows)
}

/// The rows before the first contract.
pub fn no_contracts(alloc: Global) -> ContractRows
    ensures { contracts_of result ≡ none_named }
{
    ContractRows {
        names: IndexSet::new(alloc),
        contracts: Vec::new(alloc),
    }
}
