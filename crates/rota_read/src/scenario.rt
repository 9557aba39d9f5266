//! Reads a scenario file.

ghost use Rattle.std.specs.Prelude.{◌≡◌, ◌≤◌, [], codes, length, IfOk, IfErr, OnOk};
ghost use Rattle.rota_core.specs.declared.fault.FileName.TheVariants as files;
ghost use Rattle.rota_core.specs.Parts.{bytes_of, scenario_of};
ghost use Rattle.rota_layout.specs.FileAnswers.{IsFaultOf};
ghost use Rattle.rota_layout.specs.Files.{Spells};
ghost use Rattle.rota_layout.specs.Reading.{read_layout, read_text, Reads, ReadsFile};
ghost use Rattle.rota_read.specs.ScenarioRows.{tables_of, IsEmpty};
ghost use Rattle.rota_layout.specs.Layout.{one_more};
ghost use Rattle.rota_read.specs.SharedSlots.{new_name};
ghost use Rattle.rota_read.specs.ScenarioLayout.{section, scenario};

use crate::contracts::{ContractRows, contracts_part, no_contracts};
use crate::nurses::{NurseRows, contract_column, no_nurses, nurses_part, skill_table};
use crate::rows::new_names;
use crate::shift_types::{ShiftRows, no_shift_types, shifts_part, successions_part};
use indexmap::IndexSet;
use rota_core::{FileFault, FileName, MAX_SKILLS, MAX_WEEKS, Scenario, ScenarioParts};
use rota_layout::{Cursor, LayoutError};
use std::alloc::{AllocError, Global};

// The contents of the sections of a scenario file.
pub struct ScenarioRows {
    pub name: Vec<u8>,
    pub weeks: u16,
    pub skills: IndexSet<Vec<u8>>,
    pub shifts: ShiftRows,
    pub forbidden: Vec<bool>,
    pub contracts: ContractRows,
    pub nurses: NurseRows,
}

impl Drop for ScenarioRows {
    fn drop(self) {
        let ScenarioRows {
            name: _,
            weeks: _,
            skills: _,
            shifts: _,
            forbidden: _,
            contracts: _,
            nurses: _,
        } = self;
    }
}

impl ScenarioRows {
    // The rows before the first section.
    fn new(alloc: Global) -> ScenarioRows
        ensures { IsEmpty result }
    {
        ScenarioRows {
            name: Vec::new(alloc),
            weeks: 0,
            skills: IndexSet::new(alloc),
            shifts: no_shift_types(alloc),
            forbidden: Vec::new(alloc),
            contracts: no_contracts(alloc),
            nurses: no_nurses(alloc),
        }
    }

    // The parts of the scenario that the sections make.
    fn into_parts(self, alloc: Global) -> Result<ScenarioParts, AllocError>
        ensures { IfOk result (λ parts. scenario_of parts ≡ tables_of self) }
    {
        let contract_of = contract_column(alloc, &self.nurses.rows)?;
        let has_skill = skill_table(alloc, self.skills.len(), &self.nurses.rows)?;
        let ScenarioRows {
            name,
            weeks,
            skills,
            shifts,
            forbidden,
            contracts,
            nurses,
        } = self;
        Ok(ScenarioParts {
            name,
            weeks,
            skills,
            shifts: shifts.names,
            nurses: nurses.names,
            limits: shifts.limits,
            forbidden,
            contracts: contracts.contracts,
            contract_of,
            has_skill,
        })
    }
}

#[tactic(auto, unfolding(crate::specs::ScenarioLayout::section, rota_layout::specs::Reading::read_layout))]
fn skills_part(
    cursor: &mut Cursor<'_>,
    alloc: Global,
    names: &mut IndexSet<Vec<u8>>,
) -> Result<(), LayoutError>
    requires { bytes_of names.old ≡ [] }
    ensures read { Reads (λ _. bytes_of names.new) result cursor.new (read_layout (section (codes "SKILLS") MAX_SKILLS (one_more new_name) []) cursor.old) }
    ensures few { OnOk result (length (bytes_of names.new) ≤ MAX_SKILLS) }
{
    let count = cursor.setting(b"SKILLS", 1, MAX_SKILLS)?;
    new_names(cursor, alloc, count, names)
}

// Reads each section into rows that one caller owns.
#[tactic(auto, unfolding(crate::specs::ScenarioLayout::scenario, rota_layout::specs::Reading::read_layout))]
fn sections(
    cursor: &mut Cursor<'_>,
    alloc: Global,
    rows: &mut ScenarioRows,
) -> Result<(), LayoutError>
    requires { IsEmpty rows.old }
    ensures { Reads (λ _. tables_of rows.new) result cursor.new (read_layout scenario cursor.old) }
{
    cursor.exactly(b"SCENARIO")?;
    cursor.exactly(b"=")?;
    rows.name.extend_from_slice(cursor.word()?.word)?;
    rows.weeks = cursor.setting(b"WEEKS", 1, MAX_WEEKS)?;
    skills_part(cursor, alloc, &mut rows.skills)?;
    shifts_part(cursor, alloc, &mut rows.shifts)?;
    successions_part(cursor, alloc, &rows.shifts.names, &mut rows.forbidden)?;
    contracts_part(cursor, alloc, &mut rows.contracts)?;
    let contracts = &rows.contracts.names;
    nurses_part(cursor, alloc, contracts, &rows.skills, &mut rows.nurses)
}

/// The parts of a scenario, from the whole text.
#[tactic(auto, using(rota_layout::proofs::ReadingLaws::front_fails), unfolding(rota_layout::specs::Reading::read_text))]
fn scenario_parts(alloc: Global, text: &[u8]) -> Result<ScenarioParts, LayoutError>
    ensures { ReadsFile scenario_of result (read_text scenario text.now) }
{
    let mut cursor = Cursor::open(text)?;
    let mut rows = ScenarioRows::new(alloc);
    sections(&mut cursor, alloc, &mut rows)?;
    cursor.finish()?;
    Ok(rows.into_parts(alloc)?)
}

/// Returns the scenario that the text spells.
///
/// The text is a scenario file of the Second International Nurse Rostering Competition (INRC-II), in the
/// layout of `docs/formats.md`: skills, shift types and forbidden successions, contracts and nurses, all
/// numbered from 0 in the order of the file.
///
/// See the example at the top of the crate.
///
/// # Errors
///
/// `Bad` is the text's one fault: the fault of the first token that does not fit its position, with the
/// token's line, or `Ended`, with the line of the last token (1 if there is none). A text of more than
/// `MAX_FILE_LEN` bytes has `Limit` on line 0. `Memory` is returned only if memory runs out before a fault
/// was found.
#[tactic(auto, using(rota_layout::proofs::ReadingLaws::file_steps))]
pub fn read_scenario(alloc: Global, text: &[u8]) -> Result<Scenario, FileFault>
    ensures spelled { IfOk result (Spells scenario text.now) }
    ensures fault { IfErr result (IsFaultOf files.Scenario scenario text.now) }
{
    match scenario_parts(alloc, text) {
        Ok(parts) => Ok(Scenario::of_parts(parts)),
        Err(stop) => Err(stop.in_file(FileName::Scenario)),
    }
}
