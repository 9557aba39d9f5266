//! A scenario: the data that all weeks share.

ghost use Rattle.std.specs.Prelude.{◌≡◌, ◌<◌, ◌+◌, ◌*◌, IfOk, false, length, slice_get, slice_index_or};
ghost use Rattle.rota_core.specs.Words.{index_of};

use crate::limits::{MAX_NURSES, MAX_SHIFTS, MAX_SKILLS};
use crate::names::{copy_names, index_of_name, name_at};
use crate::tables::{NO_CONTRACT, NO_SPAN, value_at};
use crate::values::{Contract, Span};
use indexmap::IndexSet;
use std::alloc::{AllocError, Global};
use std::marker::Model;

/// The rows of a scenario, not checked. Names are bytes, numbered from 0 in the order of the sets.
#[derive(Drop)]
pub struct ScenarioParts {
    pub name: Vec<u8>,
    pub weeks: u16,
    pub skills: IndexSet<Vec<u8>>,
    pub shifts: IndexSet<Vec<u8>>,
    pub nurses: IndexSet<Vec<u8>>,
    /// The limits of consecutive assignments, by shift type.
    pub limits: Vec<Span>,
    /// At index s * S + t, whether shift type t may not follow s, for S shift types.
    pub forbidden: Vec<bool>,
    pub contracts: Vec<Contract>,
    /// By nurse, the index in `contracts`.
    pub contract_of: Vec<u8>,
    /// At index n * K + k, whether nurse n has skill k, for K skills.
    pub has_skill: Vec<bool>,
}

/// A scenario within the limits: 1 to `MAX_SKILLS` skills, `MAX_SHIFTS` shift types, `MAX_CONTRACTS` contracts,
/// `MAX_NURSES` nurses and `MAX_WEEKS` weeks, and other numbers up to `MAX_NUMBER`. Names are words: one byte
/// or more, without blanks and signs. No shift type is called `None` or `Any`. Each table has its length, and
/// each nurse has one of the contracts.
pub struct Scenario {
    parts: ScenarioParts,
}

impl Drop for Scenario {
    fn drop(self) {
        let Scenario { parts: _ } = self;
    }
}

impl Model for Scenario {
    ghost use Rattle.rota_core.specs.ScenarioTables.{ScenarioTables, IsScenario};

    ghost Value = { ScenarioTables };

    ghost use Rattle.rota_core.specs.Parts.{scenario_of};

    ghost view = { λ s. scenario_of s.parts };

    ghost invariant = { λ s. IsScenario (scenario_of s.parts) };
}

impl Scenario {
    ghost use Rattle.rota_core.specs.Limits.{Within};
    ghost use Rattle.rota_core.specs.ScenarioTables.{IsScenario};
    ghost use Rattle.rota_core.specs.Parts.{scenario_of};
    ghost use Rattle.rota_core.specs.Defaults.{no_contract, no_span};

    /// The scenario of these rows.
    pub fn of_parts(parts: ScenarioParts) -> Scenario
        requires { IsScenario (scenario_of parts) }
        ensures { result ≡ scenario_of parts }
    {
        Scenario { parts }
    }

    /// A copy of the scenario, which shares no memory with it. The only error is that memory runs out.
    pub fn copy(&self, alloc: Global) -> Result<Scenario, AllocError>
        ensures { IfOk result (λ copy. copy ≡ self.now) }
    {
        let parts = &self.parts;
        Ok(Scenario {
            parts: ScenarioParts {
                name: Vec::from_slice(alloc, &parts.name)?,
                weeks: parts.weeks,
                skills: copy_names(alloc, &parts.skills)?,
                shifts: copy_names(alloc, &parts.shifts)?,
                nurses: copy_names(alloc, &parts.nurses)?,
                limits: Vec::from_slice(alloc, &parts.limits)?,
                forbidden: Vec::from_slice(alloc, &parts.forbidden)?,
                contracts: Vec::from_slice(alloc, &parts.contracts)?,
                contract_of: Vec::from_slice(alloc, &parts.contract_of)?,
                has_skill: Vec::from_slice(alloc, &parts.has_skill)?,
            },
        })
    }

    /// The number of weeks of the scenario, 1 to `MAX_WEEKS`.
    pub fn weeks(&self) -> u16
        ensures weeks { result ≡ self.now.weeks }
        ensures within { IsScenario self.now }
    {
        self.parts.weeks
    }

    /// The number of nurses, 1 to `MAX_NURSES`.
    pub fn nurses(&self) -> u16
        ensures count { result ≡ length self.now.nurses }
        ensures within { Within MAX_NURSES result }
    {
        self.parts.nurses.len() as u16
    }

    /// The number of shift types, 1 to `MAX_SHIFTS`.
    pub fn shifts(&self) -> u8
        ensures count { result ≡ length self.now.shifts }
        ensures within { Within MAX_SHIFTS result }
    {
        self.parts.shifts.len() as u8
    }

    /// The number of skills, 1 to `MAX_SKILLS`.
    pub fn skills(&self) -> u8
        ensures count { result ≡ length self.now.skills }
        ensures within { Within MAX_SKILLS result }
    {
        self.parts.skills.len() as u8
    }

    /// Whether the nurse has the skill.
    pub(crate) fn has_skill(&self, nurse: u16, skill: u8) -> bool
        ensures { result ≡ slice_index_or self.now.has_skill (nurse * length self.now.skills + skill) false }
    {
        let index = usize::from(nurse) * usize::from(self.skills()) + usize::from(skill);
        value_at(&self.parts.has_skill, index, false)
    }

    /// The contract of the nurse.
    pub(crate) fn contract(&self, nurse: u16) -> Contract
        ensures { result ≡ slice_index_or self.now.contracts (slice_index_or self.now.contract_of nurse 0) no_contract }
    {
        let index = value_at(&self.parts.contract_of, usize::from(nurse), 0);
        value_at(&self.parts.contracts, usize::from(index), NO_CONTRACT)
    }

    /// The limits of consecutive assignments to the shift type.
    pub(crate) fn limits(&self, shift: u8) -> Span
        ensures { result ≡ slice_index_or self.now.limits shift no_span }
    {
        value_at(&self.parts.limits, usize::from(shift), NO_SPAN)
    }

    /// Whether the second shift type may not follow the first on the next day.
    pub(crate) fn forbidden(&self, first: u8, second: u8) -> bool
        ensures { result ≡ slice_index_or self.now.forbidden (first * length self.now.shifts + second) false }
    {
        let index = usize::from(first) * usize::from(self.shifts()) + usize::from(second);
        value_at(&self.parts.forbidden, index, false)
    }

    /// The name of the scenario.
    pub fn name(&self) -> &[u8]
        ensures { result.now ≡ self.now.name }
    {
        self.parts.name.as_slice()
    }

    /// The name of the nurse.
    pub(crate) fn nurse_name(&self, nurse: u16) -> &[u8]
        requires { nurse < length self.now.nurses }
        ensures { slice_get self.now.nurses nurse ≡ Some result.now }
    {
        name_at(&self.parts.nurses, usize::from(nurse))
    }

    /// The name of the shift type.
    pub(crate) fn shift_name(&self, shift: u8) -> &[u8]
        requires { shift < length self.now.shifts }
        ensures { slice_get self.now.shifts shift ≡ Some result.now }
    {
        name_at(&self.parts.shifts, usize::from(shift))
    }

    /// The name of the skill.
    pub(crate) fn skill_name(&self, skill: u8) -> &[u8]
        requires { skill < length self.now.skills }
        ensures { slice_get self.now.skills skill ≡ Some result.now }
    {
        name_at(&self.parts.skills, usize::from(skill))
    }

    /// The number of the nurse with this name, or `None` for another word.
    pub fn find_nurse(&self, name: &[u8]) -> Option<u16>
        ensures { result ≡ index_of self.now.nurses name.now }
    {
        let index = index_of_name(&self.parts.nurses, name)?;
        Some(index as u16)
    }

    /// The number of the shift type with this name, or `None` for another word.
    pub fn find_shift(&self, name: &[u8]) -> Option<u8>
        ensures { result ≡ index_of self.now.shifts name.now }
    {
        let index = index_of_name(&self.parts.shifts, name)?;
        Some(index as u8)
    }

    /// The number of the skill with this name, or `None` for another word.
    pub fn find_skill(&self, name: &[u8]) -> Option<u8>
        ensures { result ≡ index_of self.now.skills name.now }
    {
        let index = index_of_name(&self.parts.skills, name)?;
        Some(index as u8)
    }
}
