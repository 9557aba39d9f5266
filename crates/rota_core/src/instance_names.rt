//! The names of an instance's scenario: names by number, and numbers by name.

ghost use Rattle.std.specs.Prelude.{◌≡◌, ◌<◌, slice_get};
ghost use Rattle.rota_core.specs.Words.{index_of};

use crate::instance::Instance;

impl Instance {
    ghost use Rattle.rota_core.specs.InstanceTables.{problem_of};

    /// The scenario's name.
    pub fn scenario_name(&self) -> &[u8]
        ensures { result.now ≡ self.now.scenario.name }
    {
        self.scenario().name()
    }

    /// The name of the nurse.
    pub fn nurse_name(&self, nurse: u16) -> &[u8]
        requires { nurse < (problem_of self.now).nurses }
        ensures { slice_get self.now.scenario.nurses nurse ≡ Some result.now }
    {
        self.scenario().nurse_name(nurse)
    }

    /// The name of the shift type.
    pub fn shift_name(&self, shift: u8) -> &[u8]
        requires { shift < (problem_of self.now).shifts }
        ensures { slice_get self.now.scenario.shifts shift ≡ Some result.now }
    {
        self.scenario().shift_name(shift)
    }

    /// The name of the skill.
    pub fn skill_name(&self, skill: u8) -> &[u8]
        requires { skill < (problem_of self.now).skills }
        ensures { slice_get self.now.scenario.skills skill ≡ Some result.now }
    {
        self.scenario().skill_name(skill)
    }

    /// The number of the nurse with this name, or `None` for another word.
    pub fn find_nurse(&self, name: &[u8]) -> Option<u16>
        ensures { result ≡ index_of self.now.scenario.nurses name.now }
    {
        self.scenario().find_nurse(name)
    }

    /// The number of the shift type with this name, or `None` for another word.
    pub fn find_shift(&self, name: &[u8]) -> Option<u8>
        ensures { result ≡ index_of self.now.scenario.shifts name.now }
    {
        self.scenario().find_shift(name)
    }

    /// The number of the skill with this name, or `None` for another word.
    pub fn find_skill(&self, name: &[u8]) -> Option<u8>
        ensures { result ≡ index_of self.now.scenario.skills name.now }
    {
        self.scenario().find_skill(name)
    }
}
