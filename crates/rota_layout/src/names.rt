//! Reads the names of nurses, shift types and skills, by their numbers.

ghost use Rattle.std.specs.Prelude.{◌≡◌, true, false, ◌<◌, IfOk, MatchResult, length};
ghost use Rattle.std.specs.Option.{ForSome};
ghost use Rattle.rota_core.specs.declared.fault.Kind.TheVariants.{Repeated};
ghost use Rattle.rota_layout.specs.Layout.{known_name, none_taken, shift_or};
ghost use Rattle.rota_layout.specs.Reading.{read_layout, Reads};

use crate::cursor::Cursor;
use crate::fault::{LayoutError, LineFault};
use rota_core::{Kind, Scenario};

impl<'a> Cursor<'a> {
    /// Fails with `Repeated`, on the line of the previous token, if the name there is taken.
    pub fn unless_taken(&self, taken: bool) -> Result<(), LayoutError>
        ensures { MatchResult result
            (λ _. taken ≡ false)
            (λ e. (taken ≡ true) × (e ≡ LayoutError.Fault (record { kind = Repeated; line = self.now.last }))) }
    {
        if taken {
            return Err(LayoutError::Fault(LineFault {
                kind: Kind::Repeated,
                line: self.last_line(),
            }));
        }
        Ok(())
    }

    /// The number of a nurse. It fails with `Unknown` for another word.
    #[tactic(auto, using(crate::proofs::NameSteps::known_by_word))]
    pub fn nurse(&mut self, scenario: &Scenario) -> Result<u16, LayoutError>
        ensures read { Reads (λ n. n) result self.new (read_layout (known_name scenario.now.nurses none_taken) self.old) }
        ensures below { IfOk result (λ n. n < length scenario.now.nurses) }
    {
        let name = self.word()?;
        scenario
            .find_nurse(name.word)
            .ok_or(name.fault(Kind::Unknown))
    }

    /// The number of a shift type. It fails with `Unknown` for another word.
    #[tactic(auto, using(crate::proofs::NameSteps::known_by_word))]
    pub fn shift(&mut self, scenario: &Scenario) -> Result<u8, LayoutError>
        ensures read { Reads (λ s. s) result self.new (read_layout (known_name scenario.now.shifts none_taken) self.old) }
        ensures below { IfOk result (λ s. s < length scenario.now.shifts) }
    {
        let name = self.word()?;
        scenario
            .find_shift(name.word)
            .ok_or(name.fault(Kind::Unknown))
    }

    /// The number of a skill. It fails with `Unknown` for another word.
    #[tactic(auto, using(crate::proofs::NameSteps::known_by_word))]
    pub fn skill(&mut self, scenario: &Scenario) -> Result<u8, LayoutError>
        ensures read { Reads (λ k. k) result self.new (read_layout (known_name scenario.now.skills none_taken) self.old) }
        ensures below { IfOk result (λ k. k < length scenario.now.skills) }
    {
        let name = self.word()?;
        scenario
            .find_skill(name.word)
            .ok_or(name.fault(Kind::Unknown))
    }

    /// The number of a shift type, or `None` for this word. It fails with `Unknown` for another one.
    #[tactic(auto, using(crate::proofs::NameSteps::shift_by_word))]
    pub fn shift_or(&mut self, word: &[u8], scenario: &Scenario) -> Result<Option<u8>, LayoutError>
        ensures read { Reads (λ s. s) result self.new (read_layout (shift_or word.now scenario.now.shifts) self.old) }
        ensures below { IfOk result (λ s. ForSome s (λ n. n < length scenario.now.shifts)) }
    {
        let name = self.word()?;
        if name.word == word {
            return Ok(None);
        }
        let Some(shift) = scenario.find_shift(name.word) else {
            return Err(name.fault(Kind::Unknown));
        };
        Ok(Some(shift))
    }
}
