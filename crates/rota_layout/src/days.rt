//! Reads days.

ghost use Rattle.std.specs.Prelude.{◌≡◌, ◌<◌, IfOk};
ghost use Rattle.rota_core.specs.Words.{index_of};
ghost use Rattle.rota_layout.specs.Layout.{day_names, known_name, none_taken};
ghost use Rattle.rota_layout.specs.Reading.{read_layout, Reads};

use crate::cursor::Cursor;
use crate::fault::LayoutError;
use rota_core::{DAYS, Kind};

impl<'a> Cursor<'a> {
    /// A day, from 0 for `Mon`. It fails with `Unknown` for another word.
    #[tactic(auto, using(crate::proofs::NameSteps::known_by_word))]
    pub fn day(&mut self) -> Result<u8, LayoutError>
        ensures read { Reads (λ d. d) result self.new (read_layout (known_name day_names none_taken) self.old) }
        ensures below { IfOk result (λ d. d < DAYS) }
    {
        let name = self.word()?;
        day_named(name.word).ok_or(name.fault(Kind::Unknown))
    }
}

// The number of the day with this name, from 0 for `Mon`.
fn day_named(word: &[u8]) -> Option<u8>
    ensures { result ≡ index_of day_names word.now }
{
    match word {
        b"Mon" => Some(0),
        b"Tue" => Some(1),
        b"Wed" => Some(2),
        b"Thu" => Some(3),
        b"Fri" => Some(4),
        b"Sat" => Some(5),
        b"Sun" => Some(6),
        _ => None,
    }
}
