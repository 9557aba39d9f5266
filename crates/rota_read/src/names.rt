//! Reads the names of a scenario file: new names, and known names by their indices.

ghost use Rattle.std.specs.Prelude.{◌≡◌, false, ◌<◌, ◌++◌, IfOk, length};
ghost use Rattle.rota_core.specs.Words.{is_among};
ghost use Rattle.rota_core.specs.Parts.{bytes_of};
ghost use Rattle.rota_core.specs.ScenarioTables.{reserved};
ghost use Rattle.rota_layout.specs.Layout.{known_name, none_taken};
ghost use Rattle.rota_read.specs.SharedSlots.{new_name, is_one_of};
ghost use Rattle.rota_layout.specs.Reading.{read_layout, Reads};

use indexmap::IndexSet;
use rota_core::{Kind, index_of_name, is_name};
use rota_layout::{Cursor, LayoutError};

pub(crate) fn is_taken(taken: &[usize], index: usize) -> bool
    ensures { result ≡ is_one_of taken.now index }
{
    taken.iter().any(|p| *p == index)
}

fn is_reserved(word: &[u8]) -> bool
    ensures { result ≡ is_among reserved word.now }
{
    word == b"None".as_slice() || word == b"Any".as_slice()
}

/// A word that is none of the names.
#[tactic(auto, using(crate::proofs::NewNames::new_by_word))]
pub fn new_name<'a>(
    cursor: &mut Cursor<'a>,
    names: &IndexSet<Vec<u8>>,
) -> Result<&'a [u8], LayoutError>
    ensures read { Reads (λ w. w.now) result cursor.new (read_layout (new_name (bytes_of names.now)) cursor.old) }
    ensures new { IfOk result (λ w. is_among (bytes_of names.now) w.now ≡ false) }
{
    let name = cursor.word()?;
    cursor.unless_taken(is_name(names, name.word))?;
    Ok(name.word)
}

/// A new name that is not reserved.
#[tactic(auto, using(crate::proofs::NewNames::new_by_word))]
pub fn new_shift_name<'a>(
    cursor: &mut Cursor<'a>,
    names: &IndexSet<Vec<u8>>,
) -> Result<&'a [u8], LayoutError>
    ensures read { Reads (λ w. w.now) result cursor.new (read_layout (new_name (reserved ++ bytes_of names.now)) cursor.old) }
    ensures new { IfOk result (λ w. is_among (bytes_of names.now) w.now ≡ false) }
{
    let name = cursor.word()?;
    cursor.unless_taken(is_reserved(name.word) || is_name(names, name.word))?;
    Ok(name.word)
}

/// The index of a name.
#[tactic(auto, using(rota_layout::proofs::ReadingLaws::known_by_word))]
pub fn known_name(cursor: &mut Cursor<'_>, names: &IndexSet<Vec<u8>>) -> Result<usize, LayoutError>
    ensures read { Reads (λ n. n) result cursor.new (read_layout (known_name (bytes_of names.now) none_taken) cursor.old) }
    ensures below { IfOk result (λ n. n < length (bytes_of names.now)) }
{
    let name = cursor.word()?;
    index_of_name(names, name.word).ok_or(name.fault(Kind::Unknown))
}
