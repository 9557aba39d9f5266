//! The text of a model, and the model and rows that it determines.
ghost use Rattle.opb_text.specs.OneModel.{EachTextSpellsOneModel};
ghost use Rattle.opb_text.specs.EventText.{EventsSpellTheirModel};

use rota_core::laws::numerals_read_back;

/// A text spells at most one model.
pub fn each_text_spells_one_model()
    ensures { EachTextSpellsOneModel }
{
    numerals_read_back();
}

/// The text of the model consists of the first line, the texts of the events of the objective's row, if it
/// has a term, and the texts of the rows of the constraints.
pub fn events_spell_their_model()
    ensures { EventsSpellTheirModel }
{}
