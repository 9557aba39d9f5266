//! A history: the record of the weeks before.

use crate::values::Past;
use std::marker::Model;

/// The rows of a history, not checked, and the numbers of nurses, shift types and skills for which they were
/// read.
#[derive(Drop)]
pub struct HistoryParts {
    pub nurses: u16,
    pub shifts: u8,
    pub skills: u8,
    /// The number of the next week, from 0.
    pub week: u16,
    /// The past of each nurse.
    pub past: Vec<Past>,
}

/// A history within the limits. It has one row for each nurse, its numbers are at most `MAX_NUMBER`, and each
/// last shift, if there is one, is a shift type.
pub struct History {
    parts: HistoryParts,
}

impl Drop for History {
    fn drop(self) {
        let History { parts: _ } = self;
    }
}

impl Model for History {
    ghost use Rattle.rota_core.specs.WeekTables.{HistoryTables, IsHistory};

    ghost Value = { HistoryTables };

    ghost use Rattle.rota_core.specs.Parts.{history_of};

    ghost view = { λ h. history_of h.parts };

    ghost invariant = { λ h. IsHistory (history_of h.parts) };
}

impl History {
    ghost use Rattle.std.specs.Prelude.{◌≡◌};
    ghost use Rattle.rota_core.specs.WeekTables.{IsHistory};
    ghost use Rattle.rota_core.specs.Parts.{history_of};

    /// The history of these rows.
    pub fn of_parts(parts: HistoryParts) -> History
        requires { IsHistory (history_of parts) }
        ensures { result ≡ history_of parts }
    {
        History { parts }
    }

    /// The rows of the history.
    pub fn into_parts(self) -> HistoryParts
        ensures tables { history_of result ≡ self }
        ensures within { IsHistory self }
    {
        let Self { parts } = self;
        parts
    }
}
