//! A week's own tables: the demands of its days, and the requests for shifts off or days off.

use crate::values::Demand;
use std::marker::Model;

/// The rows of a week, not checked, and the numbers of nurses, shift types and skills for which they were
/// read.
#[derive(Drop)]
pub struct WeekParts {
    pub nurses: u16,
    pub shifts: u8,
    pub skills: u8,
    /// At index (d * S + s) * K + k, the demand of day d on shift type s with skill k, for S shift types and
    /// K skills.
    pub demands: Vec<Demand>,
    /// At index (n * DAYS + d) * S + s, the number of request rows that ask to keep nurse n off shift type s, or
    /// off every shift type, on day d.
    pub requests: Vec<u16>,
}

/// A week within the limits. It has one row for each index, and its numbers are at most `MAX_NUMBER`.
pub struct Week {
    parts: WeekParts,
}

impl Drop for Week {
    fn drop(self) {
        let Week { parts: _ } = self;
    }
}

impl Model for Week {
    ghost use Rattle.rota_core.specs.WeekTables.{WeekTables, IsWeek};

    ghost Value = { WeekTables };

    ghost use Rattle.rota_core.specs.Parts.{week_tables_of};

    ghost view = { λ w. week_tables_of w.parts };

    ghost invariant = { λ w. IsWeek (week_tables_of w.parts) };
}

impl Week {
    ghost use Rattle.std.specs.Prelude.{◌≡◌};
    ghost use Rattle.rota_core.specs.WeekTables.{IsWeek};
    ghost use Rattle.rota_core.specs.Parts.{week_tables_of};

    /// The week of these rows.
    pub fn of_parts(parts: WeekParts) -> Week
        requires { IsWeek (week_tables_of parts) }
        ensures { result ≡ week_tables_of parts }
    {
        Week { parts }
    }

    /// The rows of the week.
    pub fn into_parts(self) -> WeekParts
        ensures tables { week_tables_of result ≡ self }
        ensures within { IsWeek self }
    {
        let Self { parts } = self;
        parts
    }
}
