//! The names of days.

ghost use Rattle.std.specs.Prelude.{◌≡◌, ◌<◌};
ghost use Rattle.rota_layout.specs.Layout.{day_names};
ghost use Rattle.rota_read.specs.SolutionText.{name_at};

use rota_core::DAYS;

/// The name of a day in the files: `Mon` for 0 to `Sun` for 6.
pub fn day_name(day: u8) -> &'static [u8]
    requires { day < DAYS }
    ensures { result.now ≡ name_at day_names day }
{
    match day {
        0 => b"Mon",
        1 => b"Tue",
        2 => b"Wed",
        3 => b"Thu",
        4 => b"Fri",
        5 => b"Sat",
        _ => b"Sun",
    }
}
