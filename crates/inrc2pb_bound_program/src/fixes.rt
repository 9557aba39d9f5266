//! The held cells that the words name: each text of `--fix` names a week and a path.
ghost use Rattle.std.specs.Prelude.{◌≡◌, option_map};
ghost use Rattle.inrc2pb_frame.specs.Options.{texts};
ghost use Rattle.inrc2pb_bound_program.specs.FixTexts.{are_fixes as each_has_a_week, fix_of, path_named, week_named};

use rota_core::{MAX_WEEKS, decimal_up_to};

/// The path that one of the texts names for the week with this number, from 1, if one does. The number of weeks is
/// given.
pub fn fix_named<'a>(weeks: usize, given: &[&'a str], week: usize) -> Option<&'a str>
    ensures { option_map (λ path. path.now) result ≡ fix_of weeks (texts given.now) week }
{
    for text in given {
        let (number, path) = named(weeks, text);
        if number == week {
            return Some(path);
        }
    }
    None
}

/// Whether each text names one of the weeks, whose number is given, and no two the same.
#[tactic(auto, using(crate::proofs::FixLemmas::are_fixes_from))]
pub fn are_fixes(weeks: usize, given: &[&str]) -> bool
    ensures { result ≡ each_has_a_week weeks (texts given.now) }
{
    for index in 0..given.len() {
        let (week, _) = named(weeks, given[index]);
        let again = fix_named(weeks, &given[index + 1..], week).is_some();
        if week < 1 || weeks < week || again {
            return false;
        }
    }
    true
}

// The week and the path that a text names.
fn named(weeks: usize, text: &str) -> (usize, &str)
    ensures week { result.0 ≡ week_named weeks text.now }
    ensures path { result.1.now ≡ path_named text.now }
{
    let unnumbered = if weeks == 1 { 1 } else { 0 };
    let Some((number, path)) = text.split_once('=') else {
        return (unnumbered, text);
    };
    match decimal_up_to(number.as_bytes(), u32::from(MAX_WEEKS) + 1) {
        Some(week) => (week as usize, path),
        None => (unnumbered, text),
    }
}
