//! The choices that a case allows a nurse.

ghost use Rattle.std.specs.Prelude.{◌≡◌};
ghost use Rattle.rota_certificate.specs.LeafBounds.{allows, is_about, may_choose};

use rota_core::{Condition, DayChoice, Fact};

// Whether the fact is about the nurse's choice on this day of the week with this number.
fn is_about(one: DayChoice, week: usize, nurse: u16, day: u8) -> bool
    ensures { result ≡ is_about one week nurse day }
{
    usize::from(one.week) == week && one.nurse == nurse && one.day == day
}

// Whether the condition allows the choice: one about the day asks for its choice, or for another.
fn allows(condition: Condition, week: usize, nurse: u16, day: u8, choice: Option<u8>) -> bool
    ensures { result ≡ allows condition.fact condition.holds week nurse day choice }
{
    match condition.fact {
        Fact::Choice(one) if is_about(one, week, nurse, day) => {
            (one.choice == choice) == condition.holds
        }
        _ => true,
    }
}

/// Whether the case allows the nurse the choice on the day of the week with this number.
pub fn may_choose(case: &[Condition], week: usize, nurse: u16, day: u8, choice: Option<u8>) -> bool
    ensures { result ≡ may_choose case.now week nurse day choice }
{
    for condition in case {
        if !allows(*condition, week, nurse, day, choice) {
            return false;
        }
    }
    true
}
