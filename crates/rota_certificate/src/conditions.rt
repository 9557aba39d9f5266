//! Whether the rosters of some weeks meet conditions.

ghost use Rattle.std.specs.Prelude.{◌≡◌, MatchOption, length};
ghost use Rattle.rota_core.specs.Certificates.{AreConditionsFor, IsChargeLimitFor, IsFactFor};
ghost use Rattle.rota_core.specs.HardRules.{nurses_at};
ghost use Rattle.rota_core.specs.InstanceTables.{problem_of};
ghost use Rattle.rota_core.specs.RosterTables.{set_of};
ghost use Rattle.rota_certificate.specs.CountedCharges.{IsPlanned, numbers_in};
ghost use Rattle.rota_certificate.specs.UnmetConditions.{IsFirstUnmetCondition};
ghost use Rattle.rota_certificate.specs.Plans.{plan_from};
ghost use Rattle.rota_certificate.specs.Facts.{IsIn, charges_counted, has_choice, is_fact};

use crate::counted::{charges_of_all, charges_of_nurse, choice_on, is_on};
use rota_core::{Cell, ChargeKind, ChargeLimit, Condition, DAYS, Fact, Instance, Roster};

// Whether the nurse has the choice on the day.
fn has_choice(instance: &Instance, roster: &Roster, nurse: u16, day: u8, choice: Option<u8>) -> bool
    ensures { result ≡ has_choice (problem_of instance.now) (set_of roster.now) nurse day choice }
{
    match choice {
        None => choice_on(instance, roster, nurse, day).is_none(),
        Some(shift) => is_on(instance, roster, nurse, shift, day),
    }
}

// The number of nurses at the place.
fn nurses_at(instance: &Instance, roster: &Roster, day: u8, shift: u8, skill: u8) -> u16
    ensures { result ≡ nurses_at (problem_of instance.now) (set_of roster.now) day shift skill }
{
    let mut count = 0;
    for nurse in 0..instance.nurses() {
        if roster.has(Cell {
            nurse,
            day,
            shift,
            skill,
        }) {
            count += 1;
        }
    }
    count
}

// The number of charges that the limit is about.
fn charges_counted(weeks: &[Instance], rosters: &[Roster], limit: ChargeLimit) -> u64
    requires plan { IsPlanned weeks.now rosters.now }
    requires limit_in { IsChargeLimitFor (numbers_in weeks.now) limit }
    ensures { result ≡ charges_counted limit (plan_from weeks.now rosters.now) }
{
    match limit.nurse {
        Some(nurse) => charges_of_nurse(weeks, rosters, limit.kind, nurse),
        None => charges_of_all(weeks, rosters, limit.kind),
    }
}

// Whether the fact is true of the rosters.
fn is_fact(weeks: &[Instance], rosters: &[Roster], fact: Fact) -> bool
    requires plan { IsPlanned weeks.now rosters.now }
    requires fact_in { IsFactFor (numbers_in weeks.now) (length weeks.now) fact }
    ensures { result ≡ is_fact (plan_from weeks.now rosters.now) fact }
{
    match fact {
        Fact::Choice(one) => {
            let week = usize::from(one.week);
            has_choice(&weeks[week], &rosters[week], one.nurse, one.day, one.choice)
        }
        Fact::Nurses(limit) => {
            let week = usize::from(limit.week);
            nurses_at(
                &weeks[week],
                &rosters[week],
                limit.day,
                limit.shift,
                limit.skill,
            ) <= limit.most
        }
        Fact::Charges(limit) => charges_counted(weeks, rosters, limit) <= u64::from(limit.most),
        Fact::EvenShiftRuns => { charges_of_all(weeks, rosters, ChargeKind::ShiftRuns) % 2 == 0 }
    }
}

/// The index of the first of the given conditions that these rosters of the weeks do not meet.
pub fn first_unmet(weeks: &[Instance], rosters: &[Roster], given: &[Condition]) -> Option<usize>
    requires plan { IsPlanned weeks.now rosters.now }
    requires conditions { AreConditionsFor (numbers_in weeks.now) (length weeks.now) given.now }
    ensures { let plan = plan_from weeks.now rosters.now in MatchOption result (IsIn plan given.now) (IsFirstUnmetCondition plan given.now) }
{
    for (index, condition) in given.iter().enumerate() {
        if is_fact(weeks, rosters, condition.fact) != condition.holds {
            return Some(index);
        }
    }
    None
}
