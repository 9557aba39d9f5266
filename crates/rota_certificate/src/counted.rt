//! The number of a nurse's charges of a kind in the rosters of some weeks.

ghost use Rattle.std.specs.Prelude.{◌≡◌, ℕ, ◌+◌, ◌-◌, ◌≤◌, ◌<◌, IfSome};
ghost use Rattle.rota_core.specs.HardRules.{KeepsHardRules, is_on};
ghost use Rattle.rota_core.specs.InstanceTables.{problem_of};
ghost use Rattle.rota_core.specs.RosterTables.{set_of};
ghost use Rattle.rota_core.specs.Sizes.{DAYS};
ghost use Rattle.rota_rules.specs.CountedTotals.{charged_excess};
ghost use Rattle.rota_certificate.specs.CountedCharges.{IsCountedWeek, IsPlanned, choice_on, numbers_in, run_charges, total_charges};
ghost use Rattle.rota_certificate.specs.Plans.{Pasts, after, history_after, plan_from};
ghost use Rattle.rota_certificate.specs.Facts.{charges_of_all, charges_of_nurse};
ghost use Rattle.rota_certificate.specs.Nearness.{IsNear, most_days};

use crate::charges::{over_charge, past_after, shift_charges};
use rota_core::{Cell, ChargeKind, DAYS, Instance, Past, Roster};

// The number of a nurse's charges in a week, and her past after it.
#[derive(Clone, Copy)]
struct CountedWeek {
    charges: u64,
    past: Past,
}

/// Whether the nurse is on the shift type that day.
pub fn is_on(instance: &Instance, roster: &Roster, nurse: u16, shift: u8, day: u8) -> bool
    ensures { result ≡ is_on (problem_of instance.now) (set_of roster.now) nurse shift day }
{
    for skill in 0..instance.skills() {
        if roster.has(Cell {
            nurse,
            day,
            shift,
            skill,
        }) {
            return true;
        }
    }
    false
}

/// The nurse's first shift type of the day, if she works.
#[tactic(auto, using(crate::proofs::FirstBelow::searching))]
pub fn choice_on(instance: &Instance, roster: &Roster, nurse: u16, day: u8) -> Option<u8>
    ensures choice { result ≡ choice_on (problem_of instance.now) (set_of roster.now) nurse day }
    ensures inside { IfSome result (λ s. s < (problem_of instance.now).shifts) }
{
    for shift in 0..instance.shifts() {
        if is_on(instance, roster, nurse, shift, day) {
            return Some(shift);
        }
    }
    None
}

// The charges of the kind on a day after the past, if they are charges of runs.
fn run_charges(
    instance: &Instance,
    kind: ChargeKind,
    nurse: u16,
    past: Past,
    choice: Option<u8>,
) -> u64
    requires choice_in { IfSome choice (λ s. s < (problem_of instance.now).shifts) }
    requires last_in { IfSome past.last (λ s. s < (problem_of instance.now).shifts) }
    ensures charges { result ≡ run_charges kind (problem_of instance.now) nurse past choice }
    ensures small { result ≤ 131070 }
{
    match kind {
        ChargeKind::ShiftRuns => shift_charges(instance, past, choice),
        ChargeKind::WorkDays => u64::from(over_charge(
            past.work_run,
            choice.is_some(),
            instance.contract(nurse).work,
        )),
        ChargeKind::Assignments | ChargeKind::Weekends => 0,
    }
}

// The excess over a maximum that the week pays for.
fn charged_excess(instance: &Instance, maximum: u16, before: u16, now: u16) -> u64
    ensures excess { result ≡ charged_excess (problem_of instance.now) maximum before now }
    ensures small { result ≤ 131070 }
{
    let maximum = u64::from(maximum);
    let (before, now) = (u64::from(before), u64::from(now));
    let excess = (before + now).saturating_sub(maximum);
    if instance.early() {
        excess - before.saturating_sub(maximum)
    } else if instance.last_week() {
        excess
    } else {
        0
    }
}

// The charges of the kind for a week between these pasts, if they are charges of totals.
fn total_charges(instance: &Instance, kind: ChargeKind, nurse: u16, before: Past, now: Past) -> u64
    ensures charges { result ≡ total_charges kind (problem_of instance.now) nurse before now }
    ensures small { result ≤ 131070 }
{
    let contract = instance.contract(nurse);
    match kind {
        ChargeKind::ShiftRuns | ChargeKind::WorkDays => 0,
        ChargeKind::Assignments => charged_excess(
            instance,
            contract.total.max,
            before.assignments,
            now.assignments.saturating_sub(before.assignments),
        ),
        ChargeKind::Weekends => charged_excess(
            instance,
            contract.weekends,
            before.weekends,
            now.weekends.saturating_sub(before.weekends),
        ),
    }
}

// The nurse's charges of the kind in the week after this past, and her past after the week.
fn charges_in_week(
    instance: &Instance,
    roster: &Roster,
    kind: ChargeKind,
    nurse: u16,
    past: Past,
) -> CountedWeek
    requires nurse_in { nurse < (problem_of instance.now).nurses }
    requires near { IsNear (problem_of instance.now).shifts (most_days - DAYS) past }
    ensures counted { (history : Pasts) → history nurse ≡ past → let week = after (problem_of instance.now) history in
        KeepsHardRules week (set_of roster.now) → IsCountedWeek kind week (set_of roster.now) nurse result }
    ensures near { (days : ℕ) → IsNear (problem_of instance.now).shifts days past →
        IsNear (problem_of instance.now).shifts (days + DAYS) result.past }
    ensures small { result.charges ≤ 1048560 }
{
    let mut now = past;
    let mut charges = 0;
    for day in 0..DAYS {
        let choice = choice_on(instance, roster, nurse, day);
        charges += run_charges(instance, kind, nurse, now, choice);
        now = past_after(instance, day, now, choice);
    }
    CountedWeek {
        charges: charges + total_charges(instance, kind, nurse, past, now),
        past: now,
    }
}

/// The nurse's past after the week with this roster, if this is her past before it.
pub fn past_after_week(instance: &Instance, roster: &Roster, nurse: u16, past: Past) -> Past
    requires nurse_in { nurse < (problem_of instance.now).nurses }
    requires near { IsNear (problem_of instance.now).shifts (most_days - DAYS) past }
    ensures past { (history : Pasts) → history nurse ≡ past → let week = after (problem_of instance.now) history in
        KeepsHardRules week (set_of roster.now) → result ≡ history_after week (set_of roster.now) nurse }
{
    charges_in_week(instance, roster, ChargeKind::WorkDays, nurse, past).past
}

/// The number of the nurse's charges of the kind in all weeks.
pub fn charges_of_nurse(weeks: &[Instance], rosters: &[Roster], kind: ChargeKind, nurse: u16) -> u64
    requires plan { IsPlanned weeks.now rosters.now }
    requires nurse_in { nurse < (numbers_in weeks.now).nurses }
    ensures count { result ≡ charges_of_nurse kind (plan_from weeks.now rosters.now) nurse }
    ensures small { result ≤ 54525120 }
{
    let first = &weeks[0];
    let mut past = first.past(nurse);
    let mut sum = 0;
    for number in 0..weeks.len() {
        let week = charges_in_week(&weeks[number], &rosters[number], kind, nurse, past);
        sum += week.charges;
        past = week.past;
    }
    sum
}

/// The number of charges of the kind of all nurses in all weeks.
pub fn charges_of_all(weeks: &[Instance], rosters: &[Roster], kind: ChargeKind) -> u64
    requires plan { IsPlanned weeks.now rosters.now }
    ensures count { result ≡ charges_of_all kind (plan_from weeks.now rosters.now) }
{
    if weeks.is_empty() {
        return 0;
    }
    let mut sum = 0;
    for nurse in 0..weeks[0].nurses() {
        sum += charges_of_nurse(weeks, rosters, kind, nurse);
    }
    sum
}
