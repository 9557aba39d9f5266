//! The pasts of the nurses between two weeks.
ghost use Rattle.std.specs.Prelude.{◌≡◌, ◌<◌, ℕ, IfOk, true, length, slice_index_or};
ghost use Rattle.rota_core.specs.Defaults.{no_past};
ghost use Rattle.rota_core.specs.HardRules.{KeepsHardRules};
ghost use Rattle.rota_core.specs.InstanceTables.{problem_of};
ghost use Rattle.rota_core.specs.Pasts.{ArePasts, with_pasts};
ghost use Rattle.rota_core.specs.RosterTables.{set_of};
ghost use Rattle.rota_core.specs.WeekTables.{IsPast};
ghost use Rattle.rota_certificate.specs.Plans.{history_after};
ghost use Rattle.rota_bound_run.specs.JudgedWeeks.{ArePastsIn};

use rota_certificate::past_after_week;
use rota_core::{Instance, MAX_NUMBER, Past, Roster};
use std::alloc::{AllocError, Global};

// Whether the past is within the limits of a history's file.
fn is_past(shifts: u8, past: Past) -> bool
    ensures yes { result ≡ true → IsPast shifts past }
    ensures no { IsPast shifts past → result ≡ true }
{
    let last_in = match past.last {
        Some(shift) => shift < shifts,
        None => true,
    };
    let totals_in = past.assignments <= MAX_NUMBER && past.weekends <= MAX_NUMBER;
    let runs_in = past.shift_run <= MAX_NUMBER
        && past.work_run <= MAX_NUMBER
        && past.off_run <= MAX_NUMBER;
    last_in && totals_in && runs_in
}

/// Whether all pasts are within the limits of a history's file.
pub(crate) fn are_pasts(shifts: u8, pasts: &[Past]) -> bool
    ensures yes { result ≡ true → (n : ℕ) → n < length pasts.now → IsPast shifts (slice_index_or pasts.now n no_past) }
    ensures no { ((n : ℕ) → n < length pasts.now → IsPast shifts (slice_index_or pasts.now n no_past)) → result ≡ true }
{
    for past in pasts {
        if !is_past(shifts, *past) {
            return false;
        }
    }
    true
}

/// The pasts of the nurses before the week.
pub(crate) fn pasts_before(alloc: Global, week: &Instance) -> Result<Vec<Past>, AllocError>
    ensures { IfOk result (λ pasts. ArePastsIn (problem_of week.now).nurses (problem_of week.now).past pasts.items) }
{
    let mut pasts = Vec::new(alloc);
    for nurse in 0..week.nurses() {
        pasts.push(week.past(nurse))?;
    }
    Ok(pasts)
}

/// The pasts of the nurses after the week with this roster, if these are the pasts before it.
pub(crate) fn pasts_after(week: &Instance, roster: &Roster, pasts: Vec<Past>) -> Vec<Past>
    requires pasts { ArePasts (problem_of week.now).numbers pasts.items }
    requires keeps { KeepsHardRules (problem_of (with_pasts week.now pasts.items)) (set_of roster.now) }
    ensures { let before = problem_of (with_pasts week.now pasts.items) in
        ArePastsIn before.nurses (history_after before (set_of roster.now)) result.items }
{
    let mut pasts = pasts;
    for nurse in 0..week.nurses() {
        let index = usize::from(nurse);
        let past = past_after_week(week, roster, nurse, pasts[index]);
        pasts[index] = past;
    }
    pasts
}
