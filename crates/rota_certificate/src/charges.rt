//! The charges of a nurse day by day, and her past after a day.

ghost use Rattle.std.specs.Prelude.{◌≡◌, ℕ, ◌+◌, ◌≤◌, ◌<◌, IfSome};
ghost use Rattle.rota_core.specs.InstanceTables.{problem_of};
ghost use Rattle.rota_certificate.specs.DayCharges.{assignment_above, fixed_charge, missing_total, over_charge, past_after, requests_against};
ghost use Rattle.rota_certificate.specs.DayCharges.{run_charge, run_on, shift_charges, under_charge, weekend_above, weekend_charge, weekend_on};
ghost use Rattle.rota_certificate.specs.ShiftCharges.{ended_charge, going_charge};
ghost use Rattle.rota_certificate.specs.Nearness.{IsNear, most_days};

use rota_core::{Contract, DAYS, Instance, Past, Span};
use rota_rules::{COMPLETE_WEEKEND_WEIGHT, OFF_RUN_WEIGHT, REQUEST_WEIGHT, WORK_RUN_WEIGHT};

// The length of the run on the shift type at the end of the past.
fn run_on(past: Past, shift: u8) -> u16
    ensures { result ≡ run_on past shift }
{
    if past.last == Some(shift) {
        past.shift_run
    } else {
        0
    }
}

// The charge of a day with or without a property, after a run of this length.
fn run_charge(run: u16, has: bool, limits: Span) -> u16
    ensures charge { result ≡ run_charge run has limits }
{
    if has {
        if limits.max <= run { 1 } else { 0 }
    } else if run >= 1 {
        limits.min.saturating_sub(run)
    } else {
        0
    }
}

// The charge of the run on the shift type of the day, if any.
fn going_charge(instance: &Instance, past: Past, choice: Option<u8>) -> u16
    ensures { result ≡ going_charge (problem_of instance.now) past choice }
{
    match choice {
        None => 0,
        Some(shift) => run_charge(run_on(past, shift), true, instance.limits(shift)),
    }
}

// The charge of the run that the day ends, if any: on the last shift type, if the day has another.
fn ended_charge(instance: &Instance, past: Past, choice: Option<u8>) -> u16
    ensures { result ≡ ended_charge (problem_of instance.now) past choice }
{
    match past.last {
        Some(last) if choice != Some(last) => {
            run_charge(past.shift_run, false, instance.limits(last))
        }
        _ => 0,
    }
}

/// The charges of the runs on all shift types: of the day's run, and of the run that the day ends.
pub fn shift_charges(instance: &Instance, past: Past, choice: Option<u8>) -> u64
    requires choice_in { IfSome choice (λ s. s < (problem_of instance.now).shifts) }
    requires last_in { IfSome past.last (λ s. s < (problem_of instance.now).shifts) }
    ensures charges { result ≡ shift_charges (problem_of instance.now) past choice }
    ensures small { result ≤ 131070 }
{
    u64::from(going_charge(instance, past, choice))
        + u64::from(ended_charge(instance, past, choice))
}

// The number of request rows against the choice.
fn requests_against(instance: &Instance, nurse: u16, day: u8, choice: Option<u8>) -> u16
    ensures { result ≡ requests_against (problem_of instance.now) nurse day choice }
{
    match choice {
        None => 0,
        Some(shift) => instance.requests(nurse, day, shift),
    }
}

// The cost of the weekend, which is charged on Sunday.
fn weekend_charge(contract: Contract, day: u8, saturday: bool, sunday: bool) -> u64
    ensures { result ≡ weekend_charge contract day saturday sunday }
{
    if day == 6 && contract.complete && saturday != sunday {
        u64::from(COMPLETE_WEEKEND_WEIGHT)
    } else {
        0
    }
}

/// 1 if the day of work is beyond the maximum in a row.
pub fn over_charge(run: u16, works: bool, limits: Span) -> u16
    ensures charge { result ≡ over_charge run works limits }
{
    if works && limits.max <= run { 1 } else { 0 }
}

// The number of days by which the run of work is below the minimum, if it ended the day before.
fn under_charge(run: u16, works: bool, limits: Span) -> u16
    ensures charge { result ≡ under_charge run works limits }
{
    if !works && run >= 1 {
        limits.min.saturating_sub(run)
    } else {
        0
    }
}

/// The charges of the day that no case limits, in points.
pub fn fixed_charge(
    instance: &Instance,
    contract: Contract,
    nurse: u16,
    day: u8,
    past: Past,
    choice: Option<u8>,
) -> u64
    requires contract { contract ≡ (problem_of instance.now).contract nurse }
    ensures charge { result ≡ fixed_charge (problem_of instance.now) nurse day past choice }
    ensures small { result ≤ 1000000000 }
{
    let works = choice.is_some();
    let under = under_charge(past.work_run, works, contract.work);
    let off = run_charge(past.off_run, !works, contract.off);
    let requests = requests_against(instance, nurse, day, choice);
    let weekend = weekend_charge(contract, day, past.last.is_some(), works);
    u64::from(WORK_RUN_WEIGHT) * u64::from(under)
        + u64::from(OFF_RUN_WEIGHT) * u64::from(off)
        + u64::from(REQUEST_WEIGHT) * u64::from(requests)
        + weekend
}

// 1 on a Sunday after a weekend with work, otherwise 0.
fn weekend_on(day: u8, saturday: bool, sunday: bool) -> u16
    ensures weekend { result ≡ weekend_on day saturday sunday }
    ensures small { result ≤ 1 }
{
    if day == 6 && (saturday || sunday) {
        1
    } else {
        0
    }
}

/// The past after the day.
pub fn past_after(instance: &Instance, day: u8, past: Past, choice: Option<u8>) -> Past
    requires choice_in { IfSome choice (λ s. s < (problem_of instance.now).shifts) }
    requires near { IsNear (problem_of instance.now).shifts most_days past }
    ensures past { result ≡ past_after day past choice }
    ensures near { (days : ℕ) → IsNear (problem_of instance.now).shifts days past → IsNear (problem_of instance.now).shifts (days + 1) result }
{
    let worked = past.last.is_some();
    match choice {
        None => Past {
            assignments: past.assignments,
            weekends: past.weekends + weekend_on(day, worked, false),
            last: None,
            shift_run: 0,
            work_run: 0,
            off_run: past.off_run + 1,
        },
        Some(shift) => Past {
            assignments: past.assignments + 1,
            weekends: past.weekends + weekend_on(day, worked, true),
            last: Some(shift),
            shift_run: run_on(past, shift) + 1,
            work_run: past.work_run + 1,
            off_run: 0,
        },
    }
}

/// 1 if the assignment of the day is above the maximum total.
pub fn assignment_above(contract: Contract, past: Past, choice: Option<u8>) -> u16
    ensures charge { result ≡ assignment_above contract past choice }
{
    if choice.is_some() && contract.total.max <= past.assignments {
        1
    } else {
        0
    }
}

/// 1 if the weekend that the day completes is above the maximum.
pub fn weekend_above(contract: Contract, day: u8, past: Past, choice: Option<u8>) -> u16
    ensures charge { result ≡ weekend_above contract day past choice }
{
    if contract.weekends <= past.weekends {
        weekend_on(day, past.last.is_some(), choice.is_some())
    } else {
        0
    }
}

/// The number of assignments that are missing at the end, if the week is the last.
pub fn missing_total(is_last: bool, contract: Contract, past: Past) -> u16
    ensures missing { result ≡ missing_total is_last contract past }
{
    if is_last {
        contract.total.min.saturating_sub(past.assignments)
    } else {
        0
    }
}
