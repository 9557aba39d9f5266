//! The cost of a nurse's charges in a leaf.

ghost use Rattle.std.specs.Prelude.{◌≡◌, ◌*◌, ◌≤◌, None, Some, false, if◌then◌else◌};
ghost use Rattle.std.specs.Option.{option_map_or};
ghost use Rattle.rota_core.specs.Limits.{max_price};
ghost use Rattle.rota_certificate.specs.CaseLimits.{AreLimitedCharges, IsLimited, most_conditions};
ghost use Rattle.rota_certificate.specs.Tariffs.{added, added_by, forbidden_by, gained, gained_by, has_overdrawn_weight, is_forbidden, is_overdrawn, limit_of, lost, lost_by, points_of, taken, taken_by, tariff_of, weight};

use crate::limits::{Limit, counts, forbids, limit_of};
use crate::points::PointValue;
use crate::rebates::NOT_ALLOWED;
use crate::surcharges::Surcharged;
use rota_core::{ChargeKind, Condition};
use rota_rules::{ASSIGNMENT_WEIGHT, SHIFT_RUN_WEIGHT, WORK_RUN_WEIGHT, WORKED_WEEKEND_WEIGHT};

/// The cost of a charge of each kind, in thousandths of a point.
#[derive(Clone, Copy)]
pub struct Tariff {
    /// A day too many or too few in a run of a shift type.
    pub shift_runs: u64,
    /// A day of work beyond the maximum in a row.
    pub work_days: u64,
    /// An assignment above the maximum total.
    pub assignments: u64,
    /// A worked weekend above the maximum.
    pub weekends: u64,
}

// The weight of a charge by the rules, in points.
fn points_of(kind: ChargeKind) -> u16
    ensures points { result ≡ points_of kind }
    ensures small { result ≤ 30 }
{
    match kind {
        ChargeKind::ShiftRuns => SHIFT_RUN_WEIGHT,
        ChargeKind::WorkDays => WORK_RUN_WEIGHT,
        ChargeKind::Assignments => ASSIGNMENT_WEIGHT,
        ChargeKind::Weekends => WORKED_WEEKEND_WEIGHT,
    }
}

// The part that the condition adds to the weight of the nurse's charges of the kind.
fn added_by(one: &Surcharged, kind: ChargeKind, nurse: u16) -> u64
    ensures added { result ≡ option_map_or (added_by kind nurse one.now.surcharge) (limit_of one.now.condition.fact one.now.condition.holds) 0 }
    ensures small { result ≤ one.now.surcharge }
{
    match limit_of(one.condition) {
        Some(Limit::AtMost(limit)) if counts(limit, kind, nurse) => u64::from(one.surcharge),
        _ => 0,
    }
}

// The part that it takes off.
fn taken_by(one: &Surcharged, kind: ChargeKind, nurse: u16) -> u64
    ensures taken { result ≡ option_map_or (taken_by kind nurse one.now.surcharge) (limit_of one.now.condition.fact one.now.condition.holds) 0 }
    ensures small { result ≤ one.now.surcharge }
{
    match limit_of(one.condition) {
        Some(Limit::MoreThan(limit)) if counts(limit, kind, nurse) => u64::from(one.surcharge),
        _ => 0,
    }
}

// The sum that all conditions add to the weight of the nurse's charges of the kind.
fn added(charges: &[Surcharged], kind: ChargeKind, nurse: u16) -> u64
    requires { AreLimitedCharges charges.now }
    ensures sum { result ≡ added charges.now kind nurse }
    ensures small { result ≤ most_conditions * max_price }
{
    let mut sum = 0;
    for one in charges {
        sum += added_by(one, kind, nurse);
    }
    sum
}

// The sum that they take off.
fn taken(charges: &[Surcharged], kind: ChargeKind, nurse: u16) -> u64
    requires { AreLimitedCharges charges.now }
    ensures sum { result ≡ taken charges.now kind nurse }
    ensures small { result ≤ most_conditions * max_price }
{
    let mut sum = 0;
    for one in charges {
        sum += taken_by(one, kind, nurse);
    }
    sum
}

// Whether the condition forbids the nurse's charges of the kind.
fn is_forbidden_by(condition: Condition, kind: ChargeKind, nurse: u16) -> bool
    ensures { result ≡ option_map_or (forbidden_by kind nurse) (limit_of condition.fact condition.holds) false }
{
    match limit_of(condition) {
        Some(limit) => forbids(limit, kind, nurse),
        None => false,
    }
}

// Whether a condition forbids them.
fn is_forbidden(charges: &[Surcharged], kind: ChargeKind, nurse: u16) -> bool
    ensures { result ≡ is_forbidden charges.now kind nurse }
{
    charges
        .iter()
        .any(|one| is_forbidden_by(one.condition, kind, nurse))
}

// The weight of the nurse's charges of the kind, unless the surcharges make it negative.
fn weight(unit: PointValue, charges: &[Surcharged], kind: ChargeKind, nurse: u16) -> Option<u64>
    requires limited { AreLimitedCharges charges.now }
    ensures { result ≡ (if is_overdrawn unit charges.now kind nurse then None else Some (weight unit charges.now kind nurse)) }
{
    let base = unit.times(u64::from(points_of(kind))) + added(charges, kind, nurse);
    let taken = taken(charges, kind, nurse);
    if base < taken {
        None
    } else if is_forbidden(charges, kind, nurse) {
        Some(NOT_ALLOWED)
    } else {
        Some(base - taken)
    }
}

/// The tariff of the nurse in the leaf, unless the surcharges make a weight negative.
pub fn tariff_of(unit: PointValue, charges: &[Surcharged], nurse: u16) -> Option<Tariff>
    requires limited { AreLimitedCharges charges.now }
    ensures { result ≡ (if has_overdrawn_weight unit charges.now nurse then None else Some (tariff_of unit charges.now nurse)) }
{
    let shift_runs = weight(unit, charges, ChargeKind::ShiftRuns, nurse)?;
    let work_days = weight(unit, charges, ChargeKind::WorkDays, nurse)?;
    let assignments = weight(unit, charges, ChargeKind::Assignments, nurse)?;
    let weekends = weight(unit, charges, ChargeKind::Weekends, nurse)?;
    Some(Tariff {
        shift_runs,
        work_days,
        assignments,
        weekends,
    })
}

// The loss of the bound by the condition.
fn lost_by(one: &Surcharged) -> u64
    requires limited { IsLimited one.now.condition.fact }
    requires small { one.now.surcharge ≤ max_price }
    ensures lost { result ≡ option_map_or (lost_by one.now.surcharge) (limit_of one.now.condition.fact one.now.condition.holds) 0 }
    ensures small { result ≤ max_price * 10000 }
{
    match limit_of(one.condition) {
        Some(Limit::AtMost(limit)) => u64::from(one.surcharge) * u64::from(limit.most),
        _ => 0,
    }
}

// The gain of the bound by it.
fn gained_by(one: &Surcharged) -> u64
    requires limited { IsLimited one.now.condition.fact }
    requires small { one.now.surcharge ≤ max_price }
    ensures gained { result ≡ option_map_or (gained_by one.now.surcharge) (limit_of one.now.condition.fact one.now.condition.holds) 0 }
    ensures small { result ≤ max_price * 10000 }
{
    match limit_of(one.condition) {
        Some(Limit::MoreThan(limit)) => u64::from(one.surcharge) * (u64::from(limit.most) + 1),
        _ => 0,
    }
}

/// The loss of the leaf's bound.
pub fn lost(charges: &[Surcharged]) -> u64
    requires { AreLimitedCharges charges.now }
    ensures sum { result ≡ lost charges.now }
    ensures small { result ≤ most_conditions * (max_price * 10000) }
{
    let mut sum = 0;
    for one in charges {
        sum += lost_by(one);
    }
    sum
}

/// The gain of the leaf's bound.
pub fn gained(charges: &[Surcharged]) -> u64
    requires { AreLimitedCharges charges.now }
    ensures sum { result ≡ gained charges.now }
    ensures small { result ≤ most_conditions * (max_price * 10000) }
{
    let mut sum = 0;
    for one in charges {
        sum += gained_by(one);
    }
    sum
}
