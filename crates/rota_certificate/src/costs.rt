//! The costs of a nurse's days by her tariff, and of her totals at the start and at the end.

ghost use Rattle.std.specs.Prelude.{◌≡◌, ◌*◌, ◌≤◌, ◌<◌, IfSome};
ghost use Rattle.rota_certificate.specs.DayCharges.{start_cost, totals_cost, weighted};
ghost use Rattle.rota_certificate.specs.Minimums.{not_allowed};
ghost use Rattle.rota_certificate.specs.NurseBounds.{end_cost};
ghost use Rattle.rota_certificate.specs.Stages.{choice_cost_in, terms_of, week_of};

use crate::charges::{
    assignment_above, fixed_charge, missing_total, over_charge, shift_charges, weekend_above,
};
use crate::rebates::NOT_ALLOWED;
use crate::stages::Stage;
use crate::tariffs::Tariff;
use rota_core::{Contract, DAYS, Past};
use rota_rules::ASSIGNMENT_WEIGHT;

// The cost of this number of charges at this weight, but not more than `NOT_ALLOWED`.
fn weighted(weight: u64, charges: u64) -> u64
    ensures cost { result ≡ weighted weight charges }
    ensures small { result ≤ not_allowed }
{
    weight.saturating_mul(charges).min(NOT_ALLOWED)
}

// The cost of the totals of the day.
fn totals_cost(tariff: Tariff, contract: Contract, day: u8, past: Past, choice: Option<u8>) -> u64
    ensures cost { result ≡ totals_cost tariff contract day past choice }
    ensures small { result ≤ 2 * not_allowed }
{
    let assignments = assignment_above(contract, past, choice);
    let weekends = weekend_above(contract, day, past, choice);
    weighted(tariff.assignments, u64::from(assignments))
        + weighted(tariff.weekends, u64::from(weekends))
}

/// The cost of the day for the nurse with this past.
pub fn choice_cost(stage: &Stage<'_>, day: u8, past: Past, choice: Option<u8>) -> u64
    requires choice_in { IfSome choice (λ s. s < (week_of stage.now).week.shifts) }
    requires last_in { IfSome past.last (λ s. s < (week_of stage.now).week.shifts) }
    ensures cost { result ≡ choice_cost_in stage.now day past choice }
    ensures small { result ≤ 5 * not_allowed }
{
    let contract = stage.contract;
    let shifts = shift_charges(stage.instance, past, choice);
    let over = over_charge(past.work_run, choice.is_some(), contract.work);
    let fixed = fixed_charge(stage.instance, contract, stage.nurse, day, past, choice);
    let totals = if stage.charged {
        totals_cost(stage.tariff, contract, day, past, choice)
    } else {
        0
    };
    weighted(stage.tariff.shift_runs, shifts)
        + weighted(stage.tariff.work_days, u64::from(over))
        + stage.unit.times(fixed)
        + totals
}

/// The cost of the history's totals above the maximums.
pub fn start_cost(tariff: Tariff, contract: Contract, past: Past) -> u64
    ensures cost { result ≡ start_cost tariff contract past }
    ensures small { result ≤ 2 * not_allowed }
{
    let assignments = past.assignments.saturating_sub(contract.total.max);
    let weekends = past.weekends.saturating_sub(contract.weekends);
    weighted(tariff.assignments, u64::from(assignments))
        + weighted(tariff.weekends, u64::from(weekends))
}

/// The cost of the assignments that are missing at the end.
pub fn end_cost(stage: &Stage<'_>, past: Past) -> u64
    ensures cost { result ≡ end_cost (terms_of stage.now) (week_of stage.now).week stage.now.nurse past }
    ensures small { result ≤ not_allowed }
{
    let missing = missing_total(stage.instance.last_week(), stage.contract, past);
    stage
        .unit
        .times(u64::from(ASSIGNMENT_WEIGHT) * u64::from(missing))
}
