//! The minimum cost of a nurse in the weeks of a leaf, less the prices of her cells, day by day.

ghost use Rattle.std.specs.Prelude.{◌≡◌, ◌+◌, ◌-◌, ◌*◌, ◌≤◌, ◌<◌, IfSome};
ghost use Rattle.rota_core.specs.InstanceTables.{problem_of};
ghost use Rattle.rota_certificate.specs.KnownCosts.{AreRight, Finds, IsBefore};
ghost use Rattle.rota_certificate.specs.LeafBounds.{nurse_count};
ghost use Rattle.rota_certificate.specs.LentLeaves.{weeks_of};
ghost use Rattle.rota_certificate.specs.Minimums.{not_allowed};
ghost use Rattle.rota_certificate.specs.NurseBounds.{allowed_rebate, choice_value, is_barred, least_choice, nurse_bound};
ghost use Rattle.rota_certificate.specs.Stages.{least_after, least_in, terms_of, week_of};

use crate::allowed::may_choose;
use crate::charged_pasts::charged_past;
use crate::charges::past_after;
use crate::costs::{choice_cost, end_cost, start_cost};
use crate::known::{Known, KnownCost, KnownRebate};
use crate::points::PointValue;
use crate::rebates::{NOT_ALLOWED, day_rebate};
use crate::stages::{LentLeaf, Stage, pay_for_history};
use crate::tariffs::Tariff;
use rota_core::{DAYS, Instance, Past};

// Whether the choice may not follow the last shift type.
fn is_barred(instance: &Instance, past: Past, choice: Option<u8>) -> bool
    ensures { result ≡ is_barred (problem_of instance.now) past choice }
{
    match choice {
        None => false,
        Some(shift) => match past.last {
            None => false,
            Some(last) => instance.forbidden(last, shift),
        },
    }
}

// The rebate of the choice, if the case allows it.
fn allowed_rebate(stage: &Stage<'_>, day: u8, choice: Option<u8>) -> u64
    ensures rebate { result ≡ allowed_rebate (week_of stage.now) stage.now.nurse day choice }
    ensures small { result ≤ not_allowed }
{
    let leaf = stage.leaf;
    if may_choose(leaf.case, stage.week, stage.nurse, day, choice) {
        day_rebate(stage.instance, stage.prices, stage.nurse, day, choice)
    } else {
        NOT_ALLOWED
    }
}

// The rebate of the choice, which is known from then on.
fn known_rebate(stage: &Stage<'_>, known: &mut Known, day: u8, choice: Option<u8>) -> u64
    requires right { AreRight stage.now known.old }
    ensures { Finds stage.now known.new (allowed_rebate (week_of stage.now) stage.now.nurse day choice) result }
{
    if let Some(rebate) = known.rebate(stage.week, day, choice) {
        return rebate;
    }
    let rebate = allowed_rebate(stage, day, choice);
    known.keep_rebate(KnownRebate {
        week: stage.week,
        day,
        choice,
        rebate,
    });
    rebate
}

/// The value of the choice for the day before the last `days_left` days of the week.
#[cycle(week)]
pub fn value_in(
    stage: &Stage<'_>,
    known: &mut Known,
    days_left: u8,
    past: Past,
    choice: Option<u8>,
) -> u64
    requires before { IsBefore stage.now known.old (days_left + 1) past }
    requires choice_in { IfSome choice (λ s. s < (week_of stage.now).week.shifts) }
    ensures value { result ≡ choice_value (terms_of stage.now) (week_of stage.now) stage.now.nurse (6 - days_left) past (least_in stage.now days_left) choice }
    ensures right { AreRight stage.now known.new }
{
    let day = 6 - days_left;
    if is_barred(stage.instance, past, choice) {
        return NOT_ALLOWED;
    }
    let after = past_after(stage.instance, day, past, choice);
    let rest = least_in(stage, known, days_left, after);
    let rebate = known_rebate(stage, known, day, choice);
    let cost = choice_cost(stage, day, past, choice);
    cost + rebate + rest
}

/// The minimum of the values of the choices for the day before the last `days_left` days of the week.
#[cycle(week)]
pub fn least_choice_in(stage: &Stage<'_>, known: &mut Known, days_left: u8, past: Past) -> u64
    requires { IsBefore stage.now known.old (days_left + 1) past }
    ensures { let least = least_choice (terms_of stage.now) (week_of stage.now) stage.now.nurse (6 - days_left) past (least_in stage.now days_left) in
        Finds stage.now known.new least result }
{
    let mut least = NOT_ALLOWED;
    for shift in 0..stage.instance.shifts() {
        let on = value_in(stage, known, days_left, past, Some(shift));
        least = least.min(on);
    }
    let off = value_in(stage, known, days_left, past, None);
    off.min(least)
}

/// The minimum cost of the last `days_left` days of the week, and of the time after it.
#[cycle(week)]
pub fn least_in(stage: &Stage<'_>, known: &mut Known, days_left: u8, past: Past) -> u64
    requires { IsBefore stage.now known.old days_left past }
    ensures { Finds stage.now known.new (least_in stage.now days_left past) result }
{
    if days_left == 0 {
        return least_after(stage, known, past);
    }
    let week = stage.week;
    let charged = charged_past(stage, days_left, past);
    if let Some(cost) = known.cost(week, days_left, charged) {
        return cost;
    }
    let cost = least_choice_in(stage, known, days_left - 1, charged);
    known.keep_cost(KnownCost {
        week,
        days_left,
        past: charged,
        cost,
    });
    cost
}

// The minimum cost after the week: of the later weeks, or of missing assignments if none follows.
#[cycle(week)]
fn least_after(stage: &Stage<'_>, known: &mut Known, past: Past) -> u64
    requires { IsBefore stage.now known.old 0 past }
    ensures { Finds stage.now known.new (least_after stage.now past) result }
{
    let leaf = stage.leaf;
    let week = stage.week + 1;
    if week >= leaf.weeks.len() {
        return end_cost(stage, past);
    }
    let next = leaf.weeks[week];
    let next = Stage {
        instance: next.instance,
        prices: next.prices,
        leaf,
        week,
        unit: stage.unit,
        nurse: stage.nurse,
        contract: stage.contract,
        tariff: stage.tariff,
        charged: stage.charged,
    };
    least_in(&next, known, DAYS, past)
}

/// The nurse's minimum cost in all weeks, after her history. Forgets the known costs and rebates.
pub fn nurse_bound(
    leaf: &LentLeaf<'_>,
    known: &mut Known,
    unit: PointValue,
    tariff: Tariff,
    nurse: u16,
) -> u64
    requires nurse_in { nurse < nurse_count (weeks_of leaf.now) }
    ensures bound { result ≡ nurse_bound unit tariff (weeks_of leaf.now) nurse }
    ensures small { result ≤ 3 * not_allowed }
{
    let stage = Stage::first(leaf, unit, tariff, nurse);
    let past = stage.instance.past(nurse);
    let start = if pay_for_history(leaf) {
        start_cost(tariff, stage.contract, past)
    } else {
        0
    };
    known.forget();
    start + least_in(&stage, known, DAYS, past)
}
