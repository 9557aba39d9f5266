//! The bounds of the places in a case. `unit` is the value of a point.

ghost use Rattle.std.specs.Prelude.{◌≡◌, ◌≤◌, ◌*◌};
ghost use Rattle.rota_core.specs.Limits.{max_weeks};
ghost use Rattle.rota_core.specs.SumsBelow.{sum_below};
ghost use Rattle.rota_core.specs.WeekTables.{IsDemand};
ghost use Rattle.rota_rules.specs.OptimalCoverage.{optimum_weight};
ghost use Rattle.rota_certificate.specs.CaseLimits.{IsLimitedCase, IsLimitedDemand, most_nurses};
ghost use Rattle.rota_certificate.specs.LeafBounds.{leaf_place_bounds};
ghost use Rattle.rota_certificate.specs.LentLeaves.{prices_lent, week_lent, weeks_of};
ghost use Rattle.rota_certificate.specs.PlaceBounds.{place_bound, place_cost};
ghost use Rattle.rota_certificate.specs.PlaceCases.{case_place_bound, case_place_bounds};

use crate::demand::{Place, case_demand};
use crate::place_prices::PlacePrice;
use crate::points::PointValue;
use crate::stages::{LentLeaf, LentWeek};
use rota_core::{Condition, DAYS, Demand};
use rota_rules::OPTIMUM_WEIGHT;

// The price of this number of nurses.
fn price_of(price: PlacePrice, nurses: u16) -> u64
    requires nurses_in { nurses ≤ most_nurses }
    ensures product { result ≡ price * nurses }
    ensures small { result ≤ 10000000000000 }
{
    price.thousandths() * u64::from(nurses)
}

// The cost of this number of missing nurses.
fn missing_cost(unit: PointValue, missing: u16) -> u64
    ensures cost { result ≡ unit * optimum_weight * missing }
    ensures small { result ≤ 1000000000000 }
{
    unit.times(u64::from(OPTIMUM_WEIGHT) * u64::from(missing))
}

// The cost of this number of nurses at a place with this demand, and their prices.
fn place_cost(unit: PointValue, demand: Demand, price: PlacePrice, nurses: u16) -> u64
    requires nurses_in { nurses ≤ most_nurses }
    ensures cost { result ≡ place_cost unit demand price nurses }
    ensures small { result ≤ 20000000000000 }
{
    let missing = demand.optimal.saturating_sub(nurses);
    missing_cost(unit, missing) + price_of(price, nurses)
}

// The minimum cost of the place with a number of nurses that is not below the minimum.
fn place_bound(unit: PointValue, demand: Demand, price: PlacePrice) -> u64
    requires demand { IsLimitedDemand demand }
    ensures bound { result ≡ place_bound unit demand price }
    ensures small { result ≤ 20000000000000 }
{
    let nurses = if price.thousandths() < unit.times(u64::from(OPTIMUM_WEIGHT)) {
        demand.minimum.max(demand.optimal)
    } else {
        demand.minimum
    };
    place_cost(unit, demand, price, nurses)
}

// The bound of the place in the case, with the cost of the nurses that are missing in any event.
fn case_place_bound(
    unit: PointValue,
    case: &[Condition],
    place: Place,
    demand: Demand,
    price: PlacePrice,
) -> u64
    requires limited { IsLimitedCase case.now }
    requires demand { IsDemand demand }
    ensures bound { result ≡ case_place_bound unit case.now place.week place.day place.shift place.skill demand price }
    ensures small { result ≤ 30000000000000 }
{
    let in_case = case_demand(case, place, demand);
    let missing = demand.optimal.saturating_sub(in_case.optimal);
    place_bound(unit, in_case, price) + missing_cost(unit, missing)
}

// The sum of the bounds of all skills of a day's shift type of the week with this number.
fn bounds_of_shift(
    unit: PointValue,
    case: &[Condition],
    one: &LentWeek<'_>,
    week: usize,
    day: u8,
    shift: u8,
) -> u64
    requires limited { IsLimitedCase case.now }
    ensures bounds { result ≡ sum_below (week_lent one.now).skills (λ k.
        case_place_bound unit case.now week day shift k ((week_lent one.now).demand day shift k) (prices_lent one.now day shift k)) }
    ensures small { result ≤ 16 * 30000000000000 }
{
    let mut sum = 0;
    for skill in 0..one.instance.skills() {
        let place = Place {
            week,
            day,
            shift,
            skill,
        };
        let demand = one.instance.demand(day, shift, skill);
        let price = PlacePrice::new(one.prices.price(day, shift, skill));
        sum += case_place_bound(unit, case, place, demand, price);
    }
    sum
}

// The sum of the bounds of all places of a day.
fn bounds_of_day(
    unit: PointValue,
    case: &[Condition],
    one: &LentWeek<'_>,
    week: usize,
    day: u8,
) -> u64
    requires limited { IsLimitedCase case.now }
    ensures bounds { result ≡ sum_below (week_lent one.now).shifts (λ s. sum_below (week_lent one.now).skills (λ k.
        case_place_bound unit case.now week day s k ((week_lent one.now).demand day s k) (prices_lent one.now day s k))) }
    ensures small { result ≤ 16 * (16 * 30000000000000) }
{
    let mut sum = 0;
    for shift in 0..one.instance.shifts() {
        sum += bounds_of_shift(unit, case, one, week, day, shift);
    }
    sum
}

// The sum of the bounds of all places of the week with this number.
fn bounds_of_week(unit: PointValue, case: &[Condition], one: &LentWeek<'_>, week: usize) -> u64
    requires limited { IsLimitedCase case.now }
    ensures bounds { result ≡ case_place_bounds unit case.now week (week_lent one.now) (prices_lent one.now) }
    ensures small { result ≤ 7 * (16 * (16 * 30000000000000)) }
{
    let mut sum = 0;
    for day in 0..DAYS {
        sum += bounds_of_day(unit, case, one, week, day);
    }
    sum
}

/// The bounds of all places of the leaf.
pub fn leaf_place_bounds(unit: PointValue, leaf: &LentLeaf<'_>) -> u64
    ensures bounds { result ≡ leaf_place_bounds unit leaf.now.case 0 (weeks_of leaf.now) }
    ensures small { result ≤ max_weeks * (7 * (16 * (16 * 30000000000000))) }
{
    let mut sum = 0;
    for week in 0..leaf.weeks.len() {
        sum += bounds_of_week(unit, leaf.case, &leaf.weeks[week], week);
    }
    sum
}
