//! The demand of a place in a case.

ghost use Rattle.std.specs.Prelude.{◌≡◌, ◌≤◌, ◌<◌, length, slice_index_or};
ghost use Rattle.rota_core.specs.Limits.{max_number};
ghost use Rattle.rota_core.specs.WeekTables.{IsDemand};
ghost use Rattle.rota_certificate.specs.PlaceCases.{case_demand, is_at, lowered_by, raised_by};
ghost use Rattle.rota_certificate.specs.CaseLimits.{IsLimited, IsLimitedCase, IsLimitedDemand, most_nurses};

use rota_core::{Condition, Demand, Fact, NurseLimit};

/// A place: a day, a shift type and a skill of the week with this number.
#[derive(Clone, Copy)]
pub struct Place {
    /// The number of the week: 0 is the first.
    pub week: usize,
    /// The day: 0 is Monday.
    pub day: u8,
    /// The shift type.
    pub shift: u8,
    /// The skill.
    pub skill: u8,
}

// Whether the limit is for the place.
fn is_at(limit: NurseLimit, place: Place) -> bool
    ensures { result ≡ is_at limit place.week place.day place.shift place.skill }
{
    usize::from(limit.week) == place.week
        && limit.day == place.day
        && limit.shift == place.shift
        && limit.skill == place.skill
}

// The minimum, or more if the condition asks for more than some number of nurses at the place.
fn raised_by(condition: Condition, place: Place, minimum: u16) -> u16
    requires limited { IsLimited condition.fact }
    requires small { minimum ≤ most_nurses }
    ensures minimum { result ≡ raised_by condition.fact condition.holds place.week place.day place.shift place.skill minimum }
    ensures small { result ≤ most_nurses }
{
    match (condition.fact, condition.holds) {
        (Fact::Nurses(limit), false) if is_at(limit, place) => minimum.max(limit.most + 1),
        _ => minimum,
    }
}

// The optimal number, or less if the condition allows at most some number of nurses at the place.
fn lowered_by(condition: Condition, place: Place, optimal: u16) -> u16
    requires small { optimal ≤ max_number }
    ensures optimal { result ≡ lowered_by condition.fact condition.holds place.week place.day place.shift place.skill optimal }
    ensures small { result ≤ max_number }
{
    match (condition.fact, condition.holds) {
        (Fact::Nurses(limit), true) if is_at(limit, place) => optimal.min(limit.most),
        _ => optimal,
    }
}

/// The condition with this number.
pub fn condition_at(case: &[Condition], index: usize) -> Condition
    requires inside { index < length case.now }
    ensures { result ≡ slice_index_or case.now index result }
{
    case[index]
}

/// The demand of the place in the case.
pub fn case_demand(case: &[Condition], place: Place, demand: Demand) -> Demand
    requires limited { IsLimitedCase case.now }
    requires demand { IsDemand demand }
    ensures demand { result ≡ case_demand case.now place.week place.day place.shift place.skill demand }
    ensures within { IsLimitedDemand result }
{
    let mut minimum = demand.minimum;
    let mut optimal = demand.optimal;
    for index in 0..case.len() {
        let condition = condition_at(case, index);
        minimum = raised_by(condition, place, minimum);
        optimal = lowered_by(condition, place, optimal);
    }
    Demand { minimum, optimal }
}
