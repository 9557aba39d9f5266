//! The patterns of days that charge a nurse's runs, as items.
ghost use Rattle.std.specs.Prelude.{◌≡◌, ◌<◌, ◌≤◌, pos, ◌-ℤ◌, [], ◌∷◌, count_by};
ghost use Rattle.rota_core.specs.Problem.{Problem};
ghost use Rattle.rota_items.specs.CellSums.{AreInWeek, IsInWeek, days_of, is_plain_of, pattern_of, patterns_given};
ghost use Rattle.rota_items.specs.SentItems.{charged_items, item_of};
ghost use Rattle.rota_items.specs.RunItems.{closed_patterns_at, edge_patterns_on, windows_on};

use crate::cell_sum::{CellSum, DayPattern, DayProperty};
use crate::items::soft_item::{RunCharge, SoftItem};
use rota_core::{DAYS, Span};

// The number of the pattern's days whose sum must be 1, and not 0.
fn plain_days(property: DayProperty, pattern: DayPattern) -> u8
    requires days_in { IsInWeek pattern }
    ensures small { result ≤ DAYS }
    ensures count { result ≡ count_by (λ day. is_plain_of property day.has) (days_of pattern) }
{
    match property {
        DayProperty::Shift(_) | DayProperty::Work => pattern.end - pattern.first,
        DayProperty::Off => u8::from(pattern.without_before) + u8::from(pattern.without_after),
    }
}

// The degree of a pattern's item. If all its days match the pattern, one slack is missing.
fn pattern_degree(property: DayProperty, pattern: DayPattern) -> i64
    requires days_in { IsInWeek pattern }
    ensures { result ≡ pos 1 -ℤ pos (count_by (λ day. is_plain_of property day.has) (days_of pattern)) }
{
    1 - i64::from(plain_days(property, pattern))
}

/// The item that charges the pattern's days.
pub fn pattern_item(charge: RunCharge, pattern: DayPattern) -> SoftItem
    requires days_in { IsInWeek pattern }
    ensures item { (problem : Problem) → item_of problem result ∷ [] ≡ charged_items problem charge (pattern_of pattern ∷ []) }
    ensures sum { result.sum ≡ CellSum.PatternDays charge.nurse charge.property pattern }
{
    SoftItem {
        rule: charge.rule,
        weight: u32::from(charge.weight) * u32::from(pattern.units),
        slacks: 1,
        sum: CellSum::PatternDays {
            nurse: charge.nurse,
            property: charge.property,
            pattern,
        },
        degree: pattern_degree(charge.property, pattern),
    }
}

/// The window of days that ends on a day. It is one day longer than the maximum length, or starts on Monday,
/// if a run can be too long there.
#[tactic(auto, unfolding(rota_core::specs::Lists::singleton_if))]
pub fn window_on(history: u16, limits: Span, day: u8) -> Option<DayPattern>
    requires { day < DAYS }
    ensures days_in { AreInWeek result }
    ensures pattern { patterns_given result ≡ windows_on history limits day }
{
    let longest = u32::from(history) + u32::from(day) + 1;
    if longest <= u32::from(limits.max) {
        return None;
    }
    let first = u16::from(day).saturating_sub(limits.max) as u8;
    Some(DayPattern {
        first,
        end: day + 1,
        without_before: false,
        without_after: false,
        units: 1,
    })
}

/// A run of `count` days that begins after Monday and ends before a day, if the minimum length is larger.
#[tactic(auto, unfolding(rota_core::specs::Lists::singleton_if))]
pub fn closed_before(minimum: u16, day: u8, count: u8) -> Option<DayPattern>
    requires day_in { day < DAYS }
    requires count_in { count < day }
    ensures days_in { AreInWeek result }
    ensures pattern { patterns_given result ≡ closed_patterns_at minimum day count }
{
    if count == 0 || minimum <= u16::from(count) {
        return None;
    }
    Some(DayPattern {
        first: day - count,
        end: day,
        without_before: true,
        without_after: true,
        units: minimum - u16::from(count),
    })
}

/// A run from Monday up to a day, which ends before that day, if the minimum length is larger.
#[tactic(auto, unfolding(rota_core::specs::Lists::singleton_if))]
pub fn edge_before(history: u16, minimum: u16, day: u8) -> Option<DayPattern>
    requires { day < DAYS }
    ensures days_in { AreInWeek result }
    ensures pattern { patterns_given result ≡ edge_patterns_on history minimum day }
{
    let length = u32::from(history) + u32::from(day);
    if length == 0 || u32::from(minimum) <= length {
        return None;
    }
    let units = minimum
        .saturating_sub(history)
        .saturating_sub(u16::from(day));
    Some(DayPattern {
        first: 0,
        end: day,
        without_before: false,
        without_after: true,
        units,
    })
}
