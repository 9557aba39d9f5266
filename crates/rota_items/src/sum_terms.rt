//! Sends the terms of a `CellSum` to a taker.
ghost use Rattle.std.specs.Prelude.{◌≡◌, ◌+◌, ◌<◌, ◌≤◌, flat_map, if◌then◌else◌, pos, negsuc};
ghost use Rattle.rota_core.specs.InstanceTables.{problem_of};
ghost use Rattle.rota_items.specs.CellEvents.{cell_term_events, coefficient_of};
ghost use Rattle.rota_items.specs.CellSums.{IsInWeek, IsSumOf, day_after, day_before, days_of, property_of, sum_terms};
ghost use Rattle.rota_items.specs.RunItems.{day_terms, days_with};
ghost use Rattle.rota_items.specs.Takes.{Takes};

use crate::cell_sum::{CellSum, DayPattern, DayProperty};
use crate::sums::{
    Sign, emit_demand_cells, emit_nurse_cells, emit_on, emit_skill_cells, emit_work,
};
use crate::takers::Taker;
use crate::variables::cell_var;
use rota_core::{DAYS, Instance};

// The sign of a day's cells: minus if their sum must be 1, and plus if it must be 0.
fn day_sign(plain: bool) -> Sign
    ensures { coefficient_of result ≡ (if plain then negsuc 0 else pos 1) }
{
    if plain { Sign::Minus } else { Sign::Plus }
}

// Sends the taker a day of a nurse's pattern, which must have the property, or must not.
fn emit_day<T: Taker>(
    instance: &Instance,
    taker: &mut T,
    nurse: u16,
    property: DayProperty,
    day: u8,
    has: bool,
) -> Result<(), T::Fault>
    ensures { let problem = problem_of instance.now in
        Takes T.Taker
        (cell_term_events problem (day_terms (property_of problem nurse property) (record { day = day; has = has })))
        taker.old taker.new result }
{
    match property {
        DayProperty::Shift(shift) => emit_on(instance, taker, day_sign(has), nurse, shift, day),
        DayProperty::Work => emit_work(instance, taker, day_sign(has), nurse, day),
        DayProperty::Off => emit_work(instance, taker, day_sign(!has), nurse, day),
    }
}

// Sends the taker days of a nurse that must have the property, from the first up to the end, which is excluded.
fn emit_days<T: Taker>(
    instance: &Instance,
    taker: &mut T,
    nurse: u16,
    property: DayProperty,
    first: u8,
    end: u8,
) -> Result<(), T::Fault>
    requires ordered { first ≤ end }
    requires days_in { end ≤ DAYS }
    ensures { let problem = problem_of instance.now in
        Takes T.Taker
        (cell_term_events problem (flat_map (day_terms (property_of problem nurse property)) (days_with first end)))
        taker.old taker.new result }
{
    for day in first..end {
        emit_day(instance, taker, nurse, property, day, true)?;
    }
    Ok(())
}

// Sends the taker the day before the pattern's days, if it must be without the property.
#[tactic(auto, using(crate::proofs::DayTerms::day_taking), unfolding(crate::specs::CellEvents::cell_term_events, crate::specs::Events::term_events, rota_core::specs::Lists::singleton_if))]
fn emit_day_before<T: Taker>(
    instance: &Instance,
    taker: &mut T,
    nurse: u16,
    property: DayProperty,
    pattern: DayPattern,
) -> Result<(), T::Fault>
    requires days_in { IsInWeek pattern }
    ensures { let problem = problem_of instance.now in
        Takes T.Taker
        (cell_term_events problem (flat_map (day_terms (property_of problem nurse property)) (day_before pattern)))
        taker.old taker.new result }
{
    if pattern.without_before {
        emit_day(instance, taker, nurse, property, pattern.first - 1, false)
    } else {
        Ok(())
    }
}

// Sends the taker the day after the pattern's days, if it must be without the property.
#[tactic(auto, using(crate::proofs::DayTerms::day_taking), unfolding(crate::specs::CellEvents::cell_term_events, crate::specs::Events::term_events, rota_core::specs::Lists::singleton_if))]
fn emit_day_after<T: Taker>(
    instance: &Instance,
    taker: &mut T,
    nurse: u16,
    property: DayProperty,
    pattern: DayPattern,
) -> Result<(), T::Fault>
    requires days_in { IsInWeek pattern }
    ensures { let problem = problem_of instance.now in
        Takes T.Taker
        (cell_term_events problem (flat_map (day_terms (property_of problem nurse property)) (day_after pattern)))
        taker.old taker.new result }
{
    if pattern.without_after {
        emit_day(instance, taker, nurse, property, pattern.end, false)
    } else {
        Ok(())
    }
}

// Sends the taker the days of a nurse's pattern.
fn emit_pattern_days<T: Taker>(
    instance: &Instance,
    taker: &mut T,
    nurse: u16,
    property: DayProperty,
    pattern: DayPattern,
) -> Result<(), T::Fault>
    requires days_in { IsInWeek pattern }
    ensures { let problem = problem_of instance.now in
        Takes T.Taker
        (cell_term_events problem (flat_map (day_terms (property_of problem nurse property)) (days_of pattern)))
        taker.old taker.new result }
{
    emit_day_before(instance, taker, nurse, property, pattern)?;
    emit_days(instance, taker, nurse, property, pattern.first, pattern.end)?;
    emit_day_after(instance, taker, nurse, property, pattern)
}

// Sends the taker the cells of a nurse's day on a shift type and of the next day on another, each with
// coefficient -1.
#[tactic(auto, using(crate::proofs::Taking::calling), unfolding(crate::specs::CellEvents::cell_term_events, crate::specs::Events::term_events))]
fn emit_in_turn<T: Taker>(
    instance: &Instance,
    taker: &mut T,
    nurse: u16,
    day: u8,
    first: u8,
    second: u8,
) -> Result<(), T::Fault>
    requires { day + 1 < DAYS }
    ensures { let problem = problem_of instance.now in
        Takes T.Taker (cell_term_events problem (sum_terms problem (CellSum.ShiftPair nurse day first second)))
        taker.old taker.new result }
{
    emit_on(instance, taker, Sign::Minus, nurse, first, day)?;
    emit_on(instance, taker, Sign::Minus, nurse, second, day + 1)
}

/// Sends the taker the terms of a sum of cells.
#[tactic(auto, using(crate::proofs::Taking::taking), unfolding(crate::specs::CellEvents::cell_term_events, crate::specs::Events::term_events))]
pub fn emit_sum<T: Taker>(instance: &Instance, taker: &mut T, sum: CellSum) -> Result<(), T::Fault>
    requires { IsSumOf sum }
    ensures { let problem = problem_of instance.now in
        Takes T.Taker (cell_term_events problem (sum_terms problem sum)) taker.old taker.new result }
{
    match sum {
        CellSum::Demand { day, shift, skill } => {
            emit_demand_cells(instance, taker, day, shift, skill)
        }
        CellSum::PatternDays {
            nurse,
            property,
            pattern,
        } => emit_pattern_days(instance, taker, nurse, property, pattern),
        CellSum::Total { nurse, sign } => emit_nurse_cells(instance, taker, sign, nurse),
        CellSum::NurseDay { nurse, day } => emit_work(instance, taker, Sign::Minus, nurse, day),
        CellSum::NurseDayShift { nurse, shift, day } => {
            emit_on(instance, taker, Sign::Minus, nurse, shift, day)
        }
        CellSum::ShiftPair {
            nurse,
            day,
            first,
            second,
        } => emit_in_turn(instance, taker, nurse, day, first, second),
        CellSum::Skill { nurse, skill } => emit_skill_cells(instance, taker, nurse, skill),
        CellSum::Single(cell) => taker.term(1, cell_var(instance, cell)),
    }
}
