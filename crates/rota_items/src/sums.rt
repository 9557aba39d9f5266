//! Sums of cells, term by term.
ghost use Rattle.std.specs.Prelude.{◌≡◌, ◌+◌, ◌*◌, ◌<◌, ◌≤◌};
ghost use Rattle.std.specs.List.{range_with_len};
ghost use Rattle.rota_core.specs.InstanceTables.{problem_of};
ghost use Rattle.rota_items.specs.CellEvents.{coefficient_of, sum_events};
ghost use Rattle.rota_items.specs.Rows.{demand_cells, nurse_cells, on_cells, skill_cells, times, work_cells};
ghost use Rattle.rota_items.specs.Events.{term_events};
ghost use Rattle.rota_items.specs.Takes.{Takes};
ghost use Rattle.rota_rules.specs.CostBounds.{max_cells_of_day};
ghost use Rattle.rota_items.specs.MachineBounds.{word_limit};

use crate::takers::Taker;
use crate::variables::{cell_var, first_var_on};
use rota_core::{Cell, DAYS, Instance};

/// The sign of a sum's terms.
#[derive(Clone, Copy, PartialEq, Eq, Debug)]
pub enum Sign {
    Plus,
    Minus,
}

// The coefficient of terms of the sign.
fn coefficient(sign: Sign) -> i64
    ensures { result ≡ coefficient_of sign }
{
    match sign {
        Sign::Plus => 1,
        Sign::Minus => -1,
    }
}

/// Sends the taker the `count` variables that follow one another from the first on, each with the coefficient.
#[tactic(auto, using(crate::proofs::Taking::ranges), unfolding(crate::specs::Events::term_events))]
#[inline(always)]
pub fn emit_range<T: Taker>(
    taker: &mut T,
    coefficient: i64,
    first: u32,
    count: u32,
) -> Result<(), T::Fault>
    requires { first + count < word_limit }
    ensures { Takes T.Taker (term_events (times coefficient (range_with_len first count)))
        taker.old taker.new result }
{
    for i in 0..count {
        taker.term(coefficient, first + i)?;
    }
    Ok(())
}

/// Sends the taker the cells of a nurse's day on a shift type. Their variables follow one another.
pub fn emit_on<T: Taker>(
    instance: &Instance,
    taker: &mut T,
    sign: Sign,
    nurse: u16,
    shift: u8,
    day: u8,
) -> Result<(), T::Fault>
    ensures { let problem = problem_of instance.now in
        Takes T.Taker (sum_events problem sign (on_cells problem nurse shift day)) taker.old taker.new result }
{
    let first = first_var_on(instance, nurse, day, shift);
    let cells = u32::from(instance.skills());
    emit_range(taker, coefficient(sign), first, cells)
}

// The number of a nurse's cells on a day.
fn cells_of_day(instance: &Instance) -> u32
    ensures count { let problem = problem_of instance.now in result ≡ problem.shifts * problem.skills }
    ensures within { result ≤ max_cells_of_day }
{
    u32::from(instance.shifts()) * u32::from(instance.skills())
}

/// Sends the taker the cells of a nurse's day. Their variables follow one another.
pub fn emit_work<T: Taker>(
    instance: &Instance,
    taker: &mut T,
    sign: Sign,
    nurse: u16,
    day: u8,
) -> Result<(), T::Fault>
    ensures { let problem = problem_of instance.now in
        Takes T.Taker (sum_events problem sign (work_cells problem nurse day)) taker.old taker.new result }
{
    let first = first_var_on(instance, nurse, day, 0);
    emit_range(taker, coefficient(sign), first, cells_of_day(instance))
}

/// Sends the taker all cells of a nurse. Their variables follow one another.
pub fn emit_nurse_cells<T: Taker>(
    instance: &Instance,
    taker: &mut T,
    sign: Sign,
    nurse: u16,
) -> Result<(), T::Fault>
    ensures { let problem = problem_of instance.now in
        Takes T.Taker (sum_events problem sign (nurse_cells problem nurse)) taker.old taker.new result }
{
    let first = first_var_on(instance, nurse, 0, 0);
    let cells = DAYS as u32 * u32::from(instance.shifts()) * u32::from(instance.skills());
    emit_range(taker, coefficient(sign), first, cells)
}

/// Sends the taker the cells of a day's shift type and skill, one for each nurse.
#[tactic(auto, using(crate::proofs::Taking::taking), unfolding(crate::specs::CellEvents::cell_term_events, crate::specs::Events::term_events))]
pub fn emit_demand_cells<T: Taker>(
    instance: &Instance,
    taker: &mut T,
    day: u8,
    shift: u8,
    skill: u8,
) -> Result<(), T::Fault>
    ensures { let problem = problem_of instance.now in
        Takes T.Taker (sum_events problem Sign.Plus (demand_cells problem day shift skill))
        taker.old taker.new result }
{
    for nurse in 0..instance.nurses() {
        let cell = Cell {
            nurse,
            day,
            shift,
            skill,
        };
        taker.term(1, cell_var(instance, cell))?;
    }
    Ok(())
}

/// Sends the taker the cells of a nurse that need the skill, each with coefficient -1.
#[tactic(auto, using(crate::proofs::Taking::taking), unfolding(crate::specs::CellEvents::cell_term_events, crate::specs::Events::term_events))]
pub fn emit_skill_cells<T: Taker>(
    instance: &Instance,
    taker: &mut T,
    nurse: u16,
    skill: u8,
) -> Result<(), T::Fault>
    ensures { let problem = problem_of instance.now in
        Takes T.Taker (sum_events problem Sign.Minus (skill_cells problem nurse skill))
        taker.old taker.new result }
{
    for day in 0..DAYS {
        for shift in 0..instance.shifts() {
            let cell = Cell {
                nurse,
                day,
                shift,
                skill,
            };
            taker.term(-1, cell_var(instance, cell))?;
        }
    }
    Ok(())
}
