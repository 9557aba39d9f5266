//! The rebates: the maximum price, less the price of a cell that the nurse may have.

ghost use Rattle.std.specs.Prelude.{◌≡◌, ◌≤◌, Some};
ghost use Rattle.rota_core.specs.HardRules.{is_on};
ghost use Rattle.rota_core.specs.InstanceTables.{problem_of};
ghost use Rattle.rota_core.specs.PriceTables.{prices_of};
ghost use Rattle.rota_certificate.specs.Minimums.{not_allowed};
ghost use Rattle.rota_certificate.specs.NurseBounds.{day_rebate, is_held_apart, is_held_apart_on, is_only_held, may_be_off, rebate};

use rota_core::{Cell, DAYS, Instance, MAX_PRICE, Prices};

/// More than the value of any choice that is allowed.
pub const NOT_ALLOWED: u64 = 1_000_000_000_000_000;

// Whether any of the nurse's cells on the shift type that day is held.
fn is_held_on(instance: &Instance, nurse: u16, shift: u8, day: u8) -> bool
    ensures { let problem = problem_of instance.now in result ≡ is_on problem problem.is_held nurse shift day }
{
    for skill in 0..instance.skills() {
        if instance.held(Cell {
            nurse,
            day,
            shift,
            skill,
        }) {
            return true;
        }
    }
    false
}

/// Whether the nurse may be off that day: no cell of the day is held.
pub fn may_be_off(instance: &Instance, nurse: u16, day: u8) -> bool
    ensures { result ≡ may_be_off (problem_of instance.now) nurse day }
{
    for shift in 0..instance.shifts() {
        if is_held_on(instance, nurse, shift, day) {
            return false;
        }
    }
    true
}

// Whether the nurse's cell of this other shift type and skill is held, and is not the cell.
fn is_held_apart(instance: &Instance, cell: Cell, shift: u8, skill: u8) -> bool
    ensures { result ≡ is_held_apart (problem_of instance.now) cell.nurse cell.day cell.shift cell.skill shift skill }
{
    let held = instance.held(Cell {
        nurse: cell.nurse,
        day: cell.day,
        shift,
        skill,
    });
    held && !(shift == cell.shift && skill == cell.skill)
}

// Whether such a cell of the other shift type is held.
fn is_held_apart_on(instance: &Instance, cell: Cell, shift: u8) -> bool
    ensures { result ≡ is_held_apart_on (problem_of instance.now) cell.nurse cell.day cell.shift cell.skill shift }
{
    for skill in 0..instance.skills() {
        if is_held_apart(instance, cell, shift, skill) {
            return true;
        }
    }
    false
}

// Whether the cell is held, and no other cell of the nurse's day.
fn is_only_held(instance: &Instance, cell: Cell) -> bool
    ensures { result ≡ is_only_held (problem_of instance.now) cell.nurse cell.day cell.shift cell.skill }
{
    if !instance.held(cell) {
        return false;
    }
    for shift in 0..instance.shifts() {
        if is_held_apart_on(instance, cell, shift) {
            return false;
        }
    }
    true
}

/// The maximum price, less the price of the cell, if the nurse may have it. `free` says whether she
/// may be off that day.
pub fn rebate(instance: &Instance, prices: &Prices, free: bool, cell: Cell) -> u64
    requires free_is { free ≡ may_be_off (problem_of instance.now) cell.nurse cell.day }
    ensures rebate { result ≡ rebate (problem_of instance.now) (prices_of prices.now) cell.nurse cell.day cell.shift cell.skill }
    ensures small { result ≤ not_allowed }
{
    if instance.has_skill(cell.nurse, cell.skill) && (free || is_only_held(instance, cell)) {
        u64::from(MAX_PRICE - prices.price(cell.day, cell.shift, cell.skill))
    } else {
        NOT_ALLOWED
    }
}

// The minimum rebate over the nurse's skills on the shift type.
fn least_rebate(
    instance: &Instance,
    prices: &Prices,
    free: bool,
    nurse: u16,
    day: u8,
    shift: u8,
) -> u64
    requires free_is { free ≡ may_be_off (problem_of instance.now) nurse day }
    ensures rebate { result ≡ day_rebate (problem_of instance.now) (prices_of prices.now) nurse day (Some shift) }
    ensures small { result ≤ not_allowed }
{
    let mut least = NOT_ALLOWED;
    for skill in 0..instance.skills() {
        let cell = Cell {
            nurse,
            day,
            shift,
            skill,
        };
        least = least.min(rebate(instance, prices, free, cell));
    }
    least
}

/// The rebate of the nurse's day off, or of the shift type.
pub fn day_rebate(
    instance: &Instance,
    prices: &Prices,
    nurse: u16,
    day: u8,
    choice: Option<u8>,
) -> u64
    ensures rebate { result ≡ day_rebate (problem_of instance.now) (prices_of prices.now) nurse day choice }
    ensures small { result ≤ not_allowed }
{
    let free = may_be_off(instance, nurse, day);
    match choice {
        None if free => u64::from(MAX_PRICE),
        None => NOT_ALLOWED,
        Some(shift) => least_rebate(instance, prices, free, nurse, day, shift),
    }
}
