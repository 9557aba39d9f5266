//! S4, requests: cells that request rows ask to leave free. The objective charges them on their cells, and
//! they have no items.
ghost use Rattle.std.specs.Prelude.{◌≡◌, ◌*◌, length, nat_lt};
ghost use Rattle.rota_core.specs.InstanceTables.{problem_of};
ghost use Rattle.rota_core.specs.Lists.{concat_below};
ghost use Rattle.rota_items.specs.CellEvents.{cell_term_events};
ghost use Rattle.rota_items.specs.Takes.{Takes};
ghost use Rattle.rota_rules.specs.ShiftOffRequests.{request_weight};
ghost use Rattle.rota_items.specs.rules.ShiftOffRequests.{request_terms, request_terms_on};

use crate::sums::emit_range;
use crate::takers::Taker;
use crate::variables::first_var_on;
use rota_core::{DAYS, Instance};
use rota_rules::REQUEST_WEIGHT;

// The cost of a cell that this number of request rows match.
fn weight_of(requests: u16) -> u32
    ensures { result ≡ request_weight * requests }
{
    u32::from(REQUEST_WEIGHT) * u32::from(requests)
}

// The terms of the request rows that ask for a nurse's day off from a shift type: the weight for each row, at
// each of the day's cells on the shift type.
fn emit_terms_on<T: Taker>(
    instance: &Instance,
    taker: &mut T,
    nurse: u16,
    day: u8,
    shift: u8,
) -> Result<(), T::Fault>
    ensures { let problem = problem_of instance.now in
        Takes T.Taker (cell_term_events problem (request_terms_on problem nurse day shift))
        taker.old taker.new result }
{
    let requests = instance.requests(nurse, day, shift);
    if requests == 0 {
        return Ok(());
    }
    let weight = weight_of(requests);
    let first = first_var_on(instance, nurse, day, shift);
    emit_range(
        taker,
        i64::from(weight),
        first,
        u32::from(instance.skills()),
    )
}

// The terms of a nurse's day, for each shift type.
#[tactic(auto, using(crate::proofs::LoopSteps::term_loops))]
fn emit_terms_of_day<T: Taker>(
    instance: &Instance,
    taker: &mut T,
    nurse: u16,
    day: u8,
) -> Result<(), T::Fault>
    ensures { let problem = problem_of instance.now in
        Takes T.Taker (cell_term_events problem (concat_below problem.shifts (request_terms_on problem nurse day)))
        taker.old taker.new result }
{
    for shift in 0..instance.shifts() {
        emit_terms_on(instance, taker, nurse, day, shift)?;
    }
    Ok(())
}

// The terms of a nurse, for each day and shift type.
#[tactic(auto, using(crate::proofs::LoopSteps::term_loops))]
fn emit_terms_of_nurse<T: Taker>(
    instance: &Instance,
    taker: &mut T,
    nurse: u16,
) -> Result<(), T::Fault>
    ensures { let problem = problem_of instance.now in
        Takes T.Taker (cell_term_events problem
        (concat_below DAYS (λ day. concat_below problem.shifts (request_terms_on problem nurse day))))
        taker.old taker.new result }
{
    for day in 0..DAYS {
        emit_terms_of_day(instance, taker, nurse, day)?;
    }
    Ok(())
}

/// The terms of the request rows, in ascending order of the cells.
#[tactic(auto, using(crate::proofs::LoopSteps::term_loops))]
pub fn emit_terms<T: Taker>(instance: &Instance, taker: &mut T) -> Result<(), T::Fault>
    ensures { let problem = problem_of instance.now in
        Takes T.Taker (cell_term_events problem (request_terms problem)) taker.old taker.new result }
{
    for nurse in 0..instance.nurses() {
        emit_terms_of_nurse(instance, taker, nurse)?;
    }
    Ok(())
}

// Whether a nurse's day has terms on a shift type.
fn has_terms_on(instance: &Instance, nurse: u16, day: u8, shift: u8) -> bool
    ensures { result ≡ nat_lt 0 (length (request_terms_on (problem_of instance.now) nurse day shift)) }
{
    instance.requests(nurse, day, shift) > 0 && instance.skills() > 0
}

/// Whether a request row matches a cell.
#[tactic(auto, using(crate::proofs::ObjectiveTaking::request_counting))]
pub fn has_terms(instance: &Instance) -> bool
    ensures { result ≡ nat_lt 0 (length (request_terms (problem_of instance.now))) }
{
    for nurse in 0..instance.nurses() {
        for day in 0..DAYS {
            for shift in 0..instance.shifts() {
                if has_terms_on(instance, nurse, day, shift) {
                    return true;
                }
            }
        }
    }
    false
}
