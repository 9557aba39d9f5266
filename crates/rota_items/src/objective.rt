//! The objective: the request rows that cells match, the constant, which no roster that keeps H1 can avoid,
//! and the slacks with their weights.
ghost use Rattle.std.specs.Prelude.{◌≡◌, nat_lt, length};
ghost use Rattle.rota_core.specs.InstanceTables.{problem_of};
ghost use Rattle.rota_items.specs.Events.{events, term_events};
ghost use Rattle.rota_items.specs.WeekModel.{constant_terms, objective_terms};
ghost use Rattle.rota_items.specs.Objective.{objective_rows};
ghost use Rattle.rota_items.specs.Takes.{Takes};

use crate::counting::counts;
use crate::items::slack_weights::emit_slack_weights;
use crate::part::Part;
use crate::rules::{constant, emit_cell_terms, has_cell_terms};
use crate::takers::Taker;
use crate::variables::unit_var;
use rota_core::Instance;

// The constant, at the unit variable, if it is not 0.
#[tactic(auto, using(crate::proofs::RuleSizes::few_constants))]
fn emit_constant<T: Taker>(instance: &Instance, taker: &mut T) -> Result<(), T::Fault>
    ensures { Takes T.Taker (term_events (constant_terms (problem_of instance.now)))
        taker.old taker.new result }
{
    let constant = constant(instance);
    if constant == 0 {
        return Ok(());
    }
    let unit = unit_var(instance);
    taker.term(constant as i64, unit)
}

// The terms of the objective, in ascending order of the variables.
fn emit_terms<T: Taker>(instance: &Instance, taker: &mut T) -> Result<(), T::Fault>
    ensures { Takes T.Taker (term_events (objective_terms (problem_of instance.now)))
        taker.old taker.new result }
{
    emit_cell_terms(instance, taker)?;
    emit_constant(instance, taker)?;
    emit_slack_weights(instance, taker)
}

// Whether the objective has a term: on a cell, the constant, or a slack.
fn has_term(instance: &Instance) -> bool
    ensures { result ≡ nat_lt 0 (length (objective_terms (problem_of instance.now))) }
{
    has_cell_terms(instance)
        || constant(instance) > 0
        || counts(instance).variables > unit_var(instance)
}

/// Sends the taker the objective as one row, or nothing if it has no term.
///
/// Its terms are in ascending order of the variables: 10 on a cell for each request row that the cell
/// matches; the constant, which no roster that keeps H1 can avoid, at the unit variable; and each slack with
/// the weight of its item. The weights are the weights of INRC-II. If the taker fails, the fault is returned
/// at once, and nothing more is sent to it.
pub fn drive_objective<T: Taker>(instance: &Instance, taker: &mut T) -> Result<(), T::Fault>
    ensures { Takes T.Taker (events (objective_rows (objective_terms (problem_of instance.now))))
        taker.old taker.new result }
{
    if !has_term(instance) {
        return Ok(());
    }
    taker.start_row(Part::Objective)?;
    emit_terms(instance, taker)?;
    taker.close_row(0)
}
