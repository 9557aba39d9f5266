//! The drives, which send the rows of an instance's model to a taker.
ghost use Rattle.rota_core.specs.InstanceTables.{problem_of};
ghost use Rattle.rota_items.specs.Events.{events};
ghost use Rattle.rota_items.specs.Takes.{Takes};
ghost use Rattle.rota_items.specs.WeekModel.{rows_of};

use crate::hard::{emit_unit, visit_rule_rows};
use crate::items::item_rows::emit_item_rows;
use crate::takers::Taker;
use rota_core::Instance;

/// Sends the taker the constraints of the instance's model, row by row: first the row of the unit variable,
/// then the constraints of the hard rules, then those of the soft rules.
///
/// The first rows are: the row of the unit variable; for each nurse and day, at most one cell (H1); for each
/// day, shift type and skill, the minimum number of nurses if it is above 0 (H2); for each nurse, no shift
/// type on Monday that may not follow the last one of the history, and no forbidden succession from day to
/// day (H3); for each nurse and each skill that she does not have, none of the cells that need it (H4); each
/// held cell (H5).
///
/// A row of a soft rule has slacks with coefficient 1, whose weight is in the objective. A true slack makes
/// up for one unit that is missing. The soft rules follow one another in their order, each with only those
/// rows that a roster can break: first the optimal numbers for each day, shift type and skill, then, rule by
/// rule, the rows of each nurse. `docs/model.md` lists them. Requests have no row: the objective charges them
/// on their cells.
///
/// Without early charging the rules other than H5 are the rules of the problem description of INRC-II. Terms
/// are in ascending order of their variables. The slacks of the rows follow one another, from the variable
/// after the unit variable on. If the taker fails, the fault is returned at once, and nothing more is sent to
/// it.
///
/// See the example of `counts`.
pub fn drive_constraints<T: Taker>(instance: &Instance, taker: &mut T) -> Result<(), T::Fault>
    ensures { Takes T.Taker (events (rows_of (problem_of instance.now))) taker.old taker.new result }
{
    emit_unit(instance, taker)?;
    visit_rule_rows(instance, taker)?;
    emit_item_rows(instance, taker)
}
