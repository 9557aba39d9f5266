//! The drive: all values of an extension.
ghost use Rattle.rota_core.specs.InstanceTables.{IsInstance, problem_of};
ghost use Rattle.rota_core.specs.RosterTables.{HasShapeOf, set_of};
ghost use Rattle.rota_judge.specs.ExtensionTruths.{extension_truths, truths_to};
ghost use Rattle.rota_judge.specs.LiteralTakes.{TakesLiterals};
ghost use Rattle.rota_items.specs.Variables.{unit_number};
ghost use Rattle.rota_judge.specs.Extensions.{assignment_of};

use crate::literals::literal_takers::LiteralTaker;
use crate::literals::slack_values::emit_slack_values;
use rota_core::{Instance, Roster};

// The literals of the cells, and the literal of the unit variable.
#[tactic(auto, using(rota_items::proofs::ItemLemmas::taking))]
fn emit_assigned<T: LiteralTaker>(
    instance: &Instance,
    roster: &Roster,
    taker: &mut T,
) -> Result<(), T::Fault>
    requires shape { HasShapeOf (problem_of instance.now) roster.now }
    ensures limits { IsInstance instance.now }
    ensures takes { let problem = problem_of instance.now in
        TakesLiterals T.LiteralTaker (truths_to (unit_number problem) (assignment_of problem (set_of roster.now)))
        taker.old taker.new result }
{
    for index in 0..instance.cell_count() {
        taker.literal(roster.has_index(index))?;
    }
    taker.literal(true)
}

/// Sends the taker the literals of all variables of the instance's model, in ascending order, in the roster's
/// extension. The true variables are: the variables of the roster's cells, the unit variable, and the first
/// slacks of each constraint of a soft rule. The number of true slacks of a constraint is its shortage on the
/// roster, or the number of all its slacks if that is smaller.
///
/// If the taker fails, the fault is returned at once, and nothing more is sent to it. No list of literals is
/// kept.
pub fn drive_extension<T: LiteralTaker>(
    instance: &Instance,
    roster: &Roster,
    taker: &mut T,
) -> Result<(), T::Fault>
    requires { HasShapeOf (problem_of instance.now) roster.now }
    ensures limits { IsInstance instance.now }
    ensures takes { TakesLiterals T.LiteralTaker (extension_truths (problem_of instance.now) (set_of roster.now))
        taker.old taker.new result }
{
    emit_assigned(instance, roster, taker)?;
    emit_slack_values(instance, roster, taker)
}
