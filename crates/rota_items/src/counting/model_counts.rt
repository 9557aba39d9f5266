//! The number of variables and of constraints of an instance's model.
ghost use Rattle.std.specs.Prelude.{◌≡◌, length};
ghost use Rattle.rota_core.specs.InstanceTables.{problem_of};
ghost use Rattle.rota_items.specs.WeekModel.{model_of};

use crate::counting::counter::Counts;
use crate::counting::item_counts::count_soft_items;
use crate::hard::count_rule_rows;
use crate::variables::unit_var;
use rota_core::Instance;

/// The number of variables and of constraints of the instance's model. There is one variable for each cell,
/// the unit variable, and the slacks. There is one constraint for the unit variable, one for each row of the
/// hard rules, and one for each item of the soft rules. Requests have no item: the objective charges them on
/// their cells.
///
/// The rows and items are counted from the instance's tables, and none of their terms is generated: the first
/// line of a model's text needs the numbers before the rows.
///
/// Here an `OpbTaker` of `opb_text` takes the whole model, with its first line:
///
/// ```
/// taker.first_line(counts(instance))?;
/// drive_objective(instance, taker)?;
/// drive_constraints(instance, taker)
/// ```
#[tactic(auto, using(crate::proofs::SlackBound::numbers_of_model))]
pub fn counts(instance: &Instance) -> Counts
    ensures variables { result.variables ≡ (model_of (problem_of instance.now)).variables }
    ensures constraints { result.constraints ≡ length (model_of (problem_of instance.now)).constraints }
{
    let unit = unit_var(instance);
    let soft = count_soft_items(instance);
    Counts {
        variables: unit + soft.slacks,
        constraints: 1 + count_rule_rows(instance) + soft.items,
    }
}
