//! The text of a week's whole model.
ghost use Rattle.std.specs.Prelude.{◌≡◌, true, IsErr};
ghost use Rattle.rota_core.specs.InstanceTables.{problem_of};
ghost use Rattle.rota_items.specs.WeekModel.{model_of};
ghost use Rattle.opb_text.specs.ModelText.{opb_text};
ghost use Rattle.opb_text.specs.OpbTaker.{taker_sink};
ghost use Rattle.text_sink.specs.Sink.{PutsText, sink_failed};

use crate::opb_taker::OpbTaker;
use byte_ports::{PortFault, Target};
use rota_core::Instance;
use rota_items::laws::constraints_are_no_objective;
use rota_items::{counts, drive_constraints, drive_objective};

/// Writes the text of the week's model: the first line, the objective if it has a term, and the constraints.
/// It fails only if the target does.
///
/// Here `sink` goes to a target:
///
/// ```
/// let mut taker = OpbTaker::new(sink);
/// put_model(instance, &mut taker)?;
/// taker.finish()
/// ```
pub fn put_model<W: Target>(instance: &Instance, taker: &mut OpbTaker<W>) -> Result<(), PortFault>
    ensures takes { PutsText (taker_sink taker.old) result (opb_text (model_of (problem_of instance.now))) (taker_sink taker.new) }
    ensures for_good { sink_failed (taker_sink taker.old) ≡ true → IsErr result }
{
    constraints_are_no_objective();
    taker.first_line(counts(instance))?;
    drive_objective(instance, taker)?;
    drive_constraints(instance, taker)
}
