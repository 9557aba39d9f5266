//! Runs that write a model.
ghost use Rattle.rota_core.specs.InstanceTables.{problem_of};
ghost use Rattle.rota_items.specs.WeekModel.{model_of};
ghost use Rattle.opb_text.specs.ModelText.{opb_text};
ghost use Rattle.rota_pb.specs.Encoding.{encode_run};
ghost use Rattle.rota_pb.specs.RunPorts.{reader_of, writer_of};
ghost use Rattle.rota_pb.specs.Steps.{send};

use crate::fault::Fault;
use crate::model_text::model_text_means_the_rules;
use crate::week_files::{Choice, read_instance};
use byte_ports::{Source, Target};
use opb_text::{OpbTaker, put_model};
use rota_core::Instance;
use std::alloc::Global;
use text_sink::Sink;

/// Writes the whole model of the week, hard and soft rules, in the linear format of the Pseudo-Boolean
/// Competition: the first line, the objective if it has a term, and the constraints.
///
/// Allocates nothing. `Ok` means that the whole text is sent and flushed. The only error is `Write`, if the
/// writer failed: it got a prefix of the text.
///
/// Here the tables of the week are read, and `opb` is a target:
///
/// ```
/// let instance = Instance::join(scenario, history, week, early)?;
/// encode(&instance, opb)
/// ```
pub fn encode<W: Target>(instance: &Instance, out: &mut W) -> Result<(), Fault>
    ensures { (send (writer_of W.Target out.old out.new) (opb_text (model_of (problem_of instance.now)))).ends result }
{
    let mut taker = OpbTaker::new(Sink::new(out));
    put_model(instance, &mut taker).map_err(|_| Fault::Write)?;
    taker.finish().map_err(|_| Fault::Write)
}

/// Reads the files of a week, each to its end, and writes the model of the week in the linear format of the
/// Pseudo-Boolean Competition. Every roster that keeps the hard rules H1 to H5 extends to an assignment that
/// satisfies the written constraints and whose objective is the roster's penalty. Every satisfying assignment
/// represents such a roster, whose penalty is at most the assignment's objective.
///
/// The files are the scenario, the history, the week's data and, if `choice.fixed` is true, the solution file
/// of the held cells. Otherwise `fix_file` is not touched.
///
/// Errors: `File` with the first fault of the first file that has one, or `LateWeek` after the three files of
/// the week, before the held cells; `Read` if a reader failed before it reported its end; `Memory`. Later
/// readers are then not touched, and the writer is not called. `Write` if the writer failed: it got a prefix
/// of the text.
///
/// See the example at the top of the crate.
pub fn run_encode<S: Source, H: Source, K: Source, F: Source, W: Target>(
    alloc: Global,
    choice: Choice,
    sce: &mut S,
    his: &mut H,
    week: &mut K,
    fix_file: &mut F,
    out: &mut W,
) -> Result<(), Fault>
    ensures outcome { (encode_run choice
        (record {
          scenario = reader_of S.Source sce.old sce.new;
          history = reader_of H.Source his.old his.new;
          week = reader_of K.Source week.old week.new;
          fix = reader_of F.Source fix_file.old fix_file.new;
        })
        (writer_of W.Target out.old out.new)).ends result }
{
    model_text_means_the_rules();
    let instance = read_instance(alloc, choice, sce, his, week, fix_file)?;
    encode(&instance, out)
}
