//! Runs that extend a roster to an answer of its week's model.
ghost use Rattle.rota_core.specs.InstanceTables.{problem_of};
ghost use Rattle.rota_core.specs.RosterTables.{HasShapeOf, set_of};
ghost use Rattle.rota_pb.specs.Extending.{extend_roster, extend_run};
ghost use Rattle.rota_pb.specs.RunPorts.{reader_of, writer_of};

use crate::extension_answer::put_answer;
use crate::fault::Fault;
use crate::roster_files::read_roster;
use crate::week_files::{Choice, read_instance};
use byte_ports::{Source, Target};
use rota_core::{Instance, Roster};
use rota_judge::{Judge, verdict_of};
use solver_text::AnswerWriter;
use std::alloc::Global;
use text_sink::Sink;

/// Writes the answer that a solver would give for the roster, in the output format of the Pseudo-Boolean
/// Competition: an `o` line with its penalty, the line `s SATISFIABLE`, and `v` lines with the values of all
/// variables of the week's model, ten per line. The true variables are: the variables of the roster's cells,
/// the unit variable, and the first slacks of each constraint of a soft rule. The number of true slacks of a
/// constraint is its shortage on the roster.
///
/// Allocates nothing. `Ok` means that the whole text is sent and flushed. Errors: `Breaks` with the first hard
/// rule, in the order H1 to H5, that the roster breaks, and nothing is written; `Write` if the writer failed:
/// it got a prefix of the text.
pub fn extend<W: Target>(instance: &Instance, roster: &Roster, out: &mut W) -> Result<(), Fault>
    requires shape { HasShapeOf (problem_of instance.now) roster.now }
    ensures { (extend_roster (problem_of instance.now) (set_of roster.now) (writer_of W.Target out.old out.new)).ends result }
{
    let verdict = verdict_of(instance, Judge::of_roster(instance, roster));
    if let Some((_, rule)) = verdict.unmet {
        return Err(Fault::Breaks(rule));
    }
    let mut writer = AnswerWriter::new(Sink::new(out));
    put_answer(instance, roster, verdict.objective, &mut writer).map_err(|_| Fault::Write)
}

/// Reads the files of a week and a solution file, each to its end, and writes the answer that a solver
/// would give for the solution's roster, as `extend` does.
///
/// The files of the week are the scenario, the history, the week's data and, if `choice.fixed` is true, the
/// solution file of the held cells. Otherwise `fix_file` is not touched.
///
/// Errors: `File` with the first fault of the first file that has one, or `LateWeek` after the three files of
/// the week, before the held cells; `Breaks` with the first hard rule that the roster breaks; `Read` if a
/// reader failed before it reported its end; `Memory`. Later readers are then not touched, and the writer is
/// not called. `Write` if the writer failed: it got a prefix of the text.
///
/// Here the solution is in memory, the ports of the week's files are made as at the top of the crate, and
/// `out` is a target:
///
/// ```
/// let mut given = MemorySource::new(solution, plan);
/// run_extend(
///     alloc, choice, &mut sce, &mut his, &mut week, &mut fix, &mut given, out,
/// )
/// ```
pub fn run_extend<S: Source, H: Source, K: Source, F: Source, G: Source, W: Target>(
    alloc: Global,
    choice: Choice,
    sce: &mut S,
    his: &mut H,
    week: &mut K,
    fix_file: &mut F,
    given: &mut G,
    out: &mut W,
) -> Result<(), Fault>
    ensures outcome { (extend_run choice
        (record {
          scenario = reader_of S.Source sce.old sce.new;
          history = reader_of H.Source his.old his.new;
          week = reader_of K.Source week.old week.new;
          fix = reader_of F.Source fix_file.old fix_file.new;
        })
        (reader_of G.Source given.old given.new) (writer_of W.Target out.old out.new)).ends result }
{
    let instance = read_instance(alloc, choice, sce, his, week, fix_file)?;
    let roster = read_roster(alloc, &instance, given)?;
    extend(&instance, &roster, out)
}
