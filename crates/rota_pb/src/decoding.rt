//! The run that turns a solver's answer into a solution file and a report.
ghost use Rattle.rota_pb.specs.Decoding.{decode_answer, decode_run};
ghost use Rattle.rota_pb.specs.RunPorts.{reader_of, writer_of};

use crate::answer_pieces::read_answer;
use crate::decoded::decode;
use crate::fault::Fault;
use crate::report::write_report;
use crate::week_files::{Choice, read_instance};
use crate::written_solution::write_solution;
use byte_ports::{Source, Target};
use rota_core::Instance;
use rota_items::counts;
use std::alloc::Global;

// Reads an answer to the week's model, and writes the solution file of its roster and the report.
fn decode_answer<A: Source, W: Target, R: Target>(
    alloc: Global,
    instance: &Instance,
    answer: &mut A,
    sol: &mut W,
    report: &mut R,
) -> Result<(), Fault>
    ensures { (decode_answer instance.now (reader_of A.Source answer.old answer.new)
        (writer_of W.Target sol.old sol.new) (writer_of R.Target report.old report.new)).ends result }
{
    let solved = read_answer(alloc, counts(instance).variables, answer)?;
    let decoded = decode(instance, solved)?;
    write_solution(instance, &decoded.roster, sol)?;
    write_report(&decoded, report)
}

/// Reads the files of a week and a solver's answer to the week's model, each to its end, and writes
/// the solution file of the answer's roster to `sol` and then a report to `report`.
///
/// The files are the scenario, the history, the week's data and, if `choice.fixed` is true, the solution file
/// of the held cells. Otherwise `fix_file` is not touched. The answer is read in pieces of at most 4096 bytes,
/// which are not kept. It may have any length that fits into fewer than 2^64 - 1 pieces.
///
/// Errors, in this order: `File` with the first fault of the first file that has one, or `LateWeek` after the
/// three files of the week, before the held cells; `Answer` with the answer's first fault; `NoRoster` if its
/// status is neither `Satisfiable` nor `Optimum`; `Unmet` with the first constraint that it does not satisfy.
/// `Read` if a reader failed before it reported its end, or if the answer had no end, before a fault was
/// found in the bytes read so far. `Memory` if memory ran out for a file, or for the answer's bits before the
/// first read of the answer. Later readers are then not touched, and no writer is called. `Write` if a writer
/// failed: it got a prefix of its text, and `report` gets nothing before the whole solution is written and
/// flushed.
///
/// Here the answer is in memory, the ports of the week's files are made as at the top of the crate, and `sol`
/// and `report` are targets:
///
/// ```
/// let mut answer = MemorySource::new(answer, plan);
/// run_decode(
///     alloc, choice, &mut sce, &mut his, &mut week, &mut fix, &mut answer, sol, report,
/// )
/// ```
pub fn run_decode<S: Source, H: Source, K: Source, F: Source, A: Source, W: Target, R: Target>(
    alloc: Global,
    choice: Choice,
    sce: &mut S,
    his: &mut H,
    week: &mut K,
    fix_file: &mut F,
    answer: &mut A,
    sol: &mut W,
    report: &mut R,
) -> Result<(), Fault>
    ensures outcome { (decode_run choice
        (record {
          scenario = reader_of S.Source sce.old sce.new;
          history = reader_of H.Source his.old his.new;
          week = reader_of K.Source week.old week.new;
          fix = reader_of F.Source fix_file.old fix_file.new;
        })
        (reader_of A.Source answer.old answer.new)
        (writer_of W.Target sol.old sol.new) (writer_of R.Target report.old report.new)).ends result }
{
    let instance = read_instance(alloc, choice, sce, his, week, fix_file)?;
    decode_answer(alloc, &instance, answer, sol, report)
}
