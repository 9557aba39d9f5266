//! The run that proves how good the plans of some weeks can be.
ghost use Rattle.rota_pb.specs.RunPorts.{writer_of};
ghost use Rattle.rota_pb.specs.Steps.{send};
ghost use Rattle.rota_bound_run.specs.BoundText.{bound_text};
ghost use Rattle.rota_bound_run.specs.Bounding.{AnswersFrom};
ghost use Rattle.rota_bound_run.specs.PeriodFiles.{AreFiles};
ghost use Rattle.rota_bound_run.specs.PeriodSteps.{for_all};

use crate::answer::{PeriodAnswer, answer_for};
use crate::bound_text::write_answer;
use crate::files::{PeriodFiles, Question};
use crate::judged::judge_plan;
use crate::period::read_period;
use crate::proof_file::read_proof;
use byte_ports::{Source, Target};
use rota_pb::PeriodFault;
use std::alloc::Global;

// Sends the text of the answer, which is about all weeks.
fn send_answer<W: Target>(answer: &PeriodAnswer, out: &mut W) -> Result<(), PeriodFault>
    ensures { (for_all (send (writer_of W.Target out.old out.new) (bound_text answer.now))).ends result }
{
    Ok(write_answer(answer, out)?)
}

/// Reads the files of some weeks, and writes what the certificate proves about their plans: a lower bound of the
/// penalty of all plans that keep H1 to H5 and meet the given facts; or, with `question.minimums`, whether no plan
/// does so. If there are rosters, the sum of their penalties follows, and the line `optimal` if this is the bound.
///
/// The files are read in this order: the scenario, the history, then for each week its data and its held cells, the
/// given facts, the certificate, and the roster of each week. A roster is judged before the next is read: the history
/// of a later week is the one that the roster of the week before leaves.
///
/// Errors: `File` with the first fault of the first file that has one; `LateWeek` after the data of a week before
/// which the scenario ends; `Repeated` at line 0 of the certificate if a fact occurs more than once on a path of its
/// tree; `Limit` at line 0 of the history if a roster leaves a number beyond the limits of a history's file; `Breaks`
/// with the first hard rule that a roster breaks; `Unmet` with the line of the first given fact that the rosters do not
/// meet; `Read` if a reader failed before it reported its end; `Memory`. Later readers are then not touched, and the
/// writer is not called. `Write` if the writer failed: it got a prefix of the text.
pub fn run_bound<S: Source, W: Target>(
    alloc: Global,
    question: Question,
    files: &mut PeriodFiles<S>,
    out: &mut W,
) -> Result<(), PeriodFault>
    requires files { AreFiles files.old }
    ensures { AnswersFrom question S.Source files.old files.new (writer_of W.Target out.old out.new) result }
{
    let mut period = read_period(
        alloc,
        question.early,
        &mut files.scenario,
        &mut files.history,
        &mut files.weeks,
        &mut files.given,
    )?;
    let count = period.weeks.len() as u8;
    let certificate = read_proof(alloc, &period.ward.scenario, count, &mut files.proof)?;
    let judged = judge_plan(alloc, &mut period.weeks, &period.given, &mut files.rosters)?;
    let answer = answer_for(
        alloc,
        &period.weeks,
        &period.given.conditions,
        &certificate,
        question.minimums,
        &judged,
    )?;
    send_answer(&answer, out)
}
