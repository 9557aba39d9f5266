//! A run of the program, from its words to its status.
ghost use Rattle.std.specs.Prelude.{IfErr, IfOk};
ghost use Rattle.std.specs.Process.{exit_status as code_of};
ghost use Rattle.byte_ports.specs.Openers.{opener_at};
ghost use Rattle.inrc2pb_frame.specs.Exits.{AreSound, printer_state};
ghost use Rattle.inrc2pb_frame.specs.Given.{IsJobGiven, IsStopGiven};
ghost use Rattle.inrc2pb_frame.specs.Runs.{IsJobFor, IsStopFor};
ghost use Rattle.rota_pb.specs.RunPorts.{writer_of};
ghost use Rattle.rota_bound_run.specs.PeriodFiles.{AreFiles};
ghost use Rattle.inrc2pb_bound_program.specs.BoundPrograms.{BoundProgramOutcome, BoundRunOutcome, inrc2pb_bound};

use crate::command::NAME;
use crate::command_line;
use crate::job::BoundJob;
use crate::job_run::perform;
use byte_ports::{Opens, Target};
use inrc2pb_frame::{Printer, Stop, borrowed, exit_code, kept};
use std::alloc::Global;
use std::env::Args;
use std::io;
use std::process::ExitCode;

/// Answers what the words ask about a period, over any files and any output. Returns the exit code of the process.
pub fn program<O: Opens, W: Target, H: Printer, E: Printer>(
    alloc: Global,
    words: io::Result<Args>,
    files: &mut O,
    output: &mut W,
    help: &mut H,
    errors: &mut E,
) -> ExitCode
    requires { AreSound (H.has_failed help.old) (E.has_failed errors.old) }
    ensures { BoundProgramOutcome (opener_at O.Opens O.File.Source files.old files.new) words
        (writer_of W.Target output.old output.new)
        (printer_state H.Printer help.old help.new) (printer_state E.Printer errors.old errors.new) (code_of result) }
{
    exit_code(NAME, &run(alloc, words, files, output), help, errors)
}

/// Answers what the words ask about a period. An `Err` says why it was not done.
pub fn run<O: Opens, W: Target>(
    alloc: Global,
    words: io::Result<Args>,
    files: &mut O,
    output: &mut W,
) -> Result<(), Stop>
    ensures { BoundRunOutcome (opener_at O.Opens O.File.Source files.old files.new) words
        (writer_of W.Target output.old output.new) result }
{
    let job = job_of_args(alloc, words)?;
    Ok(perform(alloc, &job, files, output)?)
}

// The job that the words ask for, or the reason why the program ends without one.
fn job_of_args(alloc: Global, words: io::Result<Args>) -> Result<BoundJob, Stop>
    ensures ok { IfOk result (IsJobGiven (IsJobFor inrc2pb_bound) words) }
    ensures files { IfOk result (λ job. AreFiles job.paths) }
    ensures err { IfErr result (IsStopGiven (IsStopFor inrc2pb_bound) words) }
{
    let words = kept(alloc, words?)?;
    let words = borrowed(alloc, words.as_slice())?;
    command_line::job(alloc, words.as_slice())
}
