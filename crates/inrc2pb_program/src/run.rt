//! A run of the program, from its words to its status.
ghost use Rattle.std.specs.Prelude.{IfErr, IfOk};
ghost use Rattle.std.specs.Process.{exit_status as code_of};
ghost use Rattle.inrc2pb_frame.specs.Exits.{AreSound, printer_state};
ghost use Rattle.inrc2pb_frame.specs.Given.{IsJobGiven, IsStopGiven};
ghost use Rattle.inrc2pb_frame.specs.Placing.{HaveNoPath, file_of};
ghost use Rattle.inrc2pb_frame.specs.Runs.{IsJobFor, IsStopFor};
ghost use Rattle.inrc2pb_program.specs.Programs.{IsEndOf, ProgramOutcome, RunOutcome, inrc2pb};
ghost use Rattle.byte_ports.specs.Openers.{opener_at};
ghost use Rattle.rota_pb.specs.RunPorts.{reader_of, writer_of};

use crate::command::NAME;
use crate::command_line;
use crate::job::Job;
use crate::job_run::perform;
use byte_ports::{HasPath, Opens, Source, Target};
use inrc2pb_frame::{OutputFile, Printer, Stop, borrowed, exit_code, kept};
use rota_pb::{Fault, PeriodFault};
use std::alloc::Global;
use std::env::Args;
use std::io;
use std::process::ExitCode;

/// Does the work that the words ask for, over any files, input and outputs; `file` gets the path of the
/// job's output. Returns the exit code of the process.
pub fn program<O: Opens, A: Source, F: OutputFile, W: Target + HasPath, H: Printer, E: Printer>(
    alloc: Global,
    words: io::Result<Args>,
    files: &mut O,
    input: &mut A,
    file: &mut F,
    output: &mut W,
    help: &mut H,
    errors: &mut E,
) -> ExitCode
    requires paths { HaveNoPath (F.path file.old) (W.path output.old) }
    requires printers { AreSound (H.has_failed help.old) (E.has_failed errors.old) }
    ensures { ProgramOutcome (opener_at O.Opens O.File.Source files.old files.new)
        (file_of F.Target F.path file.old file.new) words (reader_of A.Source input.old input.new)
        (writer_of W.Target output.old output.new)
        (printer_state H.Printer help.old help.new) (printer_state E.Printer errors.old errors.new) (code_of result) }
{
    exit_code(
        NAME,
        &run(alloc, words, files, input, file, output),
        help,
        errors,
    )
}

/// Does the work that the words ask for. An `Err` says why it was not done.
pub fn run<O: Opens, A: Source, F: OutputFile, W: Target + HasPath>(
    alloc: Global,
    words: io::Result<Args>,
    files: &mut O,
    input: &mut A,
    file: &mut F,
    output: &mut W,
) -> Result<(), Stop>
    requires { HaveNoPath (F.path file.old) (W.path output.old) }
    ensures { RunOutcome (opener_at O.Opens O.File.Source files.old files.new)
        (file_of F.Target F.path file.old file.new) words (reader_of A.Source input.old input.new)
        (writer_of W.Target output.old output.new) result }
{
    let job = job_of_args(alloc, words)?;
    file.place(job.output_path())?;
    ended(perform(alloc, &job, files, input, file, output))
}

// The end of the program for a job's result.
fn ended(performed: Result<(), Fault>) -> Result<(), Stop>
    ensures { IsEndOf performed result }
{
    performed.map_err(|fault| Stop::Job(PeriodFault::Run(fault)))
}

// The job that the words ask for, or the reason why the program ends without one.
fn job_of_args(alloc: Global, words: io::Result<Args>) -> Result<Job, Stop>
    ensures ok { IfOk result (IsJobGiven (IsJobFor inrc2pb) words) }
    ensures err { IfErr result (IsStopGiven (IsStopFor inrc2pb) words) }
{
    let words = kept(alloc, words?)?;
    let words = borrowed(alloc, words.as_slice())?;
    command_line::job(alloc, words.as_slice())
}
