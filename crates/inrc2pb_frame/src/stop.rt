//! Why the program ends before its work is done, and its message then.
ghost use Rattle.std.specs.Prelude.{◌≡◌, false};
ghost use Rattle.std.specs.Process.{exit_status as code_of};
ghost use Rattle.inrc2pb_frame.specs.Exits.{AreSound, IsExitOf, IsPrinted, IsReported, IsShown, message_for, printer_state};
ghost use Rattle.inrc2pb_frame.specs.Faults.{out_of_memory};
ghost use Rattle.inrc2pb_frame.specs.FaultLines.{stop_text};
ghost use Rattle.inrc2pb_frame.specs.ErrorStops.{IsStopOf};
ghost use Rattle.inrc2pb_frame.specs.Messages.{message_of};
ghost use Rattle.inrc2pb_frame.specs.Stops.{IsStopForError};
ghost use Rattle.inrc2pb_frame.specs.declared.stop.Stop.TheVariants.{Job};

use crate::fault_line::FaultLine;
use crate::printers::Printer;
use clap::error::ErrorKind;
use rota_pb::{Fault, PeriodFault, period_status};
use std::alloc::AllocError;
use std::process::ExitCode;
use std::{fmt, io};

/// Why the program ends without its work: the text or the fault that it reports.
#[derive(Drop)]
pub enum Stop {
    /// The words ask for help or the version, and this is the text.
    Shown(clap::Error),
    /// The words are refused, for the reason that this text gives.
    Words(clap::Error),
    /// The words give no job, for this reason of the program's own: they are not text, a path that is
    /// required is missing, or the options do not fit.
    Usage(&'static str),
    /// The job failed, or memory ran out before it began.
    Job(PeriodFault),
}

impl Stop {
    /// Prints the reason for the program with this name: a requested text on the output, anything else on the standard
    /// error. Returns the exit status of the program. Neither printer has failed before.
    pub fn report<H: Printer, E: Printer>(
        &self,
        program: &'static str,
        output: &mut H,
        errors: &mut E,
    ) -> u8
        requires { AreSound (H.has_failed output.old) (E.has_failed errors.old) }
        ensures { IsReported program.now self.now (printer_state H.Printer output.old output.new)
            (printer_state E.Printer errors.old errors.new) result }
    {
        match self {
            Stop::Shown(_) => show(program, self, output, errors),
            Stop::Words(_) | Stop::Usage(_) => refuse(program, self, 2, errors),
            Stop::Job(fault) => refuse(program, self, period_status(fault), errors),
        }
    }
}

/// Shows why a program ended, as its message.
#[derive(Clone, Copy)]
pub struct StopText<'a> {
    program: &'static str,
    stop: &'a Stop,
}

impl<'a> StopText<'a> {
    /// The message of this reason, for the program with this name.
    pub fn of(program: &'static str, stop: &'a Stop) -> StopText<'a>
        ensures { message_of result ≡ message_for program.now stop.now }
    {
        StopText { program, stop }
    }
}

impl fmt::Display for StopText<'_> {
    ghost output = { λ text. stop_text text.program.now text.stop.now };

    fn fmt<W: fmt::Write>(&self, f: &mut fmt::Formatter<W>) -> fmt::Result {
        match self.stop {
            Stop::Shown(text) => write!(f, "{text}"),
            Stop::Words(text) => write!(f, "{text}"),
            Stop::Usage(text) => writeln!(f, "error: {text}"),
            Stop::Job(fault) => writeln!(f, "{}", FaultLine::of(self.program, fault)),
        }
    }
}

/// The exit code of the process of the program with this name: 0 if it did its work, otherwise the status of the reason
/// why it stopped, which is printed. Neither printer has failed before.
pub fn exit_code<H: Printer, E: Printer>(
    program: &'static str,
    ended: &Result<(), Stop>,
    output: &mut H,
    errors: &mut E,
) -> ExitCode
    requires { AreSound (H.has_failed output.old) (E.has_failed errors.old) }
    ensures { IsExitOf program.now ended.now (printer_state H.Printer output.old output.new)
        (printer_state E.Printer errors.old errors.new) (code_of result) }
{
    match ended {
        Ok(()) => ExitCode::SUCCESS,
        Err(stop) => ExitCode::from(stop.report(program, output, errors)),
    }
}

// Prints a requested text. Returns the status after it.
fn show<H: Printer, E: Printer>(
    program: &'static str,
    stop: &Stop,
    output: &mut H,
    errors: &mut E,
) -> u8
    requires { AreSound (H.has_failed output.old) (E.has_failed errors.old) }
    ensures { IsShown program.now stop.now (printer_state H.Printer output.old output.new)
        (printer_state E.Printer errors.old errors.new) result }
{
    match output.print(&StopText::of(program, stop)) {
        Ok(()) => 0,
        Err(_) => {
            let unwritten = PeriodFault::Run(Fault::Write);
            refuse(
                program,
                &Stop::Job(unwritten),
                period_status(&unwritten),
                errors,
            )
        }
    }
}

// Prints the reason on the standard error. Returns the status, even if its message could not be printed.
fn refuse<E: Printer>(program: &'static str, stop: &Stop, status: u8, errors: &mut E) -> u8
    requires { E.has_failed errors.old ≡ false }
    ensures printed { IsPrinted (printer_state E.Printer errors.old errors.new)
        (message_for program.now stop.now) }
    ensures status { result ≡ status }
{
    match errors.print(&StopText::of(program, stop)) {
        Ok(()) | Err(_) => status,
    }
}

impl From<clap::Error> for Stop {
    ghost from_gives = { IsStopOf };

    fn from(error: clap::Error) -> Stop {
        match error.kind() {
            ErrorKind::OutOfMemory => Stop::Job(PeriodFault::Run(Fault::Memory)),
            ErrorKind::DisplayHelp | ErrorKind::DisplayVersion => Stop::Shown(error),
            _ => Stop::Words(error),
        }
    }
}

impl From<io::Error> for Stop {
    ghost from_gives = { IsStopForError };

    fn from(error: io::Error) -> Stop {
        match error.kind() {
            io::ErrorKind::OutOfMemory => Stop::Job(PeriodFault::Run(Fault::Memory)),
            _ => Stop::Usage("an argument is not text"),
        }
    }
}

impl From<PeriodFault> for Stop {
    ghost from_gives = { λ fault stop. stop ≡ Job fault };

    fn from(fault: PeriodFault) -> Stop {
        Stop::Job(fault)
    }
}

impl From<AllocError> for Stop {
    ghost from_gives = { λ _ stop. stop ≡ Job out_of_memory };

    fn from(_error: AllocError) -> Stop {
        Stop::Job(PeriodFault::Run(Fault::Memory))
    }
}
