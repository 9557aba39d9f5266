//! The line on standard error that reports why a job failed.
ghost use Rattle.std.specs.Prelude.{◌≡◌, Some};
ghost use Rattle.inrc2pb_frame.specs.FaultLines.{fault_line};

use rota_pb::PeriodFault;
use std::fmt;

/// Shows a fault as a program's line, without its end.
#[derive(Clone, Copy)]
pub struct FaultLine<'a> {
    program: &'static str,
    fault: &'a PeriodFault,
}

impl<'a> FaultLine<'a> {
    /// The line of this fault, for the program with this name.
    pub fn of(program: &'static str, fault: &'a PeriodFault) -> FaultLine<'a>
        ensures program { result.program.now ≡ program.now }
        ensures fault { result.fault.now ≡ fault.now }
    {
        FaultLine { program, fault }
    }
}

impl fmt::Display for FaultLine<'_> {
    ghost output = { λ line. Some (fault_line line.program.now line.fault.now) };

    fn fmt<W: fmt::Write>(&self, f: &mut fmt::Formatter<W>) -> fmt::Result {
        write!(f, "{}: {}", self.program, self.fault)
    }
}
