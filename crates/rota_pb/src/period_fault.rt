//! Why a run for several weeks fails, and the status that a program exits with.
ghost use Rattle.std.specs.Prelude.{◌≡◌, ◌<◌, Some};
ghost use Rattle.rota_pb.specs.PeriodFaults.{fault_in_week, period_status};
ghost use Rattle.rota_pb.specs.PeriodFaultTexts.{period_fault_text};
ghost use Rattle.rota_pb.specs.OpenFaults.{fault_of_opening};
ghost use Rattle.rota_pb.specs.declared.period_fault.PeriodFault.TheVariants.{Run};
ghost use Rattle.rota_pb.specs.declared.fault.Fault.TheVariants.{Memory};

use crate::fault::{Fault, status_of};
use byte_ports::OpenFault;
use std::alloc::{AllocError, AllocFailed};
use std::error::Error;
use std::fmt;

/// Why a run for several weeks failed.
#[derive(Clone, Copy, Debug, PartialEq, Eq)]
pub enum PeriodFault {
    /// A fault of no week, or of the only week.
    Run(Fault),
    /// A fault of the files or the roster of one of several weeks. The first week has the number 1.
    InWeek { week: usize, fault: Fault },
    /// The rosters do not meet a given fact: the first that they do not meet begins on this line of its file.
    Unmet(u32),
}

impl From<Fault> for PeriodFault {
    ghost from_gives = { λ given fault. fault ≡ Run given };

    fn from(fault: Fault) -> PeriodFault {
        PeriodFault::Run(fault)
    }
}

impl From<OpenFault> for PeriodFault {
    ghost from_gives = { λ unopened fault. fault ≡ Run (fault_of_opening unopened) };

    fn from(fault: OpenFault) -> PeriodFault {
        PeriodFault::Run(Fault::from(fault))
    }
}

impl From<AllocError> for PeriodFault {
    ghost from_gives = { λ _ fault. fault ≡ Run Memory };

    fn from(_error: AllocError) -> PeriodFault {
        PeriodFault::Run(Fault::Memory)
    }
}

impl<T: Drop> From<AllocFailed<T>> for PeriodFault {
    ghost from_gives = { λ _ fault. fault ≡ Run Memory };

    fn from(_error: AllocFailed<T>) -> PeriodFault {
        PeriodFault::Run(Fault::Memory)
    }
}

impl fmt::Display for PeriodFault {
    ghost output = { λ fault. Some (period_fault_text fault) };

    fn fmt<W: fmt::Write>(&self, f: &mut fmt::Formatter<W>) -> fmt::Result {
        match self {
            PeriodFault::Run(fault) => write!(f, "{fault}"),
            PeriodFault::InWeek { week, fault } => write!(f, "week {week}: {fault}"),
            PeriodFault::Unmet(line) => write!(f, "facts line {line}: not met"),
        }
    }
}

impl Error for PeriodFault {}

impl PeriodFault {
    /// The fault of the week with this index, if there is such a week: the only week is not named.
    pub fn in_week(weeks: usize, index: usize, fault: Fault) -> PeriodFault
        requires { index < weeks }
        ensures { result ≡ fault_in_week weeks index fault }
    {
        if weeks == 1 {
            return PeriodFault::Run(fault);
        }
        PeriodFault::InWeek {
            week: index + 1,
            fault,
        }
    }
}

/// The exit status of a program whose run failed: 6 if the rosters do not meet a given fact, otherwise that of the
/// fault.
pub fn period_status(fault: &PeriodFault) -> u8
    ensures { result ≡ period_status fault.now }
{
    match fault {
        PeriodFault::Run(fault) | PeriodFault::InWeek { fault, .. } => status_of(fault),
        PeriodFault::Unmet(_) => 6,
    }
}
