//! Why a run fails, and the status that a program exits with.
ghost use Rattle.std.specs.Prelude.{◌≡◌, Some};
ghost use Rattle.rota_pb.specs.Statuses.{exit_status};
ghost use Rattle.rota_pb.specs.FaultTexts.{fault_text};
ghost use Rattle.rota_pb.specs.OpenFaults.{fault_of_opening};
ghost use Rattle.rota_pb.specs.RunParts.{fault_of_file};
ghost use Rattle.rota_pb.specs.declared.fault.Fault.TheVariants.{Answer, Memory};

use byte_ports::OpenFault;
use rota_core::{FileFault, Rule};
use solver_text::{AnswerFault, Status};
use std::alloc::AllocError;
use std::error::Error;
use std::fmt;

/// Why a run failed.
#[derive(Clone, Copy, Debug, PartialEq, Eq)]
pub enum Fault {
    /// A file does not have the form of its kind: its first fault.
    File(FileFault),
    /// Memory ran out.
    Memory,
    /// A writer failed.
    Write,
    /// A file did not open, a reader failed, or an answer has no end.
    Read,
    /// A solver's answer does not have the form of an answer: its first fault.
    Answer(AnswerFault),
    /// The solver found no roster: the status of its answer.
    NoRoster(Status),
    /// The answer does not satisfy the model: the number, from 1, of the first constraint that it does not
    /// satisfy.
    Unmet(u32),
    /// The roster breaks a hard rule: the first one that it breaks.
    Breaks(Rule),
}

impl From<FileFault> for Fault {
    ghost from_gives = { λ file fault. fault ≡ fault_of_file file };

    fn from(fault: FileFault) -> Fault {
        match fault {
            FileFault::Memory => Fault::Memory,
            bad => Fault::File(bad),
        }
    }
}

impl From<OpenFault> for Fault {
    ghost from_gives = { λ unopened fault. fault ≡ fault_of_opening unopened };

    fn from(fault: OpenFault) -> Fault {
        match fault {
            OpenFault::Memory => Fault::Memory,
            OpenFault::Read => Fault::Read,
        }
    }
}

impl From<AnswerFault> for Fault {
    ghost from_gives = { λ given fault. fault ≡ Answer given };

    fn from(fault: AnswerFault) -> Fault {
        Fault::Answer(fault)
    }
}

impl From<AllocError> for Fault {
    ghost from_gives = { λ _ fault. fault ≡ Memory };

    fn from(_error: AllocError) -> Fault {
        Fault::Memory
    }
}

impl fmt::Display for Fault {
    ghost output = { λ fault. Some (fault_text fault) };

    fn fmt<W: fmt::Write>(&self, f: &mut fmt::Formatter<W>) -> fmt::Result {
        match self {
            Fault::File(fault) => write!(f, "{fault}"),
            Fault::Memory => f.write_str("out of memory"),
            Fault::Write => f.write_str("write failed"),
            Fault::Read => f.write_str("read failed"),
            Fault::Answer(answer) => write!(f, "answer: {}", answer.text()),
            Fault::NoRoster(status) => write!(f, "solver found no roster: {}", status.words()),
            Fault::Unmet(number) => write!(f, "constraint {number} is not satisfied"),
            Fault::Breaks(rule) => write!(f, "roster breaks {rule}"),
        }
    }
}

impl Error for Fault {}

/// The exit status of a program whose run failed: 1 for a fault of a file or an answer, 3 for `Read` or
/// `Write`, 4 if memory ran out, 5 if a solver found no roster, 6 if an answer does not satisfy the model or a
/// roster breaks a hard rule.
pub fn status_of(fault: &Fault) -> u8
    ensures { result ≡ exit_status fault.now }
{
    match fault {
        Fault::File(FileFault::Bad { .. }) | Fault::Answer(_) => 1,
        Fault::Write | Fault::Read => 3,
        Fault::File(FileFault::Memory) | Fault::Memory => 4,
        Fault::NoRoster(_) => 5,
        Fault::Unmet(_) | Fault::Breaks(_) => 6,
    }
}
