//! The reasons why reading stops.

ghost use Rattle.std.specs.Prelude.{◌≡◌};
ghost use Rattle.rota_layout.specs.FileFaults.{fault_in};
ghost use Rattle.rota_layout.specs.declared.fault.LayoutError.TheVariants.{Memory};

use rota_core::{FileFault, FileName, Kind};
use std::alloc::{AllocError, AllocFailed};

/// The kind of a text's fault, and its line.
#[derive(Clone, Copy, Debug, PartialEq, Eq)]
pub struct LineFault {
    pub kind: Kind,
    pub line: u32,
}

/// The reason why reading stops before the end.
#[derive(Clone, Copy, Debug, PartialEq, Eq)]
pub enum LayoutError {
    Memory,
    Fault(LineFault),
}

impl LayoutError {
    /// The fault of this file.
    pub fn in_file(self, file: FileName) -> FileFault
        ensures { result ≡ fault_in file self }
    {
        match self {
            LayoutError::Memory => FileFault::Memory,
            LayoutError::Fault(fault) => FileFault::Bad {
                kind: fault.kind,
                file,
                line: fault.line,
            },
        }
    }
}

impl From<AllocError> for LayoutError {
    ghost from_gives = { λ _ e. e ≡ Memory };

    fn from(_e: AllocError) -> LayoutError {
        LayoutError::Memory
    }
}

impl<T: Drop> From<AllocFailed<T>> for LayoutError {
    ghost from_gives = { λ _ e. e ≡ Memory };

    fn from(_e: AllocFailed<T>) -> LayoutError {
        LayoutError::Memory
    }
}
