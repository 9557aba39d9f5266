//! The ports that read and write bytes, over the standard library's readers and writers and over memory.
//!
//! Sends the first bytes of a text to a target in memory that takes at most two per call:
//!
//! ```
//! let mut target = MemoryTarget::new(alloc, 100, CallPlan::new(2, None))?;
//! let sent = target.write(b"text")?;
//! assert_eq!(rt; sent, 2);
//! target.flush()?;
//! assert_eq!(rt; target.bytes(), b"te".as_slice());
//! ```
#![tactic(auto)]

mod memory_ports;
mod open_files;
mod paths;
mod ports;
mod std_ports;

pub use memory_ports::{CallPlan, MemorySource, MemoryTarget};
pub use open_files::{OpenFault, open, open_if_named};
pub use paths::{HasPath, Opens};
pub use ports::{PortFault, Source, Target};
pub use std_ports::{FromRead, ToWrite};
