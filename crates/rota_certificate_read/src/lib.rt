//! Readers of the files of certificates and of facts about plans. They return the value that a text spells, or the text's
//! one fault.
//!
//! Reads a fact for plans of one week, and detects a file that ends too early:
//!
//! ```
//! let given = read_facts(alloc, &scenario, 1, b"FACTS s1\nROWS = 1\nHOLDS EVEN\n")?;
//! assert_eq!(rt; given.conditions.len(), 1);
//! if let Err(fault) = read_certificate(alloc, &scenario, 1, b"CERTIFICATE s1\n") {
//!     let line = format!(in alloc; "{fault}")?;
//!     assert_eq!(rt; line.as_str(), "certificate line 1: end of file");
//! }
//! ```
#![tactic(auto)]

mod certificate;
mod facts;
pub mod laws;
mod prices;

pub use certificate::read_certificate;
pub use facts::{GivenFacts, read_facts};
