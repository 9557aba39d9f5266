//! A buffered sink for text: pieces, numbers in decimal digits, and terms with the coefficient 1 or -1.
//!
//! Writes a number between two pieces, and sends all of it:
//!
//! ```
//! let mut target = MemoryTarget::new(alloc, 100, CallPlan::new(100, None))?;
//! let mut sink = Sink::new(&mut target);
//! sink.number_between(b"penalty ", 320, b"\n")?;
//! sink.finish()?;
//! assert_eq!(rt; target.bytes(), b"penalty 320\n".as_slice());
//! ```
#![tactic(auto)]

mod digits;
mod sink;
mod term_prefix;
mod text_buffer;

pub use sink::{Piece, Sink};
