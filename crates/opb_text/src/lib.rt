//! The text of a pseudo-Boolean model, written event by event into a sink.
//!
//! Writes a model with one constraint: at most one of two variables is true:
//!
//! ```
//! let mut target = MemoryTarget::new(alloc, 100, CallPlan::new(100, None))?;
//! let mut taker = OpbTaker::new(Sink::new(&mut target));
//! taker.first_line(Counts {
//!     variables: 2,
//!     constraints: 1,
//! })?;
//! taker.start_row(Part::Hard(Rule::H1))?;
//! taker.term(-1, 1)?;
//! taker.term(-1, 2)?;
//! taker.close_row(-1)?;
//! taker.finish()?;
//! let text = b"* #variable= 2 #constraint= 1\n-1 x1 -1 x2 >= -1 ;\n";
//! assert_eq!(rt; target.bytes(), text.as_slice());
//! ```
#![tactic(auto)]

pub mod laws;
mod opb_taker;
mod whole_model;

pub use opb_taker::OpbTaker;
pub use text_sink::{Piece, Sink};
pub use whole_model::put_model;
