//! Reads the answers of solvers, in any pieces, and writes an answer in the same format.
//!
//! Reads an answer that comes in two pieces, cut within a word:
//!
//! ```
//! let mut answer = Answer::new(alloc, 3)?;
//! answer.feed(b"s OPTIMUM FOUND\nv x1 -x")?;
//! answer.feed(b"2 x3\n")?;
//! let solved = answer.finish()?;
//! assert_eq!(rt; solved.status, Status::Optimum);
//! for index in solved.bits.true_indices() {
//!     assert!(rt; index == 0 || index == 2);
//! }
//! ```
#![tactic(auto)]

mod answer;
mod answer_state;
mod answer_writer;
pub mod laws;
mod line_state;
mod literal;
mod outcome;
mod words;

pub use answer::Answer;
pub use answer_writer::AnswerWriter;
pub use outcome::{AnswerFault, Solved, Status};
