//! The judge, which is a taker that evaluates a model, and its verdict.

mod drives;
mod subjects;
mod taker;
mod tallies;
mod verdicts;

pub use drives::verdict_of;
pub use taker::Judge;
pub use verdicts::Verdict;
