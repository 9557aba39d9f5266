//! The run that proves how good the plans of some weeks can be, over any readers and any writer.
#![tactic(auto)]

mod answer;
mod bound_text;
mod claims;
mod files;
mod given_file;
mod judged;
mod judged_week;
/// The meaning of an answer for a single week.
pub mod laws;
mod pasts;
mod period;
mod proof_file;
mod run;
mod ward;
mod weeks;

pub use answer::PeriodAnswer;
pub use claims::Claim;
pub use files::{PeriodFiles, Question, WeekFiles};
pub use judged::Judged;
pub use run::run_bound;
