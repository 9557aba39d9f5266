//! The literals of a roster's extension, variable by variable.

mod extension;
mod literal_takers;
mod slack_values;

pub use extension::drive_extension;
pub use literal_takers::LiteralTaker;
