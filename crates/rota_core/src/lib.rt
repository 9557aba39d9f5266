//! The data that the crates above share: tables of a rostering week, rosters and certificates.
//!
//! Puts a shift on Sunday into a roster of the week that `instance` describes:
//!
//! ```
//! let mut roster = Roster::new(alloc, &instance)?;
//! if let (Some(nurse), Some(shift), Some(skill)) = (
//!     instance.find_nurse(b"Ann"),
//!     instance.find_shift(b"Day"),
//!     instance.find_skill(b"Nurse"),
//! ) {
//!     roster.put(Cell {
//!         nurse,
//!         day: 6,
//!         shift,
//!         skill,
//!     });
//! }
//! for cell in roster.cells() {
//!     assert_eq!(rt; cell.day, 6);
//! }
//! assert_eq!(rt; roster.count(), 1);
//! ```
#![tactic(auto)]

mod bits;
mod cell_indices;
mod certificate;
mod decimal;
mod fault;
mod history;
mod instance;
mod instance_names;
pub mod laws;
mod limits;
mod names;
mod prices;
mod roster;
mod roster_cells;
mod rule;
mod scenario;
mod tables;
mod true_indices;
mod values;
mod week;

pub use bits::Bits;
pub use certificate::{
    CaseTree, Certificate, ChargeKind, ChargeLimit, Condition, DayChoice, Fact, Leaf, Node,
    NurseLimit,
};
pub use decimal::decimal_up_to;
pub use fault::{FileFault, FileName, Kind};
pub use history::{History, HistoryParts};
pub use instance::Instance;
pub use limits::{
    DAYS, MAX_CONTRACTS, MAX_FILE_LEN, MAX_NUMBER, MAX_NURSES, MAX_PRICE, MAX_SHIFTS, MAX_SKILLS,
    MAX_WEEKS,
};
pub use names::{add_name, index_of_name, is_name};
pub use prices::{POINT, Prices};
pub use roster::Roster;
pub use roster_cells::Cells;
pub use rule::{Rule, SOFT_RULES};
pub use scenario::{Scenario, ScenarioParts};
pub use true_indices::TrueIndices;
pub use values::{Cell, Contract, Demand, Past, Span};
pub use week::{Week, WeekParts};
