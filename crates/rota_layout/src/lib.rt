//! The text of a file as tokens, and the slots that they fill in order, which all files share.
//!
//! A layout lists the slots of a file. A `Cursor` reads them one by one: each of its functions reads one slot or a few, and
//! stops at the text's one fault. The crates above read whole files with it:
//!
//! ```
//! let mut cursor = Cursor::open(b"ROWS = 12")?;
//! assert_eq!(rt; cursor.setting(b"ROWS", 0, 100)?, 12);
//! cursor.finish()
//! ```
#![tactic(auto)]

mod cursor;
mod day_rows;
mod days;
mod fault;
mod names;
mod slots;

pub use cursor::{Cursor, Token};
pub use day_rows::day_table;
pub use fault::{LayoutError, LineFault};
