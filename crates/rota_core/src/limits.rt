//! The limits of the files' numbers. `specs/Limits.antt` has the same values for the contracts.

/// The days of a week, Monday to Sunday.
pub const DAYS: u8 = 7;

/// The maximum number of nurses in a scenario.
pub const MAX_NURSES: u16 = 1000;

/// The maximum number of shift types in a scenario.
pub const MAX_SHIFTS: u16 = 16;

/// The maximum number of skills in a scenario.
pub const MAX_SKILLS: u16 = 16;

/// The maximum number of contracts in a scenario.
pub const MAX_CONTRACTS: u16 = 64;

/// The maximum number of weeks that a scenario spans.
pub const MAX_WEEKS: u16 = 52;

/// The maximum of every other number in a file, except for counts of names in a row, which are at most the
/// number of these names, the 0 or 1 for complete weekends, and prices.
pub const MAX_NUMBER: u16 = 9999;

/// The maximum price, in thousandths of a point.
pub const MAX_PRICE: u32 = 999_999_999;

/// The maximum number of bytes in a scenario, history, week, solution, fix, certificate or facts file. A
/// solver's answer may have any length.
pub const MAX_FILE_LEN: usize = 4_194_304;
