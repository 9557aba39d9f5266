//! The small values of a week's tables. Numbers of the files are 0 to `MAX_NUMBER`.

/// A minimum and a maximum. The minimum may be above the maximum: then both are charged.
#[derive(Clone, Copy, Debug, PartialEq, Eq)]
pub struct Span {
    pub min: u16,
    pub max: u16,
}

/// The contract of a nurse: the limits of her assignments over all weeks, of her consecutive working days and
/// of her consecutive days off, the maximum number of weekends that she works over all weeks, and whether it
/// asks for complete weekends: work on both days or on none.
#[derive(Clone, Copy, Debug, PartialEq, Eq)]
pub struct Contract {
    pub total: Span,
    pub work: Span,
    pub off: Span,
    pub weekends: u16,
    pub complete: bool,
}

/// The history of a nurse: the number of assignments that she has had so far and of weekends that she has
/// worked, the shift type of the last Sunday if she worked on it, and the number of days in a row that she
/// has had that shift type, worked, or been off.
#[derive(Clone, Copy, Debug, PartialEq, Eq)]
pub struct Past {
    pub assignments: u16,
    pub weekends: u16,
    pub last: Option<u8>,
    pub shift_run: u16,
    pub work_run: u16,
    pub off_run: u16,
}

/// The minimum (H2) and the optimal number (S1) of nurses for a day, a shift type and a skill.
#[derive(Clone, Copy, Debug, PartialEq, Eq)]
pub struct Demand {
    pub minimum: u16,
    pub optimal: u16,
}

/// One assignment: the nurse works on the day (0 for Monday to 6 for Sunday), on the shift type, with the
/// skill.
#[derive(Clone, Copy, Debug, PartialEq, Eq)]
pub struct Cell {
    pub nurse: u16,
    pub day: u8,
    pub shift: u8,
    pub skill: u8,
}
