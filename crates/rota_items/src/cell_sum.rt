//! A sum of cells as a value: the terms on cells of an item, or of a row of a hard rule.

use crate::sums::Sign;
use rota_core::Cell;

/// The kind of days in a nurse's run: days on a shift type, days of work, or days off.
#[derive(Clone, Copy)]
pub enum DayProperty {
    Shift(u8),
    Work,
    Off,
}

/// Days of the week, 0 to 6, that all have a property: from the first up to the end, which is excluded. Also
/// records whether the day before them and the day after them must not have the property, and the units that
/// such a run costs.
#[derive(Clone, Copy)]
pub struct DayPattern {
    pub first: u8,
    pub end: u8,
    pub without_before: bool,
    pub without_after: bool,
    pub units: u16,
}

/// The terms on cells of an item, or of a row of a hard rule.
#[derive(Clone, Copy)]
pub enum CellSum {
    /// A nurse's day: its cells, each with coefficient -1.
    NurseDay {
        nurse: u16,
        day: u8,
    },
    /// A nurse's day on a shift type: its cells, each with coefficient -1.
    NurseDayShift {
        nurse: u16,
        shift: u8,
        day: u8,
    },
    /// A nurse's day on a shift type and the next day on another: their cells, each with coefficient -1.
    ShiftPair {
        nurse: u16,
        day: u8,
        first: u8,
        second: u8,
    },
    /// The cells of a nurse that need the skill, each with coefficient -1.
    Skill {
        nurse: u16,
        skill: u8,
    },
    /// One cell, with coefficient 1.
    Single(Cell),
    /// The cells of a day's shift type and skill, each with coefficient 1.
    Demand {
        day: u8,
        shift: u8,
        skill: u8,
    },
    /// The days of a nurse's pattern. The cells of a day that must have the property get coefficient -1, and
    /// the cells of a day that must not have it get 1. For days off the signs are exchanged.
    PatternDays {
        nurse: u16,
        property: DayProperty,
        pattern: DayPattern,
    },
    /// All cells of a nurse.
    Total {
        nurse: u16,
        sign: Sign,
    },
}
