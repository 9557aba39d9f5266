//! The files of a period, and the question about it.

/// The files of a week, open: its data, and its held cells, if there are any.
pub struct WeekFiles<S> {
    /// The requirements and requests of the week.
    pub week: S,
    /// The cells that its roster must have.
    pub fix: Option<S>,
}

impl<S: Drop> Drop for WeekFiles<S> {
    fn drop(self) {
        let WeekFiles { week: _, fix: _ } = self;
    }
}

/// The files of a period, open.
pub struct PeriodFiles<S> {
    /// The data that all weeks share.
    pub scenario: S,
    /// The history before the first week.
    pub history: S,
    /// The files of each week, in order.
    pub weeks: Vec<WeekFiles<S>>,
    /// Facts that all plans are asked to meet.
    pub given: Option<S>,
    /// The certificate. Without one each price is 0.
    pub proof: Option<S>,
    /// A roster for each week, or none.
    pub rosters: Vec<S>,
}

impl<S: Drop> Drop for PeriodFiles<S> {
    fn drop(self) {
        let PeriodFiles {
            scenario: _,
            history: _,
            weeks: _,
            given: _,
            proof: _,
            rosters: _,
        } = self;
    }
}

/// The question about a period, in addition to its files.
#[derive(Clone, Copy)]
pub struct Question {
    /// The excess of a total is charged in each week, not only in the last.
    pub early: bool,
    /// Only the hard rules count: whether no plan keeps them.
    pub minimums: bool,
}
