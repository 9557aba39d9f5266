//! The job of the program.
use rota_bound_run::{PeriodFiles, Question};

/// The question about a period, and the paths of its files as they were given.
pub struct BoundJob {
    /// The question about the weeks.
    pub question: Question,
    /// The paths of the files.
    pub paths: PeriodFiles<String>,
}

impl Drop for BoundJob {
    fn drop(self) {
        let BoundJob {
            question: _,
            paths: _,
        } = self;
    }
}
