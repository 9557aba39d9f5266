//! The subject that a judge evaluates.
ghost use Rattle.std.specs.Prelude.{◌≡◌};
ghost use Rattle.rota_judge.specs.JudgeSubject.{subject_of};
ghost use Rattle.rota_judge.specs.JudgeState.{true_slacks};

use crate::judge::tallies::{RowSums, positive_part};
use rota_core::{Bits, Roster};

/// The subject that a judge evaluates: the variables whose bit is true, or the extension of a roster.
///
/// The number of true slacks in an extension is known only when the row of their constraint is closed. Until
/// then all of them count.
#[derive(Clone, Copy)]
pub enum Subject<'a> {
    Assigned(&'a Bits),
    Extended(&'a Roster),
}

impl<'a> Subject<'a> {
    /// The number of true slacks of the row, if its other terms are this far below the degree.
    pub fn true_slacks(self, sums: RowSums, lacks: u64) -> u64
        ensures { result ≡ true_slacks (subject_of self.entry) sums lacks }
    {
        let slacks = positive_part(sums.slacks);
        match self {
            Subject::Assigned(_) => slacks,
            Subject::Extended(_) => slacks.min(lacks),
        }
    }
}
