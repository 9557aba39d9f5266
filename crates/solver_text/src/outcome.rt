//! The meaning of a solver's answer, and the faults of its text.
ghost use Rattle.std.specs.Prelude.{◌≡◌};

use rota_core::Bits;
use thiserror::Error;

/// The status that an `s` line names.
#[derive(Clone, Copy, Debug, PartialEq, Eq)]
pub enum Status {
    /// `SATISFIABLE`: the assignment satisfies all constraints.
    Satisfiable,
    /// `OPTIMUM FOUND`: the assignment satisfies all constraints, and no other such assignment has a lower
    /// objective.
    Optimum,
    /// `UNSATISFIABLE`: no assignment satisfies all constraints.
    Unsatisfiable,
    /// `UNKNOWN`: the solver found no assignment, and did not show that none exists.
    Unknown,
    /// `UNSUPPORTED`: the solver cannot read such a model.
    Unsupported,
}

impl Status {
    ghost use Rattle.solver_text.specs.Status.{status_words};

    /// The words of an `s` line that names the status, with one blank between two words.
    pub fn words(self) -> &'static str
        ensures { result.now ≡ status_words self }
    {
        match self {
            Status::Satisfiable => "SATISFIABLE",
            Status::Optimum => "OPTIMUM FOUND",
            Status::Unsatisfiable => "UNSATISFIABLE",
            Status::Unknown => "UNKNOWN",
            Status::Unsupported => "UNSUPPORTED",
        }
    }
}

/// The reason why a text is not a valid answer.
#[derive(Clone, Copy, Debug, PartialEq, Eq, Error)]
#[error("{}", self.text())]
pub enum AnswerFault {
    /// No `s` line, or a second one.
    Statuses,
    /// An `s` line that names no status.
    StatusText,
    /// A word of a `v` line that is no literal.
    Literal,
    /// A literal of variable 0, or of one above the number of variables.
    Range,
    /// A literal whose variable had the other value before.
    BothValues,
    /// An `o` line whose words are not exactly one number of 1 to 18 digits.
    Objective,
}

impl AnswerFault {
    ghost use Rattle.solver_text.specs.FaultTexts.{answer_fault_text};

    /// The message for the fault.
    pub fn text(self) -> &'static str
        ensures { result.now ≡ answer_fault_text self }
    {
        match self {
            AnswerFault::Statuses => "no status line or a second one",
            AnswerFault::StatusText => "unknown status",
            AnswerFault::Literal => "bad literal",
            AnswerFault::Range => "variable out of range",
            AnswerFault::BothValues => "variable with both values",
            AnswerFault::Objective => "bad o value",
        }
    }
}

/// The meaning of a whole answer.
#[derive(Drop)]
pub struct Solved {
    /// The status of the `s` line.
    pub status: Status,
    /// The value of the last `o` line, if there was one: the solver's own figure.
    pub last_o: Option<i64>,
    /// A truth value for each variable, variable 1 first. A variable is true if and only if a positive
    /// literal of it was read.
    pub bits: Bits,
}
