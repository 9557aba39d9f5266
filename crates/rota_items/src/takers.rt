//! Takers of the rows of a model, event by event.
ghost use Rattle.std.specs.Prelude.{◌≡◌, MatchResult};
ghost use Rattle.rota_items.specs.Events.{Event, start_row, term, close_row};

use crate::part::Part;

/// A taker of the rows of a model, one event at a time: a row starts, has its terms one by one, and is closed
/// with its degree.
///
/// A taker has an abstract value, and an event that it takes is a step of that value. `left` describes its
/// state after an event that it refuses.
pub trait Taker {
    /// The reason why an event may be refused.
    type Fault;

    ghost Value: { Type 0 };

    ghost value: { Self → Value };

    ghost step: { Value → Event → Value };

    ghost left: { Value → Event → Self → Type 0 };

    /// Starts a row of this part. An `Err` ends the drive. A drive returns no other `Err`.
    fn start_row(&mut self, part: Part) -> Result<(), Self::Fault>
        ensures { MatchResult result
            (λ _. value self.new ≡ step (value self.old) (start_row part))
            (λ _. left (value self.old) (start_row part) self.new) };

    /// Takes a term of the open row. Variables are numbered from 1, and rise within a row.
    fn term(&mut self, coefficient: i64, variable: u32) -> Result<(), Self::Fault>
        ensures { MatchResult result
            (λ _. value self.new ≡ step (value self.old) (term coefficient variable))
            (λ _. left (value self.old) (term coefficient variable) self.new) };

    /// Closes the open row: the sum of its terms must be at least the degree. The objective's degree is 0 and
    /// has no meaning.
    fn close_row(&mut self, degree: i64) -> Result<(), Self::Fault>
        ensures { MatchResult result
            (λ _. value self.new ≡ step (value self.old) (close_row degree))
            (λ _. left (value self.old) (close_row degree) self.new) };
}
