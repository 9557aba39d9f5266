//! Takers of the values of variables, one by one.
ghost use Rattle.std.specs.Prelude.{◌≡◌, Bool, MatchResult};

/// A taker of the literals of an assignment, one at a time: the literals of the variables 1, 2, .. in order.
/// A literal is positive if its variable is true.
///
/// Like a taker of rows it has an abstract value, and a literal that it takes is a step of that value.
pub trait LiteralTaker {
    /// The reason why a literal may be refused.
    type Fault;

    ghost Value: { Type 0 };

    ghost value: { Self → Value };

    ghost step: { Value → Bool → Value };

    ghost left: { Value → Bool → Self → Type 0 };

    /// Takes the literal of the next variable. An `Err` ends the drive. A drive returns no other `Err`.
    fn literal(&mut self, positive: bool) -> Result<(), Self::Fault>
        ensures { MatchResult result
            (λ _. value self.new ≡ step (value self.old) positive)
            (λ _. left (value self.old) positive self.new) };
}
