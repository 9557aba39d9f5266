//! The numbers of variables and of constraints.
ghost use Rattle.std.specs.Prelude.{◌≡◌};
ghost use Rattle.rota_items.specs.declared.counting.counter.Counts.{Counts};
ghost use Rattle.rota_items.specs.Counting.{counted, no_counts};

use crate::part::Part;
use crate::takers::Taker;
use std::convert::Infallible;

/// The two numbers in the first line of a model's text.
#[derive(Clone, Copy, PartialEq, Eq, Debug)]
pub struct Counts {
    pub variables: u32,
    pub constraints: u32,
}

/// A taker that counts the rows other than the objective, and finds the maximum variable.
///
/// It never fails: a count that would overflow stays at the maximum.
#[derive(Debug, Drop)]
pub struct Counter {
    pub counts: Counts,
}

impl Counter {
    /// A counter that has taken nothing.
    pub fn new() -> Self
        ensures { result.counts ≡ no_counts }
    {
        Counter {
            counts: Counts {
                variables: 0,
                constraints: 0,
            },
        }
    }
}

impl Taker for Counter {
    type Fault = Infallible;

    ghost Value = { Counts };

    ghost value = { λ counter. counter.counts };

    ghost step = { counted };

    ghost left = { λ _ _ _. ⊥ };

    fn start_row(&mut self, part: Part) -> Result<(), Infallible> {
        match part {
            Part::Objective => {}
            Part::Hard(_) | Part::Soft(_, _) => {
                self.counts.constraints = self.counts.constraints.saturating_add(1);
            }
        }
        Ok(())
    }

    fn term(&mut self, _coefficient: i64, variable: u32) -> Result<(), Infallible> {
        self.counts.variables = self.counts.variables.max(variable);
        Ok(())
    }

    fn close_row(&mut self, _degree: i64) -> Result<(), Infallible> {
        Ok(())
    }
}
