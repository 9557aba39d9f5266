//! The knowledge from the judgements so far.

ghost use Rattle.std.specs.Prelude.{◌≡◌, ◌<◌, ◌^◌, length, MatchResult, IfOk, false, true, slice_set, slice_index_or};

use crate::literal::LiteralFront;
use crate::outcome::{AnswerFault, Solved, Status};
use rota_core::Bits;
use std::alloc::{AllocError, Global};

/// The knowledge so far: the status, the last o value, and for each variable whether a positive and whether a
/// negative literal was seen.
#[derive(Drop)]
pub(crate) struct AnswerState {
    pub(crate) status: Option<Status>,
    pub(crate) last_o: Option<i64>,
    pub(crate) seen_true: Bits,
    pub(crate) seen_false: Bits,
    ghost same_length: { length seen_true ≡ length seen_false },
    ghost few: { length seen_true < 2 ^ 32 },
}

// Marks the variable at this index, which the other list must not contain.
fn mark(seen: &mut Bits, other: &Bits, index: u32) -> Result<(), AnswerFault>
    requires seen { index < length seen.old }
    requires other { index < length other.now }
    ensures same_length { length seen.new ≡ length seen.old }
    ensures marked { MatchResult result
        (λ _. (slice_index_or other.now index false ≡ false) × (seen.new ≡ slice_set seen.old index true))
        (λ fault. (slice_index_or other.now index false ≡ true) × (fault ≡ AnswerFault.BothValues)) }
{
    if other.get(index) {
        return Err(AnswerFault::BothValues);
    }
    seen.set(index);
    Ok(())
}

impl AnswerState {
    ghost use Rattle.solver_text.specs.Answers.{nothing_known, check_status, check_objective, check_variable, at_end};
    ghost use Rattle.solver_text.specs.LineStates.{check_front};
    ghost use Rattle.solver_text.specs.States.{known_of, Gives};

    pub(crate) fn new(alloc: Global, variables: u32) -> Result<AnswerState, AllocError>
        ensures { IfOk result (λ known. known_of known ≡ nothing_known variables) }
    {
        Ok(AnswerState {
            status: None,
            last_o: None,
            seen_true: Bits::new(alloc, variables)?,
            seen_false: Bits::new(alloc, variables)?,
        })
    }

    pub(crate) fn check_status(&mut self, status: Option<Status>) -> Result<(), AnswerFault>
        ensures { Gives result (known_of self.new) (check_status (known_of self.old) status) }
    {
        if self.status.is_some() {
            return Err(AnswerFault::Statuses);
        }
        if status.is_none() {
            return Err(AnswerFault::StatusText);
        }
        self.status = status;
        Ok(())
    }

    pub(crate) fn check_objective(&mut self, value: Option<i64>) -> Result<(), AnswerFault>
        ensures { Gives result (known_of self.new) (check_objective (known_of self.old) value) }
    {
        if value.is_none() {
            return Err(AnswerFault::Objective);
        }
        self.last_o = value;
        Ok(())
    }

    fn check_variable(&mut self, positive: bool, variable: u64) -> Result<(), AnswerFault>
        ensures { Gives result (known_of self.new)
            (check_variable (known_of self.old) (record { positive = positive; variable = variable })) }
    {
        if variable == 0 || variable > u64::from(self.seen_true.len()) {
            return Err(AnswerFault::Range);
        }
        let index = (variable - 1) as u32;
        if positive {
            mark(&mut self.seen_true, &self.seen_false, index)
        } else {
            mark(&mut self.seen_false, &self.seen_true, index)
        }
    }

    pub(crate) fn check_front(&mut self, front: LiteralFront) -> Result<(), AnswerFault>
        ensures { Gives result (known_of self.new) (check_front (known_of self.old) front) }
    {
        match front {
            LiteralFront::Empty => Ok(()),
            LiteralFront::Number(positive, variable) => self.check_variable(positive, variable),
            _ => Err(AnswerFault::Literal),
        }
    }

    pub(crate) fn finish(self) -> Result<Solved, AnswerFault>
        ensures { at_end (known_of self) ≡ result }
    {
        let AnswerState {
            status,
            last_o,
            seen_true,
            ..
        } = self;
        let Some(status) = status else {
            return Err(AnswerFault::Statuses);
        };
        Ok(Solved {
            status,
            last_o,
            bits: seen_true,
        })
    }
}
