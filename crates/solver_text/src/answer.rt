//! The reader of a solver's answer, in any pieces.

ghost use Rattle.std.specs.Prelude.{◌≡◌, ℕ, ◌<◌, List, [], ◌++◌, length, IfOk, MatchResult, Some, Err, OnOk};

use crate::answer_state::AnswerState;
use crate::line_state::{Keyword, Line, LineState, after_empty_lines, begins_skipped, line_end};
use crate::literal::{LiteralFront, is_blank};
use crate::outcome::{AnswerFault, Solved};
use std::alloc::{AllocError, Global};

/// A solver's answer that is being read, in any pieces: the `s`, `o` and `v` lines of the output format
/// of the Pseudo-Boolean Competition (Roussel and Manquinho). Every other line is skipped.
///
/// The answer does not depend on the pieces into which the text is cut. After a fault every later call
/// returns it again. Only `new` allocates memory.
#[derive(Drop)]
pub struct Answer {
    known: AnswerState,
    state: LineState,
    fault: Option<AnswerFault>,
}

impl Answer {
    ghost use Rattle.solver_text.specs.Answers.{outcome, fault_within};
    ghost use Rattle.solver_text.specs.LineStates.{take_byte, take_bytes, end_word, end_line};
    ghost use Rattle.solver_text.specs.States.{known_of, line_of, fault_of, LeadsTo, Gives, Moves};

    /// A new answer, before any text is read, for the variables 1 to `variables`. It fails only if memory
    /// runs out.
    pub fn new(alloc: Global, variables: u32) -> Result<Answer, AllocError>
        ensures { IfOk result (λ answer. LeadsTo variables [] answer) }
    {
        Ok(Answer {
            known: AnswerState::new(alloc, variables)?,
            state: LineState::start(),
            fault: None,
        })
    }

    /// Takes the next piece of the text, of any length. Returns the first fault in the text so far. A word of
    /// a `v` line is judged when a blank or the line's end follows it, and an `s` or `o` line at its end.
    ///
    /// Here a number is too large, and cut in two. Its fault is returned from then on:
    ///
    /// ```
    /// let mut answer = Answer::new(rt.alloc(), 8)?;
    /// let fault = Err(AnswerFault::Range);
    /// let fed = [
    ///     answer.feed(b"v x"),
    ///     answer.feed(b"9 "),
    ///     answer.feed(b"s SATISFIABLE\n"),
    /// ];
    /// assert!(rt; fed == [Ok(()), fault, fault]);
    /// ```
    pub fn feed(&mut self, piece: &[u8]) -> Result<(), AnswerFault>
        ensures leads { (variables : ℕ) → (text : List ℕ) → LeadsTo variables text self.old
            → LeadsTo variables (text ++ piece.now) self.new }
        ensures checked { (variables : ℕ) → (text : List ℕ) → LeadsTo variables text self.old
            → result ≡ fault_within variables (text ++ piece.now) }
        ensures for_good { (fault : AnswerFault) → fault_of self.old ≡ Some fault
            → (result ≡ Err fault) × (self.new ≡ self.old) }
    {
        if let Some(fault) = self.fault {
            return Err(fault);
        }
        let taken = self.take_bytes(piece);
        self.fault = taken.err();
        taken
    }

    /// Judges the rest of the text, and returns the meaning of the whole text, or its fault. A text without
    /// an `s` line has the fault `Statuses`, if it has no other fault.
    ///
    /// See the example at the top of the crate.
    pub fn finish(self) -> Result<Solved, AnswerFault>
        ensures outcome { (variables : ℕ) → (text : List ℕ) → LeadsTo variables text self
            → outcome variables text ≡ result }
        ensures bits { (variables : ℕ) → (text : List ℕ) → LeadsTo variables text self
            → IfOk result (λ solved. length solved.bits ≡ variables) }
        ensures for_good { (fault : AnswerFault) → fault_of self ≡ Some fault → result ≡ Err fault }
    {
        let mut answer = self;
        if let Some(fault) = answer.fault {
            return Err(fault);
        }
        answer.end_line()?;
        let Answer { known, .. } = answer;
        known.finish()
    }

    // Takes bytes until there is a fault.
    fn take_bytes(&mut self, piece: &[u8]) -> Result<(), AnswerFault>
        ensures { Moves result (known_of self.new.known, line_of self.new)
            (take_bytes (known_of self.old.known) (line_of self.old) piece.now) }
    {
        let mut rest = piece;
        while let Some((b, after)) = rest.split_first() {
            match self.state.line() {
                Line::Skipped => rest = self.skip_lines(rest),
                Line::Values(front) => rest = self.take_word(front, rest)?,
                _ if *b == b'\n' => {
                    self.end_line()?;
                    self.state.start_again();
                    rest = after_empty_lines(after);
                }
                _ => {
                    self.take_byte(*b)?;
                    rest = after;
                }
            }
        }
        Ok(())
    }

    // Takes the rest of a word of a `v` line and the byte after it, and returns the bytes after both.
    fn take_word<'p>(
        &mut self,
        front: LiteralFront,
        bytes: &'p [u8],
    ) -> Result<&'p [u8], AnswerFault>
        requires values { (line_of self.old).line ≡ Line.Values front }
        requires some { 0 < length bytes.now }
        ensures taken { MatchResult result
            (λ rest. take_bytes (known_of self.old.known) (line_of self.old) bytes.now
            ≡ take_bytes (known_of self.new.known) (line_of self.new) rest.now)
            (λ fault. take_bytes (known_of self.old.known) (line_of self.old) bytes.now ≡ Err fault) }
        ensures shorter { IfOk result (λ rest. length rest.now < length bytes.now) }
    {
        let (front, after) = front.read_on(bytes);
        match after.split_first() {
            Some((b, rest)) if is_blank(*b) => {
                self.known.check_front(front)?;
                self.state.go_to(LiteralFront::Empty);
                Ok(rest)
            }
            Some((b, rest)) => {
                self.state.go_to(front);
                self.take_byte(*b)?;
                Ok(rest)
            }
            None => {
                self.state.go_to(front);
                Ok(after)
            }
        }
    }

    // Skips the rest of a skipped line and the skipped lines after it, and returns the bytes after them.
    fn skip_lines<'p>(&mut self, bytes: &'p [u8]) -> &'p [u8]
        requires skipped { (line_of self.old).line ≡ Line.Skipped }
        requires some { 0 < length bytes.now }
        ensures takes { take_bytes (known_of self.old.known) (line_of self.old) bytes.now
            ≡ take_bytes (known_of self.new.known) (line_of self.new) result.now }
        ensures shorter { length result.now < length bytes.now }
    {
        let mut rest = bytes;
        while let Some(end) = line_end(rest) {
            rest = after_empty_lines(&rest[end + 1..]);
            if !begins_skipped(rest) {
                self.state.start_again();
                return rest;
            }
            self.state.skip();
        }
        &[]
    }

    fn take_byte(&mut self, b: u8) -> Result<(), AnswerFault>
        ensures { Moves result (known_of self.new.known, line_of self.new)
            (take_byte (known_of self.old.known) (line_of self.old) b) }
    {
        if b == b'\n' {
            self.end_line()?;
            self.state.start_again();
            return Ok(());
        }
        if is_blank(b) {
            self.end_word()?;
        }
        self.state.step(b);
        Ok(())
    }

    // Judges the word before a blank.
    fn end_word(&mut self) -> Result<(), AnswerFault>
        ensures checked { Gives result (known_of self.new.known) (end_word (known_of self.old.known) (line_of self.old).line) }
        ensures index { OnOk result (line_of self.new ≡ line_of self.old) }
    {
        match self.state.line() {
            Line::Values(front) => self.known.check_front(front),
            _ => Ok(()),
        }
    }

    // Judges the line before its end.
    fn end_line(&mut self) -> Result<(), AnswerFault>
        ensures { Gives result (known_of self.new.known) (end_line (known_of self.old.known) (line_of self.old).line (line_of self.old).word) }
    {
        match self.state.line() {
            Line::Start | Line::Skipped | Line::Alone(Keyword::Values) => Ok(()),
            Line::Alone(Keyword::Status) => self.known.check_status(None),
            Line::Alone(Keyword::Objective) => self.known.check_objective(None),
            Line::Status(words) => {
                let status = self.state.status(words);
                self.known.check_status(status)
            }
            Line::Objective(words) => {
                let value = self.state.value(words);
                self.known.check_objective(value)
            }
            Line::Values(front) => self.known.check_front(front),
        }
    }
}
