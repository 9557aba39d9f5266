//! The kept state of the line that is being read.

ghost use Rattle.std.specs.Prelude.{◌≡◌, ◌≤◌, [], IsTrue, length};
ghost use Rattle.memchr.specs.Find.{IsFirstByte, is_byte};
ghost use Rattle.solver_text.specs.Answers.{AnswerState, keyword_of as keyword_of_letter};
ghost use Rattle.solver_text.specs.LineStates.{line_after, line_after_letter, skipped, start, take_bytes};

use crate::literal::{LiteralFront, is_blank};
use crate::outcome::Status;
use crate::words::{ObjectiveWords, StatusWords};
use arrayvec::ArrayVec;
use memchr::memchr;
use std::marker::Model;

/// The letters s, o and v.
#[derive(Clone, Copy)]
pub(crate) enum Keyword {
    Status,
    Objective,
    Values,
}

/// The meaning of a line so far.
#[derive(Clone, Copy)]
pub(crate) enum Line {
    Start,
    Alone(Keyword),
    Status(StatusWords),
    Objective(ObjectiveWords),
    Values(LiteralFront),
    Skipped,
}

// A word of 20 bytes or more is no status, and no number with a sign and at most 18 digits.
const MAX_WORD_LEN: usize = 20;

/// The kept state of a line: its meaning so far, and the front of its open word if it is an `s` or `o` line.
#[derive(Drop)]
pub(crate) struct LineState {
    line: Line,
    word: ArrayVec<u8, MAX_WORD_LEN>,
}

impl Model for LineState {
    ghost use Rattle.solver_text.specs.LineStates.{LineState as KeptLine};

    ghost Value = { KeptLine };

    ghost view = { λ s. record { line = s.line; word = s.word.items } };
}

fn keyword_of(letter: u8) -> Option<Keyword>
    ensures { result ≡ keyword_of_letter letter }
{
    match letter {
        b's' => Some(Keyword::Status),
        b'o' => Some(Keyword::Objective),
        b'v' => Some(Keyword::Values),
        _ => None,
    }
}

/// Whether the line that these bytes begin is skipped.
pub(crate) fn begins_skipped(bytes: &[u8]) -> bool
    ensures { IsTrue result → (known : AnswerState) → take_bytes known start bytes.now ≡ take_bytes known skipped bytes.now }
{
    match bytes.split_first() {
        Some((letter, _)) => keyword_of(*letter).is_none(),
        None => false,
    }
}

/// The bytes after the empty lines at the front of these bytes.
pub(crate) fn after_empty_lines(bytes: &[u8]) -> &[u8]
    ensures passes { (known : AnswerState) → take_bytes known start bytes.now ≡ take_bytes known start result.now }
    ensures no_longer { length result.now ≤ length bytes.now }
{
    let mut rest = bytes;
    while let Some((b, after)) = rest.split_first() {
        if *b != b'\n' {
            break;
        }
        rest = after;
    }
    rest
}

// The first bytes of a line are checked one by one up to this index, since many lines are short.
const SHORT_LINE: usize = 8;

/// The index at which the line ends, if it ends within the bytes.
pub(crate) fn line_end(bytes: &[u8]) -> Option<usize>
    ensures { IsFirstByte (is_byte 10) bytes.now result }
{
    for k in 0..bytes.len().min(SHORT_LINE) {
        if bytes[k] == b'\n' {
            return Some(k);
        }
    }
    memchr(b'\n', bytes)
}

impl Keyword {
    fn line_after_letter(self) -> Line
        ensures { result ≡ line_after_letter self }
    {
        match self {
            Keyword::Status => Line::Status(StatusWords::Nothing),
            Keyword::Objective => Line::Objective(ObjectiveWords::Nothing),
            Keyword::Values => Line::Values(LiteralFront::Empty),
        }
    }
}

impl Line {
    // The line after one more byte, if no bytes of the word are kept.
    fn with_byte(self, b: u8) -> Line
        ensures { result ≡ line_after self b }
    {
        match self {
            Line::Start => match keyword_of(b) {
                Some(keyword) => Line::Alone(keyword),
                None => Line::Skipped,
            },
            Line::Alone(keyword) if is_blank(b) => keyword.line_after_letter(),
            Line::Values(_) if is_blank(b) => Line::Values(LiteralFront::Empty),
            Line::Values(front) => Line::Values(front.with_byte(b)),
            Line::Alone(_) | Line::Skipped => Line::Skipped,
            line => line,
        }
    }
}

impl LineState {
    ghost use Rattle.solver_text.specs.LineStates.{in_word, with_line_byte, kept_byte, ended_status, ended_objective, named_status, named_objective};

    /// A line before any byte is read.
    pub(crate) fn start() -> LineState
        ensures { result ≡ start }
    {
        LineState {
            line: Line::Start,
            word: ArrayVec::new(),
        }
    }

    /// The meaning of the line so far.
    pub(crate) fn line(&self) -> Line
        ensures { result ≡ self.now.line }
    {
        self.line
    }

    /// Begins the next line.
    pub(crate) fn start_again(&mut self)
        ensures { self.new ≡ start }
    {
        self.line = Line::Start;
        self.word.clear();
    }

    /// Begins the next line, which is skipped.
    pub(crate) fn skip(&mut self)
        ensures { self.new ≡ skipped }
    {
        self.line = Line::Skipped;
        self.word.clear();
    }

    /// Goes on to the word of a `v` line that has this front.
    pub(crate) fn go_to(&mut self, front: LiteralFront)
        ensures { self.new ≡ in_word front self.old.word }
    {
        self.line = Line::Values(front);
    }

    /// Goes one byte on in the line.
    pub(crate) fn step(&mut self, b: u8)
        ensures { self.new ≡ with_line_byte self.old.line self.old.word b }
    {
        let blank = is_blank(b);
        match self.line {
            Line::Status(words) if blank => self.begin_word(Line::Status(self.with_status(words))),
            Line::Objective(words) if blank => self.begin_word(Line::Objective(self.with_objective(
                words,
            ))),
            Line::Status(_) | Line::Objective(_) => self.keep(b),
            line => self.line = line.with_byte(b),
        }
    }

    fn begin_word(&mut self, line: Line)
        ensures { self.new ≡ record { line = line; word = [] } }
    {
        self.line = line;
        self.word.clear();
    }

    // Keeps the byte if there is room.
    fn keep(&mut self, b: u8)
        ensures { self.new ≡ record { line = self.old.line; word = kept_byte self.old.word b } }
    {
        if !self.word.is_full() {
            self.word.push(b);
        }
    }

    // The words with the open one after them.
    fn with_status(&self, words: StatusWords) -> StatusWords
        ensures { result ≡ ended_status words self.now.word }
    {
        if self.word.is_empty() {
            words
        } else {
            words.with_word(self.word.as_slice())
        }
    }

    fn with_objective(&self, words: ObjectiveWords) -> ObjectiveWords
        ensures { result ≡ ended_objective words self.now.word }
    {
        if self.word.is_empty() {
            words
        } else {
            words.with_word(self.word.as_slice())
        }
    }

    /// The status that the words of an `s` line name, with the open word after them.
    pub(crate) fn status(&self, words: StatusWords) -> Option<Status>
        ensures { result ≡ named_status (ended_status words self.now.word) }
    {
        self.with_status(words).status()
    }

    /// The value that the words of an `o` line name, with the open word after them.
    pub(crate) fn value(&self, words: ObjectiveWords) -> Option<i64>
        ensures { result ≡ named_objective (ended_objective words self.now.word) }
    {
        self.with_objective(words).value()
    }
}
