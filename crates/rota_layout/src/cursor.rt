//! A position in a file's bytes, from which tokens are read.

ghost use Rattle.std.specs.Prelude.{◌≡◌, ℕ, ◌+◌, ◌<◌, ◌≤◌, ◌^◌, List, [], ◌∷◌, length, take, drop, false, MatchOption};
ghost use Rattle.rota_core.specs.Words.{is_whitespace as blank_byte, is_sign as sign_byte};
ghost use Rattle.rota_layout.specs.TokenLines.{tokens_from};
ghost use Rattle.rota_layout.specs.Reading.{opened, ReadsFile};

use crate::fault::{LayoutError, LineFault};
use rota_core::{Kind, MAX_FILE_LEN};
use std::marker::Model;

fn is_whitespace(b: u8) -> bool
    ensures { result ≡ blank_byte b }
{
    matches!(b, b' ' | b'\t' | b'\n' | b'\r')
}

pub(crate) fn is_sign(b: u8) -> bool
    ensures { result ≡ sign_byte b }
{
    matches!(b, b'(' | b')' | b',' | b'=')
}

// The bytes after the blanks at the front, and their line.
#[tactic(auto, using(crate::proofs::TokenLemmas::skipped))]
fn skip_blanks(bytes: &[u8], line: u32) -> (&[u8], u32)
    requires { line + length bytes.now < 2 ^ 32 }
    ensures tokens { tokens_from result.1 result.0.now ≡ tokens_from line bytes.now }
    ensures first { (b : ℕ) → (rest : List ℕ) → result.0.now ≡ b ∷ rest → blank_byte b ≡ false }
    ensures counted { result.1 + length result.0.now ≤ line + length bytes.now }
{
    let blank_count = bytes.iter().take_while(|b| is_whitespace(**b)).count();
    let (blanks, rest) = bytes.split_at(blank_count);
    let line_feeds = blanks.iter().filter(|b| **b == b'\n').count();
    (rest, line + line_feeds as u32)
}

// The length of the token that the bytes begin with.
fn token_len(bytes: &[u8]) -> usize
    requires some { 0 < length bytes.now }
    requires first { (b : ℕ) → (rest : List ℕ) → bytes.now ≡ b ∷ rest → blank_byte b ≡ false }
    ensures within { result ≤ length bytes.now }
    ensures token { (line : ℕ) → tokens_from line bytes.now
        ≡ record { word = take result bytes.now; line = line } ∷ tokens_from line (drop result bytes.now) }
{
    if is_sign(bytes[0]) {
        1
    } else {
        bytes
            .iter()
            .take_while(|b| !(is_whitespace(**b) || is_sign(**b)))
            .count()
    }
}

/// A sign or a word, and the line that it is on.
#[derive(Clone, Copy)]
pub struct Token<'a> {
    pub word: &'a [u8],
    pub line: u32,
}

/// The rest of a file.
///
/// The functions that read return a value, or stop with the text's one fault: the fault of the first token that does not
/// fit, with the token's line, or `Ended`, with the line of the previous token, if no token is left.
#[derive(Drop)]
pub struct Cursor<'a> {
    bytes: &'a [u8],
    // the line of the first byte that is left
    line: u32,
    // the line of the previous token, or 1
    last: u32,
}

impl<'a> Model for Cursor<'a> {
    ghost use Rattle.rota_layout.specs.Reading.{Reading};

    ghost Value = { Reading };

    ghost use Rattle.std.specs.Prelude.{◌+◌, ◌<◌, ◌^◌, length};
    ghost use Rattle.rota_layout.specs.TokenLines.{tokens_from};

    ghost view = { λ c. record { last = c.last; rest = tokens_from c.line c.bytes.now } };

    ghost invariant = { λ c. c.line + length c.bytes.now < 2 ^ 32 };
}

impl<'a> Cursor<'a> {
    /// The start of the text. It fails with `Limit` on line 0 if the text has more than `MAX_FILE_LEN` bytes.
    #[tactic(auto, unfolding(crate::specs::Reading::opened))]
    pub fn open(text: &'a [u8]) -> Result<Self, LayoutError>
        ensures { ReadsFile (λ cursor. cursor) result (opened text.now) }
    {
        if text.len() > MAX_FILE_LEN {
            return Err(LayoutError::Fault(LineFault {
                kind: Kind::Limit,
                line: 0,
            }));
        }
        Ok(Cursor {
            bytes: text,
            line: 1,
            last: 1,
        })
    }

    /// The line of the previous token, or 1.
    pub fn last_line(&self) -> u32
        ensures { result ≡ self.now.last }
    {
        self.last
    }

    /// The next token, or `None` at the end.
    pub fn next(&mut self) -> Option<Token<'a>>
        ensures { MatchOption result
            ((self.old.rest ≡ []) × (self.new ≡ self.old))
            (λ t. (self.old.rest ≡ record { word = t.word.now; line = t.line } ∷ self.new.rest)
            × (self.new.last ≡ t.line)) }
    {
        let (bytes, line) = skip_blanks(self.bytes, self.line);
        if bytes.is_empty() {
            return None;
        }
        let (word, rest) = bytes.split_at(token_len(bytes));
        self.bytes = rest;
        self.line = line;
        self.last = line;
        Some(Token { word, line })
    }
}
