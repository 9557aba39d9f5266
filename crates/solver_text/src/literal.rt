//! The words of `v` lines.

ghost use Rattle.std.specs.Prelude.{◌≡◌, ◌≤◌, ℕ, IsTrue, List, length, min};
ghost use Rattle.std.specs.Char.{is_ascii_digit as is_digit};
ghost use Rattle.rota_core.specs.Decimal.{with_digit};
ghost use Rattle.solver_text.specs.Answers.{AnswerState};
ghost use Rattle.solver_text.specs.Lines.{is_blank as blank_byte};
ghost use Rattle.solver_text.specs.LineStates.{MAX_VARIABLE, take_bytes, in_word, with_literal_byte, with_number};

/// The meaning so far of the bytes of a word of a v line.
#[derive(Clone, Copy)]
pub(crate) enum LiteralFront {
    Empty,
    Minus,
    Letter(bool),
    Number(bool, u64),
    Bad,
}

pub(crate) fn is_blank(b: u8) -> bool
    ensures { result ≡ blank_byte b }
{
    matches!(b, b' ' | b'\t' | b'\r')
}

impl LiteralFront {
    /// Reads on in a word of a `v` line, up to the blank or the line's end after it. Returns the meaning of
    /// the word then, and the bytes after it.
    pub(crate) fn read_on(self, bytes: &[u8]) -> (LiteralFront, &[u8])
        ensures reads { (known : AnswerState) → (word : List ℕ) →
            take_bytes known (in_word self word) bytes.now ≡ take_bytes known (in_word result.0 word) result.1.now }
        ensures shorter { length result.1.now ≤ length bytes.now }
    {
        let mut front = self;
        let mut rest = bytes;
        while let Some((b, after)) = rest.split_first() {
            if is_blank(*b) || *b == b'\n' {
                break;
            }
            front = front.with_byte(*b);
            rest = after;
            if let LiteralFront::Number(positive, number) = front {
                let (number, after) = read_digits(positive, number, rest);
                front = LiteralFront::Number(positive, number);
                rest = after;
            }
        }
        (front, rest)
    }

    pub(crate) fn with_byte(self, b: u8) -> LiteralFront
        ensures { result ≡ with_literal_byte self b }
    {
        match self {
            LiteralFront::Empty => match b {
                b'-' => LiteralFront::Minus,
                b'x' => LiteralFront::Letter(true),
                _ => LiteralFront::Bad,
            },
            LiteralFront::Minus => match b {
                b'x' => LiteralFront::Letter(false),
                _ => LiteralFront::Bad,
            },
            LiteralFront::Letter(positive) => number_front(positive, 0, b),
            LiteralFront::Number(positive, number) => number_front(positive, number, b),
            LiteralFront::Bad => LiteralFront::Bad,
        }
    }
}

// A number below this one and one more digit still fit.
const ROOM_FOR_A_DIGIT: u64 = 1_000_000_000_000_000_000;

// The number with the digit of this byte after it, or the maximum number if the result is larger.
#[inline(always)]
fn number_with(number: u64, b: u8) -> u64
    requires digit { IsTrue (is_digit b) }
    ensures { result ≡ min (with_digit number b) MAX_VARIABLE }
{
    let digit = u64::from(b - b'0');
    if number < ROOM_FOR_A_DIGIT {
        10 * number + digit
    } else {
        number.saturating_mul(10).saturating_add(digit)
    }
}

fn number_front(positive: bool, number: u64, b: u8) -> LiteralFront
    ensures { result ≡ with_number positive number b }
{
    if b.is_ascii_digit() {
        LiteralFront::Number(positive, number_with(number, b))
    } else {
        LiteralFront::Bad
    }
}

// Reads the digits at the front of the bytes, which follow the digits of a number. Returns the number with
// them and the bytes after them.
fn read_digits(positive: bool, number: u64, bytes: &[u8]) -> (u64, &[u8])
    ensures reads { (known : AnswerState) → (word : List ℕ) →
        take_bytes known (in_word (LiteralFront.Number positive number) word) bytes.now
        ≡ take_bytes known (in_word (LiteralFront.Number positive result.0) word) result.1.now }
    ensures shorter { length result.1.now ≤ length bytes.now }
{
    let mut number = number;
    let mut rest = bytes;
    while let Some((b, after)) = rest.split_first() {
        if !b.is_ascii_digit() {
            break;
        }
        number = number_with(number, *b);
        rest = after;
    }
    (number, rest)
}
