//! The common first part of the terms of a hundred variables.
ghost use Rattle.std.specs.Prelude.{◌≡◌, ◌/◌, ◌%◌, ◌≤◌, take};
ghost use Rattle.text_sink.specs.TermText.{prefix_text};

use crate::digits::count_digits;
use itoa::write_digits;

/// The number of bytes that hold a prefix. A prefix has at most 12.
pub const PREFIX_CAPACITY: usize = 16;

/// The text of a term after its sign and up to its last two digits, for the variables of one hundred.
#[derive(Drop)]
pub struct TermPrefix {
    /// The first variable of the hundred.
    pub first: u32,
    pub bytes: [u8; PREFIX_CAPACITY],
    pub len: usize,
    ghost some: { 100 ≤ first },
    ghost whole: { first % 100 ≡ 0 },
    ghost fits: { len ≤ 12 },
    ghost spells: { take len bytes ≡ prefix_text (first / 100) },
}

impl TermPrefix {
    /// The prefix of the terms of the variables from 100 to 199.
    pub fn new() -> TermPrefix
        ensures { result.first ≡ 100 }
    {
        TermPrefix {
            first: 100,
            bytes: *b"1 x1            ",
            len: 4,
        }
    }

    /// Becomes the prefix of the terms of the hundred variables from the first on.
    // The bytes are written in their final position: a copy would have to wait for them.
    pub fn move_to(&mut self, first: u32)
        requires { (100 ≤ first) × (first % 100 ≡ 0) }
        ensures { self.new.first ≡ first }
    {
        let hundreds = first / 100;
        let len = 3 + count_digits(hundreds);
        self.bytes = *b"1 x             ";
        write_digits(u64::from(hundreds), &mut self.bytes, len);
        self.first = first;
        self.len = len;
    }
}
