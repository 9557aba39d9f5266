//! Truth values, packed in words.

use std::alloc::{AllocError, Global};
use std::marker::Model;

/// A list of truth values of fixed length, packed in words of 64. The value at index i is the value of
/// variable i + 1 of a model.
pub struct Bits {
    words: Vec<u64>,
    len: u32,
}

impl Drop for Bits {
    fn drop(self) {
        let Bits { words: _, len: _ } = self;
    }
}

impl Model for Bits {
    ghost use Rattle.std.specs.Prelude.{◌*◌, ◌≤◌, Bool, List, vec_len};
    ghost use Rattle.rota_core.specs.Bits.{truths_of};

    ghost Value = { List Bool };

    ghost view = { λ b. truths_of b.words.items b.len };

    ghost invariant = { λ b. b.len ≤ 64 * vec_len b.words };
}

impl Bits {
    ghost use Rattle.std.specs.Prelude.{◌≡◌, ℕ, ◌+◌, ◌<◌, ◌≤◌, false, true, IfOk, length, replicate, slice_index_or, slice_set};

    /// A list of `len` truth values, all false.
    pub fn new(alloc: Global, len: u32) -> Result<Bits, AllocError>
        ensures { IfOk result (λ bits. bits ≡ replicate len false) }
    {
        let words = vec![in alloc; 0; len.div_ceil(64) as usize]?;
        Ok(Bits { words, len })
    }

    /// The number of truth values.
    pub fn len(&self) -> u32
        ensures { result ≡ length self.now }
    {
        self.len
    }

    /// The truth value at the index.
    pub fn get(&self, index: u32) -> bool
        requires { index < length self.now }
        ensures { result ≡ slice_index_or self.now index false }
    {
        let word = self.words[index as usize / 64];
        (word >> (index % 64)) & 1 == 1
    }

    /// The number of false values from the index on, up to the next true value in its word, or to the end of
    /// the word.
    pub(crate) fn falses_from(&self, index: u32) -> u32
        requires { index < length self.now }
        ensures falses { (k : ℕ) → index ≤ k → k < index + result → slice_index_or self.now k false ≡ false }
        ensures none { result ≡ 0 → slice_index_or self.now index false ≡ true }
    {
        let column = index % 64;
        let rest = self.words[index as usize / 64] >> column;
        rest.trailing_zeros().min(64 - column)
    }

    /// Makes the truth value at the index true.
    pub fn set(&mut self, index: u32)
        requires { index < length self.old }
        ensures { self.new ≡ slice_set self.old index true }
    {
        let word = &mut self.words[index as usize / 64];
        *word |= 1 << (index % 64);
    }
}
