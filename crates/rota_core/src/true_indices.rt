//! The indices of a list's true values.
ghost use Rattle.std.specs.Prelude.{◌≡◌, ◌≤◌, false, length, slice_index_or};
ghost use Rattle.std.specs.Iterator.{YieldsFirst, item_count};
ghost use Rattle.std.specs.List.{filter, range_with_len};

use crate::bits::Bits;
use std::marker::Model;

/// The indices of the true values of a list, in ascending order. Its view is the list of the indices that are
/// left.
#[derive(Drop)]
pub struct TrueIndices<'a> {
    bits: &'a Bits,
    next: u32,
    end: u32,
}

impl<'a> Model for TrueIndices<'a> {
    ghost use Rattle.std.specs.Prelude.{ℕ, ◌-◌, ◌≤◌, List, length};
    ghost use Rattle.rota_core.specs.Bits.{true_from};

    ghost Value = { List ℕ };

    ghost view = { λ it. true_from it.bits.now it.next (it.end - it.next) };

    ghost invariant = { λ it. it.end ≤ length it.bits.now };
}

impl Bits {
    /// The indices of the true values, in ascending order.
    pub fn true_indices(&self) -> TrueIndices<'_>
        ensures { result ≡ filter (λ index. slice_index_or self.now index false) (range_with_len 0 (length self.now)) }
    {
        self.true_indices_below(self.len())
    }

    /// The indices of the true values below the end.
    pub(crate) fn true_indices_below(&self, end: u32) -> TrueIndices<'_>
        requires { end ≤ length self.now }
        ensures { result ≡ filter (λ index. slice_index_or self.now index false) (range_with_len 0 end) }
    {
        TrueIndices {
            bits: self,
            next: 0,
            end,
        }
    }
}

impl<'a> Iterator for TrueIndices<'a> {
    type Item = u32;

    ghost next_gives = { YieldsFirst (λ left. left) };

    ghost remaining = { item_count (λ left. left) };

    fn next(&mut self) -> Option<u32> {
        let end = self.end;
        while self.next < end {
            let index = self.next;
            let falses = self.bits.falses_from(index);
            if falses == 0 {
                self.next += 1;
                return Some(index);
            }
            self.next += falses.min(end - index);
        }
        None
    }
}
