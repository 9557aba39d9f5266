//! Reading a table: an index outside it gives a default.

ghost use Rattle.std.specs.Prelude.{◌≡◌, slice_index_or};

use crate::values::{Contract, Demand, Past, Span};

/// A minimum and a maximum of 0.
pub(crate) const NO_SPAN: Span = Span { min: 0, max: 0 };

/// A contract of zeros, without complete weekends.
pub(crate) const NO_CONTRACT: Contract = Contract {
    total: NO_SPAN,
    work: NO_SPAN,
    off: NO_SPAN,
    weekends: 0,
    complete: false,
};

/// A demand of zero nurses.
pub(crate) const NO_DEMAND: Demand = Demand {
    minimum: 0,
    optimal: 0,
};

/// A history of zeros, without a last shift type.
pub(crate) const NO_PAST: Past = Past {
    assignments: 0,
    weekends: 0,
    last: None,
    shift_run: 0,
    work_run: 0,
    off_run: 0,
};

/// The value at the index, or the default outside the table.
pub(crate) fn value_at<T: Copy>(table: &[T], index: usize, default: T) -> T
    ensures { result ≡ slice_index_or table.now index default }
{
    if index < table.len() {
        table[index]
    } else {
        default
    }
}
