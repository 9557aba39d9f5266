//! The value of decimal digits.

ghost use Rattle.std.specs.Prelude.{◌≡◌, None, Some, if◌then◌else◌, min};
ghost use Rattle.rota_core.specs.Decimal.{decimal, is_decimal};

/// The number that the digits spell, but `most` if it is larger, or `None` if a byte is no digit.
pub fn decimal_up_to(digits: &[u8], most: u32) -> Option<u32>
    ensures { result ≡ (if is_decimal digits.now then Some (min (decimal digits.now) most) else None) }
{
    let mut value: u64 = 0;
    for byte in digits {
        if !byte.is_ascii_digit() {
            return None;
        }
        value = (10 * value + u64::from(*byte - b'0')).min(u64::from(most));
    }
    Some(value as u32)
}
