//! The number of digits of a number, and its last two digits.
ghost use Rattle.std.specs.Prelude.{◌≡◌, ◌+◌, ◌/◌, ◌%◌, ◌<◌, ◌∷◌, [], length, decimal};

/// The number of decimal digits of the number.
#[inline]
pub fn count_digits(number: u32) -> usize
    ensures { result ≡ length (decimal number) }
{
    match number {
        0..=9 => 1,
        10..=99 => 2,
        100..=999 => 3,
        1_000..=9_999 => 4,
        10_000..=99_999 => 5,
        100_000..=999_999 => 6,
        1_000_000..=9_999_999 => 7,
        10_000_000..=99_999_999 => 8,
        100_000_000..=999_999_999 => 9,
        _ => 10,
    }
}

// Two digits and two blanks for each number below a hundred.
static ENDINGS: [u8; 400] = *b"\
    00  01  02  03  04  05  06  07  08  09  \
    10  11  12  13  14  15  16  17  18  19  \
    20  21  22  23  24  25  26  27  28  29  \
    30  31  32  33  34  35  36  37  38  39  \
    40  41  42  43  44  45  46  47  48  49  \
    50  51  52  53  54  55  56  57  58  59  \
    60  61  62  63  64  65  66  67  68  69  \
    70  71  72  73  74  75  76  77  78  79  \
    80  81  82  83  84  85  86  87  88  89  \
    90  91  92  93  94  95  96  97  98  99  ";

/// The two digits of a number below 100, and two blanks. The second blank is overwritten.
#[inline(always)]
pub fn ending(pair: u32) -> [u8; 4]
    requires { pair < 100 }
    ensures { result ≡ (48 + pair / 10) ∷ (48 + pair % 10) ∷ 32 ∷ 32 ∷ [] }
{
    let at = pair as usize * 4;
    [
        ENDINGS[at],
        ENDINGS[at + 1],
        ENDINGS[at + 2],
        ENDINGS[at + 3],
    ]
}
