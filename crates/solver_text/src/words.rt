//! The words of `s` and `o` lines.

ghost use Rattle.std.specs.Prelude.{◌≡◌, pos, Some, None};
ghost use Rattle.std.specs.Option.{option_map_or};
ghost use Rattle.solver_text.specs.Answers.{one_word_status, number_of as number_of_word, magnitude_of};
ghost use Rattle.solver_text.specs.LineStates.{with_status_word, with_objective_word, named_status, named_objective};

use crate::outcome::Status;

/// The meaning so far of the words of an s line.
#[derive(Clone, Copy)]
pub(crate) enum StatusWords {
    Nothing,
    Optimum,
    Is(Status),
    Other,
}

/// The meaning so far of the words of an o line.
#[derive(Clone, Copy)]
pub(crate) enum ObjectiveWords {
    Nothing,
    Is(i64),
    Other,
}

fn status_of(word: &[u8]) -> Option<Status>
    ensures { result ≡ one_word_status word.now }
{
    if word == b"SATISFIABLE".as_slice() {
        Some(Status::Satisfiable)
    } else if word == b"UNSATISFIABLE".as_slice() {
        Some(Status::Unsatisfiable)
    } else if word == b"UNKNOWN".as_slice() {
        Some(Status::Unknown)
    } else if word == b"UNSUPPORTED".as_slice() {
        Some(Status::Unsupported)
    } else {
        None
    }
}

impl StatusWords {
    pub(crate) fn with_word(self, word: &[u8]) -> StatusWords
        ensures { result ≡ with_status_word self word.now }
    {
        match self {
            StatusWords::Nothing if word == b"OPTIMUM".as_slice() => StatusWords::Optimum,
            StatusWords::Nothing => match status_of(word) {
                Some(status) => StatusWords::Is(status),
                None => StatusWords::Other,
            },
            StatusWords::Optimum if word == b"FOUND".as_slice() => StatusWords::Is(Status::Optimum),
            _ => StatusWords::Other,
        }
    }

    pub(crate) fn status(self) -> Option<Status>
        ensures { result ≡ named_status self }
    {
        match self {
            StatusWords::Is(status) => Some(status),
            _ => None,
        }
    }
}

// A value with up to this number of digits always fits the value of an `o` line.
const MAX_DIGITS: usize = 18;

// The value of 1 to 18 digits.
fn magnitude(digits: &[u8]) -> Option<i64>
    ensures { result ≡ option_map_or (λ n. Some (pos n)) (magnitude_of digits.now) None }
{
    if digits.is_empty() || digits.len() > MAX_DIGITS {
        return None;
    }
    let mut value: u64 = 0;
    for b in digits {
        if !b.is_ascii_digit() {
            return None;
        }
        value = 10 * value + u64::from(*b - b'0');
    }
    Some(value as i64)
}

fn number_of(word: &[u8]) -> Option<i64>
    ensures { result ≡ number_of_word word.now }
{
    match word {
        [b'-', digits @ ..] => magnitude(digits).map(|n| -n),
        [b'+', digits @ ..] => magnitude(digits),
        _ => magnitude(word),
    }
}

impl ObjectiveWords {
    pub(crate) fn with_word(self, word: &[u8]) -> ObjectiveWords
        ensures { result ≡ with_objective_word self word.now }
    {
        match self {
            ObjectiveWords::Nothing => match number_of(word) {
                Some(value) => ObjectiveWords::Is(value),
                None => ObjectiveWords::Other,
            },
            _ => ObjectiveWords::Other,
        }
    }

    pub(crate) fn value(self) -> Option<i64>
        ensures { result ≡ named_objective self }
    {
        match self {
            ObjectiveWords::Is(value) => Some(value),
            _ => None,
        }
    }
}
