//! Numbers and names as the report prints them.
use std::fmt;
use std::str::from_utf8;

/// A number that may be missing. A missing number is printed as `-`.
#[derive(Clone, Copy)]
pub struct Place<T>(pub Option<T>);

impl<T: fmt::Display> fmt::Display for Place<T> {
    fn fmt<W: fmt::Write>(&self, f: &mut fmt::Formatter<W>) -> fmt::Result {
        match &self.0 {
            Some(number) => number.fmt(f),
            None => f.write_str("-"),
        }
    }
}

/// The name, or `?` if it is not text.
pub fn text_of(name: &[u8]) -> &str {
    match from_utf8(name) {
        Ok(text) => text,
        Err(_) => "?",
    }
}
