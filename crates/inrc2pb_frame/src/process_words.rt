//! The words of the process.
ghost use Rattle.std.specs.Prelude.{◌≡◌, IfOk, map, string_bytes};
ghost use Rattle.inrc2pb_frame.specs.Given.{texts_in};
ghost use Rattle.inrc2pb_frame.specs.Options.{texts};

use std::alloc::{AllocError, Global};
use std::env::Args;

/// The words, each with its text.
pub fn kept(alloc: Global, words: Args) -> Result<Vec<String>, AllocError>
    ensures { IfOk result (λ kept. map string_bytes kept.items ≡ texts_in words) }
{
    words.collect(alloc)
}

/// References to the words' texts.
pub fn borrowed<'a>(alloc: Global, words: &'a [String]) -> Result<Vec<&'a str>, AllocError>
    ensures { IfOk result (λ borrowed. texts borrowed.items ≡ map string_bytes words.now) }
{
    words.iter().map(|word| word.as_str()).collect(alloc)
}
