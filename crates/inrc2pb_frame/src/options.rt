//! The values of a command's options.
ghost use Rattle.std.specs.Prelude.{◌≡◌, IfErr, IfOk, Some, option_map, string_bytes};
ghost use Rattle.clap.specs.Words.{first_of};
ghost use Rattle.inrc2pb_frame.specs.Options.{HasFlag, LacksOption, options_of};
ghost use Rattle.inrc2pb_frame.specs.Stops.{IsForMemoryOr};

use crate::stop::Stop;
use clap::ArgMatches;
use std::alloc::{AllocError, Global};

/// Whether the flag is set.
pub fn has_flag(options: &ArgMatches<'_>, id: &str) -> bool
    ensures { HasFlag id.now (options_of options.now) result }
{
    options.get_flag(id)
}

/// The path of the option, which the command requires.
pub fn required_path(alloc: Global, options: &ArgMatches<'_>, id: &str) -> Result<String, Stop>
    ensures ok { IfOk result (λ path. first_of id.now (options_of options.now)
        ≡ Some (string_bytes path)) }
    ensures err { IfErr result (IsForMemoryOr (LacksOption id.now (options_of options.now))) }
{
    optional_path(alloc, options, id)?.ok_or(Stop::Usage("a required path is missing"))
}

/// The path of the option, if it is given.
pub fn optional_path(
    alloc: Global,
    options: &ArgMatches<'_>,
    id: &str,
) -> Result<Option<String>, AllocError>
    ensures { IfOk result (λ path. first_of id.now (options_of options.now)
        ≡ option_map string_bytes path) }
{
    match options.get_str(id) {
        Some(path) => Ok(Some(String::from_str(alloc, path)?)),
        None => Ok(None),
    }
}
