//! The arguments that commands of both programs have, as arguments of clap.
ghost use Rattle.std.specs.Prelude.{◌≡◌, false};
ghost use Rattle.clap.specs.Words.{rule_of};
ghost use Rattle.inrc2pb_frame.specs.Arguments.{file_rule, flag_rule, required_file_rule};

use clap::{Arg, ArgAction};
use std::alloc::Global;

/// The version of the programs. It is written only here.
pub const VERSION: &str = "0.2.0";

/// The flag `--id`.
pub fn flag<'a>(alloc: Global, id: &'a str, help: &'a str) -> Arg<'a>
    ensures rule { rule_of result ≡ flag_rule id.entry.now }
    ensures local { result.global ≡ false }
{
    Arg::new(alloc, id)
        .long(id)
        .help(help)
        .action(ArgAction::SetTrue)
}

/// The option `--id FILE`.
pub fn file_option<'a>(alloc: Global, id: &'a str, help: &'a str) -> Arg<'a>
    ensures rule { rule_of result ≡ file_rule id.entry.now }
    ensures local { result.global ≡ false }
{
    Arg::new(alloc, id)
        .long(id)
        .value_name("FILE")
        .help(help)
        .action(ArgAction::Set)
}

/// The option `--id FILE`, which is required.
pub fn required_file<'a>(alloc: Global, id: &'a str, help: &'a str) -> Arg<'a>
    ensures rule { rule_of result ≡ required_file_rule id.entry.now }
    ensures local { result.global ≡ false }
{
    file_option(alloc, id, help).required(true)
}
