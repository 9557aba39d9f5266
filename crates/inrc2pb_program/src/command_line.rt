//! The job that the words of the command line spell.
ghost use Rattle.std.specs.Prelude.{IfErr, IfOk};
ghost use Rattle.inrc2pb_frame.specs.Options.{options_of, texts};
ghost use Rattle.inrc2pb_frame.specs.Runs.{IsJobFor, IsStopFor};
ghost use Rattle.inrc2pb_frame.specs.Stops.{IsForMemoryOr};
ghost use Rattle.inrc2pb_program.specs.Jobs.{HasInputs, IsJobOf, IsSubcommand, LacksInput, LacksPath};
ghost use Rattle.inrc2pb_program.specs.Programs.{inrc2pb};

use crate::command;
use crate::job::{Inputs, Job};
use clap::ArgMatches;
use inrc2pb_frame::{Stop, has_flag, optional_path, required_path};
use std::alloc::Global;

/// The job that the words spell, or the reason why the program ends without one. The first word is the program's
/// name.
pub fn job(alloc: Global, words: &[&str]) -> Result<Job, Stop>
    ensures ok { IfOk result (IsJobFor inrc2pb (texts words.now)) }
    ensures err { IfErr result (IsStopFor inrc2pb (texts words.now)) }
{
    let command = command::inrc2pb(alloc)?;
    let matches = command.try_get_matches_from(words)?;
    let Some((name, options)) = matches.subcommand() else {
        unreachable!()
    };
    job_of(alloc, name, options)
}

fn job_of(alloc: Global, name: &str, options: &ArgMatches<'_>) -> Result<Job, Stop>
    requires { IsSubcommand name.now }
    ensures ok { IfOk result (IsJobOf (name.now, options_of options.now)) }
    ensures err { IfErr result (IsForMemoryOr (LacksPath (name.now, options_of options.now))) }
{
    match name {
        "encode" => Ok(Job::Encode {
            inputs: inputs(alloc, options)?,
            opb: optional_path(alloc, options, "opb")?,
        }),
        "decode" => Ok(Job::Decode {
            inputs: inputs(alloc, options)?,
            sol: required_path(alloc, options, "sol")?,
            answer: optional_path(alloc, options, "answer")?,
        }),
        "extend" => Ok(Job::Extend {
            inputs: inputs(alloc, options)?,
            from: required_path(alloc, options, "from")?,
        }),
        _ => unreachable!(),
    }
}

// The paths of a week's files and the flag `--early`, which every job has.
fn inputs(alloc: Global, options: &ArgMatches<'_>) -> Result<Inputs, Stop>
    ensures ok { IfOk result (HasInputs (options_of options.now)) }
    ensures err { IfErr result (IsForMemoryOr (LacksInput (options_of options.now))) }
{
    Ok(Inputs {
        sce: required_path(alloc, options, "sce")?,
        his: required_path(alloc, options, "his")?,
        week: required_path(alloc, options, "week")?,
        fix: optional_path(alloc, options, "fix")?,
        early: has_flag(options, "early"),
    })
}
