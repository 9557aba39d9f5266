//! The command line, as a command of clap.
ghost use Rattle.std.specs.Prelude.{[], IfOk, fold};
ghost use Rattle.clap.specs.Words.{App, with_rule, with_subcommand};
ghost use Rattle.inrc2pb_frame.specs.Arguments.{IsCommandOf};
ghost use Rattle.inrc2pb_program.specs.CommandLine.{bare_app, decode_app, encode_app, extend_app};
ghost use Rattle.inrc2pb_program.specs.CommandLine.{inrc2pb_app, input_rules, subcommand_app, week_rules};

use clap::Command;
use inrc2pb_frame::{VERSION, file_option, flag, required_file};
use std::alloc::{AllocError, Global};

/// The name of the program. Its messages begin with it.
pub const NAME: &str = "inrc2pb";

/// The whole command line, with its options and help. One of its subcommands must be named. It fails only if
/// memory runs out.
pub fn inrc2pb<'a>(alloc: Global) -> Result<Command<'a>, AllocError>
    ensures { IfOk result (IsCommandOf inrc2pb_app) }
{
    let command = bare(alloc)?;
    let command = with_subcommand(command, encode(alloc))?;
    let command = with_subcommand(command, decode(alloc))?;
    with_subcommand(command, extend(alloc))
}

// The command with this subcommand, if there was memory for it.
fn with_subcommand<'a>(
    command: Command<'a>,
    subcommand: Result<Command<'a>, AllocError>,
) -> Result<Command<'a>, AllocError>
    ensures { (a : App) → (b : App) → IsCommandOf a command.entry
        → IfOk subcommand.entry (IsCommandOf b)
        → IfOk result (IsCommandOf (with_subcommand a b.top)) }
{
    command.subcommand(subcommand?)
}

fn bare<'a>(alloc: Global) -> Result<Command<'a>, AllocError>
    ensures { IfOk result (IsCommandOf bare_app) }
{
    Command::new(alloc, NAME)
        .about("Turns one week of an INRC-II nurse roster into a pseudo-Boolean model, and back")
        .version(VERSION)
        .subcommand_required(true)
        .arg_required_else_help(true)
        .disable_help_subcommand(true)
        .after_help(
            "Example:
  inrc2pb encode --sce ward.txt --his history-0.txt --week week-0.txt --opb week.opb

The files, the faults and the exit statuses: inrc2pb(1), docs/formats.md, docs/answers.md.",
        )
        .bin_name(NAME)
}

fn encode<'a>(alloc: Global) -> Result<Command<'a>, AllocError>
    ensures { IfOk result (IsCommandOf encode_app) }
{
    subcommand(
        alloc,
        "encode",
        "Writes the week as a pseudo-Boolean model",
        "Example:
  inrc2pb encode --sce ward.txt --his history-0.txt --week week-0.txt --opb week.opb

The files of the week and the model: inrc2pb(1), docs/formats.md, docs/answers.md.",
    )?
    .arg(file_option(
        alloc,
        "opb",
        "Where to write the model, replacing the file [default: standard output]",
    ))
}

fn decode<'a>(alloc: Global) -> Result<Command<'a>, AllocError>
    ensures { IfOk result (IsCommandOf decode_app) }
{
    subcommand(
        alloc,
        "decode",
        "Turns a solver's answer into a solution file, and reports its costs",
        "Example:
  inrc2pb decode --sce ward.txt --his history-0.txt --week week-0.txt --answer answer.txt --sol roster.txt

The answer, the solution file and the report: inrc2pb(1), docs/answers.md.",
    )?
    .arg(required_file(
        alloc,
        "sol",
        "Where to write the solution, replacing the file",
    ))?
    .arg(file_option(
        alloc,
        "answer",
        "The solver's answer [default: standard input]",
    ))
}

fn extend<'a>(alloc: Global) -> Result<Command<'a>, AllocError>
    ensures { IfOk result (IsCommandOf extend_app) }
{
    subcommand(
        alloc,
        "extend",
        "Turns a roster into a solver's answer",
        "Example:
  inrc2pb extend --sce ward.txt --his history-0.txt --week week-0.txt --from roster.txt

The roster and the answer: inrc2pb(1), docs/formats.md, docs/answers.md.",
    )?
    .arg(required_file(alloc, "from", "The roster, as a solution file"))
}

// A subcommand with the options that all subcommands have. Its help ends with `example`.
fn subcommand<'a>(
    alloc: Global,
    name: &'a str,
    about: &'a str,
    example: &'a str,
) -> Result<Command<'a>, AllocError>
    ensures { IfOk result (IsCommandOf (subcommand_app name.entry.now [])) }
{
    let command = Command::new(alloc, name).about(about).after_help(example);
    with_inputs(alloc, command)
}

// The command with the options for the inputs of a job: the files of a week, `--fix` and `--early`.
fn with_inputs<'a>(alloc: Global, command: Command<'a>) -> Result<Command<'a>, AllocError>
    ensures { (a : App) → IsCommandOf a command.entry
        → IfOk result (IsCommandOf (fold with_rule a input_rules)) }
{
    with_week(alloc, command)?
        .arg(file_option(alloc, "fix", "Assignments to keep, as a solution file"))?
        .arg(flag(
            alloc,
            "early",
            "Charge excess assignments and weekends as soon as they occur",
        ))
}

// The command with the options for the three files of a week.
fn with_week<'a>(alloc: Global, command: Command<'a>) -> Result<Command<'a>, AllocError>
    ensures { (a : App) → IsCommandOf a command.entry
        → IfOk result (IsCommandOf (fold with_rule a week_rules)) }
{
    command
        .arg(required_file(alloc, "sce", "The scenario"))?
        .arg(required_file(alloc, "his", "The history before the week"))?
        .arg(required_file(alloc, "week", "The requirements and requests of the week"))
}
