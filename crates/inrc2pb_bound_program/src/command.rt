//! The command line of the program, as a command of clap.
ghost use Rattle.std.specs.Prelude.{◌≡◌, IfOk, Some, codes, false, true};
ghost use Rattle.clap.specs.Words.{rule_of};
ghost use Rattle.clap.specs.declared.builder.action.ArgAction.TheVariants.{Append};
ghost use Rattle.inrc2pb_frame.specs.Arguments.{IsCommandOf, file_rule};
ghost use Rattle.inrc2pb_bound_program.specs.CommandLine.{bare_bound_app, bound_app, files_rule};

use clap::{Arg, ArgAction, Command};
use inrc2pb_frame::{VERSION, file_option, flag, required_file};
use std::alloc::{AllocError, Global};

/// The name of the program. Its messages begin with it.
pub const NAME: &str = "inrc2pb-bound";

/// The whole command line, with its options and help. It fails only if memory runs out.
pub fn inrc2pb_bound<'a>(alloc: Global) -> Result<Command<'a>, AllocError>
    ensures { IfOk result (IsCommandOf bound_app) }
{
    bare(alloc)?
        .arg(required_file(alloc, "sce", "The scenario"))?
        .arg(required_file(alloc, "his", "The history before the first week"))?
        .arg(week(alloc))?
        .arg(fix(alloc))?
        .arg(flag(
            alloc,
            "early",
            "Charge excess assignments and weekends as soon as they occur",
        ))?
        .arg(file_option(alloc, "given", "Facts that all plans are asked to meet"))?
        .arg(file_option(
            alloc,
            "proof",
            "The certificate of the bound: prices, or a tree of cases with prices [default: each price is 0]",
        ))?
        .arg(files_option(
            alloc,
            "roster",
            "Rosters to judge, one for each week in order, as solution files",
        ))?
        .arg(flag(
            alloc,
            "minimums",
            "Leave out the soft rules, to prove that no rosters exist",
        ))
}

fn bare<'a>(alloc: Global) -> Result<Command<'a>, AllocError>
    ensures { IfOk result (IsCommandOf bare_bound_app) }
{
    Command::new(alloc, NAME)
        .about("Proves how good rosters of one or more weeks can be")
        .version(VERSION)
        .arg_required_else_help(true)
        .after_help(
            "Prints `lower bound B`: rosters that keep the hard rules H1 to H5 have penalties of at least B in sum.
With --roster also `penalty P`, and `optimal` if P is B: then no rosters that keep them have a smaller sum.
With --minimums instead `no roster exists` or `no proof that no roster exists`.
With --given all of this is about the rosters that meet its facts.
The history of each later week is the one that the week before leaves.

Examples:
  inrc2pb-bound --sce ward.txt --his history-0.txt --week week-0.txt --proof proof.txt --roster roster.txt
  inrc2pb-bound --sce ward.txt --his history-0.txt --week week-0.txt week-1.txt --fix 2=held-1.txt

Any certificate gives a true bound; inrc2pb-solve --proof writes good ones. Exit status: 0 on success, 1 for
a fault of a file, 2 for a wrong command line, 3 if a file cannot be read or written, 4 if memory runs out, 6 if
a roster breaks a hard rule or a given fact. The files: inrc2pb-bound(1).",
        )
        .bin_name(NAME)
}

// The option `--week FILE..`, which is required.
fn week<'a>(alloc: Global) -> Arg<'a>
    ensures rule { rule_of result ≡ record (files_rule (codes "week")) { required = true } }
    ensures local { result.global ≡ false }
{
    files_option(
        alloc,
        "week",
        "The requirements and requests of each week, in order",
    )
    .required(true)
}

// The option `--fix FILE`, which may be given again.
fn fix<'a>(alloc: Global) -> Arg<'a>
    ensures rule { rule_of result ≡ record (file_rule (codes "fix")) { action = Some Append } }
    ensures local { result.global ≡ false }
{
    file_option(
        alloc,
        "fix",
        "Assignments to keep, as a solution file; of week N of several as N=FILE",
    )
    .action(ArgAction::Append)
}

// The option `--id FILE..`, which takes one or more files, and may be given again.
fn files_option<'a>(alloc: Global, id: &'a str, help: &'a str) -> Arg<'a>
    ensures rule { rule_of result ≡ files_rule id.entry.now }
    ensures local { result.global ≡ false }
{
    file_option(alloc, id, help)
        .action(ArgAction::Append)
        .num_args(1..)
}
