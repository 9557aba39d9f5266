//! The job that the words of the command line spell.
ghost use Rattle.std.specs.Prelude.{◌≡◌, IfErr, IfOk, map, option_map, string_bytes};
ghost use Rattle.inrc2pb_frame.specs.Options.{options_of, texts};
ghost use Rattle.inrc2pb_frame.specs.Runs.{IsJobFor, IsStopFor};
ghost use Rattle.inrc2pb_frame.specs.Stops.{IsForMemoryOr};
ghost use Rattle.inrc2pb_bound_program.specs.BoundJobs.{HasPaths, HaveWeekPaths, IsBoundJobOf, IsMisused};
ghost use Rattle.inrc2pb_bound_program.specs.BoundJobs.{LacksRequired, texts_of};
ghost use Rattle.inrc2pb_bound_program.specs.BoundPrograms.{inrc2pb_bound};

use crate::command;
use crate::fixes::{are_fixes, fix_named};
use crate::job::BoundJob;
use clap::ArgMatches;
use inrc2pb_frame::{Stop, has_flag, optional_path, required_path};
use rota_bound_run::{PeriodFiles, Question, WeekFiles};
use rota_core::MAX_WEEKS;
use std::alloc::{AllocError, Global};

/// The job that the words spell, or the reason why the program ends without one. The first word is the program's
/// name.
pub fn job(alloc: Global, words: &[&str]) -> Result<BoundJob, Stop>
    ensures ok { IfOk result (IsJobFor inrc2pb_bound (texts words.now)) }
    ensures err { IfErr result (IsStopFor inrc2pb_bound (texts words.now)) }
{
    let command = command::inrc2pb_bound(alloc)?;
    let matches = command.try_get_matches_from(words)?;
    job_of(alloc, &matches)
}

fn job_of(alloc: Global, options: &ArgMatches<'_>) -> Result<BoundJob, Stop>
    ensures ok { IfOk result (IsBoundJobOf (options_of options.now)) }
    ensures err { IfErr result (IsForMemoryOr (IsMisused (options_of options.now))) }
{
    let question = Question {
        early: has_flag(options, "early"),
        minimums: has_flag(options, "minimums"),
    };
    let (weeks, rosters) = (given(options, "week"), given(options, "roster"));
    if weeks.is_empty() {
        return Err(Stop::Usage("a required path is missing"));
    }
    if weeks.len() > usize::from(MAX_WEEKS) {
        return Err(Stop::Usage("there are more weeks than a scenario may have"));
    }
    if question.minimums && !rosters.is_empty() {
        return Err(Stop::Usage("--minimums excludes --roster"));
    }
    if !rosters.is_empty() && rosters.len() != weeks.len() {
        return Err(Stop::Usage("each --week needs one --roster"));
    }
    if !are_fixes(weeks.len(), given(options, "fix")) {
        return Err(Stop::Usage("each --fix N=FILE needs a --week of its own"));
    }
    let paths = period_paths(alloc, options)?;
    Ok(BoundJob { question, paths })
}

// The paths of the files.
fn period_paths(alloc: Global, options: &ArgMatches<'_>) -> Result<PeriodFiles<String>, Stop>
    ensures ok { IfOk result (HasPaths (options_of options.now)) }
    ensures err { IfErr result (IsForMemoryOr (LacksRequired (options_of options.now))) }
{
    Ok(PeriodFiles {
        scenario: required_path(alloc, options, "sce")?,
        history: required_path(alloc, options, "his")?,
        weeks: week_paths(alloc, given(options, "week"), given(options, "fix"))?,
        given: optional_path(alloc, options, "given")?,
        proof: optional_path(alloc, options, "proof")?,
        rosters: owned(alloc, given(options, "roster"))?,
    })
}

// The paths of the weeks, each with the path of its held cells, if one of the texts names it.
fn week_paths(
    alloc: Global,
    weeks: &[&str],
    fixes: &[&str],
) -> Result<Vec<WeekFiles<String>>, AllocError>
    ensures { IfOk result (λ paths. HaveWeekPaths (texts fixes.now) (texts weeks.now) paths.items) }
{
    let mut paths = Vec::with_capacity(alloc, weeks.len())?;
    for index in 0..weeks.len() {
        let fix = fix_named(weeks.len(), fixes, index + 1);
        paths.push(paths_of_week(alloc, weeks[index], fix)?)?;
    }
    Ok(paths)
}

// The paths of a week.
fn paths_of_week(
    alloc: Global,
    week: &str,
    fix: Option<&str>,
) -> Result<WeekFiles<String>, AllocError>
    ensures week { IfOk result (λ paths. string_bytes paths.week ≡ week.now) }
    ensures fix { IfOk result (λ paths. option_map string_bytes paths.fix ≡ option_map (λ path. path.now) fix.entry) }
{
    Ok(WeekFiles {
        week: String::from_str(alloc, week)?,
        fix: match fix {
            Some(path) => Some(String::from_str(alloc, path)?),
            None => None,
        },
    })
}

// The paths, in order.
fn owned(alloc: Global, paths: &[&str]) -> Result<Vec<String>, AllocError>
    ensures { IfOk result (λ owned. map string_bytes owned.items ≡ texts paths.now) }
{
    let mut owned = Vec::with_capacity(alloc, paths.len())?;
    for path in paths {
        owned.push(String::from_str(alloc, path)?)?;
    }
    Ok(owned)
}

// The texts of the option, in order.
fn given<'a>(options: &'a ArgMatches<'_>, id: &str) -> &'a [&'a str]
    ensures { texts result.now ≡ texts_of id.now (options_of options.now) }
{
    let Some(texts) = options.get_strs(id) else {
        return &[];
    };
    texts
}
