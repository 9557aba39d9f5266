//! The files of a job, open.
ghost use Rattle.byte_ports.specs.Openers.{OpensAs, opener_at};
ghost use Rattle.inrc2pb_bound_program.specs.PeriodOpening.{list_of, open_each as each_opening, open_path as path_opening};
ghost use Rattle.inrc2pb_bound_program.specs.PeriodOpening.{open_period as period_opening, open_week as week_opening};

use byte_ports::{OpenFault, Opens, open, open_if_named};
use rota_bound_run::{PeriodFiles, WeekFiles};
use std::alloc::Global;

/// Opens the files, in the order in which they are read.
///
/// # Errors
/// `Read` if a file does not open; `Memory`.
pub fn open_period<O: Opens>(
    alloc: Global,
    files: &mut O,
    paths: &PeriodFiles<String>,
) -> Result<PeriodFiles<O::File>, OpenFault>
    ensures { OpensAs (opener_at O.Opens O.File.Source files.old files.new)
        (period_opening O.File.Source paths.now) result }
{
    Ok(PeriodFiles {
        scenario: open(files, paths.scenario.as_str())?,
        history: open(files, paths.history.as_str())?,
        weeks: open_weeks(alloc, files, &paths.weeks)?,
        given: open_if_named(files, &paths.given)?,
        proof: open_if_named(files, &paths.proof)?,
        rosters: open_each(alloc, files, &paths.rosters)?,
    })
}

// Opens the files of each week, in order.
fn open_weeks<O: Opens>(
    alloc: Global,
    files: &mut O,
    weeks: &[WeekFiles<String>],
) -> Result<Vec<WeekFiles<O::File>>, OpenFault>
    ensures { OpensAs (opener_at O.Opens O.File.Source files.old files.new)
        (each_opening (week_opening O.File.Source) weeks.now) (list_of result) }
{
    let mut opened = Vec::with_capacity(alloc, weeks.len())?;
    for week in weeks {
        let files_of_week = open_week(files, week)?;
        opened.push_reserved(files_of_week);
    }
    Ok(opened)
}

// Opens the files of a week: its data, and its held cells, if they are named.
fn open_week<O: Opens>(
    files: &mut O,
    paths: &WeekFiles<String>,
) -> Result<WeekFiles<O::File>, OpenFault>
    ensures { OpensAs (opener_at O.Opens O.File.Source files.old files.new)
        (week_opening O.File.Source paths.now) result }
{
    Ok(WeekFiles {
        week: open(files, paths.week.as_str())?,
        fix: open_if_named(files, &paths.fix)?,
    })
}

// Opens a file at each path, in order.
fn open_each<O: Opens>(
    alloc: Global,
    files: &mut O,
    paths: &[String],
) -> Result<Vec<O::File>, OpenFault>
    ensures { OpensAs (opener_at O.Opens O.File.Source files.old files.new)
        (each_opening (path_opening O.File.Source) paths.now) (list_of result) }
{
    let mut opened = Vec::with_capacity(alloc, paths.len())?;
    for path in paths {
        let file = open(files, path.as_str())?;
        opened.push_reserved(file);
    }
    Ok(opened)
}
