//! The weeks of a period, read one after the other.
ghost use Rattle.std.specs.Prelude.{◌≡◌, IfOk, length};
ghost use Rattle.rota_core.specs.ScenarioTables.{numbers_of};
ghost use Rattle.rota_bound_run.specs.PeriodFiles.{each_of, reader_if, week_readers};
ghost use Rattle.rota_bound_run.specs.PeriodRead.{read_weeks};
ghost use Rattle.rota_bound_run.specs.PeriodSteps.{EndsAs};
ghost use Rattle.rota_bound_run.specs.Wards.{IsWard};
ghost use Rattle.rota_bound_run.specs.WeeksRead.{AreWeeksFrom, IsLike, IsWeekAt, hold_cells, join_week, read_period_week};

use crate::files::WeekFiles;
use crate::ward::Ward;
use byte_ports::Source;
use rota_core::{Instance, Week};
use rota_pb::{Fault, PeriodFault, read_held, read_week_from};
use std::alloc::Global;

// The week joined with the ward, if it is one of the scenario's.
fn join_week(
    alloc: Global,
    early: bool,
    ward: &Ward,
    later: usize,
    week: Week,
) -> Result<Instance, Fault>
    requires ward { IsWard ward.now }
    requires fits { week.numbers ≡ numbers_of ward.now.scenario }
    ensures { (join_week early ward.now later week).ends result }
{
    let history = ward.history_at(alloc, later)?;
    let scenario = ward.scenario.copy(alloc)?;
    Ok(Instance::join(scenario, history, week, early)?)
}

// The week with the cells of the file held, if there is one.
fn hold_cells<S: Source>(
    alloc: Global,
    instance: Instance,
    fix: &mut Option<S>,
) -> Result<Instance, Fault>
    ensures holds { (hold_cells instance (reader_if S.Source fix.old fix.new)).ends result }
    ensures like { IfOk result (IsLike instance) }
{
    match fix {
        Some(file) => {
            let held = read_held(alloc, &instance, file)?;
            Ok(instance.hold(held))
        }
        None => Ok(instance),
    }
}

// The week that comes this many weeks after the first.
fn read_period_week<S: Source>(
    alloc: Global,
    early: bool,
    ward: &Ward,
    later: usize,
    files: &mut WeekFiles<S>,
) -> Result<Instance, Fault>
    requires { IsWard ward.now }
    ensures reads { (read_period_week early ward.now later (week_readers S.Source files.old files.new)).ends result }
    ensures week { IfOk result (IsWeekAt early ward.now later) }
{
    let week = read_week_from(alloc, &ward.scenario, &mut files.week)?;
    let instance = join_week(alloc, early, ward, later, week)?;
    hold_cells(alloc, instance, &mut files.fix)
}

/// The weeks of the files, in order. The first check that fails decides the fault, and later files are not touched.
pub(crate) fn read_weeks<S: Source>(
    alloc: Global,
    early: bool,
    ward: &Ward,
    files: &mut Vec<WeekFiles<S>>,
) -> Result<Vec<Instance>, PeriodFault>
    requires { IsWard ward.now }
    ensures reads { EndsAs (λ weeks. weeks.items) (read_weeks early ward.now (each_of (week_readers S.Source) files.old.items files.new.items)).ends result }
    ensures weeks { IfOk result (λ weeks. AreWeeksFrom early ward.now 0 weeks.items) }
    ensures count { IfOk result (λ weeks. length weeks.items ≡ length files.old.items) }
{
    let mut weeks = Vec::new(alloc);
    let count = files.len();
    for index in 0..count {
        match read_period_week(alloc, early, ward, index, &mut files[index]) {
            Ok(week) => weeks.push(week)?,
            Err(fault) => return Err(PeriodFault::in_week(count, index, fault)),
        }
    }
    Ok(weeks)
}
