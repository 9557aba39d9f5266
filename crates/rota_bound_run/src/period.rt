//! A period, read from its files: its ward, its weeks and the given facts.
ghost use Rattle.std.specs.Prelude.{◌≡◌, IfOk, length};
ghost use Rattle.rota_pb.specs.RunPorts.{reader_of};
ghost use Rattle.rota_bound_run.specs.FittingPeriods.{FitsWard};
ghost use Rattle.rota_bound_run.specs.PeriodFiles.{each_of, reader_if, week_readers};
ghost use Rattle.rota_bound_run.specs.PeriodRead.{period_of, read_period};
ghost use Rattle.rota_bound_run.specs.PeriodSteps.{EndsAs};

use crate::files::WeekFiles;
use crate::given_file::read_given;
use crate::ward::{Ward, read_ward};
use crate::weeks::read_weeks;
use byte_ports::Source;
use rota_certificate_read::GivenFacts;
use rota_core::Instance;
use rota_pb::PeriodFault;
use std::alloc::Global;

/// A ward, weeks of it that follow one another, and the facts that are given about their plans.
#[derive(Drop)]
pub struct Period {
    pub ward: Ward,
    pub weeks: Vec<Instance>,
    pub given: GivenFacts,
}

/// The scenario, the history and the weeks of the files, then the given facts. The first check that fails decides the
/// fault, and later files are not touched.
pub(crate) fn read_period<S: Source>(
    alloc: Global,
    early: bool,
    scenario_file: &mut S,
    history_file: &mut S,
    week_files: &mut Vec<WeekFiles<S>>,
    given_file: &mut Option<S>,
) -> Result<Period, PeriodFault>
    ensures reads { EndsAs period_of (read_period early
        (reader_of S.Source scenario_file.old scenario_file.new) (reader_of S.Source history_file.old history_file.new)
        (each_of (week_readers S.Source) week_files.old.items week_files.new.items)
        (reader_if S.Source given_file.old given_file.new)).ends result }
    ensures fits { IfOk result (λ period. FitsWard early (period_of period)) }
    ensures count { IfOk result (λ period. length period.weeks.items ≡ length week_files.old.items) }
{
    let ward = read_ward(alloc, scenario_file, history_file)?;
    let weeks = read_weeks(alloc, early, &ward, week_files)?;
    let count = weeks.len() as u8;
    let given = read_given(alloc, &ward.scenario, count, given_file)?;
    Ok(Period { ward, weeks, given })
}
