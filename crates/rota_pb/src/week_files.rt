//! The files of a week, read whole and checked one after the other.
ghost use Rattle.std.specs.Prelude.{◌≡◌, IfOk};
ghost use Rattle.rota_core.specs.declared.fault.FileName.TheVariants as names;
ghost use Rattle.rota_core.specs.ScenarioTables.{numbers_of};
ghost use Rattle.rota_read.specs.ScenarioLayout.{scenario as scenario_layout};
ghost use Rattle.rota_read.specs.HistoryLayout.{history as history_layout};
ghost use Rattle.rota_read.specs.WeekLayout.{week as week_layout};
ghost use Rattle.rota_pb.specs.RunPorts.{reader_of};
ghost use Rattle.rota_pb.specs.WeekFiles.{join as joining, read_file as file_reading, read_tables as tables_reading, read_week as week_reading};

use crate::fault::Fault;
use crate::file_bytes::read_file;
use crate::roster_files::read_held;
use byte_ports::Source;
use rota_core::{History, Instance, Scenario, Week};
use rota_read::{read_history, read_scenario, read_week};
use std::alloc::Global;

/// The choices for a run, in addition to its files.
#[derive(Clone, Copy, Debug, PartialEq, Eq)]
pub struct Choice {
    /// The excess of a total is charged in each week, not only in the last.
    pub early: bool,
    /// The cells of a fix file are held.
    pub fixed: bool,
}

/// Reads a scenario's file to its end, or to one byte more than it may have.
pub fn read_scenario_from<S: Source>(alloc: Global, source: &mut S) -> Result<Scenario, Fault>
    ensures { (file_reading names.Scenario scenario_layout (reader_of S.Source source.old source.new)).ends result }
{
    let text = read_file(alloc, source)?;
    Ok(read_scenario(alloc, &text)?)
}

/// Reads a history's file to its end, or to one byte more than it may have.
pub fn read_history_from<S: Source>(
    alloc: Global,
    scenario: &Scenario,
    source: &mut S,
) -> Result<History, Fault>
    ensures fits { IfOk result (λ h. h.numbers ≡ numbers_of scenario.now) }
    ensures reads { (file_reading names.History (history_layout scenario.now) (reader_of S.Source source.old source.new)).ends result }
{
    let text = read_file(alloc, source)?;
    Ok(read_history(alloc, scenario, &text)?)
}

/// Reads a week's file to its end, or to one byte more than it may have. Returns its requirements and requests.
pub fn read_week_from<S: Source>(
    alloc: Global,
    scenario: &Scenario,
    source: &mut S,
) -> Result<Week, Fault>
    ensures fits { IfOk result (λ w. w.numbers ≡ numbers_of scenario.now) }
    ensures reads { (file_reading names.Week (week_layout scenario.now) (reader_of S.Source source.old source.new)).ends result }
{
    let text = read_file(alloc, source)?;
    Ok(read_week(alloc, scenario, &text)?)
}

// The three files joined, if the week is one of the scenario's.
fn join(scenario: Scenario, history: History, week: Week, early: bool) -> Result<Instance, Fault>
    requires history_fits { history.numbers ≡ numbers_of scenario }
    requires week_fits { week.numbers ≡ numbers_of scenario }
    ensures { (joining scenario history week early).ends result }
{
    Ok(Instance::join(scenario, history, week, early)?)
}

// The instance that the three files spell, with no cell held. The first check that fails decides the fault,
// and later readers are not touched.
fn read_tables<S: Source, H: Source, K: Source>(
    alloc: Global,
    early: bool,
    sce: &mut S,
    his: &mut H,
    week: &mut K,
) -> Result<Instance, Fault>
    ensures { (tables_reading early
        (reader_of S.Source sce.old sce.new) (reader_of H.Source his.old his.new) (reader_of K.Source week.old week.new)).ends result }
{
    let scenario = read_scenario_from(alloc, sce)?;
    let history = read_history_from(alloc, &scenario, his)?;
    let week = read_week_from(alloc, &scenario, week)?;
    join(scenario, history, week, early)
}

/// The instance that the files of a week spell, with the cells of the fix file held, if one is chosen. The
/// first check that fails decides the fault, and later readers are not touched.
pub fn read_instance<S: Source, H: Source, K: Source, F: Source>(
    alloc: Global,
    choice: Choice,
    sce: &mut S,
    his: &mut H,
    week: &mut K,
    fix_file: &mut F,
) -> Result<Instance, Fault>
    ensures { (week_reading choice
        (record {
          scenario = reader_of S.Source sce.old sce.new;
          history = reader_of H.Source his.old his.new;
          week = reader_of K.Source week.old week.new;
          fix = reader_of F.Source fix_file.old fix_file.new;
        })).ends result }
{
    let instance = read_tables(alloc, choice.early, sce, his, week)?;
    if choice.fixed {
        let held = read_held(alloc, &instance, fix_file)?;
        return Ok(instance.hold(held));
    }
    Ok(instance)
}
