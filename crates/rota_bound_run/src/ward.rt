//! What all weeks of a period share.
ghost use Rattle.std.specs.Prelude.{◌≡◌, ◌<◌, ◌⊎◌, IfErr, IfOk};
ghost use Rattle.rota_pb.specs.RunPorts.{reader_of};
ghost use Rattle.rota_pb.specs.declared.fault.Fault.TheVariants.{Memory};
ghost use Rattle.rota_bound_run.specs.Wards.{IsWard, history_at, read_ward};
ghost use Rattle.rota_bound_run.specs.WeeksRead.{IsLate};

use byte_ports::Source;
use rota_core::{FileFault, FileName, History, HistoryParts, Kind, Past, Scenario};
use rota_pb::{Fault, read_history_from, read_scenario_from};
use std::alloc::{AllocError, Global};

/// The scenario, and the history before the first week.
#[derive(Drop)]
pub struct Ward {
    pub scenario: Scenario,
    pub history: HistoryParts,
}

/// The scenario and the history of the files.
pub(crate) fn read_ward<S: Source>(
    alloc: Global,
    scenario_file: &mut S,
    history_file: &mut S,
) -> Result<Ward, Fault>
    ensures reads { (read_ward (reader_of S.Source scenario_file.old scenario_file.new) (reader_of S.Source history_file.old history_file.new)).ends result }
    ensures ward { IfOk result IsWard }
{
    let scenario = read_scenario_from(alloc, scenario_file)?;
    let history = read_history_from(alloc, &scenario, history_file)?;
    Ok(Ward {
        scenario,
        history: history.into_parts(),
    })
}

impl Ward {
    // A copy of the pasts.
    fn copy_pasts(&self, alloc: Global) -> Result<Vec<Past>, AllocError>
        ensures { IfOk result (λ pasts. pasts.items ≡ self.now.history.past.items) }
    {
        let mut pasts = Vec::new(alloc);
        pasts.extend_from_slice(&self.history.past)?;
        Ok(pasts)
    }

    /// The history before the first week, with the number of the week that comes this many weeks later. `LateWeek` at
    /// line 0 of the history if the scenario ends before that week; `Memory`.
    pub(crate) fn history_at(&self, alloc: Global, later: usize) -> Result<History, Fault>
        requires { IsWard self.now }
        ensures history { IfOk result (λ h. h ≡ history_at self.now later) }
        ensures spanned { IfOk result (λ h. h.week < self.now.scenario.weeks) }
        ensures fault { IfErr result (λ fault. (fault ≡ Memory) ⊎ IsLate self.now later fault) }
    {
        let weeks = usize::from(self.scenario.weeks());
        let week = usize::from(self.history.week);
        if later >= weeks || week + later >= weeks {
            return Err(Fault::File(FileFault::Bad {
                kind: Kind::LateWeek,
                file: FileName::History,
                line: 0,
            }));
        }
        let past = self.copy_pasts(alloc)?;
        Ok(History::of_parts(HistoryParts {
            nurses: self.history.nurses,
            shifts: self.history.shifts,
            skills: self.history.skills,
            week: (week + later) as u16,
            past,
        }))
    }
}
