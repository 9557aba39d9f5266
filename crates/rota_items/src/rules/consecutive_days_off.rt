//! S3, consecutive days off: runs of days off that are too long or too short.
ghost use Rattle.rota_core.specs.InstanceTables.{problem_of};
ghost use Rattle.rota_items.specs.Takes.{TakesItems};
ghost use Rattle.rota_items.specs.RunItems.{run_items};
ghost use Rattle.rota_items.specs.rules.ConsecutiveDaysOff.{off_runs};

use crate::cell_sum::DayProperty;
use crate::items::run_takers::RunTaker;
use crate::items::soft_item::{NurseRuns, RunCharge};
use rota_core::{Instance, Rule};
use rota_rules::OFF_RUN_WEIGHT;

/// A nurse's runs of days off.
pub fn visit<T: RunTaker>(instance: &Instance, taker: &mut T, nurse: u16) -> Result<(), T::Fault>
    ensures { let problem = problem_of instance.now in
        TakesItems T.ItemTaker problem (run_items (off_runs problem nurse)) taker.old taker.new result }
{
    let runs = NurseRuns {
        charge: RunCharge {
            rule: Rule::S3,
            weight: OFF_RUN_WEIGHT,
            nurse,
            property: DayProperty::Off,
        },
        history: instance.past(nurse).off_run,
        limits: instance.contract(nurse).off,
    };
    taker.runs(instance, runs)
}
