//! S2, consecutive assignments: runs on a shift type and runs of working days that are too long or too short.
ghost use Rattle.std.specs.Prelude.{◌≡◌};
ghost use Rattle.rota_core.specs.InstanceTables.{problem_of};
ghost use Rattle.rota_items.specs.Takes.{TakesItems};
ghost use Rattle.rota_items.specs.SentItems.{runs_of};
ghost use Rattle.rota_items.specs.rules.ConsecutiveAssignments.{assignment_runs_of, shift_runs, work_runs};
ghost use Rattle.rota_rules.specs.ConsecutiveAssignments.{history_on};

use crate::cell_sum::DayProperty;
use crate::items::run_takers::RunTaker;
use crate::items::soft_item::{NurseRuns, RunCharge};
use rota_core::{Instance, Rule};
use rota_rules::{SHIFT_RUN_WEIGHT, WORK_RUN_WEIGHT};

// The length of the run on the shift type that the days before Monday left.
fn history_on(instance: &Instance, nurse: u16, shift: u8) -> u16
    ensures { result ≡ history_on (problem_of instance.now) nurse shift }
{
    let past = instance.past(nurse);
    match past.last {
        Some(last) if last == shift => past.shift_run,
        Some(_) | None => 0,
    }
}

// A nurse's runs on a shift type.
fn shift_runs(instance: &Instance, nurse: u16, shift: u8) -> NurseRuns
    ensures runs { let problem = problem_of instance.now in runs_of problem result ≡ shift_runs problem nurse shift }
{
    NurseRuns {
        charge: RunCharge {
            rule: Rule::S2,
            weight: SHIFT_RUN_WEIGHT,
            nurse,
            property: DayProperty::Shift(shift),
        },
        history: history_on(instance, nurse, shift),
        limits: instance.limits(shift),
    }
}

// A nurse's runs of working days.
fn work_runs(instance: &Instance, nurse: u16) -> NurseRuns
    ensures runs { let problem = problem_of instance.now in runs_of problem result ≡ work_runs problem nurse }
{
    NurseRuns {
        charge: RunCharge {
            rule: Rule::S2,
            weight: WORK_RUN_WEIGHT,
            nurse,
            property: DayProperty::Work,
        },
        history: instance.past(nurse).work_run,
        limits: instance.contract(nurse).work,
    }
}

/// A nurse's runs on each shift type, then her runs of working days.
#[tactic(auto, using(crate::proofs::Taking::taking), unfolding(crate::specs::SentItems::numbered_list))]
pub fn visit<T: RunTaker>(instance: &Instance, taker: &mut T, nurse: u16) -> Result<(), T::Fault>
    ensures { let problem = problem_of instance.now in
        TakesItems T.ItemTaker problem (assignment_runs_of problem nurse) taker.old taker.new result }
{
    for shift in 0..instance.shifts() {
        let runs = shift_runs(instance, nurse, shift);
        taker.runs(instance, runs)?;
    }
    let runs = work_runs(instance, nurse);
    taker.runs(instance, runs)
}
