//! The verdict of a judge that has taken the whole model.
ghost use Rattle.std.specs.Prelude.{◌≡◌, ◌++◌};
ghost use Rattle.std.specs.List.{fold};
ghost use Rattle.rota_core.specs.InstanceTables.{problem_of};
ghost use Rattle.rota_items.specs.Events.{events};
ghost use Rattle.rota_judge.specs.JudgeState.{SettlesModel, assignment_in, fresh, judged, roster_in};
ghost use Rattle.rota_items.specs.Objective.{objective_rows};
ghost use Rattle.rota_judge.specs.Verdicts.{Judges, JudgesTheRules};
ghost use Rattle.rota_items.specs.WeekModel.{objective_terms, rows_of};

use crate::judge::taker::Judge;
use crate::judge::verdicts::Verdict;
use rota_core::Instance;
use rota_items::{drive_constraints, drive_objective};
use std::convert::Infallible;

/// Sends the model of its instance to a judge that has taken nothing, and returns its verdict. See
/// `Judge::verdict`.
///
/// See the example at the top of the crate.
pub fn verdict_of(instance: &Instance, mut judge: Judge<'_>) -> Verdict
    requires begun { judge ≡ fresh instance.now judge.subject }
    ensures judges { let problem = problem_of instance.now in let subject = judge.entry.subject in
        Judges problem (assignment_in problem subject) (roster_in problem subject) result }
    ensures rules { let problem = problem_of instance.now in let subject = judge.entry.subject in
        JudgesTheRules problem (assignment_in problem subject) (roster_in problem subject) result }
    ensures model { SettlesModel (problem_of instance.now) judge.entry.subject result }
{
    match drive_both(instance, &mut judge) {
        Ok(()) => judge.verdict(),
        Err(never) => match never {},
    }
}

// Sends the judge the objective, then the constraints.
fn drive_both(instance: &Instance, judge: &mut Judge<'_>) -> Result<(), Infallible>
    ensures { let problem = problem_of instance.now in
        judge.new ≡ fold judged judge.old
        (events (objective_rows (objective_terms problem)) ++ events (rows_of problem)) }
{
    drive_objective(instance, judge)?;
    drive_constraints(instance, judge)
}
