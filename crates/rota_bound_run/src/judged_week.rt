//! The roster of a week, read and judged after a history.
ghost use Rattle.std.specs.Prelude.{◌≡◌, IfOk, MatchResult, length};
ghost use Rattle.rota_core.specs.InstanceTables.{problem_of};
ghost use Rattle.rota_core.specs.RosterTables.{HasShapeOf, set_of};
ghost use Rattle.rota_pb.specs.Extending.{BreaksRule};
ghost use Rattle.rota_pb.specs.RunPorts.{reader_of};
ghost use Rattle.rota_certificate.specs.Plans.{Pasts, after};
ghost use Rattle.rota_bound_run.specs.JudgedWeeks.{ArePastsIn, IsJudgedWeek, IsPenalty};
ghost use Rattle.rota_bound_run.specs.Judging.{judge_week};
ghost use Rattle.rota_bound_run.specs.PeriodSteps.{EndsAs};

use crate::pasts::{are_pasts, pasts_after};
use byte_ports::Source;
use rota_core::{FileFault, FileName, Instance, Kind, Past, Roster};
use rota_judge::{Judge, verdict_of};
use rota_pb::{Fault, read_roster};
use rota_rules::laws::{instances_are_within_limits, penalty_is_small};
use std::alloc::Global;

/// A roster of a week that keeps its hard rules, its penalty, and the pasts of the nurses after the week.
#[derive(Drop)]
pub struct JudgedWeek {
    pub roster: Roster,
    pub penalty: u64,
    pub pasts: Vec<Past>,
}

// The penalty of the roster: `Breaks` with the first hard rule that it breaks.
fn penalty_of(week: &Instance, roster: &Roster) -> Result<u64, Fault>
    requires shape { HasShapeOf (problem_of week.now) roster.now }
    ensures { let set = set_of roster.now in MatchResult result (IsPenalty (problem_of week.now) set) (BreaksRule (problem_of week.now) set) }
{
    instances_are_within_limits();
    penalty_is_small();
    let verdict = verdict_of(week, Judge::of_roster(week, roster));
    if let Some((_, rule)) = verdict.unmet {
        return Err(Fault::Breaks(rule));
    }
    Ok(verdict.objective)
}

/// Reads the roster of the week, and judges it after a history with these pasts of the nurses. The week is as before.
///
/// Errors: `Limit` at line 0 of the history if one of the pasts is beyond the limits of a history's file, the first
/// fault of the roster's file, `Breaks`, `Read`, or `Memory`.
pub(crate) fn judge_week<S: Source>(
    alloc: Global,
    week: &mut Instance,
    pasts: Vec<Past>,
    file: &mut S,
) -> Result<JudgedWeek, Fault>
    requires { length pasts.items ≡ (problem_of week.old).nurses }
    ensures reads { (history : Pasts) → ArePastsIn (problem_of week.old).nurses history pasts.items →
        EndsAs (λ judged. judged.roster) (judge_week week.old history (reader_of S.Source file.old file.new)).ends result }
    ensures judged { (history : Pasts) → ArePastsIn (problem_of week.old).nurses history pasts.items →
        IfOk result (λ judged. IsJudgedWeek (after (problem_of week.old) history) judged.roster judged) }
    ensures same { week.new ≡ week.old }
{
    if !are_pasts(week.shifts(), &pasts) {
        return Err(Fault::File(FileFault::Bad {
            kind: Kind::Limit,
            file: FileName::History,
            line: 0,
        }));
    }
    let roster = read_roster(alloc, week, file)?;
    let first = week.replace_pasts(pasts);
    let judged = penalty_of(week, &roster);
    let pasts = week.replace_pasts(first);
    let penalty = judged?;
    let pasts = pasts_after(week, &roster, pasts);
    Ok(JudgedWeek {
        roster,
        penalty,
        pasts,
    })
}
