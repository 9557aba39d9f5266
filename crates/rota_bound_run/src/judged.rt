//! The rosters of all weeks, read and judged one after the other.
ghost use Rattle.std.specs.Prelude.{◌≡◌, ◌<◌, IfOk, IfSome, length};
ghost use Rattle.rota_certificate_read.specs.FactsLayout.{given_of};
ghost use Rattle.rota_pb.specs.RunPorts.{reader_of};
ghost use Rattle.rota_certificate.specs.CountedCharges.{IsPlanned};
ghost use Rattle.rota_certificate.specs.Plans.{plan_cost, plan_from};
ghost use Rattle.rota_certificate.specs.PeriodBounds.{AreGivenFor, IsPeriod};
ghost use Rattle.rota_bound_run.specs.PeriodFiles.{AreRosters, each_of};
ghost use Rattle.rota_bound_run.specs.PeriodSteps.{EndsAs};
ghost use Rattle.rota_bound_run.specs.PlanJudged.{IsJudged, judge_all, judge_plan, meet_given};

use crate::judged_week::judge_week;
use crate::pasts::pasts_before;
use byte_ports::Source;
use rota_certificate::first_unmet;
use rota_certificate_read::GivenFacts;
use rota_core::{Instance, Roster};
use rota_pb::PeriodFault;
use std::alloc::Global;

/// Rosters of the weeks that keep the hard rules, and the sum of their penalties.
#[derive(Drop)]
pub struct Judged {
    pub rosters: Vec<Roster>,
    pub penalty: u64,
}

// The rosters of the files, judged in the order of the weeks. The weeks are as before.
fn judge_all<S: Source>(
    alloc: Global,
    weeks: &mut Vec<Instance>,
    files: &mut Vec<S>,
) -> Result<Judged, PeriodFault>
    requires period { IsPeriod weeks.old.items }
    requires count { length files.old.items ≡ length weeks.old.items }
    requires some { 0 < length weeks.old.items }
    ensures reads { EndsAs (λ judged. judged.rosters.items) (judge_all weeks.old.items (each_of (reader_of S.Source) files.old.items files.new.items)).ends result }
    ensures planned { IfOk result (λ judged. IsPlanned weeks.old.items judged.rosters.items) }
    ensures penalty { IfOk result (λ judged. judged.penalty ≡ plan_cost (plan_from weeks.old.items judged.rosters.items)) }
    ensures same { weeks.new.items ≡ weeks.old.items }
{
    let count = weeks.len();
    let rosters = Vec::with_capacity(alloc, count)?;
    let mut judged = Judged {
        rosters,
        penalty: 0,
    };
    let mut pasts = pasts_before(alloc, &weeks[0])?;
    for index in 0..count {
        match judge_week(alloc, &mut weeks[index], pasts, &mut files[index]) {
            Ok(week) => {
                judged.rosters.push_reserved(week.roster);
                judged.penalty += week.penalty;
                pasts = week.pasts;
            }
            Err(fault) => return Err(PeriodFault::in_week(count, index, fault)),
        }
    }
    Ok(judged)
}

// The rosters, if they meet the given facts. `Unmet` with the line of the first fact that they do not meet.
fn meet_given(weeks: &[Instance], given: &GivenFacts, judged: Judged) -> Result<Judged, PeriodFault>
    requires planned { IsPlanned weeks.now judged.rosters.items }
    requires given { AreGivenFor weeks.now given.now.conditions.items }
    requires lines { length given.now.lines.items ≡ length given.now.conditions.items }
    requires penalty { judged.penalty ≡ plan_cost (plan_from weeks.now judged.rosters.items) }
    ensures { (meet_given weeks.now (given_of given.now) judged.rosters.items).ends result }
{
    match first_unmet(weeks, &judged.rosters, &given.conditions) {
        Some(index) => Err(PeriodFault::Unmet(given.lines[index])),
        None => Ok(judged),
    }
}

/// The rosters of the files, judged in the order of the weeks, if there are any. They must meet the given facts. The
/// weeks are as before.
pub(crate) fn judge_plan<S: Source>(
    alloc: Global,
    weeks: &mut Vec<Instance>,
    given: &GivenFacts,
    files: &mut Vec<S>,
) -> Result<Option<Judged>, PeriodFault>
    requires period { IsPeriod weeks.old.items }
    requires given { AreGivenFor weeks.old.items given.now.conditions.items }
    requires lines { length given.now.lines.items ≡ length given.now.conditions.items }
    requires rosters { AreRosters (length weeks.old.items) files.old.items }
    requires some { 0 < length weeks.old.items }
    ensures reads { (judge_plan weeks.old.items (given_of given.now) (each_of (reader_of S.Source) files.old.items files.new.items)).ends result }
    ensures judged { IfOk result (λ found. IfSome found (IsJudged weeks.old.items given.now.conditions.items)) }
    ensures same { weeks.new.items ≡ weeks.old.items }
{
    if files.is_empty() {
        return Ok(None);
    }
    let judged = judge_all(alloc, weeks, files)?;
    Ok(Some(meet_given(weeks, given, judged)?))
}
