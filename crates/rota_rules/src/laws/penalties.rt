//! The size of the penalty, and penalties that are written out.

ghost use Rattle.std.specs.Prelude.{◌≡◌, ◌<◌, ◌==◌, ◌||◌, false};
ghost use Rattle.rota_core.specs.Defaults.{no_past};
ghost use Rattle.rota_core.specs.InstanceTables.{InstanceTables, IsInstance, problem_of};
ghost use Rattle.rota_core.specs.Problem.{Problem};
ghost use Rattle.rota_core.specs.Roster.{Roster};
ghost use Rattle.rota_rules.specs.CostBounds.{penalty_limit};
ghost use Rattle.rota_rules.specs.Penalty.{penalty};
ghost use Rattle.rota_rules.specs.WithinLimits.{IsWithinLimits};
ghost use Rattle.rota_rules.specs.WorkedWeeks.{limits_of, on_days, worked_days, working_week};

/// The week of an instance has numbers within the limits.
#[tactic(auto, using(crate::proofs::InstanceLimits::within_limits))]
pub fn instances_are_within_limits()
    ensures { (tables : InstanceTables) → IsInstance tables → IsWithinLimits (problem_of tables) }
{}

/// Within the limits a penalty has at most 17 digits.
#[tactic(auto, using(crate::proofs::EachRule::small_costs))]
pub fn penalty_is_small()
    ensures { (problem : Problem) (roster : Roster) →
        IsWithinLimits problem →
        penalty problem roster < penalty_limit }
{}

/// The penalties of rosters of one nurse: a run that lies wholly in the history, and two runs below a minimum
/// longer than the week. The one that is open on Sunday costs nothing.
#[tactic(auto, unfolding(rota_core::specs::SumsBelow::sum_below, rota_core::specs::SumsBelow::any_below, crate::specs::Runs::run_over, crate::specs::Runs::run_under))]
pub fn worked_rosters_have_their_penalties()
    ensures short_run_in_the_history { penalty (working_week (limits_of 3 9) (worked_days 1)) (on_days (λ d. false)) ≡ 60 }
    ensures minimum_longer_than_the_week { penalty (working_week (limits_of 9 9) no_past) (on_days (λ d. d == 0 || d == 6)) ≡ 240 }
{}
