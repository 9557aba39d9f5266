//! Small weeks whose models and penalties are written out.
ghost use Rattle.std.specs.Prelude.{◌≡◌, length};
ghost use Rattle.rota_items.specs.RunItems.{patterns, windows};
ghost use Rattle.rota_judge.specs.WorkedWeeks.{CompleteWeekends, DaysOff, DemandNobodyCanMeet, FewerThanTheOptimum, HeldCells};
ghost use Rattle.rota_judge.specs.WorkedWeeks.{RequestsOnOneCell, RunFarAboveTheMaximum, SuccessionAfterTheHistory};
ghost use Rattle.rota_judge.specs.WorkedWeeks.{TotalReachedEarly, TotalsAboveInTheLastWeek};
ghost use Rattle.rota_rules.specs.WorkedWeeks.{limits_of};

/// The constraints and objectives of small weeks of one nurse: the additions of each rule to a plain week.
#[tactic(auto, unfolding(rota_core::specs::Lists::concat_below, rota_core::specs::Lists::singleton_if, rota_core::specs::SumsBelow::sum_below, rota_core::specs::SumsBelow::any_below, rota_core::specs::RosterCells::cells_of))]
pub fn worked_weeks_have_their_models()
    ensures demand_nobody_can_meet { DemandNobodyCanMeet }
    ensures succession_after_the_history { SuccessionAfterTheHistory }
    ensures held_cells { HeldCells }
    ensures fewer_than_the_optimum { FewerThanTheOptimum }
    ensures run_far_above_the_maximum { RunFarAboveTheMaximum }
    ensures days_off { DaysOff }
    ensures requests_on_one_cell { RequestsOnOneCell }
    ensures complete_weekends { CompleteWeekends }
    ensures totals_above_in_the_last_week { TotalsAboveInTheLastWeek }
    ensures total_reached_early { TotalReachedEarly }
{}

/// The numbers of windows and of patterns of some histories and limits.
#[tactic(auto, unfolding(rota_core::specs::Lists::concat_below, rota_core::specs::Lists::singleton_if))]
pub fn worked_runs_have_their_patterns()
    ensures windows_in_a_long_run { length (windows 9 (limits_of 1 5)) ≡ 7 }
    ensures windows_in_the_week { length (windows 0 (limits_of 1 2)) ≡ 5 }
    ensures windows_on_each_day { length (windows 0 (limits_of 0 0)) ≡ 7 }
    ensures windows_out_of_reach { length (windows 2 (limits_of 1 9)) ≡ 0 }
    ensures patterns_after_one_day { length (patterns 1 (limits_of 3 9)) ≡ 11 }
    ensures patterns_below_a_long_minimum { length (patterns 0 (limits_of 9 9)) ≡ 21 }
    ensures patterns_within_the_week { length (patterns 9999 (limits_of 9999 1)) ≡ 15 }
    ensures no_patterns { length (patterns 0 (limits_of 0 0)) ≡ 0 }
{}
