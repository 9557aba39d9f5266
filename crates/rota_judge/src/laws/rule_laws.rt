//! On rosters that keep the hard rules of the competition, the model charges the cost of the soft rules.
#![tactic(auto, using(crate::proofs::LawProofs::rules_charged))]

ghost use Rattle.std.specs.Prelude.{◌≡◌, ℕ, ◌+◌, ◌≤◌, ◌<◌, is_some, pos, All};
ghost use Rattle.rota_core.specs.declared.rule.Rule.{Rule};
ghost use Rattle.rota_core.specs.Problem.{Problem};
ghost use Rattle.rota_core.specs.Roster.{Roster};
ghost use Rattle.rota_core.specs.HardRules.{KeepsOneCell, KeepsCompetitionRules};
ghost use Rattle.rota_rules.specs.AlikeRosters.{AreAlike, CostAlike};
ghost use Rattle.rota_items.specs.Rows.{shortage};
ghost use Rattle.rota_items.specs.ModelCosts.{IsChargedOn, model_cost, constant_of_assignments, constant_of_weekends, weighted_shortages};
ghost use Rattle.rota_items.specs.RuleItems.{charge_of, constant, soft_items};
ghost use Rattle.rota_rules.specs.Penalty.{penalty, rule_cost};
ghost use Rattle.rota_items.specs.RuleItems.{is_soft};
ghost use Rattle.rota_items.specs.rules.ConsecutiveAssignments.{shift_runs, work_runs};
ghost use Rattle.rota_items.specs.rules.ConsecutiveDaysOff.{off_runs};
ghost use Rattle.rota_rules.specs.ShiftOffRequests.{request_cost};
ghost use Rattle.rota_items.specs.RunItemParts.{AtMostOneADay};

/// On a roster that keeps H1, at most one cell of a nurse's day is on a shift type, and at most one is on
/// any shift type. Each day in the runs on shift types, of working days and of days off then has at most
/// one true variable.
pub fn one_cell_a_day_is_at_most_one()
    ensures on_shift { (problem : Problem) (roster : Roster) (n s : ℕ) →
        KeepsOneCell problem roster →
        n < problem.nurses →
        s < problem.shifts →
        AtMostOneADay (shift_runs problem n s).property roster }
    ensures at_work { (problem : Problem) (roster : Roster) (n : ℕ) →
        KeepsOneCell problem roster →
        n < problem.nurses →
        AtMostOneADay (work_runs problem n).property roster }
    ensures off { (problem : Problem) (roster : Roster) (n : ℕ) →
        KeepsOneCell problem roster →
        n < problem.nurses →
        AtMostOneADay (off_runs problem n).property roster }
{}

/// The items of a rule, its constant and its terms on cells charge the cost of the rule: for S1 on rosters
/// that keep H2, for S4 on every roster, for the other rules on rosters that keep H1.
pub fn items_charge_each_rule_its_cost()
    ensures charges { (problem : Problem) (roster : Roster) (rule : Rule) →
        IsChargedOn problem roster rule →
        model_cost problem roster rule ≡ pos (rule_cost problem roster rule) }
    ensures on_all { (problem : Problem) (roster : Roster) (rule : Rule) →
        KeepsCompetitionRules problem roster →
        model_cost problem roster rule ≡ pos (rule_cost problem roster rule) }
{}

/// A rule has a charge if it is one of the soft rules, and otherwise none: no soft rule is free by an oversight.
pub fn soft_rules_have_charges()
    ensures { (rule : Rule) → is_some (charge_of rule) ≡ is_soft rule }
{}

/// The constant is the sum of the two parts that `constant_parts` gives: only S6 and S7 have one.
pub fn constant_is_sum_of_its_parts()
    ensures { (problem : Problem) → constant problem ≡ constant_of_assignments problem + constant_of_weekends problem }
{}

/// On a roster that keeps H1 to H4, the items, the terms on cells and the constant charge the penalty.
pub fn items_requests_and_constant_charge_penalty()
    ensures { (problem : Problem) (roster : Roster) →
        KeepsCompetitionRules problem roster →
        weighted_shortages roster (soft_items problem) + request_cost problem roster + constant problem ≡
        penalty problem roster }
{}

/// On a roster that keeps H1 to H4, no shortage of an item is above the number of its slacks.
pub fn no_item_lacks_more_than_its_slacks()
    ensures { (problem : Problem) (roster : Roster) →
        KeepsCompetitionRules problem roster →
        All (λ item. shortage roster item ≤ item.slacks) (soft_items problem) }
{}

/// If one of two rosters with the same cells in the week keeps the hard rules, so does the other. Both cost the
/// same.
pub fn alike_rosters_cost_the_same()
    ensures { (problem : Problem) (one other : Roster) →
        AreAlike problem one other →
        CostAlike problem one other }
{}
