//! Laws of consecutive weeks with `--early`: their charges for the excess above a maximum total.
#![tactic(auto, using(crate::proofs::EarlyCharges::charges_sum))]

ghost use Rattle.std.specs.Prelude.{◌≡◌, ℕ, List, ◌∷◌};
ghost use Rattle.std.specs.List.{sum_by};
ghost use Rattle.rota_rules.specs.EarlyWeeks.{FollowEarly, RosteredWeek, added_by_all, assignment_total, weekend_total};
ghost use Rattle.rota_rules.specs.TotalAssignments.{above_max_total};
ghost use Rattle.rota_rules.specs.WorkedWeekends.{above_max_weekends};

/// The assignments above a nurse's maximum total that S6 charges, over consecutive weeks that are charged
/// early, sum up to the excess above the maximum at the end, less the excess before the first week. The same
/// holds for the weekends that S7 charges.
pub fn early_weeks_charge_what_they_add()
    ensures assignments { (n : ℕ) (one : RosteredWeek) (later : List RosteredWeek) →
        FollowEarly (assignment_total n) one later →
        sum_by (λ each. above_max_total each.week each.roster n) (one ∷ later) ≡
        added_by_all (assignment_total n) one later }
    ensures weekends { (n : ℕ) (one : RosteredWeek) (later : List RosteredWeek) →
        FollowEarly (weekend_total n) one later →
        sum_by (λ each. above_max_weekends each.week each.roster n) (one ∷ later) ≡
        added_by_all (weekend_total n) one later }
{}
