//! The costs that the items of a property's runs charge.
#![tactic(auto, using(crate::proofs::LawProofs::runs))]

ghost use Rattle.std.specs.Prelude.{◌≡◌, ℕ, ◌*◌, ◌<◌, Bool};
ghost use Rattle.rota_core.specs.declared.values.Cell.{Cell};
ghost use Rattle.rota_core.specs.declared.values.Span.{Span};
ghost use Rattle.rota_core.specs.HardRules.{KeepsOneCell, is_off, is_on, works};
ghost use Rattle.rota_core.specs.Roster.{Roster};
ghost use Rattle.rota_core.specs.Problem.{Problem};
ghost use Rattle.rota_items.specs.ModelCosts.{weighted_shortages};
ghost use Rattle.rota_items.specs.RunItems.{Runs, run_items};
ghost use Rattle.rota_items.specs.RunItemParts.{has_property, AtMostOneADay, day_items};
ghost use Rattle.rota_rules.specs.Runs.{day_cost};
ghost use Rattle.rota_rules.specs.Runs.{run_cost};
ghost use Rattle.rota_items.specs.rules.ConsecutiveAssignments.{shift_runs, work_runs};
ghost use Rattle.rota_items.specs.rules.ConsecutiveDaysOff.{off_runs};

use rota_core::DAYS;

/// The items of a property's runs charge the cost of the runs, if on each day of the week at most one of the
/// property's variables is true.
pub fn run_items_charge_run_cost()
    ensures { (runs : Runs Cell) (roster : Cell → Bool) →
        AtMostOneADay runs.property roster →
        weighted_shortages roster (run_items runs) ≡
        runs.weight *
        run_cost (has_property runs.property roster) runs.history runs.limits }
{}

/// On a roster that keeps H1, the items of a nurse's runs charge the cost of the runs: of her days on a shift
/// type, at work and off, with any weight, any history and any limits.
pub fn run_items_charge_a_nurses_runs()
    ensures on_shift { (problem : Problem) (roster : Roster) (n s weight history : ℕ) (limits : Span) →
        KeepsOneCell problem roster →
        n < problem.nurses →
        s < problem.shifts →
        weighted_shortages roster
        (run_items (record (shift_runs problem n s) { weight = weight; history = history; limits = limits })) ≡
        weight * run_cost (is_on problem roster n s) history limits }
    ensures at_work { (problem : Problem) (roster : Roster) (n weight history : ℕ) (limits : Span) →
        KeepsOneCell problem roster →
        n < problem.nurses →
        weighted_shortages roster
        (run_items (record (work_runs problem n) { weight = weight; history = history; limits = limits })) ≡
        weight * run_cost (works problem roster n) history limits }
    ensures off { (problem : Problem) (roster : Roster) (n weight history : ℕ) (limits : Span) →
        KeepsOneCell problem roster →
        n < problem.nurses →
        weighted_shortages roster
        (run_items (record (off_runs problem n) { weight = weight; history = history; limits = limits })) ≡
        weight * run_cost (is_off problem roster n) history limits }
{}

/// The items of a day of the week charge what the runs cost on that day, if on each day of the week at most
/// one of the property's variables is true.
pub fn day_items_charge_day_cost()
    ensures { (runs : Runs Cell) (roster : Cell → Bool) (d : ℕ) →
        AtMostOneADay runs.property roster →
        d < DAYS →
        weighted_shortages roster (day_items runs d) ≡
        runs.weight *
        day_cost (has_property runs.property roster) runs.history runs.limits d }
{}
