//! The meaning of the model of a week: its assignments represent the rosters that keep the hard rules, at
//! their penalty.
#![tactic(auto, using(crate::proofs::LawProofs::models))]

ghost use Rattle.std.specs.Prelude.{◌≡◌, ◌↔◌, ◌≤◌, ◌<◌, ◌+◌, ℕ, Bool, true, pos, ◌≤ℤ◌, All, length};
ghost use Rattle.rota_core.specs.declared.values.Cell.{Cell};
ghost use Rattle.rota_core.specs.Problem.{Problem};
ghost use Rattle.rota_core.specs.Roster.{Has, Roster, InWeek};
ghost use Rattle.rota_core.specs.RosterCells.{cells_of};
ghost use Rattle.rota_core.specs.HardRules.{KeepsHardRules, KeepsOneCell, KeepsSkills, KeepsSuccession};
ghost use Rattle.rota_items.specs.Bounds.{max_objective};
ghost use Rattle.rota_items.specs.Linear.{Satisfies, SatisfiesModel, objective_value};
ghost use Rattle.rota_items.specs.Variables.{cell_number, unit_number, roster_of};
ghost use Rattle.rota_items.specs.WeekModel.{cell_of_number, hard_constraints, hard_rows, model_of};
ghost use Rattle.rota_judge.specs.Extensions.{extension_of};
ghost use Rattle.rota_rules.specs.Penalty.{penalty};
ghost use Rattle.rota_rules.specs.WithinLimits.{IsWithinLimits};
ghost use Rattle.rota_judge.specs.RisingTerms.{RisesFrom, HasRisingTerms};
ghost use Rattle.rota_judge.specs.Occurrence.{OccursInSome, without_held};
ghost use Rattle.rota_judge.specs.FirstUnmet.{NamesFirstBroken, first_unmet};

/// An assignment satisfies the hard constraints if and only if the unit variable is true and its roster keeps
/// the hard rules.
pub fn hard_constraints_mean_hard_rules()
    ensures { (problem : Problem) (assignment : ℕ → Bool) →
        All (Satisfies assignment) (hard_constraints problem) ↔
        ((assignment (unit_number problem) ≡ true) × KeepsHardRules problem (roster_of problem assignment)) }
{}

/// If the unit variable is true, the first hard row that an assignment does not satisfy belongs to the first
/// rule that its roster breaks.
pub fn first_failing_row_has_first_broken_rule()
    ensures { (problem : Problem) (assignment : ℕ → Bool) →
        assignment (unit_number problem) ≡ true →
        NamesFirstBroken problem (roster_of problem assignment) (first_unmet assignment (hard_rows problem)) }
{}

/// The first hard row that the extension of a roster does not satisfy belongs to the first rule that the
/// roster breaks.
pub fn extension_fails_first_at_first_broken_rule()
    ensures { (problem : Problem) (roster : Roster) →
        NamesFirstBroken problem roster (first_unmet (extension_of problem roster) (hard_rows problem)) }
{}

/// A roster that keeps the hard rules extends to an assignment that satisfies the model, and whose objective
/// is the roster's penalty.
pub fn rosters_extend_at_their_penalty()
    ensures satisfies { (problem : Problem) (roster : Roster) →
        KeepsHardRules problem roster →
        SatisfiesModel (extension_of problem roster) (model_of problem) }
    ensures objective { (problem : Problem) (roster : Roster) →
        KeepsHardRules problem roster →
        objective_value (extension_of problem roster) (model_of problem) ≡ pos (penalty problem roster) }
    ensures same_roster { (problem : Problem) (roster : Roster) (cell : Cell) →
        InWeek problem cell →
        roster_of problem (extension_of problem roster) cell ≡ roster cell }
{}

/// An assignment that satisfies the model represents a roster that keeps the hard rules, and whose penalty is
/// at most the assignment's objective.
pub fn satisfying_assignments_are_rosters()
    ensures keeps { (problem : Problem) (assignment : ℕ → Bool) →
        SatisfiesModel assignment (model_of problem) →
        KeepsHardRules problem (roster_of problem assignment) }
    ensures penalty { (problem : Problem) (assignment : ℕ → Bool) →
        SatisfiesModel assignment (model_of problem) →
        pos (penalty problem (roster_of problem assignment)) ≤ℤ objective_value assignment (model_of problem) }
{}

/// The minimum objective of the model is the minimum penalty of a roster that keeps the hard rules. The model
/// has no satisfying assignment if and only if no roster keeps them.
pub fn min_objective_is_min_penalty()
    ensures minimum { (problem : Problem) (minimum : ℕ) →
        ((assignment : ℕ → Bool) → SatisfiesModel assignment (model_of problem) →
        pos minimum ≤ℤ objective_value assignment (model_of problem)) ↔
        ((roster : Roster) → KeepsHardRules problem roster → minimum ≤ penalty problem roster) }
    ensures none { (problem : Problem) →
        ((assignment : ℕ → Bool) → SatisfiesModel assignment (model_of problem) → ⊥) ↔
        ((roster : Roster) → KeepsHardRules problem roster → ⊥) }
{}

/// The variables of the cells are the numbers from 1 up to the unit variable, and each belongs to one cell.
pub fn cells_and_variables_are_inverse()
    ensures cell_of_variable { (problem : Problem) (v : ℕ) →
        0 < v →
        v < unit_number problem →
        InWeek problem (cell_of_number problem v) × (cell_number problem (cell_of_number problem v) ≡ v) }
    ensures variable_of_cell { (problem : Problem) (cell : Cell) →
        InWeek problem cell →
        (cell_number problem cell < unit_number problem) ×
        (cell_of_number problem (cell_number problem cell) ≡ cell) }
{}

/// The variables of each constraint rise, so that each occurs once.
pub fn constraints_have_rising_terms()
    ensures { (problem : Problem) → All HasRisingTerms (model_of problem).constraints }
{}

/// The variables of the objective rise, so that each occurs once.
pub fn objective_has_rising_terms()
    ensures { (problem : Problem) → RisesFrom 1 (model_of problem).objective }
{}

/// Within the limits the objective of any assignment is small: at INRC-II's weights below 2^40.
pub fn objective_is_small()
    ensures { (problem : Problem) (assignment : ℕ → Bool) →
        IsWithinLimits problem →
        objective_value assignment (model_of problem) ≤ℤ pos max_objective }
{}

/// A variable occurs in a constraint if and only if it is one of the numbers from 1 to the number of
/// variables.
pub fn variables_are_those_of_the_constraints()
    ensures { (problem : Problem) (v : ℕ) →
        OccursInSome (model_of problem) v ↔ ((0 < v) × (v ≤ (model_of problem).variables)) }
{}

/// Holding cells adds to the model only that each of them is true: an assignment satisfies the model if and
/// only if it satisfies the model without them and makes each of them true. Variables and objective stay the
/// same, and there is one more constraint for each held cell.
pub fn held_cells_add_only_that_they_are_true()
    ensures satisfies { (problem : Problem) (assignment : ℕ → Bool) →
        SatisfiesModel assignment (model_of problem) ↔
        (SatisfiesModel assignment (model_of (without_held problem)) ×
        ((cell : Cell) → Has problem problem.is_held cell → assignment (cell_number problem cell) ≡ true)) }
    ensures variables { (problem : Problem) →
        (model_of problem).variables ≡ (model_of (without_held problem)).variables }
    ensures objective { (problem : Problem) →
        (model_of problem).objective ≡ (model_of (without_held problem)).objective }
    ensures constraints { (problem : Problem) →
        length (model_of problem).constraints ≡
        length (model_of (without_held problem)).constraints + length (cells_of problem problem.is_held) }
{}

/// If an assignment satisfies the model, the held cells alone keep H1, H3 and H4. So if they break one of
/// these, no assignment satisfies the model.
pub fn held_cells_keep_rules_where_the_model_is_satisfied()
    ensures one_cell { (problem : Problem) (assignment : ℕ → Bool) →
        SatisfiesModel assignment (model_of problem) →
        KeepsOneCell problem problem.is_held }
    ensures succession { (problem : Problem) (assignment : ℕ → Bool) →
        SatisfiesModel assignment (model_of problem) →
        KeepsSuccession problem problem.is_held }
    ensures skills { (problem : Problem) (assignment : ℕ → Bool) →
        SatisfiesModel assignment (model_of problem) →
        KeepsSkills problem problem.is_held }
{}
