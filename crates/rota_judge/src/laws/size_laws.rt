//! The size of the numbers of a week's model, and its coefficients.
#![tactic(auto, using(crate::proofs::LawProofs::sizes))]

ghost use Rattle.std.specs.Prelude.{ℕ, ◌<◌, pos, ◌<ℤ◌, ◌≤ℤ◌, Bool, All, length};
ghost use Rattle.rota_core.specs.Problem.{Problem};
ghost use Rattle.rota_items.specs.Bounds.{count_limit, max_coefficient};
ghost use Rattle.rota_items.specs.Coefficients.{HasUnitCoefficients};
ghost use Rattle.rota_rules.specs.WithinLimits.{IsWithinLimits};
ghost use Rattle.rota_items.specs.Linear.{Term, objective_value};
ghost use Rattle.rota_items.specs.WeekModel.{model_of};

/// Within the limits the number of variables has at most 8 digits.
pub fn variables_are_few()
    ensures { (problem : Problem) → IsWithinLimits problem → (model_of problem).variables < count_limit }
{}

/// Within the limits the number of constraints has at most 8 digits.
pub fn constraints_are_few()
    ensures { (problem : Problem) → IsWithinLimits problem → length (model_of problem).constraints < count_limit }
{}

/// Each coefficient of a constraint is 1 or -1.
pub fn constraint_coefficients_are_units()
    ensures { (problem : Problem) → All HasUnitCoefficients (model_of problem).constraints }
{}

/// Each coefficient of the objective is above 0.
pub fn objective_coefficients_are_positive()
    ensures { (problem : Problem) → All (λ (term : Term ℕ). pos 0 <ℤ term.0) (model_of problem).objective }
{}

/// Within the limits each coefficient of the objective is small: at most 699,790,000 at INRC-II's weights,
/// which is below 2^30.
pub fn objective_coefficients_are_small()
    ensures { (problem : Problem) →
        IsWithinLimits problem →
        All (λ (term : Term ℕ). term.0 ≤ℤ pos max_coefficient) (model_of problem).objective }
{}

/// No assignment has an objective below 0.
pub fn objective_is_not_negative()
    ensures { (problem : Problem) (assignment : ℕ → Bool) →
        pos 0 ≤ℤ objective_value assignment (model_of problem) }
{}
