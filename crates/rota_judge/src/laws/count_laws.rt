//! The results of a counter of rows.
#![tactic(auto, using(crate::proofs::LawProofs::counts))]

ghost use Rattle.std.specs.Prelude.{◌++◌, ◌≡◌, ℕ, List};
ghost use Rattle.std.specs.List.{fold};
ghost use Rattle.rota_core.specs.Problem.{Problem};
ghost use Rattle.rota_items.specs.Counting.{counted, counts_of, counts_of_model, no_counts};
ghost use Rattle.rota_items.specs.Events.{events};
ghost use Rattle.rota_rules.specs.WithinLimits.{IsWithinLimits};
ghost use Rattle.rota_items.specs.Rows.{LinearRow};
ghost use Rattle.rota_items.specs.Objective.{objective_rows};
ghost use Rattle.rota_items.specs.WeekModel.{model_of, objective_terms, rows_of};

/// A counter finds the number of rows other than the objective, and the maximum variable, of the rows that it
/// took.
pub fn counter_counts_rows()
    ensures { (rows : List (LinearRow ℕ)) → fold counted no_counts (events rows) ≡ counts_of rows }
{}

/// Within the limits, a counter that took the constraints of a week's model finds the numbers of the model's
/// variables and constraints. So does a counter that took the objective's row, if there is one, before them.
pub fn counter_counts_models()
    ensures constraints { (problem : Problem) →
        IsWithinLimits problem →
        fold counted no_counts (events (rows_of problem)) ≡ counts_of_model (model_of problem) }
    ensures objective_and_constraints { (problem : Problem) →
        IsWithinLimits problem →
        fold counted no_counts (events (objective_rows (objective_terms problem) ++ rows_of problem)) ≡
        counts_of_model (model_of problem) }
{}
