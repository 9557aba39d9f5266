//! The parts of the rows.
#![tactic(auto)]

ghost use Rattle.std.specs.Prelude.{◌≢◌, ℕ};
ghost use Rattle.std.specs.List.{AllByRecursion};
ghost use Rattle.rota_core.specs.Problem.{Problem};
ghost use Rattle.rota_items.specs.declared.part.Part.TheVariants.{Objective};
ghost use Rattle.rota_items.specs.Rows.{LinearRow};
ghost use Rattle.rota_items.specs.WeekModel.{rows_of};

/// No row of the constraints is an objective row.
pub fn constraints_are_no_objective()
    ensures { (problem : Problem) → AllByRecursion (λ (row : LinearRow ℕ). row.part ≢ Objective) (rows_of problem) }
{}
