//! The meaning of the literals of an extension.
ghost use Rattle.std.specs.Prelude.{◌≡◌, ℕ, ◌<◌, ◌≤◌, length};
ghost use Rattle.rota_core.specs.declared.values.Cell.{Cell};
ghost use Rattle.rota_core.specs.Problem.{Problem};
ghost use Rattle.rota_core.specs.Roster.{InWeek, Roster};
ghost use Rattle.rota_judge.specs.ExtensionTruths.{extension_truths};
ghost use Rattle.rota_judge.specs.Truths.{truth_of};
ghost use Rattle.rota_items.specs.Variables.{roster_of};
ghost use Rattle.rota_judge.specs.Extensions.{extension_of};
ghost use Rattle.rota_items.specs.WeekModel.{model_of};

/// The number of truth values of a roster's extension is the number of the model's variables. Each is the
/// value of its variable, and together they represent the roster.
pub fn extension_truths_are_those_of_the_variables()
    ensures count { (problem : Problem) (roster : Roster) →
        length (extension_truths problem roster) ≡ (model_of problem).variables }
    ensures values { (problem : Problem) (roster : Roster) (v : ℕ) →
        0 < v →
        v ≤ (model_of problem).variables →
        truth_of (extension_truths problem roster) v ≡ extension_of problem roster v }
    ensures same_roster { (problem : Problem) (roster : Roster) (cell : Cell) →
        InWeek problem cell →
        roster_of problem (truth_of (extension_truths problem roster)) cell ≡ roster cell }
{}
