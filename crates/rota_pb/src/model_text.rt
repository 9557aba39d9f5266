//! The meaning of the text of a week's model.
ghost use Rattle.rota_core.specs.Problem.{Problem};
ghost use Rattle.rota_items.specs.WeekModel.{model_of};
ghost use Rattle.opb_text.specs.ModelText.{opb_text};
ghost use Rattle.rota_pb.specs.Encoding.{IsModelText};

use opb_text::laws::each_text_spells_one_model;
use rota_judge::laws::{
    first_failing_row_has_first_broken_rule, hard_constraints_mean_hard_rules,
    rosters_extend_at_their_penalty, satisfying_assignments_are_rosters,
};

/// The text of a week's model spells that model and no other, and the model means the week's rules.
pub(crate) fn model_text_means_the_rules()
    ensures { (problem : Problem) → IsModelText problem (opb_text (model_of problem)) }
{
    each_text_spells_one_model();
    hard_constraints_mean_hard_rules();
    first_failing_row_has_first_broken_rule();
    rosters_extend_at_their_penalty();
    satisfying_assignments_are_rosters();
}
