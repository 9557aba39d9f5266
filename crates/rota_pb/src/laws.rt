//! The meaning of the answer of a roster's extension.
ghost use Rattle.rota_pb.specs.Extending.{ExtensionIsReadBack};

use rota_judge::laws::{extension_truths_are_those_of_the_variables, variables_are_few};
use rota_rules::laws::{instances_are_within_limits, penalty_is_small};
use solver_text::laws::written_answer_is_read;

/// The answer that is written for a roster that keeps the hard rules is read as `SATISFIABLE`, with the
/// roster's penalty and the values of its extension. These represent the same roster.
pub fn extension_is_read_back()
    ensures { ExtensionIsReadBack }
{
    extension_truths_are_those_of_the_variables();
    instances_are_within_limits();
    variables_are_few();
    penalty_is_small();
    written_answer_is_read();
}
