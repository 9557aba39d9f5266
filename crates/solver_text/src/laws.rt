//! Properties of the texts of answers, whole or in part.

ghost use Rattle.solver_text.specs.AnswerLaws.{FaultStays, TrueByLiteral, WrittenAnswerIsRead};
ghost use Rattle.solver_text.specs.AnswerWriter.{WritesAnswerText};

use rota_core::laws::numerals_read_back;

/// A fault found in a prefix of a text, for fewer than 2^32 variables, is the fault of each longer prefix and
/// of the whole text.
pub fn fault_of_a_beginning_stays()
    ensures { FaultStays }
{}

/// If a text has no fault, exactly the variables with a positive literal are true.
pub fn positive_literals_make_true()
    ensures { TrueByLiteral }
{}

/// The calls of a writer, one after the other, write the answer's text.
pub fn calls_write_the_answer()
    ensures { WritesAnswerText }
{}

/// The text of an answer, read for the same number of variables below 2^32, means `SATISFIABLE`, with the
/// objective's value and the values of the variables, if the objective's value has at most 18 digits.
pub fn written_answer_is_read()
    ensures { WrittenAnswerIsRead }
{
    numerals_read_back();
}
