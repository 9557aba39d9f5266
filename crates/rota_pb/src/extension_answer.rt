//! The answer of a roster's extension, written by a taker of its literals.
ghost use Rattle.std.specs.Prelude.{◌≡◌, length, OnOk};
ghost use Rattle.rota_core.specs.InstanceTables.{problem_of};
ghost use Rattle.rota_core.specs.RosterTables.{HasShapeOf, set_of};
ghost use Rattle.rota_judge.specs.ExtensionTruths.{extension_truths};
ghost use Rattle.text_sink.specs.Sink.{FinishesSink, PutsText};
ghost use Rattle.solver_text.specs.AnswerWriter.{literals_of, literals_text, phase_of, writer_sink};
ghost use Rattle.solver_text.specs.declared.answer_writer.Phase.TheVariants.{New, Started};
ghost use Rattle.rota_pb.specs.Extending.{extension_answer};

use byte_ports::{PortFault, Target};
use rota_core::{Instance, Roster};
use rota_judge::laws::{extension_truths_are_those_of_the_variables, variables_are_few};
use rota_judge::{LiteralTaker, drive_extension};
use rota_rules::laws::instances_are_within_limits;
use solver_text::AnswerWriter;
use solver_text::laws::calls_write_the_answer;

// Writes each literal that it takes into an answer whose first lines were written. It fails only if the
// target fails.
#[derive(Drop)]
struct ExtensionAnswer<'w, 'a, W: Target> {
    writer: &'w mut AnswerWriter<'a, W>,
    ghost started: { phase_of writer.now ≡ Started },
}

impl<'w, 'a, W: Target> LiteralTaker for ExtensionAnswer<'w, 'a, W> {
    type Fault = PortFault;

    ghost use Rattle.opb_text.specs.SinkTaker.{SinkState, with_event, sink_state};
    ghost use Rattle.solver_text.specs.AnswerWriter.{writer_sink};
    ghost use Rattle.rota_pb.specs.ExtensionAnswer.{FailsAt, WriterState, answer_writer, literal_texts, writer_state_of};

    ghost Value = { SinkState W WriterState };

    ghost value = { λ answer. sink_state (writer_sink (answer_writer answer)) (writer_state_of answer) };

    ghost step = { with_event literal_texts };

    ghost left = { λ before truth answer. FailsAt before truth answer };

    fn literal(&mut self, positive: bool) -> Result<(), PortFault> {
        self.writer.literal(positive)
    }
}

// Takes the literals of all variables, in ascending order, in the roster's extension.
fn take_extension<W: Target>(
    instance: &Instance,
    roster: &Roster,
    answer: &mut ExtensionAnswer<'_, '_, W>,
) -> Result<(), PortFault>
    requires shape { HasShapeOf (problem_of instance.now) roster.now }
    requires none { literals_of answer.old.writer.now ≡ 0 }
    ensures same_writer { answer.new.writer.ghost_name ≡ answer.old.writer.ghost_name }
    ensures takes { PutsText (writer_sink answer.old.writer.now) result
        (literals_text 0 (extension_truths (problem_of instance.now) (set_of roster.now))) (writer_sink answer.new.writer.now) }
    ensures literals { OnOk result (literals_of answer.new.writer.now ≡
        length (extension_truths (problem_of instance.now) (set_of roster.now))) }
{
    extension_truths_are_those_of_the_variables();
    instances_are_within_limits();
    variables_are_few();
    drive_extension(instance, roster, answer)
}

// Writes the literals of the roster's extension.
fn put_literals<W: Target>(
    instance: &Instance,
    roster: &Roster,
    writer: &mut AnswerWriter<'_, W>,
) -> Result<(), PortFault>
    requires shape { HasShapeOf (problem_of instance.now) roster.now }
    requires phase { phase_of writer.old ≡ Started }
    requires none { literals_of writer.old ≡ 0 }
    ensures phase { phase_of writer.new ≡ Started }
    ensures takes { PutsText (writer_sink writer.old) result
        (literals_text 0 (extension_truths (problem_of instance.now) (set_of roster.now))) (writer_sink writer.new) }
    ensures literals { OnOk result (literals_of writer.new ≡
        length (extension_truths (problem_of instance.now) (set_of roster.now))) }
{
    let mut answer = ExtensionAnswer { writer };
    take_extension(instance, roster, &mut answer)
}

/// Writes the answer of the roster's extension with this objective, and finishes the sink.
pub(crate) fn put_answer<W: Target>(
    instance: &Instance,
    roster: &Roster,
    objective: u64,
    writer: &mut AnswerWriter<'_, W>,
) -> Result<(), PortFault>
    requires shape { HasShapeOf (problem_of instance.now) roster.now }
    requires phase { phase_of writer.old ≡ New }
    ensures { FinishesSink (writer_sink writer.old) result
        (extension_answer objective (problem_of instance.now) (set_of roster.now)) (writer_sink writer.new) }
{
    calls_write_the_answer();
    writer.start(objective)?;
    put_literals(instance, roster, writer)?;
    writer.finish()
}
