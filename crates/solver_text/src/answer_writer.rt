//! A writer of the answer that a solver would give.
ghost use Rattle.std.specs.Prelude.{◌≡◌, ◌+◌, ◌-◌, ◌^◌, min, true, IsErr};
ghost use Rattle.text_sink.specs.Sink.{sink_failed, FinishesSink, PutsText};
ghost use Rattle.solver_text.specs.AnswerText.{answer_head};
ghost use Rattle.solver_text.specs.AnswerWriter.{literal_text, end_text};

use byte_ports::{PortFault, Target};
use text_sink::Sink;

// The text that a writer has written so far: nothing, the first lines and some literals, or the whole answer.
#[derive(Clone, Copy)]
enum Phase {
    New,
    Started,
    Finished,
}

/// Writes an answer's text into a sink, in the output format of the Pseudo-Boolean Competition (Roussel and
/// Manquinho): an `o` line with the objective's value, the line `s SATISFIABLE`, and `v` lines with the
/// literals of the variables 1, 2, .. in order, ten per line. The last line has the rest.
///
/// Call `start` exactly one time, before all other calls; then `literal` for each variable; then `finish`,
/// exactly one time. The writer fails only if the target does. The bytes that were sent are then a prefix of
/// the written text followed by the text of the call that failed.
#[derive(Drop)]
pub struct AnswerWriter<'a, W: Target> {
    sink: Sink<'a, W>,
    phase: Phase,
    literals: u32,
}

// Writes the literal of the next variable after `literals` others. A line begins after each ten.
fn put_literal<W: Target>(
    sink: &mut Sink<W>,
    literals: u32,
    positive: bool,
) -> Result<(), PortFault>
    ensures takes { PutsText sink.old result (literal_text literals positive) sink.new }
    ensures for_good { sink_failed sink.old ≡ true → IsErr result }
{
    let variable = u64::from(literals) + 1;
    let front: &[u8] = match (literals % 10 == 0, positive) {
        (true, true) => b"v x",
        (true, false) => b"v -x",
        (false, true) => b" x",
        (false, false) => b" -x",
    };
    let end: &[u8] = if variable % 10 == 0 { b"\n" } else { b"" };
    sink.number_between(front, variable, end)
}

// Writes the lines before the values.
fn put_head<W: Target>(sink: &mut Sink<W>, objective: u64) -> Result<(), PortFault>
    ensures takes { PutsText sink.old result (answer_head objective) sink.new }
    ensures for_good { sink_failed sink.old ≡ true → IsErr result }
{
    sink.number_between(b"o ", objective, b"\ns SATISFIABLE\n")
}

// Writes the end of the last line of values after `literals` literals, if it is not full.
fn put_end<W: Target>(sink: &mut Sink<W>, literals: u32) -> Result<(), PortFault>
    ensures takes { PutsText sink.old result (end_text literals) sink.new }
    ensures for_good { sink_failed sink.old ≡ true → IsErr result }
{
    let text: &[u8] = if literals % 10 == 0 { b"" } else { b"\n" };
    sink.put(text)
}

impl<'a, W: Target> AnswerWriter<'a, W> {
    ghost use Rattle.solver_text.specs.AnswerWriter.{writer_sink, phase_of, literals_of};

    /// A writer whose text goes into the sink. Nothing has been written.
    pub fn new(sink: Sink<'a, W>) -> AnswerWriter<'a, W>
        ensures sink { writer_sink result ≡ sink.entry }
        ensures phase { phase_of result ≡ Phase.New }
        ensures literals { literals_of result ≡ 0 }
    {
        AnswerWriter {
            sink,
            phase: Phase::New,
            literals: 0,
        }
    }

    /// Writes the objective's value and the status. It fails only if the target does.
    pub fn start(&mut self, objective: u64) -> Result<(), PortFault>
        requires { phase_of self.old ≡ Phase.New }
        ensures phase { phase_of self.new ≡ Phase.Started }
        ensures literals { literals_of self.new ≡ 0 }
        ensures takes { PutsText (writer_sink self.old) result (answer_head objective) (writer_sink self.new) }
        ensures for_good { sink_failed (writer_sink self.old) ≡ true → IsErr result }
    {
        self.phase = Phase::Started;
        self.literals = 0;
        put_head(&mut self.sink, objective)
    }

    /// Writes the literal of the next variable, positive if it is true. The number of literals counts up to
    /// 4,294,967,295 and stays there. It fails only if the target does.
    pub fn literal(&mut self, positive: bool) -> Result<(), PortFault>
        requires { phase_of self.old ≡ Phase.Started }
        ensures phase { phase_of self.new ≡ Phase.Started }
        ensures literals { literals_of self.new ≡ min (literals_of self.old + 1) (2 ^ 32 - 1) }
        ensures takes { PutsText (writer_sink self.old) result (literal_text (literals_of self.old) positive) (writer_sink self.new) }
        ensures for_good { sink_failed (writer_sink self.old) ≡ true → IsErr result }
    {
        let literals = self.literals;
        self.literals = literals.saturating_add(1);
        put_literal(&mut self.sink, literals, positive)
    }

    /// Ends the text and finishes the sink: `Ok` means that everything that was written is sent and flushed.
    /// It fails only if the target does.
    pub fn finish(&mut self) -> Result<(), PortFault>
        requires { phase_of self.old ≡ Phase.Started }
        ensures phase { phase_of self.new ≡ Phase.Finished }
        ensures literals { literals_of self.new ≡ literals_of self.old }
        ensures finishes { FinishesSink (writer_sink self.old) result (end_text (literals_of self.old)) (writer_sink self.new) }
    {
        self.phase = Phase::Finished;
        put_end(&mut self.sink, self.literals)?;
        self.sink.finish()
    }

    /// The sink, with the text that was written into it.
    pub fn into_sink(self) -> Sink<'a, W>
        ensures { result ≡ writer_sink self.entry }
    {
        let AnswerWriter { sink, .. } = self;
        sink
    }
}
