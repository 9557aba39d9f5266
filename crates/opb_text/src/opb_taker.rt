//! A taker that writes rows as text into a sink.
ghost use Rattle.std.specs.Prelude.{◌≡◌, [], true, false, IsErr};
ghost use Rattle.opb_text.specs.ModelText.{first_line, term_text};

use byte_ports::{PortFault, Target};
use rota_items::{Counts, Part, Taker};
use text_sink::Sink;

/// Writes the text of each event of a row into a sink. If the first line with the number of the constraints,
/// the objective's row if it has a term, and the constraints are written in this order, the text is the text
/// of a model.
///
/// It fails only if the target does. The bytes that were sent are then a prefix of the written text followed
/// by the text of the event at which it failed.
#[derive(Drop)]
pub struct OpbTaker<'a, W: Target> {
    sink: Sink<'a, W>,
    in_objective: bool,
}

impl<'a, W: Target> OpbTaker<'a, W> {
    ghost use Rattle.opb_text.specs.OpbTaker.{in_objective, taker_sink};
    ghost use Rattle.text_sink.specs.Sink.{sink_failed, FinishesSink, PutsText};

    /// A taker whose text goes into the sink. No objective row is open.
    ///
    /// See the example at the top of the crate.
    pub fn new(sink: Sink<'a, W>) -> OpbTaker<'a, W>
        ensures sink { taker_sink result ≡ sink.entry }
        ensures no_objective { in_objective result ≡ false }
    {
        OpbTaker {
            sink,
            in_objective: false,
        }
    }

    /// Writes the first line of a model with these numbers of variables and constraints. It fails only if the
    /// target does.
    pub fn first_line(&mut self, counts: Counts) -> Result<(), PortFault>
        ensures same_row { in_objective self.new ≡ in_objective self.old }
        ensures takes { PutsText (taker_sink self.old) result (first_line counts.variables counts.constraints) (taker_sink self.new) }
        ensures for_good { sink_failed (taker_sink self.old) ≡ true → IsErr result }
    {
        self.sink.number_between(
            b"* #variable= ",
            u64::from(counts.variables),
            b" #constraint= ",
        )?;
        self.sink
            .number_between(b"", u64::from(counts.constraints), b"\n")
    }

    /// Finishes the sink: `Ok` means that everything that was written is sent and flushed. It fails only if
    /// the target does.
    pub fn finish(&mut self) -> Result<(), PortFault>
        ensures same_row { in_objective self.new ≡ in_objective self.old }
        ensures finishes { FinishesSink (taker_sink self.old) result [] (taker_sink self.new) }
    {
        self.sink.finish()
    }

    /// The sink, with the text that was written into it.
    pub fn into_sink(self) -> Sink<'a, W>
        ensures { result ≡ taker_sink self.entry }
    {
        let OpbTaker { sink, .. } = self;
        sink
    }

    // Writes a term whose coefficient is neither 1 nor -1, and a blank. For 1 and -1 its text is correct too,
    // but `unit_term` is faster.
    fn weighted_term(&mut self, coefficient: i64, variable: u32) -> Result<(), PortFault>
        ensures same_row { in_objective self.new ≡ in_objective self.old }
        ensures takes { PutsText (taker_sink self.old) result (term_text (coefficient, variable)) (taker_sink self.new) }
        ensures for_good { sink_failed (taker_sink self.old) ≡ true → IsErr result }
    {
        let sign: &[u8] = if coefficient < 0 { b"-" } else { b"+" };
        self.sink
            .number_between(sign, coefficient.unsigned_abs(), b" x")?;
        self.sink.number_between(b"", u64::from(variable), b" ")
    }
}

impl<'a, W: Target> Taker for OpbTaker<'a, W> {
    type Fault = PortFault;

    ghost use Rattle.std.specs.Prelude.{Bool};
    ghost use Rattle.opb_text.specs.EventText.{opb_texts};
    ghost use Rattle.rota_items.specs.Events.{start_row, term, close_row};
    ghost use Rattle.opb_text.specs.OpbTaker.{TakesEvent, in_objective, taker_sink};
    ghost use Rattle.text_sink.specs.Sink.{sink_failed};
    ghost use Rattle.opb_text.specs.SinkTaker.{FailedAt, SinkState, with_event, sink_state};

    ghost Value = { SinkState W Bool };

    ghost value = { λ taker. sink_state (taker_sink taker) (in_objective taker) };

    ghost step = { with_event opb_texts };

    ghost left = { λ before event taker. FailedAt opb_texts before event (taker_sink taker) };

    fn start_row(&mut self, part: Part) -> Result<(), PortFault>
        ensures takes { TakesEvent (start_row part) self.old self.new result }
        ensures for_good { sink_failed (taker_sink self.old) ≡ true → IsErr result }
    {
        self.in_objective = matches!(part, Part::Objective);
        let text: &[u8] = if self.in_objective { b"min: " } else { b"" };
        self.sink.put(text)
    }

    #[inline(always)]
    fn term(&mut self, coefficient: i64, variable: u32) -> Result<(), PortFault>
        ensures takes { TakesEvent (term coefficient variable) self.old self.new result }
        ensures for_good { sink_failed (taker_sink self.old) ≡ true → IsErr result }
    {
        match coefficient {
            1 => self.sink.unit_term(true, variable),
            -1 => self.sink.unit_term(false, variable),
            _ => self.weighted_term(coefficient, variable),
        }
    }

    fn close_row(&mut self, degree: i64) -> Result<(), PortFault>
        ensures takes { TakesEvent (close_row degree) self.old self.new result }
        ensures for_good { sink_failed (taker_sink self.old) ≡ true → IsErr result }
    {
        if self.in_objective {
            return self.sink.put(b";\n");
        }
        let number = degree.unsigned_abs();
        if degree < 0 {
            self.sink.number_between(b">= -", number, b" ;\n")
        } else {
            self.sink.number_between(b">= ", number, b" ;\n")
        }
    }
}
