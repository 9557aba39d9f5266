//! The report on a decoded answer.
ghost use Rattle.std.specs.Prelude.{◌≡◌, true, IsErr, codes};
ghost use Rattle.text_sink.specs.Sink.{PutsText, sink_failed};
ghost use Rattle.rota_read.specs.SolutionText.{spaced, ended};
ghost use Rattle.solver_text.specs.Status.{status_words};
ghost use Rattle.rota_pb.specs.Decoded.{FindsRoster};
ghost use Rattle.rota_pb.specs.Report.{cost_lines, last_o_line, number_line, report_text};
ghost use Rattle.rota_pb.specs.Steps.{send};
ghost use Rattle.rota_pb.specs.RunPorts.{writer_of};

use crate::decoded::Decoded;
use crate::fault::Fault;
use byte_ports::{PortFault, Target};
use rota_core::{Rule, SOFT_RULES};
use solver_text::Status;
use text_sink::{Piece, Sink};

// Writes a line with a number.
fn put_number_line<W: Target>(sink: &mut Sink<W>, name: &[u8], number: u64) -> Result<(), PortFault>
    ensures { PutsText sink.old result (number_line name.now number) sink.new }
{
    sink.put_all(&[
        Piece::Bytes(name),
        Piece::Bytes(b" "),
        Piece::Natural(number),
        Piece::Bytes(b"\n"),
    ])
}

// Writes the line of the status.
fn put_status_line<W: Target>(sink: &mut Sink<W>, status: Status) -> Result<(), PortFault>
    ensures takes { PutsText sink.old result (ended (spaced (codes "status") (status_words status))) sink.new }
    ensures for_good { sink_failed sink.old ≡ true → IsErr result }
{
    sink.put_all(&[
        Piece::Bytes(b"status "),
        Piece::Bytes(status.words().as_bytes()),
        Piece::Bytes(b"\n"),
    ])
}

// Writes the lines of the soft rules' costs.
fn put_cost_lines<W: Target>(sink: &mut Sink<W>, costs: &[u64; SOFT_RULES]) -> Result<(), PortFault>
    ensures { PutsText sink.old result (cost_lines costs.now) sink.new }
{
    for index in 0..SOFT_RULES {
        let rule = Rule::SOFT[index];
        put_number_line(sink, rule.name().as_bytes(), costs[index])?;
    }
    Ok(())
}

// Writes the line of the last `o` value, if there is one.
fn put_last_o_line<W: Target>(sink: &mut Sink<W>, last_o: Option<i64>) -> Result<(), PortFault>
    ensures { PutsText sink.old result (last_o_line last_o) sink.new }
{
    let Some(value) = last_o else {
        return Ok(());
    };
    sink.put_all(&[
        Piece::Bytes(b"last o "),
        Piece::Integer(value),
        Piece::Bytes(b"\n"),
    ])
}

// Writes the text of the report.
fn put_report<W: Target>(sink: &mut Sink<W>, decoded: &Decoded) -> Result<(), PortFault>
    ensures takes { PutsText sink.old result (report_text decoded.now) sink.new }
    ensures for_good { sink_failed sink.old ≡ true → IsErr result }
{
    put_status_line(sink, decoded.status)?;
    put_number_line(sink, b"objective", decoded.objective)?;
    put_number_line(sink, b"penalty", decoded.penalty)?;
    put_cost_lines(sink, &decoded.costs)?;
    put_last_o_line(sink, decoded.last_o)
}

/// Writes the report on a decoded answer, one item per line: the status, the objective, the penalty, the
/// costs of the soft rules, and the last `o` value if the answer had one. The status must be `Satisfiable` or
/// `Optimum`.
///
/// Allocates nothing. `Ok` means that the whole text is sent and flushed. The only error is `Write`, if the
/// writer failed: it got a prefix of the text.
pub fn write_report<W: Target>(decoded: &Decoded, out: &mut W) -> Result<(), Fault>
    requires finds { FindsRoster decoded.now.status }
    ensures { (send (writer_of W.Target out.old out.new) (report_text decoded.now)).ends result }
{
    let mut sink = Sink::new(out);
    put_report(&mut sink, decoded).map_err(|_| Fault::Write)?;
    sink.finish().map_err(|_| Fault::Write)
}
