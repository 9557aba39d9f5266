//! The solution file of a roster.
ghost use Rattle.std.specs.Prelude.{◌≡◌, ◌≤◌, length, true, IsErr, OnOk};
ghost use Rattle.rota_core.specs.InstanceTables.{IsInstance, problem_of};
ghost use Rattle.rota_core.specs.Roster.{InWeek};
ghost use Rattle.rota_core.specs.HardRules.{KeepsOneCell};
ghost use Rattle.rota_core.specs.RosterTables.{HasShapeOf, set_of};
ghost use Rattle.rota_read.specs.SolutionLayout.{SpellsRoster};
ghost use Rattle.rota_read.specs.SolutionText.{assignment_text, heading_text, rows_text, solution_text};
ghost use Rattle.text_sink.specs.Sink.{PutsText, sink_failed};
ghost use Rattle.rota_core.specs.RosterCells.{cells_of};
ghost use Rattle.rota_pb.specs.Steps.{send};
ghost use Rattle.rota_pb.specs.RunPorts.{writer_of};

use crate::fault::Fault;
use byte_ports::{PortFault, Target};
use rota_core::laws::rosters_list_their_cells;
use rota_core::{Cell, Instance, MAX_FILE_LEN, Roster};
use rota_read::day_name;
use rota_read::laws::each_roster_has_its_text;
use text_sink::{Piece, Sink};

// Writes the lines before the `count` assignments.
fn put_heading<W: Target>(
    sink: &mut Sink<W>,
    instance: &Instance,
    count: u32,
) -> Result<(), PortFault>
    ensures limits { IsInstance instance.now }
    ensures takes { PutsText sink.old result (heading_text instance.now count) sink.new }
    ensures for_good { sink_failed sink.old ≡ true → IsErr result }
{
    sink.put_all(&[
        Piece::Bytes(b"SOLUTION\n"),
        Piece::Natural(u64::from(instance.week())),
        Piece::Bytes(b" "),
        Piece::Bytes(instance.scenario_name()),
        Piece::Bytes(b"\n\nASSIGNMENTS = "),
        Piece::Natural(u64::from(count)),
        Piece::Bytes(b"\n"),
    ])
}

// Writes the line of an assignment.
fn put_assignment<W: Target>(
    sink: &mut Sink<W>,
    instance: &Instance,
    cell: Cell,
) -> Result<(), PortFault>
    requires in_week { InWeek (problem_of instance.now) cell }
    ensures { PutsText sink.old result (assignment_text instance.now.scenario cell) sink.new }
{
    sink.put_all(&[
        Piece::Bytes(instance.nurse_name(cell.nurse)),
        Piece::Bytes(b" "),
        Piece::Bytes(day_name(cell.day)),
        Piece::Bytes(b" "),
        Piece::Bytes(instance.shift_name(cell.shift)),
        Piece::Bytes(b" "),
        Piece::Bytes(instance.skill_name(cell.skill)),
        Piece::Bytes(b"\n"),
    ])
}

// Writes the lines of the roster's assignments.
fn put_assignments<W: Target>(
    sink: &mut Sink<W>,
    instance: &Instance,
    roster: &Roster,
) -> Result<(), PortFault>
    requires shape { HasShapeOf (problem_of instance.now) roster.now }
    ensures { PutsText sink.old result
        (rows_text instance.now (cells_of (problem_of instance.now) (set_of roster.now))) sink.new }
{
    rosters_list_their_cells();
    for cell in roster.cells() {
        put_assignment(sink, instance, cell)?;
    }
    Ok(())
}

// Writes the text of the solution file.
fn put_solution<W: Target>(
    sink: &mut Sink<W>,
    instance: &Instance,
    roster: &Roster,
) -> Result<(), PortFault>
    requires shape { HasShapeOf (problem_of instance.now) roster.now }
    ensures limits { IsInstance instance.now }
    ensures takes { PutsText sink.old result (solution_text instance.now (set_of roster.now)) sink.new }
    ensures for_good { sink_failed sink.old ≡ true → IsErr result }
{
    rosters_list_their_cells();
    put_heading(sink, instance, roster.count())?;
    put_assignments(sink, instance, roster)
}

/// Writes the solution file of the roster, in the text form of INRC-II: the week's number and the scenario's
/// name, the number of assignments, and a line for each, in the order of nurse, day, shift type and skill. The
/// roster must have at most one cell for each nurse and day.
/// `read_solution` of `rota_read` returns the same roster, if the text has at most `MAX_FILE_LEN` bytes.
///
/// Allocates nothing. `Ok` means that the whole text is sent and flushed. The only error is `Write`, if the
/// writer failed: it got a prefix of the text.
pub fn write_solution<W: Target>(
    instance: &Instance,
    roster: &Roster,
    out: &mut W,
) -> Result<(), Fault>
    requires shape { HasShapeOf (problem_of instance.now) roster.now }
    requires one_cell { KeepsOneCell (problem_of instance.now) (set_of roster.now) }
    ensures sends { (send (writer_of W.Target out.old out.new) (solution_text instance.now (set_of roster.now))).ends result }

    // the written text spells the same roster, if it is not too long to be read
    ensures spelled { OnOk result (
        length (solution_text instance.now (set_of roster.now)) ≤ MAX_FILE_LEN →
        SpellsRoster instance.now (solution_text instance.now (set_of roster.now)) roster.now) }
{
    each_roster_has_its_text();
    let mut sink = Sink::new(out);
    put_solution(&mut sink, instance, roster).map_err(|_| Fault::Write)?;
    sink.finish().map_err(|_| Fault::Write)
}
