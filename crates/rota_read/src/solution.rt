//! Reads a solution file.

ghost use Rattle.std.specs.Prelude.{List, ◌∷◌, ◌++◌, [], IfOk, IfErr};
ghost use Rattle.rota_core.specs.declared.fault.FileName.TheVariants as files;
ghost use Rattle.rota_core.specs.InstanceTables.{problem_of};
ghost use Rattle.rota_core.specs.RosterTables.{HasShapeOf};
ghost use Rattle.rota_layout.specs.FileAnswers.{IsFaultOf};
ghost use Rattle.rota_layout.specs.Layout.{repeat};
ghost use Rattle.rota_layout.specs.Reading.{read_layout, Reads, read_text};
ghost use Rattle.rota_read.specs.SolutionLayout.{solution, HasCells, SpellsRoster};
ghost use Rattle.rota_read.specs.RosterReading.{assignment_row, ReadsRoster, ReadsRosterFile};

use rota_core::{Cell, FileFault, FileName, Instance, MAX_NUMBER, Roster};
use rota_layout::{Cursor, LayoutError};
use std::alloc::Global;

// Reads one more assignment, and puts it into the roster.
#[tactic(auto, using(rota_layout::proofs::ReadingLaws::known_taken), unfolding(crate::specs::RosterReading::assignment_row, crate::specs::SolutionLayout::assignment, rota_layout::specs::Layout::one_more, rota_layout::specs::Reading::read_layout))]
fn assignment_row(
    cursor: &mut Cursor<'_>,
    instance: &Instance,
    roster: &mut Roster,
) -> Result<Cell, LayoutError>
    requires { HasShapeOf (problem_of instance.now) roster.old }
    ensures read { (rows : List Cell) → HasCells (problem_of instance.now) roster.old rows →
        Reads (λ one. rows ++ one ∷ []) result cursor.new (read_layout (assignment_row instance.now.scenario rows) cursor.old) }
    ensures put { (rows : List Cell) → HasCells (problem_of instance.now) roster.old rows →
        IfOk result (λ one. HasCells (problem_of instance.now) roster.new (rows ++ one ∷ [])) }
{
    let scenario = instance.scenario();
    let nurse = cursor.nurse(scenario)?;
    let day = cursor.day()?;
    let shift = cursor.shift(scenario)?;
    let skill = cursor.skill(scenario)?;
    let cell = Cell {
        nurse,
        day,
        shift,
        skill,
    };
    cursor.unless_taken(!roster.put(cell))?;
    Ok(cell)
}

// The roster of `count` assignments.
fn assignment_rows(
    cursor: &mut Cursor<'_>,
    alloc: Global,
    instance: &Instance,
    count: u16,
) -> Result<Roster, LayoutError>
    ensures { ReadsRoster (problem_of instance.now) result cursor.new (read_layout (repeat count (assignment_row instance.now.scenario) []) cursor.old) }
{
    let mut roster = Roster::new(alloc, instance)?;
    for _ in 0..count {
        assignment_row(cursor, instance, &mut roster)?;
    }
    Ok(roster)
}

// The roster of a solution, from the whole text.
#[tactic(auto, using(rota_layout::proofs::ReadingLaws::front_fails), unfolding(crate::specs::SolutionLayout::solution, rota_layout::specs::Layout::exactly, rota_layout::specs::Layout::many, crate::specs::RosterReading::assignment_row, rota_layout::specs::Reading::read_layout, rota_layout::specs::Reading::read_text))]
fn solution_roster(alloc: Global, instance: &Instance, text: &[u8]) -> Result<Roster, LayoutError>
    ensures { ReadsRosterFile (problem_of instance.now) result (read_text (solution instance.now.scenario) text.now) }
{
    let mut cursor = Cursor::open(text)?;
    cursor.exactly(b"SOLUTION")?;
    cursor.number(0, MAX_NUMBER)?;
    cursor.word()?;
    let count = cursor.setting(b"ASSIGNMENTS", 0, MAX_NUMBER)?;
    let roster = assignment_rows(&mut cursor, alloc, instance, count)?;
    cursor.finish()?;
    Ok(roster)
}

/// Returns the roster that the text spells, for an instance.
///
/// The text is a solution file of the Second International Nurse Rostering Competition (INRC-II), in the
/// layout of `docs/formats.md`. The roster's cells are the assignments of the text, with nurses, shift types
/// and skills numbered as in the instance and days from 0 for Monday. The rules are not checked.
///
/// Here `extend` of `rota_pb` writes the answer that a solver would give for the roster:
///
/// ```
/// let roster = read_solution(alloc, &instance, text)?;
/// extend(&instance, &roster, out)
/// ```
///
/// # Errors
///
/// `Bad` is the text's one fault: the fault of the first token that does not fit its position, with the
/// token's line, or `Ended`, with the line of the last token (1 if there is none). A text of more than
/// `MAX_FILE_LEN` bytes has `Limit` on line 0. `Memory` is returned only if memory runs out before a fault
/// was found.
#[tactic(auto, using(crate::proofs::SolutionLaws::roster_steps))]
pub fn read_solution(alloc: Global, instance: &Instance, text: &[u8]) -> Result<Roster, FileFault>
    ensures spelled { IfOk result (SpellsRoster instance.now text.now) }
    ensures fault { IfErr result (IsFaultOf files.Solution (solution instance.now.scenario) text.now) }
{
    solution_roster(alloc, instance, text).map_err(|stop| stop.in_file(FileName::Solution))
}

/// Returns the cells to hold, read like the roster of `read_solution`.
///
/// # Errors
///
/// The errors of `read_solution`, with the file name `Fixed`.
#[tactic(auto, using(crate::proofs::SolutionLaws::roster_steps))]
pub fn read_fixed(alloc: Global, instance: &Instance, text: &[u8]) -> Result<Roster, FileFault>
    ensures spelled { IfOk result (SpellsRoster instance.now text.now) }
    ensures fault { IfErr result (IsFaultOf files.Fixed (solution instance.now.scenario) text.now) }
{
    solution_roster(alloc, instance, text).map_err(|stop| stop.in_file(FileName::Fixed))
}
