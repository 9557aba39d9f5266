//! Reads a history file.

ghost use Rattle.std.specs.Prelude.{◌≡◌, length, map, None, unwrap_or, replicate, IfOk, IfErr};
ghost use Rattle.rota_core.specs.Parts.{history_of};
ghost use Rattle.rota_core.specs.Defaults.{no_past};
ghost use Rattle.rota_core.specs.Limits.{AreLimited};
ghost use Rattle.rota_core.specs.ScenarioTables.{numbers_of};
ghost use Rattle.rota_core.specs.declared.fault.FileName.TheVariants as files;
ghost use Rattle.rota_layout.specs.Files.{Spells};
ghost use Rattle.rota_layout.specs.FileAnswers.{IsFaultOf};
ghost use Rattle.rota_read.specs.HistoryLayout.{past, history};
ghost use Rattle.rota_layout.specs.Layout.{repeat};
ghost use Rattle.rota_read.specs.SharedSlots.{known_row, value_of_each};
ghost use Rattle.rota_layout.specs.Reading.{read_layout, Reads, read_text, ReadsFile};

use rota_core::{FileFault, FileName, History, HistoryParts, MAX_NUMBER, Past, Scenario};
use rota_layout::{Cursor, LayoutError};
use std::alloc::{AllocError, Global};

// Stands in for a nurse without a row. A history has none: see `each_nurse_has_a_past`.
const NO_PAST: Past = Past {
    assignments: 0,
    weekends: 0,
    last: None,
    shift_run: 0,
    work_run: 0,
    off_run: 0,
};

#[tactic(auto, unfolding(crate::specs::HistoryLayout::past, rota_layout::specs::Reading::read_layout))]
fn past(cursor: &mut Cursor<'_>, scenario: &Scenario) -> Result<Past, LayoutError>
    ensures { Reads (λ p. p) result cursor.new (read_layout (past scenario.now.shifts) cursor.old) }
{
    let assignments = cursor.number(0, MAX_NUMBER)?;
    let weekends = cursor.number(0, MAX_NUMBER)?;
    let last = cursor.shift_or(b"None", scenario)?;
    let shift_run = cursor.number(0, MAX_NUMBER)?;
    let work_run = cursor.number(0, MAX_NUMBER)?;
    let off_run = cursor.number(0, MAX_NUMBER)?;
    Ok(Past {
        assignments,
        weekends,
        last,
        shift_run,
        work_run,
        off_run,
    })
}

#[tactic(auto, using(rota_layout::proofs::ReadingLaws::known_taken), unfolding(crate::specs::SharedSlots::known_row, rota_layout::specs::Reading::read_layout))]
fn past_row(
    cursor: &mut Cursor<'_>,
    scenario: &Scenario,
    pasts: &mut [Option<Past>],
) -> Result<(), LayoutError>
    requires { length pasts.old ≡ length scenario.now.nurses }
    ensures { Reads (λ _. pasts.new) result cursor.new (read_layout (known_row scenario.now.nurses (past scenario.now.shifts) pasts.old) cursor.old) }
{
    let nurse = cursor.nurse(scenario)?;
    let row = usize::from(nurse);
    cursor.unless_taken(pasts[row].is_some())?;
    let past = past(cursor, scenario)?;
    pasts[row] = Some(past);
    Ok(())
}

#[tactic(auto, using(rota_layout::proofs::ReadingLaws::row_steps))]
fn rows_of_nurses(
    cursor: &mut Cursor<'_>,
    scenario: &Scenario,
    count: u16,
    pasts: &mut [Option<Past>],
) -> Result<(), LayoutError>
    requires { length pasts.old ≡ length scenario.now.nurses }
    ensures { Reads (λ _. pasts.new) result cursor.new (read_layout (repeat count (known_row scenario.now.nurses (past scenario.now.shifts)) pasts.old) cursor.old) }
{
    for _ in 0..count {
        past_row(cursor, scenario, pasts)?;
    }
    Ok(())
}

// The row of each nurse, ordered by nurse.
#[tactic(auto, unfolding(crate::specs::SharedSlots::value_of_each))]
fn past_rows(
    cursor: &mut Cursor<'_>,
    alloc: Global,
    scenario: &Scenario,
) -> Result<Vec<Option<Past>>, LayoutError>
    ensures { Reads (λ v. v.items) result cursor.new (read_layout (value_of_each scenario.now.nurses (past scenario.now.shifts)) cursor.old) }
{
    let count = scenario.nurses();
    let mut pasts = no_rows(alloc, count)?;
    rows_of_nurses(cursor, scenario, count, &mut pasts)?;
    Ok(pasts)
}

fn no_rows(alloc: Global, count: u16) -> Result<Vec<Option<Past>>, AllocError>
    ensures { IfOk result (λ v. v.items ≡ replicate count None) }
{
    vec![in alloc; None; usize::from(count)]
}

fn each_past(alloc: Global, pasts: &[Option<Past>]) -> Result<Vec<Past>, AllocError>
    ensures { IfOk result (λ v. v.items ≡ map (λ past. unwrap_or past no_past) pasts.now) }
{
    let mut each = Vec::with_capacity(alloc, pasts.len())?;
    for past in pasts {
        each.push(past.unwrap_or(NO_PAST))?;
    }
    Ok(each)
}

// The rows of a history, from the whole text.
#[tactic(auto, using(rota_layout::proofs::ReadingLaws::front_fails), unfolding(crate::specs::HistoryLayout::history, rota_layout::specs::Layout::exactly, rota_layout::specs::Reading::read_layout, rota_layout::specs::Reading::read_text))]
fn history_parts(
    alloc: Global,
    scenario: &Scenario,
    text: &[u8],
) -> Result<HistoryParts, LayoutError>
    ensures read { ReadsFile history_of result (read_text (history scenario.now) text.now) }
    ensures limits { IfOk result (λ _. AreLimited (numbers_of scenario.now)) }
{
    let mut cursor = Cursor::open(text)?;
    cursor.exactly(b"HISTORY")?;
    let week = cursor.number(0, MAX_NUMBER)?;
    cursor.word()?;
    cursor.exactly(b"NURSE_HISTORY")?;
    let pasts = past_rows(&mut cursor, alloc, scenario)?;
    cursor.finish()?;
    Ok(HistoryParts {
        nurses: scenario.nurses(),
        shifts: scenario.shifts(),
        skills: scenario.skills(),
        week,
        past: each_past(alloc, &pasts)?,
    })
}

/// Returns the history that the text spells, for a scenario.
///
/// The text is a history file of the Second International Nurse Rostering Competition (INRC-II), in the
/// layout of `docs/formats.md`: the number of the week, and a row for each nurse of the scenario, in any
/// order. The rows of the result are ordered by nurse, numbered as in the scenario.
///
/// See the example at the top of the crate.
///
/// # Errors
///
/// `Bad` is the text's one fault: the fault of the first token that does not fit its position, with the
/// token's line, or `Ended`, with the line of the last token (1 if there is none). A text of more than
/// `MAX_FILE_LEN` bytes has `Limit` on line 0. `Memory` is returned only if memory runs out before a fault
/// was found.
#[tactic(auto, using(rota_layout::proofs::ReadingLaws::file_steps))]
pub fn read_history(alloc: Global, scenario: &Scenario, text: &[u8]) -> Result<History, FileFault>
    ensures spelled { IfOk result (Spells (history scenario.now) text.now) }
    ensures numbers { IfOk result (λ h. h.numbers ≡ numbers_of scenario.now) }
    ensures fault { IfErr result (IsFaultOf files.History (history scenario.now) text.now) }
{
    match history_parts(alloc, scenario, text) {
        Ok(parts) => Ok(History::of_parts(parts)),
        Err(stop) => Err(stop.in_file(FileName::History)),
    }
}
