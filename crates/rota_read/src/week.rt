//! Reads a week's file.

ghost use Rattle.std.specs.Prelude.{◌≡◌, ◌+◌, [], length, IfOk, IfErr, OnOk};
ghost use Rattle.std.specs.List.{All};
ghost use Rattle.rota_layout.specs.Layout.{repeat};
ghost use Rattle.rota_core.specs.Parts.{week_tables_of};
ghost use Rattle.rota_core.specs.Limits.{AreLimited};
ghost use Rattle.rota_core.specs.ScenarioTables.{numbers_of};
ghost use Rattle.rota_core.specs.declared.fault.FileName.TheVariants as files;
ghost use Rattle.rota_layout.specs.Files.{Spells};
ghost use Rattle.rota_layout.specs.FileAnswers.{IsFaultOf};
ghost use Rattle.rota_layout.specs.Reading.{read_layout, read_text, Reads, ReadsFile};
ghost use Rattle.rota_read.specs.WeekRows.{request_row, IsRequest};
ghost use Rattle.rota_read.specs.WeekLayout.{week};

use crate::requirements::requirement_rows;
use crate::week_tables::requests_of;
use rota_core::{Demand, FileFault, FileName, MAX_NUMBER, Scenario, Week, WeekParts};
use rota_layout::{Cursor, LayoutError, day_table};
use std::alloc::Global;

// The demand if no row gives it.
const NO_DEMAND: Demand = Demand {
    minimum: 0,
    optimal: 0,
};

/// A row of requests: the nurse asks for the day off, from a shift type or, if none is named, from any.
#[derive(Clone, Copy)]
pub struct RequestRow {
    pub nurse: u16,
    pub shift: Option<u8>,
    pub day: u8,
}

#[tactic(auto, unfolding(crate::specs::WeekRows::request_row, crate::specs::WeekLayout::request, rota_layout::specs::Layout::one_more, rota_layout::specs::Reading::read_layout))]
fn request_row(
    cursor: &mut Cursor<'_>,
    scenario: &Scenario,
    rows: &mut Vec<RequestRow>,
) -> Result<(), LayoutError>
    requires { All (IsRequest (length scenario.now.nurses) (length scenario.now.shifts)) rows.old.items }
    ensures read { Reads (λ _. rows.new.items) result cursor.new (read_layout (request_row scenario.now rows.old.items) cursor.old) }
    ensures within { OnOk result (All (IsRequest (length scenario.now.nurses) (length scenario.now.shifts)) rows.new.items) }
    ensures longer { OnOk result (length rows.new.items ≡ length rows.old.items + 1) }
{
    let nurse = cursor.nurse(scenario)?;
    let shift = cursor.shift_or(b"Any", scenario)?;
    let day = cursor.day()?;
    Ok(rows.push(RequestRow { nurse, shift, day })?)
}

#[tactic(auto, using(rota_layout::proofs::ReadingLaws::row_steps))]
fn request_rows(
    cursor: &mut Cursor<'_>,
    alloc: Global,
    scenario: &Scenario,
    count: u16,
) -> Result<Vec<RequestRow>, LayoutError>
    ensures read { Reads (λ v. v.items) result cursor.new (read_layout (repeat count (request_row scenario.now) []) cursor.old) }
    ensures within { IfOk result (λ v. All (IsRequest (length scenario.now.nurses) (length scenario.now.shifts)) v.items) }
    ensures count { IfOk result (λ v. length v.items ≡ count) }
{
    let mut rows = Vec::new(alloc);
    for _ in 0..count {
        request_row(cursor, scenario, &mut rows)?;
    }
    Ok(rows)
}

// The rows of a week, from the whole text.
#[tactic(auto, using(rota_layout::proofs::ReadingLaws::front_fails), unfolding(crate::specs::WeekLayout::week, rota_layout::specs::Layout::exactly, rota_layout::specs::Layout::many, crate::specs::WeekRows::request_row, rota_layout::specs::Reading::read_layout, rota_layout::specs::Reading::read_text))]
fn week_parts(alloc: Global, scenario: &Scenario, text: &[u8]) -> Result<WeekParts, LayoutError>
    ensures read { ReadsFile week_tables_of result (read_text (week scenario.now) text.now) }
    ensures within { IfOk result (λ _. AreLimited (numbers_of scenario.now)) }
{
    let mut cursor = Cursor::open(text)?;
    cursor.exactly(b"WEEK_DATA")?;
    cursor.word()?;
    cursor.exactly(b"REQUIREMENTS")?;
    let requirements = requirement_rows(&mut cursor, alloc, scenario)?;
    cursor.exactly(b"=")?;
    let count = cursor.number(0, MAX_NUMBER)?;
    let requests = request_rows(&mut cursor, alloc, scenario, count)?;
    cursor.finish()?;
    let nurses = scenario.nurses();
    let shifts = scenario.shifts();
    Ok(WeekParts {
        nurses,
        shifts,
        skills: scenario.skills(),
        demands: day_table(alloc, &requirements, NO_DEMAND)?,
        requests: requests_of(alloc, nurses, shifts, &requests)?,
    })
}

/// Returns the week that the text spells, for a scenario.
///
/// The text is a week data file of the Second International Nurse Rostering Competition (INRC-II), in the
/// layout of `docs/formats.md`. If no row of requirements names a pair of a shift type and a skill, the pair
/// needs no nurse. Rows of requests may be equal: each counts, and a row for `Any` counts for every shift
/// type.
///
/// Here the three files of a week are read and joined:
///
/// ```
/// let scenario = read_scenario(alloc, scenario)?;
/// let history = read_history(alloc, &scenario, history)?;
/// let week = read_week(alloc, &scenario, week)?;
/// Ok(Instance::join(scenario, history, week, false)?)
/// ```
///
/// # Errors
///
/// `Bad` is the text's one fault: the fault of the first token that does not fit its position, with the
/// token's line, or `Ended`, with the line of the last token (1 if there is none). A text of more than
/// `MAX_FILE_LEN` bytes has `Limit` on line 0. `Memory` is returned only if memory runs out before a fault
/// was found.
#[tactic(auto, using(rota_layout::proofs::ReadingLaws::file_steps))]
pub fn read_week(alloc: Global, scenario: &Scenario, text: &[u8]) -> Result<Week, FileFault>
    ensures spelled { IfOk result (Spells (week scenario.now) text.now) }
    ensures numbers { IfOk result (λ w. w.numbers ≡ numbers_of scenario.now) }
    ensures fault { IfErr result (IsFaultOf files.Week (week scenario.now) text.now) }
{
    match week_parts(alloc, scenario, text) {
        Ok(parts) => Ok(Week::of_parts(parts)),
        Err(stop) => Err(stop.in_file(FileName::Week)),
    }
}
