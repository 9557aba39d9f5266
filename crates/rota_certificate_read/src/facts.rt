//! Reads facts about a plan, and a facts' file.

ghost use Rattle.std.specs.Prelude.{◌≡◌, ◌≤◌, codes, length, IfOk, IfErr};
ghost use Rattle.rota_core.specs.Certificates.{AreConditionsFor};
ghost use Rattle.rota_core.specs.Limits.{max_number};
ghost use Rattle.rota_core.specs.ScenarioTables.{numbers_of};
ghost use Rattle.rota_core.specs.declared.fault.FileName.TheVariants as files;
ghost use Rattle.rota_layout.specs.FileAnswers.{IsFaultOf};
ghost use Rattle.rota_layout.specs.Files.{Spells};
ghost use Rattle.rota_layout.specs.Layout.{repeat};
ghost use Rattle.rota_certificate_read.specs.FactsLayout.{charge_kind, charge_limit, condition_row, day_choice, fact, fact_word, facts, given_of, is_first, keyword, keyword_on_line, no_facts, nurse_limit, nurse_unless, one_of_two, week_number};
ghost use Rattle.rota_layout.specs.Reading.{read_layout, read_text, Reads, ReadsFile};

use rota_core::{
    ChargeKind, ChargeLimit, Condition, DayChoice, Fact, FileFault, FileName, Kind, MAX_NUMBER,
    NurseLimit, Scenario,
};
use rota_layout::{Cursor, LayoutError};
use std::alloc::Global;

/// Facts about all plans.
#[derive(Drop)]
pub struct GivenFacts {
    /// Each fact, with whether it holds.
    pub conditions: Vec<Condition>,
    /// The line of the file that each fact begins on.
    pub lines: Vec<u32>,
}

/// The word that a fact begins with.
#[derive(Clone, Copy)]
pub enum FactWord {
    Choice,
    Place,
    Charges,
    Even,
}

fn fact_word(word: &[u8]) -> Option<FactWord>
    ensures { result ≡ fact_word word.now }
{
    if word == b"CHOICE".as_slice() {
        return Some(FactWord::Choice);
    }
    if word == b"PLACE".as_slice() {
        return Some(FactWord::Place);
    }
    if word == b"CHARGES".as_slice() {
        return Some(FactWord::Charges);
    }
    if word == b"EVEN".as_slice() {
        return Some(FactWord::Even);
    }
    None
}

fn charge_kind(word: &[u8]) -> Option<ChargeKind>
    ensures { result ≡ charge_kind word.now }
{
    if word == b"SHIFT_RUNS".as_slice() {
        return Some(ChargeKind::ShiftRuns);
    }
    if word == b"WORK_DAYS".as_slice() {
        return Some(ChargeKind::WorkDays);
    }
    if word == b"SHIFTS".as_slice() {
        return Some(ChargeKind::Assignments);
    }
    if word == b"WEEKENDS".as_slice() {
        return Some(ChargeKind::Weekends);
    }
    None
}

// Whether the word is the first of these two, if it is one of them.
fn is_first(first: &[u8], second: &[u8], word: &[u8]) -> Option<bool>
    ensures { result ≡ is_first first.now second.now word.now }
{
    if word == first {
        return Some(true);
    }
    if word == second {
        return Some(false);
    }
    None
}

#[tactic(auto, unfolding(crate::specs::FactsLayout::keyword, rota_layout::specs::Reading::read_layout))]
fn next_fact_word(cursor: &mut Cursor<'_>) -> Result<FactWord, LayoutError>
    ensures { Reads (λ word. word) result cursor.new (read_layout (keyword fact_word) cursor.old) }
{
    let token = cursor.token()?;
    fact_word(token.word).ok_or(token.fault(Kind::OtherWord))
}

#[tactic(auto, unfolding(crate::specs::FactsLayout::keyword, rota_layout::specs::Reading::read_layout))]
fn next_charge_kind(cursor: &mut Cursor<'_>) -> Result<ChargeKind, LayoutError>
    ensures { Reads (λ kind. kind) result cursor.new (read_layout (keyword charge_kind) cursor.old) }
{
    let token = cursor.token()?;
    charge_kind(token.word).ok_or(token.fault(Kind::OtherWord))
}

// Whether the next token is the first of two words; otherwise it is the second.
#[tactic(auto, unfolding(crate::specs::FactsLayout::one_of_two, crate::specs::FactsLayout::keyword, rota_layout::specs::Reading::read_layout))]
fn one_of_two(cursor: &mut Cursor<'_>, first: &[u8], second: &[u8]) -> Result<bool, LayoutError>
    ensures { Reads (λ is. is) result cursor.new (read_layout (one_of_two first.now second.now) cursor.old) }
{
    let token = cursor.token()?;
    is_first(first, second, token.word).ok_or(token.fault(Kind::OtherWord))
}

// Whether the next fact holds, and the line that it begins on.
#[tactic(auto, unfolding(crate::specs::FactsLayout::keyword_on_line, rota_layout::specs::Reading::read_layout))]
fn beginning(cursor: &mut Cursor<'_>) -> Result<(bool, u32), LayoutError>
    ensures { Reads (λ first. first) result cursor.new (read_layout (keyword_on_line (is_first (codes "HOLDS") (codes "NOT"))) cursor.old) }
{
    let token = cursor.token()?;
    let Some(holds) = is_first(b"HOLDS", b"NOT", token.word) else {
        return Err(token.fault(Kind::OtherWord));
    };
    Ok((holds, token.line))
}

// A week, from 0.
#[tactic(auto, unfolding(crate::specs::FactsLayout::week_number, rota_layout::specs::Reading::read_layout))]
fn week_number(cursor: &mut Cursor<'_>, weeks: u8) -> Result<u8, LayoutError>
    ensures { Reads (λ week. week) result cursor.new (read_layout (week_number weeks) cursor.old) }
{
    let number = cursor.number(1, u16::from(weeks))?;
    Ok(number as u8 - 1)
}

#[tactic(auto, unfolding(crate::specs::FactsLayout::day_choice, rota_layout::specs::Reading::read_layout))]
fn day_choice(
    cursor: &mut Cursor<'_>,
    scenario: &Scenario,
    weeks: u8,
) -> Result<DayChoice, LayoutError>
    ensures { Reads (λ one. one) result cursor.new (read_layout (day_choice scenario.now weeks) cursor.old) }
{
    let week = week_number(cursor, weeks)?;
    let nurse = cursor.nurse(scenario)?;
    let day = cursor.day()?;
    let choice = cursor.shift_or(b"None", scenario)?;
    Ok(DayChoice {
        week,
        nurse,
        day,
        choice,
    })
}

#[tactic(auto, unfolding(crate::specs::FactsLayout::nurse_limit, rota_layout::specs::Reading::read_layout))]
fn nurse_limit(
    cursor: &mut Cursor<'_>,
    scenario: &Scenario,
    weeks: u8,
) -> Result<NurseLimit, LayoutError>
    ensures { Reads (λ one. one) result cursor.new (read_layout (nurse_limit scenario.now weeks) cursor.old) }
{
    let week = week_number(cursor, weeks)?;
    let day = cursor.day()?;
    let shift = cursor.shift(scenario)?;
    let skill = cursor.skill(scenario)?;
    let most = cursor.number(0, MAX_NUMBER)?;
    Ok(NurseLimit {
        week,
        day,
        shift,
        skill,
        most,
    })
}

// No nurse for all nurses, and otherwise a nurse.
#[tactic(auto, unfolding(crate::specs::FactsLayout::nurse_unless, rota_layout::specs::Reading::read_layout))]
fn nurse_unless(
    cursor: &mut Cursor<'_>,
    scenario: &Scenario,
    all: bool,
) -> Result<Option<u16>, LayoutError>
    ensures { Reads (λ nurse. nurse) result cursor.new (read_layout (nurse_unless scenario.now all) cursor.old) }
{
    if all {
        return Ok(None);
    }
    Ok(Some(cursor.nurse(scenario)?))
}

#[tactic(auto, unfolding(crate::specs::FactsLayout::charge_limit, rota_layout::specs::Reading::read_layout))]
fn charge_limit(cursor: &mut Cursor<'_>, scenario: &Scenario) -> Result<ChargeLimit, LayoutError>
    ensures { Reads (λ one. one) result cursor.new (read_layout (charge_limit scenario.now) cursor.old) }
{
    let kind = next_charge_kind(cursor)?;
    let all = one_of_two(cursor, b"ALL", b"NURSE")?;
    let nurse = nurse_unless(cursor, scenario, all)?;
    let most = cursor.number(0, MAX_NUMBER)?;
    Ok(ChargeLimit { kind, nurse, most })
}

/// A fact about a plan of this number of weeks.
#[tactic(auto, unfolding(crate::specs::FactsLayout::fact, crate::specs::FactsLayout::fact_after, rota_layout::specs::Reading::read_layout))]
pub fn fact(cursor: &mut Cursor<'_>, scenario: &Scenario, weeks: u8) -> Result<Fact, LayoutError>
    ensures { Reads (λ one. one) result cursor.new (read_layout (fact scenario.now weeks) cursor.old) }
{
    match next_fact_word(cursor)? {
        FactWord::Choice => Ok(Fact::Choice(day_choice(cursor, scenario, weeks)?)),
        FactWord::Place => Ok(Fact::Nurses(nurse_limit(cursor, scenario, weeks)?)),
        FactWord::Charges => Ok(Fact::Charges(charge_limit(cursor, scenario)?)),
        FactWord::Even => Ok(Fact::EvenShiftRuns),
    }
}

// Reads one more fact.
#[tactic(auto, unfolding(crate::specs::FactsLayout::condition_row, rota_layout::specs::Reading::read_layout))]
fn condition_row(
    cursor: &mut Cursor<'_>,
    scenario: &Scenario,
    weeks: u8,
    given: &mut GivenFacts,
) -> Result<(), LayoutError>
    ensures { Reads (λ _. given_of given.new) result cursor.new (read_layout (condition_row scenario.now weeks (given_of given.old)) cursor.old) }
{
    let (holds, line) = beginning(cursor)?;
    let fact = fact(cursor, scenario, weeks)?;
    given.conditions.push(Condition { fact, holds })?;
    Ok(given.lines.push(line)?)
}

// Reads this number of facts.
#[tactic(auto, using(rota_layout::proofs::ReadingLaws::row_steps))]
fn condition_rows(
    cursor: &mut Cursor<'_>,
    alloc: Global,
    scenario: &Scenario,
    weeks: u8,
    count: u16,
) -> Result<GivenFacts, LayoutError>
    ensures { Reads given_of result cursor.new (read_layout (repeat count (condition_row scenario.now weeks) no_facts) cursor.old) }
{
    let mut given = GivenFacts {
        conditions: Vec::new(alloc),
        lines: Vec::new(alloc),
    };
    for _ in 0..count {
        condition_row(cursor, scenario, weeks, &mut given)?;
    }
    Ok(given)
}

// The facts of the whole text.
#[tactic(auto, using(rota_layout::proofs::ReadingLaws::front_fails), unfolding(crate::specs::FactsLayout::facts, rota_layout::specs::Layout::exactly, rota_layout::specs::Reading::read_layout, rota_layout::specs::Reading::read_text))]
fn whole_facts(
    alloc: Global,
    scenario: &Scenario,
    weeks: u8,
    text: &[u8],
) -> Result<GivenFacts, LayoutError>
    ensures { ReadsFile given_of result (read_text (facts scenario.now weeks) text.now) }
{
    let mut cursor = Cursor::open(text)?;
    cursor.exactly(b"FACTS")?;
    cursor.word()?;
    let count = cursor.setting(b"ROWS", 0, MAX_NUMBER)?;
    let given = condition_rows(&mut cursor, alloc, scenario, weeks, count)?;
    cursor.finish()?;
    Ok(given)
}

/// Returns the facts that the text spells, each with whether it holds and with the line that it begins on, for a
/// scenario and plans of this number of weeks.
///
/// The text is a facts' file, in the layout of `docs/formats.md`.
///
/// # Errors
///
/// `Bad` is the text's one fault: the fault of the first token that does not fit its position, with the
/// token's line, or `Ended`, with the line of the last token (1 if there is none). A text of more than
/// `MAX_FILE_LEN` bytes has `Limit` on line 0. `Memory` is returned only if memory runs out before a fault
/// was found.
#[tactic(auto, using(crate::proofs::FactsLaws::facts_steps))]
pub fn read_facts(
    alloc: Global,
    scenario: &Scenario,
    weeks: u8,
    text: &[u8],
) -> Result<GivenFacts, FileFault>
    ensures spelled { IfOk result (λ given. Spells (facts scenario.now weeks) text.now (given_of given)) }
    ensures few { IfOk result (λ given. length given.conditions.items ≤ max_number) }
    ensures shape { IfOk result (λ given. AreConditionsFor (numbers_of scenario.now) weeks given.conditions.items) }
    ensures lines { IfOk result (λ given. length given.lines.items ≡ length given.conditions.items) }
    ensures fault { IfErr result (IsFaultOf files.Facts (facts scenario.now weeks) text.now) }
{
    whole_facts(alloc, scenario, weeks, text).map_err(|stop| stop.in_file(FileName::Facts))
}
