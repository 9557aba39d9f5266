//! Facts' files: their values, and their faults.
use crate::week_files::two_nurses;
use rota_certificate_read::{GivenFacts, read_facts};
use rota_core::Kind::{Ended, Limit, NoNumber, OtherWord, Trailing, Unknown};
use rota_core::{ChargeKind, ChargeLimit, DayChoice, Fact, FileFault, FileName, Kind, NurseLimit};
use rota_read::read_scenario;
use std::alloc::Global;
use std::process::Abort;

// The facts that the text spells about plans of two weeks, for two nurses, three shift types and two skills.
fn facts_of(alloc: Global, text: &[u8]) -> Result<GivenFacts, FileFault> {
    let scenario = read_scenario(alloc, two_nurses().scenario)?;
    read_facts(alloc, &scenario, 2, text)
}

const ALL_FACTS: &[u8] = b"FACTS other

ROWS = 9
HOLDS CHOICE 2 Bob Sun Late
NOT CHOICE 1 Ann Mon None
HOLDS PLACE 1 Sat Night Nurse 9999
NOT CHARGES SHIFT_RUNS ALL 0
HOLDS CHARGES WORK_DAYS NURSE Bob 1
HOLDS CHARGES SHIFTS ALL 2
HOLDS CHARGES WEEKENDS NURSE Ann 3
NOT
EVEN NOT EVEN
";

fn choice(week: u8, nurse: u16, day: u8, choice: Option<u8>) -> Fact {
    Fact::Choice(DayChoice {
        week,
        nurse,
        day,
        choice,
    })
}

fn charges(kind: ChargeKind, nurse: Option<u16>, most: u16) -> Fact {
    Fact::Charges(ChargeLimit { kind, nurse, most })
}

// The facts of the file, each with whether it holds and the line that it begins on.
fn wanted_facts() -> [(u32, bool, Fact); 9] {
    let place = NurseLimit {
        week: 0,
        day: 5,
        shift: 2,
        skill: 1,
        most: 9999,
    };
    [
        (4, true, choice(1, 1, 6, Some(1))),
        (5, false, choice(0, 0, 0, None)),
        (6, true, Fact::Nurses(place)),
        (7, false, charges(ChargeKind::ShiftRuns, None, 0)),
        (8, true, charges(ChargeKind::WorkDays, Some(1), 1)),
        (9, true, charges(ChargeKind::Assignments, None, 2)),
        (10, true, charges(ChargeKind::Weekends, Some(0), 3)),
        (11, false, Fact::EvenShiftRuns),
        (12, false, Fact::EvenShiftRuns),
    ]
}

fn are_wanted(found: &GivenFacts) -> bool {
    let wanted = wanted_facts();
    let conditions = &found.conditions;
    let lines = &found.lines;
    conditions.len() == wanted.len()
        && conditions.iter().zip(wanted).all(|(one, (_, holds, fact))| one.holds == holds
            && one.fact == fact)
        && lines
            .iter()
            .zip(wanted_facts())
            .all(|(line, (wanted, _, _))| *line == wanted)
}

#[test]
fn facts_have_their_values(rt: HostRuntime) {
    match facts_of(rt.alloc(), ALL_FACTS) {
        Ok(found) => assert!(rt; are_wanted(&found)),
        Err(fault) => panic!(rt; "{fault}"),
    }
}

#[test]
fn no_facts(rt: HostRuntime) {
    let none = facts_of(rt.alloc(), b"FACTS s1 ROWS = 0");
    assert!(rt; none.is_ok_and(|found| found.conditions.is_empty() && found.lines.is_empty()));
}

/// A text, and the kind and line of its fault.
type Faulty = (&'static [u8], Kind, u32);

macro_rules! faults {
    ($($text:literal => $kind:ident $line:literal;)*) => { &[$(($text, $kind, $line)),*] };
}

const FAULTS: &[Faulty] = faults! {
    b"" => Ended 1;
    b"CERTIFICATE s1\nROWS = 0" => OtherWord 1;
    b"FACTS\n= ROWS = 0" => OtherWord 2;
    b"FACTS s1\nOFF = 0" => OtherWord 2;
    b"FACTS s1\nROWS = 10000" => Limit 2;
    b"FACTS s1\nROWS = 0\nHOLDS" => Trailing 3;
    b"FACTS s1\nROWS = 2\nHOLDS EVEN\n" => Ended 3;
    b"FACTS s1\nROWS = 1\nEVEN" => OtherWord 3;
    b"FACTS s1\nROWS = 1\nholds EVEN" => OtherWord 3;
    b"FACTS s1\nROWS = 1\nNOT\nODD" => OtherWord 4;
    b"FACTS s1\nROWS = 1\nNOT\n(" => OtherWord 4;
    b"FACTS s1\nROWS = 1\nHOLDS CHOICE\n0 Ann Mon None" => Limit 4;
    b"FACTS s1\nROWS = 1\nHOLDS CHOICE\n3 Ann Mon None" => Limit 4;
    b"FACTS s1\nROWS = 1\nHOLDS CHOICE\nAnn Mon None" => NoNumber 4;
    b"FACTS s1\nROWS = 1\nHOLDS CHOICE 2\nCarl Mon None" => Unknown 4;
    b"FACTS s1\nROWS = 1\nHOLDS CHOICE 2 Ann\nMonday None" => Unknown 4;
    b"FACTS s1\nROWS = 1\nHOLDS CHOICE 2 Ann Mon\nAny" => Unknown 4;
    b"FACTS s1\nROWS = 1\nHOLDS CHOICE 2 Ann Mon\nHead" => Unknown 4;
    b"FACTS s1\nROWS = 1\nHOLDS PLACE\n3 Mon Late Head 0" => Limit 4;
    b"FACTS s1\nROWS = 1\nHOLDS PLACE 1\nAnn Late Head 0" => Unknown 4;
    b"FACTS s1\nROWS = 1\nHOLDS PLACE 1 Mon\nNone Head 0" => Unknown 4;
    b"FACTS s1\nROWS = 1\nHOLDS PLACE 1 Mon Late\nEarly 0" => Unknown 4;
    b"FACTS s1\nROWS = 1\nHOLDS PLACE 1 Mon Late Head\n10000" => Limit 4;
    b"FACTS s1\nROWS = 1\nHOLDS PLACE 1 Mon Late Head\n" => Ended 3;
    b"FACTS s1\nROWS = 1\nHOLDS CHARGES\nALL 0" => OtherWord 4;
    b"FACTS s1\nROWS = 1\nHOLDS CHARGES SHIFTS\nAnn 0" => OtherWord 4;
    b"FACTS s1\nROWS = 1\nHOLDS CHARGES SHIFTS NURSE\nALL 0" => Unknown 4;
    b"FACTS s1\nROWS = 1\nHOLDS CHARGES SHIFTS ALL\n-1" => NoNumber 4;
    b"FACTS s1\nROWS = 1\nHOLDS CHARGES SHIFTS ALL\n10000" => Limit 4;
    b"FACTS s1\nROWS = 1\nHOLDS EVEN\n0" => Trailing 4;
};

fn check_fault(rt: &impl Abort, alloc: Global, text: &[u8], kind: Kind, line: u32) {
    let file = FileName::Facts;
    let wanted = FileFault::Bad { kind, file, line };
    let found = facts_of(alloc, text).err();
    assert!(rt; found == Some(wanted), "{wanted}");
}

#[test]
fn faults_of_facts(rt: HostRuntime) {
    for (text, kind, line) in FAULTS {
        check_fault(&rt, rt.alloc(), text, *kind, *line);
    }
}
