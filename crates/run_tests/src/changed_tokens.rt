//! Files with each token replaced, preceded or cut off by each of these words. No fault names
//! memory. `tests/random/changed_tokens.py` finds the same numbers of faults with the helpers' readers.
use crate::changes::{Base, texts_of};
use crate::file_faults::read_tables;
use crate::jobs::Kind as JobKind;
use rota_certificate_read::{read_certificate, read_facts};
use rota_core::{FileFault, FileName, Instance, Kind};
use rota_read::{read_fixed, read_history, read_scenario, read_solution, read_week};
use std::alloc::{AllocError, Global};
use std::process::Abort;
use std::test::Fail;

// In these files one space or end of line follows each token.
const SCENARIO: &[u8] = b"SCENARIO = s1
WEEKS = 2
SKILLS = 2
Nurse Head
SHIFT_TYPES = 2
Early ( 1 , 9 )
Late ( 1 , 9 )
FORBIDDEN_SHIFT_TYPES_SUCCESSIONS
Early 0
Late 1 Early
CONTRACTS = 2
Full ( 1 , 9 ) ( 1 , 9 ) ( 1 , 9 ) 9 0
Half ( 1 , 9 ) ( 1 , 9 ) ( 1 , 9 ) 9 1
NURSES = 2
Ann Full 2 Head Nurse
Bob Half 1 Nurse
";

const HISTORY: &[u8] = b"HISTORY
0 s1
NURSE_HISTORY
Bob 1 2 Late 3 4 5
Ann 9999 0 None 0 0 6
";

const WEEK: &[u8] = b"WEEK_DATA
s1
REQUIREMENTS
Late Head ( 0 , 1 ) ( 0 , 1 ) ( 0 , 1 ) ( 0 , 1 ) ( 0 , 1 ) ( 0 , 1 ) ( 0 , 1 )
Early Head ( 0 , 1 ) ( 0 , 1 ) ( 0 , 1 ) ( 0 , 1 ) ( 0 , 1 ) ( 0 , 1 ) ( 0 , 1 )
SHIFT_OFF_REQUESTS = 2
Ann Early Mon
Bob Any Sun
";

const SOLUTION: &[u8] = b"SOLUTION
0 s1
ASSIGNMENTS = 2
Ann Mon Early Nurse
Bob Mon Early Nurse
";

const CERTIFICATE: &[u8] = b"CERTIFICATE
s1
WEEKS = 2
PRICES = 2
ROWS = 0
ROWS = 2
Late Head 0 0 0 22500 0 0 999999999
Early Head 1 2 3 4 5 6 7
ROWS = 0
ROWS = 0
LEAVES = 3
SPLIT CHOICE 1 Ann Mon None
SPLIT PLACE 2 Sun Late Head 9
LEAF 0 SURCHARGES = 2
0 999999999
LEAF 1 SURCHARGES = 0
LEAF 1 SURCHARGES = 1
7
";

const FACTS: &[u8] = b"FACTS
s1
ROWS = 5
HOLDS CHOICE 2 Bob Sun Early
NOT PLACE 1 Mon Early Nurse 0
HOLDS CHARGES WORK_DAYS NURSE Ann 0
NOT CHARGES SHIFT_RUNS ALL 3
HOLDS EVEN
";

const BASE: Base = Base {
    kind: JobKind::Extend,
    early: false,
    inputs: [SCENARIO, HISTORY, WEEK, b"", SOLUTION],
};

const WORDS: &str =
    "( ) , = 0 1 2 9 10 16 17 52 64 1000 9999 10000 999999999 1000000000 4294967296 007 -1 +1 1.5 \
    none None Any SCENARIO SHIFT_OFF_REQUESTS ROWS LEAF EVEN s1 Early Late Nurse Head Full Ann Bob Mon Sun";

fn is_blank(byte: &u8) -> bool {
    *byte == b' ' || *byte == b'\n'
}

// The tokens before the one with this number, the word, and the tokens from number `rest` on.
fn changed(
    alloc: Global,
    text: &[u8],
    number: usize,
    word: &str,
    rest: usize,
) -> Result<Vec<u8>, AllocError> {
    let mut made = Vec::new(alloc);
    for token in text.split_inclusive(is_blank).take(number) {
        made.extend_from_slice(token)?;
    }
    made.extend_from_slice(word.as_bytes())?;
    made.push(b' ')?;
    for token in text.split_inclusive(is_blank).skip(rest) {
        made.extend_from_slice(token)?;
    }
    Ok(made)
}

// The fault of a file that goes with the instance.
fn fault_of(alloc: Global, instance: &Instance, file: FileName, text: &[u8]) -> Option<FileFault> {
    let scenario = instance.scenario();
    match file {
        FileName::Scenario => read_scenario(alloc, text).err(),
        FileName::History => read_history(alloc, scenario, text).err(),
        FileName::Week => read_week(alloc, scenario, text).err(),
        FileName::Solution => read_solution(alloc, instance, text).err(),
        FileName::Fixed => read_fixed(alloc, instance, text).err(),
        FileName::Certificate => read_certificate(alloc, scenario, 2, text).err(),
        FileName::Facts => read_facts(alloc, scenario, 2, text).err(),
    }
}

// A file, and the numbers of its changed texts that have no fault, and that have a fault of each kind: `Ended`, `OtherWord`,
// `NoNumber`, `Limit`, `Unknown`, `Repeated` and `Trailing`. The last number is the sum of the faults' lines.
type Ends = (FileName, &'static [u8], [u64; 9]);

const ENDS: [Ends; 4] = [
    (
        FileName::Scenario,
        SCENARIO,
        [394, 645, 5168, 2203, 603, 1154, 37, 128, 102294],
    ),
    (
        FileName::History,
        HISTORY,
        [189, 166, 355, 834, 132, 498, 4, 159, 8738],
    ),
    (
        FileName::Week,
        WEEK,
        [441, 461, 5948, 2204, 348, 1169, 2, 128, 48617],
    ),
    (
        FileName::Solution,
        SOLUTION,
        [68, 84, 523, 151, 24, 865, 2, 128, 6719],
    ),
];

const CERTIFICATE_ENDS: [Ends; 2] = [
    (
        FileName::Certificate,
        CERTIFICATE,
        [359, 449, 3764, 2535, 483, 1247, 2, 140, 88773],
    ),
    (
        FileName::Facts,
        FACTS,
        [97, 118, 2262, 455, 132, 744, 0, 128, 20177],
    ),
];

// The number of a kind in `Ends`. No text here has the week number of a later week.
fn number_of(kind: Kind) -> usize {
    match kind {
        Kind::Ended => 1,
        Kind::OtherWord => 2,
        Kind::NoNumber => 3,
        Kind::Limit => 4,
        Kind::Unknown => 5,
        Kind::Repeated => 6,
        Kind::Trailing | Kind::LateWeek => 7,
    }
}

fn add(ends: &mut [u64; 9], number: usize, count: u64) {
    if let Some(end) = ends.get_mut(number) {
        *end = end.saturating_add(count);
    }
}

// Counts the end of a text.
fn count_end(
    rt: &impl Abort,
    alloc: Global,
    instance: &Instance,
    (file, text): (FileName, &[u8]),
    ends: &mut [u64; 9],
) {
    match fault_of(alloc, instance, file, text) {
        None => add(ends, 0, 1),
        Some(FileFault::Bad { kind, line, .. }) => {
            add(ends, number_of(kind), 1);
            add(ends, 8, u64::from(line));
        }
        Some(FileFault::Memory) => panic!(rt; "{file}: {text:?}"),
    }
}

// The ends of all changes of a file. Each word also follows its last token.
fn ends_of(
    rt: &impl Abort,
    alloc: Global,
    instance: &Instance,
    file: FileName,
    text: &[u8],
) -> Result<[u64; 9], AllocError> {
    let count = text.split_inclusive(is_blank).count();
    let mut ends = [0; 9];
    for number in 0..=count {
        for word in WORDS.split(' ') {
            for rest in [number.saturating_add(1), number, count] {
                let made = changed(alloc, text, number, word, rest)?;
                count_end(rt, alloc, instance, (file, &made), &mut ends);
            }
        }
    }
    Ok(ends)
}

// Changes each token of these files.
fn change_each(rt: &impl Abort, alloc: Global, files: &[Ends]) -> Result<(), Fail> {
    let texts = texts_of(alloc, &BASE, &[])?;
    match read_tables(alloc, &texts, false) {
        Ok(instance) => {
            for (file, text, wanted) in files {
                let ends = ends_of(rt, alloc, &instance, *file, text)?;
                assert_eq!(rt; ends, *wanted, "{file}");
            }
            Ok(())
        }
        Err(fault) => panic!(rt; "{fault}"),
    }
}

#[test]
fn each_token_changed(rt: HostRuntime) -> Result<(), Fail> {
    change_each(&rt, rt.alloc(), &ENDS)
}

#[test]
fn each_token_of_certificates_changed(rt: HostRuntime) -> Result<(), Fail> {
    change_each(&rt, rt.alloc(), &CERTIFICATE_ENDS)
}
