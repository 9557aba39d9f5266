//! Files without a fault: their values, each file cut after every byte, and numbers, counts and lengths at
//! their limits.
use crate::changes::Edit::{Line, Sized};
use crate::changes::File::{self, Fix, His, Last, Sce, Week};
use crate::changes::{Changes, Texts, texts_of};
use crate::file_faults::{BASE, TWO_NURSES, name_of, read_all};
use crate::tables::Wanted::Writes;
use crate::tables::{Row, check, end_of, of, rows};
use crate::weeks::{ENCODING, ONE_CELL};
use rota_core::{FileFault, Instance, Kind};
use std::alloc::{AllocError, Global};
use std::process::Abort;
use std::test::Fail;

// The nurses' rows are in the other order. Two of the requests are for the first shift type, and one for any.
fn has_values(instance: &Instance) -> bool {
    if instance.nurses() != 2 || instance.shifts() != 2 || instance.skills() != 1 {
        return false;
    }
    let (ann, bob) = (instance.past(0), instance.past(1));
    let demand = instance.demand(0, 0, 0);
    (ann.assignments, ann.last, ann.off_run) == (9999, None, 6)
        && (bob.assignments, bob.weekends, bob.last) == (1, 2, Some(1))
        && (bob.shift_run, bob.work_run, bob.off_run) == (3, 4, 5)
        && (instance.requests(0, 0, 0), instance.requests(0, 0, 1)) == (3, 1)
        && (instance.requests(1, 0, 0), demand.minimum, demand.optimal) == (0, 1, 3)
}

#[test]
fn files_have_their_values(rt: HostRuntime) -> Result<(), Fail> {
    let texts = texts_of(rt.alloc(), &TWO_NURSES, &[])?;
    match read_all(rt.alloc(), &texts) {
        Ok((instance, cells)) => assert!(rt; has_values(&instance) && cells == 2),
        Err(fault) => panic!(rt; "{fault}"),
    }
    Ok(())
}

// If more than its last end of line is missing, the file ends too early or in another word.
fn check_cut(
    rt: &impl Abort,
    alloc: Global,
    file: File,
    length: usize,
    whole: bool,
) -> Result<(), AllocError> {
    let texts = texts_of(alloc, &BASE, &[(file, Sized(length))])?;
    let is_right = match read_all(alloc, &texts) {
        Ok(_) => whole,
        Err(
            FileFault::Bad {
                kind: Kind::Ended | Kind::OtherWord | Kind::Unknown,
                file: found,
                line,
            },
        ) => !whole && found == name_of(file) && line >= 1 && line <= 12,
        Err(_) => false,
    };
    assert!(rt; is_right, "{file:?} of {length} bytes");
    Ok(())
}

fn check_cuts(rt: &impl Abort, alloc: Global, file: File, text: &[u8]) -> Result<(), AllocError> {
    for length in 0..text.len() {
        let whole = length.saturating_add(1) >= text.len();
        check_cut(rt, alloc, file, length, whole)?;
    }
    Ok(())
}

#[test]
fn files_cut_after_each_byte(rt: HostRuntime) -> Result<(), Fail> {
    let [sce, his, week, fix, last] = BASE.inputs;
    check_cuts(&rt, rt.alloc(), Sce, sce)?;
    check_cuts(&rt, rt.alloc(), His, his)?;
    check_cuts(&rt, rt.alloc(), Week, week)?;
    check_cuts(&rt, rt.alloc(), Fix, fix)?;
    check_cuts(&rt, rt.alloc(), Last, last)?;
    Ok(())
}

const WEEKS: &[Row] = rows! {
    "the last of 52 weeks": [Sce Line(2, b"WEEKS = 52"), His Line(2, b"51 s1")] =>
        Writes(&[b"* #variable= 9 #constraint= 9\nmin: +20 x9 ;\n", ONE_CELL,
            b"+1 x1 +1 x2 +1 x3 +1 x4 +1 x5 +1 x6 +1 x7 +1 x9 >= 1 ;\n"]);
};

// Windows and patterns of one shift type, of work and of days off.
const NUMBERS: Changes = of!([
    Sce Line(6, b"Day (9999,9999)"),
    Sce Line(10, b"Full (9999,9999) (9999,9999) (9999,9999) 9999 0"),
    His Line(4, b"Ann 9999 9999 Day 9999 9999 9999")
]);

// The model of the week begins with this.
fn check_head(
    rt: &impl Abort,
    alloc: Global,
    texts: &Texts,
    head: &[u8],
) -> Result<(), AllocError> {
    let end = end_of(alloc, &texts.job(&ENCODING))?;
    assert_eq!(rt; end.outcome, Ok(()));
    assert!(rt; end.first.bytes().starts_with(head));
    Ok(())
}

#[test]
fn numbers_at_their_limits(rt: HostRuntime) -> Result<(), Fail> {
    check(&rt, rt.alloc(), &ENCODING, WEEKS)?;
    let texts = texts_of(rt.alloc(), &ENCODING, NUMBERS)?;
    check_head(
        &rt,
        rt.alloc(),
        &texts,
        b"* #variable= 74 #constraint= 74\n",
    )?;
    Ok(())
}

const SKILLS: &str = "16 a b c d e f g h i j k l m n o p";

// This number of lines, each with its number.
fn numbered(alloc: Global, count: u32, before: &str, after: &str) -> Result<String, Fail> {
    let mut text = String::new(alloc);
    for number in 0..count {
        let line = format!(in alloc; "{before}{number}{after}\n")?;
        text.push_str(line.as_str())?;
    }
    Ok(text)
}

// The start of a section, the number of its lines, and the text before and after the number of each.
type Section<'a> = (&'a str, u32, &'a str, &'a str);

// The sections of a file, one after the other.
fn text_of(alloc: Global, sections: &[Section]) -> Result<Vec<u8>, Fail> {
    let mut text = Vec::new(alloc);
    for (start, count, before, after) in sections {
        text.extend_from_slice(start.as_bytes())?;
        let lines = numbered(alloc, *count, before, after)?;
        text.extend_from_slice(lines.as_bytes())?;
    }
    Ok(text)
}

// The scenario of this number of nurses and shift types, 64 contracts, and these skills, which each nurse has.
fn large_scenario(alloc: Global, nurses: u32, shifts: u32, skills: &str) -> Result<Vec<u8>, Fail> {
    let start = format!(in alloc;
        "SCENARIO = s1 WEEKS = 2 SKILLS = {skills} SHIFT_TYPES = {shifts} "
    )?;
    let nurse_start = format!(in alloc; "NURSES = {nurses} ")?;
    let skilled = format!(in alloc; " c63 {skills}")?;
    text_of(
        alloc,
        &[
            (start.as_str(), shifts, "t", " (1,9)"),
            ("FORBIDDEN_SHIFT_TYPES_SUCCESSIONS ", shifts, "t", " 0"),
            ("CONTRACTS = 64 ", 64, "c", " (1,9) (1,9) (1,9) 9 0"),
            (nurse_start.as_str(), nurses, "n", skilled.as_str()),
        ],
    )
}

// The files of a week with this scenario.
fn large(alloc: Global, nurses: u32, shifts: u32, skills: &str) -> Result<Texts, Fail> {
    let mut texts = texts_of(alloc, &ENCODING, &[])?;
    texts.sce = large_scenario(alloc, nurses, shifts, skills)?;
    let pasts = (
        "HISTORY 0 s1 NURSE_HISTORY ",
        nurses,
        "n",
        " 0 0 None 0 0 0",
    );
    texts.his = text_of(alloc, &[pasts])?;
    Ok(texts)
}

// 256 rows: one nurse for each shift type, skill and day.
#[test]
fn each_requirement(rt: HostRuntime) -> Result<(), Fail> {
    let alloc = rt.alloc();
    let mut texts = large(alloc, 1, 16, SKILLS)?;
    texts.week = Vec::from_slice(alloc, b"WEEK_DATA s1 REQUIREMENTS\n")?;
    for skill in SKILLS.split(' ').skip(1) {
        let row = format!(in alloc; " {skill} (1,1) (1,1) (1,1) (1,1) (1,1) (1,1) (1,1)")?;
        let rows = numbered(alloc, 16, "t", row.as_str())?;
        texts.week.extend_from_slice(rows.as_bytes())?;
    }
    texts.week.extend_from_slice(b"SHIFT_OFF_REQUESTS = 0\n")?;
    check_head(&rt, alloc, &texts, b"* #variable= 1793 #constraint= 1800\n")?;
    Ok(())
}

const HELD: &str =
    " Mon t0, Tue t0, Wed t0, Thu t0, Fri t0, Sat t0, Sun t0, Mon t1, Tue t1, Wed t1, Thu t1";

// 9999 rows: eleven for each of 909 of 1000 nurses.
#[test]
fn most_held_cells(rt: HostRuntime) -> Result<(), Fail> {
    let alloc = rt.alloc();
    let mut texts = large(alloc, 1000, 2, "1 a")?;
    texts.fix = Vec::from_slice(alloc, b"SOLUTION 0 s1 ASSIGNMENTS = 9999\n")?;
    for cell in HELD.split(',') {
        let row = format!(in alloc; "{cell} a")?;
        let rows = numbered(alloc, 909, "n", row.as_str())?;
        texts.fix.extend_from_slice(rows.as_bytes())?;
    }
    check_head(
        &rt,
        alloc,
        &texts,
        b"* #variable= 14001 #constraint= 17000\n",
    )?;
    Ok(())
}

// A name that gives the file the maximum number of bytes.
#[test]
fn longest_name(rt: HostRuntime) -> Result<(), Fail> {
    let [scenario, ..] = ENCODING.inputs;
    let mut first_line = Vec::from_slice(rt.alloc(), b"SCENARIO = ")?;
    first_line.resize(4194317_usize.saturating_sub(scenario.len()), b'n')?;
    let texts = texts_of(rt.alloc(), &ENCODING, &[(Sce, Line(1, &first_line))])?;
    assert_eq!(rt; texts.sce.len(), 4194304);
    check_head(&rt, rt.alloc(), &texts, b"* #variable= 8 #constraint= 8\n")?;
    Ok(())
}
