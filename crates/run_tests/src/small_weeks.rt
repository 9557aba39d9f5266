//! Small weeks and their models: hard rules, held cells, other spellings, and files that are refused.
use crate::changes::Edit::{Ends, Is, Line, Sized};
use crate::changes::File::{Fix, His, Sce, Week};
use crate::counted_weeks::check_models;
use crate::jobs::WEDNESDAY;
use crate::tables::Wanted::{Bad, Writes};
use crate::tables::{Row, Wanted, check, of, rows};
use crate::weeks::{ENCODING, ONE_CELL, TWELVE, TWO_CELLS};
use rota_core::{FileName, Kind};
use std::test::Fail;

// The model of the unchanged week, and the model with Wednesday held.
const PLAIN: Wanted = Writes(&[b"* #variable= 8 #constraint= 8\n", ONE_CELL]);

const HOLDING: Wanted = Writes(&[
    b"* #variable= 8 #constraint= 9\n",
    ONE_CELL,
    b"+1 x3 >= 1 ;\n",
]);

const HARD_RULES: &[Row] = rows! {
    "one nurse one shift": [] => Writes(&[b"* #variable= 8 #constraint= 8\n", ONE_CELL]);
    "scenario without the skill": [Sce Line(12, b"Ann Full 0")] =>
        Writes(&[b"* #variable= 8 #constraint= 9\n", ONE_CELL, b"-1 x1 -1 x2 -1 x3 -1 x4 -1 x5 -1 x6 -1 x7 >= 0 ;\n"]);
    "demand nobody can meet":
        [Sce Line(12, b"Ann Full 0"), Week Line(4, b"Day Nurse (1,1) (0,0) (0,0) (0,0) (0,0) (0,0) (0,0)"), Week Line(5, b"SHIFT_OFF_REQUESTS = 0")] =>
        Writes(&[b"* #variable= 8 #constraint= 10\n", ONE_CELL, b"+1 x1 >= 1 ;
-1 x1 -1 x2 -1 x3 -1 x4 -1 x5 -1 x6 -1 x7 >= 0 ;\n"]);
    "succession after the history":
        [Sce Line(5, b"SHIFT_TYPES = 2"), Sce Line(6, b"Early (1,9)\nNight (1,9)"), Sce Line(9, b"Early 0\nNight 1 Early"), His Line(4, b"Ann 1 0 Night 1 1 0")] =>
        Writes(&[b"* #variable= 15 #constraint= 15\n", TWO_CELLS, b"-1 x1 >= 0 ;
-1 x2 -1 x3 >= -1 ;
-1 x4 -1 x5 >= -1 ;
-1 x6 -1 x7 >= -1 ;
-1 x8 -1 x9 >= -1 ;
-1 x10 -1 x11 >= -1 ;
-1 x12 -1 x13 >= -1 ;\n"]);
    "two cells on one day":
        [Sce Line(3, b"SKILLS = 2"), Sce Line(4, b"Nurse Head"), Sce Line(12, b"Ann Full 2 Nurse Head")] =>
        Writes(&[b"* #variable= 15 #constraint= 8\n", TWO_CELLS]);
    "optimum below the minimum": [Week Is(b"WEEK_DATA s1 REQUIREMENTS
Day Nurse (3,1) (0,0) (0,0) (0,0) (0,0) (0,0) (0,0) SHIFT_OFF_REQUESTS = 0")] =>
        Writes(&[b"* #variable= 8 #constraint= 9\n", ONE_CELL, b"+1 x1 >= 3 ;\n"]);
};

// Cells that are held.
const HELD: &[Row] = rows! {
    "two cells held": [Fix Is(b"SOLUTION 0 s1 ASSIGNMENTS = 2 Ann Wed Day Nurse Ann Mon Day Nurse")] =>
        Writes(&[b"* #variable= 8 #constraint= 10\n", ONE_CELL, b"+1 x1 >= 1 ;\n+1 x3 >= 1 ;\n"]);
    "no cell held": [Fix Is(b"SOLUTION 0 s1 ASSIGNMENTS = 0")] => PLAIN;
    "Wednesday held": [Fix Is(WEDNESDAY)] => HOLDING;
    "no empty line": [Fix Is(b"SOLUTION\n0 s1\nASSIGNMENTS = 1\nAnn Wed Day Nurse\n")] => HOLDING;
    "no end of its last line": [Fix Is(b"SOLUTION\n0 s1\nASSIGNMENTS = 1\nAnn Wed Day Nurse")] => HOLDING;
    "of another week": [Fix Is(b"SOLUTION 9 other ASSIGNMENTS = 1 Ann Wed Day Nurse")] => HOLDING;
    "two cells of a day":
        [Sce Line(5, b"SHIFT_TYPES = 2"), Sce Line(6, b"Early (1,9) Late (1,9)"), Sce Line(8, b"Early 0 Late 0"), Week Line(4, b"SHIFT_OFF_REQUESTS = 3\nAnn Early Mon\nAnn Early Mon\nAnn Any Mon"), Fix Is(b"SOLUTION 0 s1 ASSIGNMENTS = 2 Ann Mon Early Nurse Ann Mon Late Nurse")] =>
        Writes(&[b"* #variable= 15 #constraint= 10\nmin: +30 x1 +10 x2 ;\n", TWO_CELLS, b"+1 x1 >= 1 ;\n+1 x2 >= 1 ;\n"]);
};

// Other spellings of the same week, and the rows that a week other than the last one omits.
const SPELLED: &[Row] = rows! {
    "within the totals, not early": TWELVE => PLAIN;
    "no end of the last line": [Sce Ends(12, b"Ann Full 1 Nurse")] => PLAIN;
    "leading zeros": [Sce Line(2, b"WEEKS = 00000000000000000000000000000000000000002")] => PLAIN;
    "returns, tabs and empty lines": [Sce Line(2, b"\r\n\r\nWEEKS\t=2\r")] => PLAIN;
    "signs without blanks": [Sce Line(10, b"Full( 1 , 9 )(1,9) (1,\n9) 9 0")] => PLAIN;
    "a name that is not text":
        [Sce Line(12, b"\xff\0:; Full 1 Nurse"), His Line(4, b"\xff\0:; 0 0 None 0 0 0")] => PLAIN;
    "as long as a file may be": [Sce Sized(4194304)] => PLAIN;
};

// Files that are refused, and their order.
const REFUSED: &[Row] = rows! {
    "a late week": [His Line(2, b"2 s1")] =>
        Bad(Kind::LateWeek, FileName::History, 0);
    "a late week before the held cells": [His Line(2, b"2 s1"), Fix Is(b"SOLUTION")] =>
        Bad(Kind::LateWeek, FileName::History, 0);
    "held cells that are cut": [Fix Is(WEDNESDAY), Fix Ends(5, b"Ann Wed Day")] =>
        Bad(Kind::Ended, FileName::Fixed, 5);
    "a row twice": [Fix Is(WEDNESDAY), Fix Line(4, b"ASSIGNMENTS = 2\nAnn Wed Day Nurse")] =>
        Bad(Kind::Repeated, FileName::Fixed, 6);
    "another file": [Fix Is(b"WEEK_DATA")] => Bad(Kind::OtherWord, FileName::Fixed, 1);
    "an empty scenario": [Sce Is(b"")] => Bad(Kind::Ended, FileName::Scenario, 1);
    "a byte too long": [Sce Sized(4194305)] => Bad(Kind::Limit, FileName::Scenario, 0);
};

#[test]
fn hard_rules_and_held_cells(rt: HostRuntime) -> Result<(), Fail> {
    check_models(&rt, rt.alloc(), &ENCODING, HARD_RULES)?;
    check_models(&rt, rt.alloc(), &ENCODING, HELD)?;
    Ok(())
}

#[test]
fn other_spellings(rt: HostRuntime) -> Result<(), Fail> {
    check(&rt, rt.alloc(), &ENCODING, SPELLED)?;
    Ok(())
}

#[test]
fn refused_files(rt: HostRuntime) -> Result<(), Fail> {
    check(&rt, rt.alloc(), &ENCODING, REFUSED)?;
    Ok(())
}
