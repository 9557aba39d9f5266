//! Rosters of small weeks: the answer to which each extends, or the fault.
use crate::changes::Edit::{Ends, Is, Line};
use crate::changes::File::{Fix, His, Last, Sce, Week};
use crate::changes::{Base, texts_of};
use crate::jobs::{self, HISTORY, MONDAY, SCENARIO, WEDNESDAY, WEEK};
use crate::tables::Wanted::{Bad, Fails, Writes};
use crate::tables::{Row, check, of, rows};
use crate::weeks::{ALL_DAYS, NOBODY, OPTIMUM, TWELVE};
use rota_core::{FileName, Kind, Rule};
use rota_pb::Fault::Breaks;
use std::test::Fail;

const EXTENDING: Base = Base {
    kind: jobs::Kind::Extend,
    early: false,
    inputs: [SCENARIO, HISTORY, WEEK, b"", NOBODY],
};

const BOTH_SHIFTS: &[u8] = b"SOLUTION 0 s1 ASSIGNMENTS = 2 Ann Mon Early Nurse Ann Mon Late Nurse";

const EXTENDED: &[Row] = rows! {
    "nobody": [] => Writes(&[b"o 0\ns SATISFIABLE\nv -x1 -x2 -x3 -x4 -x5 -x6 -x7 x8\n"]);
    "a Monday": [Last Is(MONDAY)] => Writes(&[b"o 0\ns SATISFIABLE\nv x1 -x2 -x3 -x4 -x5 -x6 -x7 x8\n"]);
    "a Monday that nobody should work": [Sce Line(6, b"Day (1,0)"), Last Is(MONDAY)] =>
        Writes(&[b"o 15\ns SATISFIABLE\nv x1 -x2 -x3 -x4 -x5 -x6 -x7 x8 x9 -x10\nv -x11 -x12 -x13 -x14 -x15\n"]);
    "Wednesday held, and worked": [Fix Is(WEDNESDAY), Last Is(WEDNESDAY)] =>
        Writes(&[b"o 0\ns SATISFIABLE\nv -x1 -x2 x3 -x4 -x5 -x6 -x7 x8\n"]);
    "two shift types on a day":
        [Sce Line(5, b"SHIFT_TYPES = 2"), Sce Line(6, b"Early (1,9) Late (1,9)"), Sce Line(8, b"Early 0 Late 0"), Last Is(BOTH_SHIFTS)] =>
        Fails(Breaks(Rule::H1));
    "two shift types on a day, and held":
        [Sce Line(5, b"SHIFT_TYPES = 2"), Sce Line(6, b"Early (1,9) Late (1,9)"), Sce Line(8, b"Early 0 Late 0"), Fix Is(BOTH_SHIFTS), Last Is(BOTH_SHIFTS)] =>
        Fails(Breaks(Rule::H1));
    "two skills on a day":
        [Sce Line(3, b"SKILLS = 2"), Sce Line(4, b"Nurse Head"), Sce Line(12, b"Ann Full 2 Nurse Head"), Last Is(b"SOLUTION 0 s1 ASSIGNMENTS = 2 Ann Mon Day Nurse Ann Mon Day Head")] =>
        Fails(Breaks(Rule::H1));
    "nobody where one is needed":
        [Week Line(3, b"REQUIREMENTS\nDay Nurse (0,0) (1,1) (0,0) (0,0) (0,0) (0,0) (0,0)"), Last Is(MONDAY)] =>
        Fails(Breaks(Rule::H2));
    "nobody where the first day needs one": OPTIMUM => Fails(Breaks(Rule::H2));
    "a day after a day":
        [Sce Line(8, b"Day 1 Day"), Last Is(b"SOLUTION 0 s1 ASSIGNMENTS = 2 Ann Mon Day Nurse Ann Tue Day Nurse")] =>
        Fails(Breaks(Rule::H3));
    "a day after the history's":
        [Sce Line(8, b"Day 1 Day"), His Line(4, b"Ann 1 0 Day 1 1 0"), Last Is(MONDAY)] =>
        Fails(Breaks(Rule::H3));
    "a skill that she lacks": [Sce Line(12, b"Ann Full 0"), Last Is(MONDAY)] => Fails(Breaks(Rule::H4));
    "Wednesday held, and off": [Fix Is(WEDNESDAY), Last Is(MONDAY)] => Fails(Breaks(Rule::H5));
    "a row twice": [Last Is(MONDAY), Last Line(4, b"ASSIGNMENTS = 2\nAnn Mon Day Nurse")] =>
        Bad(Kind::Repeated, FileName::Solution, 6);
    "an unknown nurse": [Last Is(MONDAY), Last Line(5, b"Bob Mon Day Nurse")] =>
        Bad(Kind::Unknown, FileName::Solution, 5);
    "a roster that is cut": [Last Is(MONDAY), Last Ends(5, b"Ann Wed Day")] =>
        Bad(Kind::Ended, FileName::Solution, 5);
    "another file": [Last Is(WEEK)] => Bad(Kind::OtherWord, FileName::Solution, 1);
    "an empty scenario": [Sce Is(b""), Last Is(WEEK)] => Bad(Kind::Ended, FileName::Scenario, 1);
    "a late week first": [His Line(2, b"2 s1"), Last Is(WEEK)] => Bad(Kind::LateWeek, FileName::History, 0);
    "held cells before the roster": [Fix Is(b"SOLUTION"), Last Is(b"SOLUTION")] =>
        Bad(Kind::Ended, FileName::Fixed, 1);
    "the roster after held cells": [Fix Is(WEDNESDAY), Last Is(b"SOLUTION")] =>
        Bad(Kind::Ended, FileName::Solution, 1);
};

const ALL_DAYS_ANSWER: &[u8] =
    b"o 80\ns SATISFIABLE\nv x1 x2 x3 x4 x5 x6 x7 x8 x9 x10\nv x11 x12\n";

// Twelve assignments before the week. The maximum over both weeks is fifteen.
const EARLY: &[Row] = rows! {
    "all days": [Last Is(ALL_DAYS)] => Writes(&[ALL_DAYS_ANSWER]);
    "all days, and Wednesday held": [Fix Is(WEDNESDAY), Last Is(ALL_DAYS)] => Writes(&[ALL_DAYS_ANSWER]);
    "Wednesday held, and off": [Fix Is(WEDNESDAY), Last Is(MONDAY)] => Fails(Breaks(Rule::H5));
};

#[test]
fn rosters_are_extended(rt: HostRuntime) -> Result<(), Fail> {
    check(&rt, rt.alloc(), &EXTENDING, EXTENDED)?;
    Ok(())
}

#[test]
fn rosters_extended_early(rt: HostRuntime) -> Result<(), Fail> {
    let texts = texts_of(rt.alloc(), &EXTENDING, TWELVE)?;
    let base = Base {
        early: true,
        inputs: texts.job(&EXTENDING).inputs,
        ..EXTENDING
    };
    check(&rt, rt.alloc(), &base, EARLY)?;
    Ok(())
}
