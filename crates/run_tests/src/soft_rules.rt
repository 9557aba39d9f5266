//! Small weeks in which a soft rule charges something: the model of each, and a roster with its charges.
//! The roster extends to an answer, and the report on this answer has the charges.
use crate::changes::Edit::{Is, Line};
use crate::changes::File::{Fix, His, Sce, Week};
use crate::changes::{Base, Changes, texts_of};
use crate::counted_weeks::check_models;
use crate::jobs::{CLOSED_SCENARIO, Job, Kind, WEDNESDAY};
use crate::reports::{Charges, Report, penalty_of};
use crate::tables::Wanted::Writes;
use crate::tables::{Pieces, Row, end_of, is_text, of};
use crate::weeks::{ENCODING, ONE_CELL, OPTIMUM, TWELVE, TWO_CELLS};
use rota_core::Rule::{S1, S2, S3, S4, S5, S6, S7};
use std::alloc::Global;
use std::process::Abort;
use std::test::Fail;

/// The reports on an optimum and on another answer, whose rosters cost nothing.
pub const FREE_OPTIMUM: &[u8] =
    b"status OPTIMUM FOUND\nobjective 0\npenalty 0\nS1 0\nS2 0\nS3 0\nS4 0\nS5 0\nS6 0\nS7 0\nlast o 5\n";

pub const FREE: &[u8] =
    b"status SATISFIABLE\nobjective 0\npenalty 0\nS1 0\nS2 0\nS3 0\nS4 0\nS5 0\nS6 0\nS7 0\n";

// A week with its model, and a roster of it, from the line with the number of rows on, with its charges.
struct Charged<'a> {
    week: Row<'a>,
    roster: &'a [u8],
    charges: Charges<'a>,
}

// A row of a table: the purpose, the changes of the week, its model, a roster, and the charges.
macro_rules! charged {
    ($($what:literal: $changes:tt => $model:expr, $roster:expr, $charges:expr;)*) => {
        &[$(Charged { week: Row($what, of!($changes), Writes($model)), roster: $roster, charges: $charges }),*]
    };
}

const NOBODY: &[u8] = b"ASSIGNMENTS = 0\n";

const MONDAY: &[u8] = b"ASSIGNMENTS = 1\nAnn Mon Day Nurse\n";

const WEDNESDAYS: &[u8] = b"ASSIGNMENTS = 1\nAnn Wed Day Nurse\n";

const TWO_DAYS: &[u8] = b"ASSIGNMENTS = 2\nAnn Mon Day Nurse\nAnn Tue Day Nurse\n";

const DAY_BETWEEN: &[u8] = b"ASSIGNMENTS = 2\nAnn Mon Day Nurse\nAnn Wed Day Nurse\n";

const SUNDAY_TOO: &[u8] = b"ASSIGNMENTS = 2\nAnn Mon Day Nurse\nAnn Sun Day Nurse\n";

const SATURDAY: &[u8] = b"ASSIGNMENTS = 1\nAnn Sat Day Nurse\n";

const EARLY_SHIFT: &[u8] = b"ASSIGNMENTS = 1\nAnn Mon Early Nurse\n";

const LATE_SHIFT: &[u8] = b"ASSIGNMENTS = 1\nAnn Mon Late Nurse\n";

const ALL_DAYS: &[u8] = b"ASSIGNMENTS = 7
Ann Mon Day Nurse\nAnn Tue Day Nurse\nAnn Wed Day Nurse\nAnn Thu Day Nurse\nAnn Fri Day Nurse
Ann Sat Day Nurse\nAnn Sun Day Nurse\n";

const COVERAGE: &[Charged] = charged! {
    "nothing that exceeds": [] => &[b"* #variable= 8 #constraint= 8\n", ONE_CELL], MONDAY, &[];
    "fewer than the optimum": OPTIMUM => &[b"* #variable= 10 #constraint= 10
min: +30 x9 +30 x10 ;\n", ONE_CELL, b"+1 x1 >= 1 ;
+1 x1 +1 x9 +1 x10 >= 3 ;\n"], MONDAY, &[(S1, 60)];
    "optimum equal to the minimum": [Week Is(b"WEEK_DATA s1 REQUIREMENTS
Day Nurse (1,1) (0,0) (0,0) (0,0) (0,0) (0,0) (0,0) SHIFT_OFF_REQUESTS = 0")] =>
        &[b"* #variable= 8 #constraint= 9\n", ONE_CELL, b"+1 x1 >= 1 ;\n"], MONDAY, &[];
};

const RUNS: &[Charged] = charged! {
    "long run in the history":
        [Sce Line(10, b"Full (1,9) (1,2) (1,9) 9 0"), His Line(4, b"Ann 2 0 Day 2 2 0")] =>
        &[b"* #variable= 15 #constraint= 15
min: +30 x9 +30 x10 +30 x11 +30 x12 +30 x13 +30 x14 +30 x15 ;\n", ONE_CELL, b"-1 x1 +1 x9 >= 0 ;
-1 x1 -1 x2 +1 x10 >= -1 ;
-1 x1 -1 x2 -1 x3 +1 x11 >= -2 ;
-1 x2 -1 x3 -1 x4 +1 x12 >= -2 ;
-1 x3 -1 x4 -1 x5 +1 x13 >= -2 ;
-1 x4 -1 x5 -1 x6 +1 x14 >= -2 ;
-1 x5 -1 x6 -1 x7 +1 x15 >= -2 ;\n"], MONDAY, &[(S2, 30)];
    "run far above the maximum":
        [Sce Line(6, b"Day (1,99)"), Sce Line(10, b"Full (1,9) (1,5) (1,9) 9 0"), His Line(4, b"Ann 9 0 Day 9 9 0")] =>
        &[b"* #variable= 15 #constraint= 15
min: +30 x9 +30 x10 +30 x11 +30 x12 +30 x13 +30 x14 +30 x15 ;\n", ONE_CELL, b"-1 x1 +1 x9 >= 0 ;
-1 x1 -1 x2 +1 x10 >= -1 ;
-1 x1 -1 x2 -1 x3 +1 x11 >= -2 ;
-1 x1 -1 x2 -1 x3 -1 x4 +1 x12 >= -3 ;
-1 x1 -1 x2 -1 x3 -1 x4 -1 x5 +1 x13 >= -4 ;
-1 x1 -1 x2 -1 x3 -1 x4 -1 x5 -1 x6 +1 x14 >= -5 ;
-1 x2 -1 x3 -1 x4 -1 x5 -1 x6 -1 x7 +1 x15 >= -5 ;\n"], TWO_DAYS, &[(S2, 60)];
    "short run in the history":
        [Sce Line(10, b"Full (1,9) (3,9) (1,9) 9 0"), His Line(4, b"Ann 1 0 Day 1 1 0")] =>
        &[b"* #variable= 19 #constraint= 19
min: +60 x9 +30 x10 +60 x11 +60 x12 +30 x13 +60 x14 +30 x15 +60 x16 +30 x17 +60 x18 +30 x19 ;\n", ONE_CELL, b"+1 x1 +1 x9 >= 1 ;
-1 x1 +1 x2 +1 x10 >= 0 ;
+1 x1 -1 x2 +1 x3 +1 x11 >= 0 ;
+1 x2 -1 x3 +1 x4 +1 x12 >= 0 ;
+1 x1 -1 x2 -1 x3 +1 x4 +1 x13 >= -1 ;
+1 x3 -1 x4 +1 x5 +1 x14 >= 0 ;
+1 x2 -1 x3 -1 x4 +1 x5 +1 x15 >= -1 ;
+1 x4 -1 x5 +1 x6 +1 x16 >= 0 ;
+1 x3 -1 x4 -1 x5 +1 x6 +1 x17 >= -1 ;
+1 x5 -1 x6 +1 x7 +1 x18 >= 0 ;
+1 x4 -1 x5 -1 x6 +1 x7 +1 x19 >= -1 ;\n"], NOBODY, &[(S2, 60)];
    "shift nobody should work": [Sce Is(CLOSED_SCENARIO)] =>
        &[b"* #variable= 15 #constraint= 15\n", CLOSED_OBJECTIVE, ONE_CELL, CLOSED_ROWS], MONDAY, &[(S2, 15)];
    "the same with Wednesday held": [Sce Is(CLOSED_SCENARIO), Fix Is(WEDNESDAY)] =>
        &[b"* #variable= 15 #constraint= 16\n", CLOSED_OBJECTIVE, ONE_CELL, b"+1 x3 >= 1 ;\n", CLOSED_ROWS],
        WEDNESDAYS, &[(S2, 15)];
    "minimum longer than the week": [Sce Line(10, b"Full (1,9) (9,9) (1,9) 9 0")] =>
        &[b"* #variable= 29 #constraint= 29
min: +240 x9 +240 x10 +210 x11 +240 x12 +210 x13 +180 x14 +240 x15 +210 x16 +180 x17 +150 x18 +240 x19 +210 x20 +180 x21 +150 x22 +120 x23 +240 x24 +210 x25 +180 x26 +150 x27 +120 x28 +90 x29 ;\n", ONE_CELL, b"-1 x1 +1 x2 +1 x9 >= 0 ;
+1 x1 -1 x2 +1 x3 +1 x10 >= 0 ;
-1 x1 -1 x2 +1 x3 +1 x11 >= -1 ;
+1 x2 -1 x3 +1 x4 +1 x12 >= 0 ;
+1 x1 -1 x2 -1 x3 +1 x4 +1 x13 >= -1 ;
-1 x1 -1 x2 -1 x3 +1 x4 +1 x14 >= -2 ;
+1 x3 -1 x4 +1 x5 +1 x15 >= 0 ;
+1 x2 -1 x3 -1 x4 +1 x5 +1 x16 >= -1 ;
+1 x1 -1 x2 -1 x3 -1 x4 +1 x5 +1 x17 >= -2 ;
-1 x1 -1 x2 -1 x3 -1 x4 +1 x5 +1 x18 >= -3 ;
+1 x4 -1 x5 +1 x6 +1 x19 >= 0 ;
+1 x3 -1 x4 -1 x5 +1 x6 +1 x20 >= -1 ;
+1 x2 -1 x3 -1 x4 -1 x5 +1 x6 +1 x21 >= -2 ;
+1 x1 -1 x2 -1 x3 -1 x4 -1 x5 +1 x6 +1 x22 >= -3 ;
-1 x1 -1 x2 -1 x3 -1 x4 -1 x5 +1 x6 +1 x23 >= -4 ;
+1 x5 -1 x6 +1 x7 +1 x24 >= 0 ;
+1 x4 -1 x5 -1 x6 +1 x7 +1 x25 >= -1 ;
+1 x3 -1 x4 -1 x5 -1 x6 +1 x7 +1 x26 >= -2 ;
+1 x2 -1 x3 -1 x4 -1 x5 -1 x6 +1 x7 +1 x27 >= -3 ;
+1 x1 -1 x2 -1 x3 -1 x4 -1 x5 -1 x6 +1 x7 +1 x28 >= -4 ;
-1 x1 -1 x2 -1 x3 -1 x4 -1 x5 -1 x6 +1 x7 +1 x29 >= -5 ;\n"], SUNDAY_TOO, &[(S2, 240)];
    "days off below their minimum": [Sce Line(10, b"Full (1,9) (1,9) (2,9) 9 0")] =>
        &[b"* #variable= 14 #constraint= 14
min: +30 x9 +30 x10 +30 x11 +30 x12 +30 x13 +30 x14 ;\n", ONE_CELL, b"+1 x1 -1 x2 +1 x9 >= 0 ;
-1 x1 +1 x2 -1 x3 +1 x10 >= -1 ;
-1 x2 +1 x3 -1 x4 +1 x11 >= -1 ;
-1 x3 +1 x4 -1 x5 +1 x12 >= -1 ;
-1 x4 +1 x5 -1 x6 +1 x13 >= -1 ;
-1 x5 +1 x6 -1 x7 +1 x14 >= -1 ;\n"], DAY_BETWEEN, &[(S3, 30)];
    "days off above their maximum": [Sce Line(10, b"Full (1,9) (1,9) (1,2) 9 0")] =>
        &[b"* #variable= 13 #constraint= 13
min: +30 x9 +30 x10 +30 x11 +30 x12 +30 x13 ;\n", ONE_CELL, b"+1 x1 +1 x2 +1 x3 +1 x9 >= 1 ;
+1 x2 +1 x3 +1 x4 +1 x10 >= 1 ;
+1 x3 +1 x4 +1 x5 +1 x11 >= 1 ;
+1 x4 +1 x5 +1 x6 +1 x12 >= 1 ;
+1 x5 +1 x6 +1 x7 +1 x13 >= 1 ;\n"], NOBODY, &[(S3, 150)];
};

const CLOSED_OBJECTIVE: &[u8] = b"min: +15 x9 +15 x10 +15 x11 +15 x12 +15 x13 +15 x14 +15 x15 ;\n";

const CLOSED_ROWS: &[u8] = b"-1 x1 +1 x9 >= 0 ;
-1 x2 +1 x10 >= 0 ;
-1 x3 +1 x11 >= 0 ;
-1 x4 +1 x12 >= 0 ;
-1 x5 +1 x13 >= 0 ;
-1 x6 +1 x14 >= 0 ;
-1 x7 +1 x15 >= 0 ;\n";

// Two shift types, and three requests for Monday: two for the first, and one for any.
const THREE_REQUESTS: Changes =
    of!([Sce Line(5, b"SHIFT_TYPES = 2"), Sce Line(6, b"Early (1,9)\nLate (1,9)"), Sce Line(9, b"Early 0\nLate 0"), Week Line(4, b"SHIFT_OFF_REQUESTS = 3\nAnn Early Mon\nAnn Early Mon\nAnn Any Mon")]);

const REQUESTED: Pieces = &[
    b"* #variable= 15 #constraint= 8\nmin: +30 x1 +10 x2 ;\n",
    TWO_CELLS,
];

const REQUESTS_AND_WEEKENDS: &[Charged] = charged! {
    "three requests on one cell": THREE_REQUESTS => REQUESTED, EARLY_SHIFT, &[(S4, 30)];
    "a request on one cell": THREE_REQUESTS => REQUESTED, LATE_SHIFT, &[(S4, 10)];
    "complete weekends": [Sce Line(10, b"Full (1,9) (1,9) (1,9) 9 1")] =>
        &[b"* #variable= 10 #constraint= 10\nmin: +30 x9 +30 x10 ;\n", ONE_CELL, b"-1 x6 +1 x7 +1 x9 >= 0 ;
+1 x6 -1 x7 +1 x10 >= 0 ;\n"], SATURDAY, &[(S5, 30)];
};

// Above the totals, in the last week and before; below the minimum; and close to the maximum.
const ABOVE: Changes =
    of!([Sce Line(10, b"Full (10,15) (1,9) (1,9) 2 0"), His Line(2, b"1 s1"), His Line(4, b"Ann 20 3 None 0 0 0")]);

const ABOVE_BEFORE: Changes =
    of!([Sce Line(10, b"Full (10,15) (1,9) (1,9) 2 0"), His Line(4, b"Ann 20 3 None 0 0 0")]);

const BELOW: Changes = of!([Sce Line(10, b"Full (10,15) (1,9) (1,9) 9 0"), His Line(2, b"1 s1")]);

const TWELVE_HELD: Changes =
    of!([Sce Line(10, b"Full (10,15) (1,9) (1,9) 9 0"), His Line(4, b"Ann 12 0 None 0 0 0"), Fix Is(WEDNESDAY)]);

const ABOVE_ROWS: &[u8] =
    b"-1 x1 -1 x2 -1 x3 -1 x4 -1 x5 -1 x6 -1 x7 +1 x9 +1 x10 +1 x11 +1 x12 +1 x13 +1 x14 +1 x15 >= 0 ;
-1 x6 +1 x16 >= 0 ;
+1 x6 -1 x7 +1 x17 >= 0 ;\n";

const ABOVE_EARLY: Pieces = &[
    b"* #variable= 17 #constraint= 11
min: +20 x9 +20 x10 +20 x11 +20 x12 +20 x13 +20 x14 +20 x15 +30 x16 +30 x17 ;\n",
    ONE_CELL,
    ABOVE_ROWS,
];

const BELOW_MINIMUM: Pieces = &[
    b"* #variable= 15 #constraint= 9
min: +60 x8 +20 x9 +20 x10 +20 x11 +20 x12 +20 x13 +20 x14 +20 x15 ;\n",
    ONE_CELL,
    b"+1 x1 +1 x2 +1 x3 +1 x4 +1 x5 +1 x6 +1 x7 +1 x9 +1 x10 +1 x11 +1 x12 +1 x13 +1 x14 +1 x15 >= 7 ;\n",
];

const TWELVE_OBJECTIVE: &[u8] = b"min: +20 x9 +20 x10 +20 x11 +20 x12 ;\n";

const TWELVE_ROW: &[u8] =
    b"-1 x1 -1 x2 -1 x3 -1 x4 -1 x5 -1 x6 -1 x7 +1 x9 +1 x10 +1 x11 +1 x12 >= -3 ;\n";

const TOTALS: &[Charged] = charged! {
    "above the totals": ABOVE => &[b"* #variable= 17 #constraint= 11
min: +130 x8 +20 x9 +20 x10 +20 x11 +20 x12 +20 x13 +20 x14 +20 x15 +30 x16 +30 x17 ;\n", ONE_CELL, ABOVE_ROWS],
        ALL_DAYS, &[(S6, 240), (S7, 60)];
    "below the minimum total": BELOW => BELOW_MINIMUM, NOBODY, &[(S6, 200)];
    "within sight of the maximum, and Wednesday held": TWELVE_HELD =>
        &[b"* #variable= 8 #constraint= 9\n", ONE_CELL, b"+1 x3 >= 1 ;\n"], ALL_DAYS, &[];
};

// The excess of a total is charged in each week.
const EARLY_TOTALS: &[Charged] = charged! {
    "above the totals, early": ABOVE => ABOVE_EARLY, ALL_DAYS, &[(S6, 140), (S7, 30)];
    "above the totals before the last week": ABOVE_BEFORE => ABOVE_EARLY, ALL_DAYS, &[(S6, 140), (S7, 30)];
    "below the minimum total, early": BELOW => BELOW_MINIMUM, NOBODY, &[(S6, 200)];
    "below it before the last week": [Sce Line(10, b"Full (10,15) (1,9) (1,9) 9 0")] =>
        &[b"* #variable= 8 #constraint= 8\n", ONE_CELL], NOBODY, &[];
    "within sight of the maximum": TWELVE =>
        &[b"* #variable= 12 #constraint= 9\n", TWELVE_OBJECTIVE, ONE_CELL, TWELVE_ROW], ALL_DAYS, &[(S6, 80)];
    "the same with Wednesday held": TWELVE_HELD =>
        &[b"* #variable= 12 #constraint= 10\n", TWELVE_OBJECTIVE, ONE_CELL, b"+1 x3 >= 1 ;\n", TWELVE_ROW],
        ALL_DAYS, &[(S6, 80)];
    "nothing that exceeds, early": [] => &[b"* #variable= 8 #constraint= 8\n", ONE_CELL], MONDAY, &[];
};

// The answer to which the roster extends. Its first line has the penalty.
fn extended(rt: &impl Abort, alloc: Global, job: &Job, penalty: u64) -> Result<Vec<u8>, Fail> {
    let end = end_of(alloc, job)?;
    assert_eq!(rt; end.outcome, Ok(()));
    let first_line = format!(in alloc; "o {penalty}\n")?;
    assert!(rt; end.first.bytes().starts_with(first_line.as_bytes()));
    Ok(Vec::from_slice(alloc, end.first.bytes())?)
}

// The decoded answer is the same roster, and its report has the charges.
fn check_answer(rt: &impl Abort, alloc: Global, job: &Job, of: &Charged) -> Result<(), Fail> {
    let end = end_of(alloc, job)?;
    assert_eq!(rt; end.outcome, Ok(()));
    assert!(rt; end.first.bytes().ends_with(of.roster));
    let penalty = penalty_of(of.charges);
    let report = Report {
        status: "SATISFIABLE",
        objective: penalty,
        charges: of.charges,
        last: i64::try_from(penalty).ok(),
    };
    let text = report.text(alloc)?;
    assert!(rt; is_text(end.second.bytes(), &[text.as_bytes()]));
    Ok(())
}

fn check_charges(rt: &impl Abort, alloc: Global, base: &Base, of: &Charged) -> Result<(), Fail> {
    let Row(_, changes, _) = of.week;
    let mut texts = texts_of(alloc, base, changes)?;
    texts.last = Vec::from_slice(alloc, b"SOLUTION 0 s1 ")?;
    texts.last.extend_from_slice(of.roster)?;
    let extending = Base {
        kind: Kind::Extend,
        ..*base
    };
    texts.last = extended(rt, alloc, &texts.job(&extending), penalty_of(of.charges))?;
    let decoding = Base {
        kind: Kind::Decode,
        ..*base
    };
    check_answer(rt, alloc, &texts.job(&decoding), of)
}

fn check_weeks(rt: &impl Abort, alloc: Global, base: &Base, weeks: &[Charged]) -> Result<(), Fail> {
    for charged in weeks {
        check_models(rt, alloc, base, &[charged.week])?;
        check_charges(rt, alloc, base, charged)?;
    }
    Ok(())
}

#[test]
fn soft_rules_charge_what_their_models_say(rt: HostRuntime) -> Result<(), Fail> {
    for weeks in [COVERAGE, RUNS, REQUESTS_AND_WEEKENDS, TOTALS] {
        check_weeks(&rt, rt.alloc(), &ENCODING, weeks)?;
    }
    Ok(())
}

#[test]
fn totals_are_charged_early(rt: HostRuntime) -> Result<(), Fail> {
    let base = Base {
        early: true,
        ..ENCODING
    };
    check_weeks(&rt, rt.alloc(), &base, EARLY_TOTALS)
}
