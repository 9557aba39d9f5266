//! The inputs and outputs of a run: one job of each kind, without and with held cells.
use crate::soft_rules::{FREE, FREE_OPTIMUM};

/// The kind of a run.
#[derive(Clone, Copy, PartialEq, Eq, Debug)]
pub enum Kind {
    Encode,
    Decode,
    Extend,
}

/// A run's inputs in the order in which it reads them, and its outputs in the order in which it writes them.
/// An input or output that it does not have is empty.
#[derive(Clone, Copy)]
pub struct Job<'a> {
    pub kind: Kind,
    /// The excess of a total is charged in each week.
    pub early: bool,
    /// The scenario, the history, the week, the held cells, and the answer or the roster to extend.
    pub inputs: [&'a [u8]; 5],
    /// The model, or the solution and its report, or the answer.
    pub outputs: [&'a [u8]; 2],
}

pub const SCENARIO: &[u8] = b"SCENARIO = s1
WEEKS = 2
SKILLS = 1
Nurse
SHIFT_TYPES = 1
Day (1,9)
FORBIDDEN_SHIFT_TYPES_SUCCESSIONS
Day 0
CONTRACTS = 1
Full (1,9) (1,9) (1,9) 9 0
NURSES = 1
Ann Full 1 Nurse
";

/// The scenario in which no assignment to Day is allowed without a charge: each day's costs 15.
pub const CLOSED_SCENARIO: &[u8] = b"SCENARIO = s1
WEEKS = 2
SKILLS = 1
Nurse
SHIFT_TYPES = 1
Day (1,0)
FORBIDDEN_SHIFT_TYPES_SUCCESSIONS
Day 0
CONTRACTS = 1
Full (1,9) (1,9) (1,9) 9 0
NURSES = 1
Ann Full 1 Nurse
";

pub const HISTORY: &[u8] = b"HISTORY
0 s1
NURSE_HISTORY
Ann 0 0 None 0 0 0
";

pub const WEEK: &[u8] = b"WEEK_DATA
s1
REQUIREMENTS
SHIFT_OFF_REQUESTS = 0
";

// One assignment, on Monday.
pub const MONDAY: &[u8] = b"SOLUTION
0 s1

ASSIGNMENTS = 1
Ann Mon Day Nurse
";

pub fn encoding() -> Job<'static> {
    Job {
        kind: Kind::Encode,
        early: false,
        inputs: [SCENARIO, HISTORY, WEEK, b"", b""],
        outputs: [
            b"* #variable= 8 #constraint= 8
+1 x8 >= 1 ;
-1 x1 >= -1 ;
-1 x2 >= -1 ;
-1 x3 >= -1 ;
-1 x4 >= -1 ;
-1 x5 >= -1 ;
-1 x6 >= -1 ;
-1 x7 >= -1 ;
",
            b"",
        ],
    }
}

/// The answer has lines that say nothing about variables, and each line ends with CR LF.
pub fn decoding() -> Job<'static> {
    Job {
        kind: Kind::Decode,
        early: false,
        inputs: [
            SCENARIO,
            HISTORY,
            WEEK,
            b"",
            b"c hello\r\nd 1 2\r\no 5\r\ns OPTIMUM FOUND\r\nv x1 -x2\r\nv -x3 x1 -x4\r\nv -x5 -x6 x8 \r\n",
        ],
        outputs: [MONDAY, FREE_OPTIMUM],
    }
}

pub fn extending() -> Job<'static> {
    Job {
        kind: Kind::Extend,
        early: false,
        inputs: [CLOSED_SCENARIO, HISTORY, WEEK, b"", MONDAY],
        outputs: [
            b"o 15
s SATISFIABLE
v x1 -x2 -x3 -x4 -x5 -x6 -x7 x8 x9 -x10
v -x11 -x12 -x13 -x14 -x15
",
            b"",
        ],
    }
}

// The same with Wednesday's assignment held.

pub const WEDNESDAY: &[u8] = b"SOLUTION
0 s1

ASSIGNMENTS = 1
Ann Wed Day Nurse
";

pub fn holding() -> Job<'static> {
    Job {
        kind: Kind::Encode,
        early: false,
        inputs: [SCENARIO, HISTORY, WEEK, WEDNESDAY, b""],
        outputs: [
            b"* #variable= 8 #constraint= 9
+1 x8 >= 1 ;
-1 x1 >= -1 ;
-1 x2 >= -1 ;
-1 x3 >= -1 ;
-1 x4 >= -1 ;
-1 x5 >= -1 ;
-1 x6 >= -1 ;
-1 x7 >= -1 ;
+1 x3 >= 1 ;
",
            b"",
        ],
    }
}

pub fn decoding_held() -> Job<'static> {
    Job {
        kind: Kind::Decode,
        early: false,
        inputs: [
            SCENARIO,
            HISTORY,
            WEEK,
            WEDNESDAY,
            b"s SATISFIABLE\nv x8 x3\n",
        ],
        outputs: [WEDNESDAY, FREE],
    }
}

pub fn extending_held() -> Job<'static> {
    Job {
        kind: Kind::Extend,
        early: false,
        inputs: [CLOSED_SCENARIO, HISTORY, WEEK, WEDNESDAY, WEDNESDAY],
        outputs: [
            b"o 15
s SATISFIABLE
v -x1 -x2 x3 -x4 -x5 -x6 -x7 x8 -x9 -x10
v x11 -x12 -x13 -x14 -x15
",
            b"",
        ],
    }
}

/// One job of each kind, without and with held cells.
pub fn jobs() -> [Job<'static>; 6] {
    [
        encoding(),
        decoding(),
        extending(),
        holding(),
        decoding_held(),
        extending_held(),
    ]
}
