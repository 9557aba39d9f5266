//! Answers of solvers to small weeks: the solution and the report, or the fault.
use crate::changes::Edit::{Ends, Is, Line};
use crate::changes::File::{Fix, His, Last, Sce, Week};
use crate::changes::{Base, texts_of};
use crate::jobs::{self, HISTORY, MONDAY, SCENARIO, WEDNESDAY, WEEK};
use crate::reports::Report;
use crate::tables::Wanted::{Bad, Decodes, Fails};
use crate::tables::{Row, Wanted, check, of, rows};
use crate::weeks::{ALL_DAYS, NOBODY, TWELVE};
use rota_core::{FileName, Kind, Rule};
use rota_pb::Fault::{self, Answer, NoRoster, Unmet};
use solver_text::AnswerFault::{BothValues, Literal, Objective, Range, StatusText, Statuses};
use solver_text::Status;
use std::test::Fail;

/// The week of one nurse whose answers are decoded.
pub const DECODING: Base = Base {
    kind: jobs::Kind::Decode,
    early: false,
    inputs: [SCENARIO, HISTORY, WEEK, b"", b""],
};

// The report on an answer that costs nothing and is not an optimum.
const PLAIN: Report = Report {
    status: "SATISFIABLE",
    objective: 0,
    charges: &[],
    last: None,
};

const MONDAYS: Wanted = Decodes(MONDAY, PLAIN);

const NOBODYS: Wanted = Decodes(NOBODY, PLAIN);

const WEDNESDAYS: Wanted = Decodes(WEDNESDAY, PLAIN);

const EIGHTY: Wanted = Decodes(
    ALL_DAYS,
    Report {
        objective: 80,
        charges: &[(Rule::S6, 80)],
        last: Some(80),
        ..PLAIN
    },
);

const ALL_DAYS_ANSWER: &[u8] =
    b"o 80\ns SATISFIABLE\nv x1 x2 x3 x4 x5 x6 x7 x8 x9 x10\nv x11 x12\n";

const DECODED: &[Row] = rows! {
    "leading zeros": [Last Is(b"s SATISFIABLE\nv x8 x0000000000000000000000000000000000000001\n")] => MONDAYS;
    "a line that only looks like one": [Last Is(b"s SATISFIABLE\nv-x8\nv x8\nv\n")] => NOBODYS;
    "tabs and returns": [Last Is(b"s\tSATISFIABLE \nv\r\nv\tx8\r\n")] => NOBODYS;
    "no end of the last line": [Last Is(b"s SATISFIABLE\nv x8")] => NOBODYS;
    "literals again": [Last Is(b"s SATISFIABLE\nv x8 -x2 x1 x8\nv -x2 x1\n")] => MONDAYS;
    "an objective with leading zeros": [Last Is(b"o 000000000000000001\ns SATISFIABLE\nv x8\n")] =>
        Decodes(NOBODY, Report { last: Some(1), ..PLAIN });
    "the last objective, with a sign": [Last Is(b"o 12\ns SATISFIABLE\no -7\nv x8\n")] =>
        Decodes(NOBODY, Report { last: Some(-7), ..PLAIN });
    "other lines, and ends of two bytes":
        [Last Is(b"c hello\r\nd 1 2\r\no 5\r\ns OPTIMUM FOUND\r\nv x1 -x2\r\nv -x3 x1 -x4\r\nv -x5 -x6 x8 \r\n")] =>
        Decodes(MONDAY, Report { status: "OPTIMUM FOUND", last: Some(5), ..PLAIN });
    "a slack that nothing asks for": [Sce Line(6, b"Day (1,0)"), Last Is(b"s SATISFIABLE\nv x8 x9\n")] =>
        Decodes(NOBODY, Report { objective: 15, ..PLAIN });
    "a shift that nobody should work":
        [Sce Line(6, b"Day (1,0)"), Last Is(b"o 15\ns SATISFIABLE\nv x1 -x2 -x3 -x4 -x5 -x6 -x7 x8 x9 -x10\nv -x11 -x12 -x13 -x14 -x15\n")] =>
        Decodes(MONDAY, Report { objective: 15, charges: &[(Rule::S2, 15)], last: Some(15), ..PLAIN });
    "Wednesday held, and worked": [Fix Is(WEDNESDAY), Last Is(b"s SATISFIABLE\nv x8 x3\n")] => WEDNESDAYS;
};

// The changes that a row of these tests needs in addition to its answer.
const TWELVE_HELD: &[Row] = rows! {
    "all days": [Last Is(ALL_DAYS_ANSWER)] => EIGHTY;
    "all days, and Wednesday held": [Fix Is(WEDNESDAY), Last Is(ALL_DAYS_ANSWER)] => EIGHTY;
    "Wednesday held, and off": [Fix Is(WEDNESDAY), Last Is(b"s SATISFIABLE\nv x8\n")] => Fails(Unmet(9));
};

// Answers to the unchanged week.
const REFUSED: &[(&[u8], Fault)] = &[
    (b"v x1 -x1\n", Answer(BothValues)),
    (b"v -x8 x8\n", Answer(BothValues)),
    (b"v x1\nv -x1 x1\n", Answer(BothValues)),
    (b"v x0\n", Answer(Range)),
    (b"v x9\n", Answer(Range)),
    (
        b"v x9999999999999999999999999999999999999999\n",
        Answer(Range),
    ),
    (b"v y1\n", Answer(Literal)),
    (b"v ~x1\n", Answer(Literal)),
    (b"v x\n", Answer(Literal)),
    (b"v -\n", Answer(Literal)),
    (b"v x1-\n", Answer(Literal)),
    (b"s OPTIMUM \n", Answer(StatusText)),
    (b"s\n", Answer(StatusText)),
    (b"s SATISFIABLE yes\n", Answer(StatusText)),
    (b"o 1 2\n", Answer(Objective)),
    (b"o\n", Answer(Objective)),
    (b"o -\n", Answer(Objective)),
    (b"o 0000000000000000000\n", Answer(Objective)),
    (b"sSATISFIABLE\n", Answer(Statuses)),
    (b"v x8\n", Answer(Statuses)),
    (b"c\n", Answer(Statuses)),
    (b"", Answer(Statuses)),
    (b"s UNKNOWN\ns UNKNOWN\n", Answer(Statuses)),
    (b"s SATISFIABLE\ns SATISFIABLE\nv y1\n", Answer(Statuses)),
    (b"s UNSATISFIABLE\n", NoRoster(Status::Unsatisfiable)),
    (b"s UNKNOWN\n", NoRoster(Status::Unknown)),
    (b"s UNSUPPORTED\n", NoRoster(Status::Unsupported)),
    (b"s UNKNOWN\nv x8\n", NoRoster(Status::Unknown)),
    (b"s SATISFIABLE\n", Unmet(1)),
    (b"s OPTIMUM FOUND\nv x1\n", Unmet(1)),
    (b"s OPTIMUM FOUND\nv -x8\n", Unmet(1)),
    (ALL_DAYS_ANSWER, Answer(Range)),
];

// Other refusals, and their order.
const IN_ORDER: &[Row] = rows! {
    "a slack that is missing": [Sce Line(6, b"Day (1,0)"), Last Is(b"s SATISFIABLE\nv x8 x1\n")] =>
        Fails(Unmet(9));
    "the unit variable is false": [Sce Line(6, b"Day (1,0)"), Last Is(b"s SATISFIABLE\nv x1\n")] =>
        Fails(Unmet(1));
    "nobody where one is needed":
        [Week Line(3, b"REQUIREMENTS\nDay Nurse (1,3) (0,0) (0,0) (0,0) (0,0) (0,0) (0,0)"), Last Is(b"s SATISFIABLE\nv x8\n")] =>
        Fails(Unmet(9));
    "Wednesday held, and off": [Fix Is(WEDNESDAY), Last Is(b"s SATISFIABLE\nv x8\n")] => Fails(Unmet(9));
    "an empty scenario": [Sce Is(b""), Last Is(b"v x9\n")] => Bad(Kind::Ended, FileName::Scenario, 1);
    "a late week": [His Line(2, b"2 s1"), Last Is(b"v x9\n")] => Bad(Kind::LateWeek, FileName::History, 0);
    "held cells, then the answer": [Fix Is(WEDNESDAY), Fix Ends(5, b"Ann Wed Day"), Last Is(b"v x9\n")] =>
        Bad(Kind::Ended, FileName::Fixed, 5);
    "the answer, after held cells": [Fix Is(WEDNESDAY), Last Is(b"v x9\n")] => Fails(Answer(Range));
    "the status, then the constraints": [Last Is(b"s UNSATISFIABLE\nv x1\n")] =>
        Fails(NoRoster(Status::Unsatisfiable));
};

#[test]
fn answers_are_decoded(rt: HostRuntime) -> Result<(), Fail> {
    check(&rt, rt.alloc(), &DECODING, DECODED)?;
    check(&rt, rt.alloc(), &DECODING, IN_ORDER)?;
    Ok(())
}

#[test]
fn answers_decoded_early(rt: HostRuntime) -> Result<(), Fail> {
    let texts = texts_of(rt.alloc(), &DECODING, TWELVE)?;
    let base = Base {
        early: true,
        inputs: texts.job(&DECODING).inputs,
        ..DECODING
    };
    check(&rt, rt.alloc(), &base, TWELVE_HELD)?;
    Ok(())
}

#[test]
fn faulty_answers(rt: HostRuntime) -> Result<(), Fail> {
    for (answer, fault) in REFUSED {
        let row = Row("an answer", &[(Last, Is(answer))], Fails(*fault));
        check(&rt, rt.alloc(), &DECODING, &[row])?;
    }
    Ok(())
}
