//! Answers of solvers, whole and in pieces.
use rota_core::Bits;
use solver_text::{Answer, AnswerFault, Solved, Status};
use std::alloc::Global;
use std::process::Abort;
use std::test::Fail;

/// The meaning of an answer for 8 variables: its status, its last value of the objective, and their values.
#[derive(Clone, Copy, PartialEq, Eq, Debug)]
pub struct Said {
    pub status: Status,
    pub last_o: Option<i64>,
    pub values: [bool; 8],
}

fn values_of(bits: &Bits) -> [bool; 8] {
    let mut values = [false; 8];
    for (index, value) in values.iter_mut().enumerate() {
        let index = index as u32;
        *value = index < bits.len() && bits.get(index);
    }
    values
}

fn said_by(solved: &Solved) -> Said {
    Said {
        status: solved.status,
        last_o: solved.last_o,
        values: values_of(&solved.bits),
    }
}

fn finished(answer: Answer) -> Result<Said, AnswerFault> {
    let solved = answer.finish()?;
    Ok(said_by(&solved))
}

/// The meaning of the pieces, one after the other. `None` if there is no memory for an answer.
pub fn of_pieces(alloc: Global, pieces: &[&[u8]]) -> Option<Result<Said, AnswerFault>> {
    let Ok(mut answer) = Answer::new(alloc, 8) else {
        return None;
    };
    for piece in pieces {
        if let Err(fault) = answer.feed(piece) {
            return Some(Err(fault));
        }
    }
    Some(finished(answer))
}

/// The meaning of the text, in pieces of at most this length.
pub fn in_pieces(alloc: Global, text: &[u8], length: usize) -> Option<Result<Said, AnswerFault>> {
    let Ok(mut answer) = Answer::new(alloc, 8) else {
        return None;
    };
    for piece in text.chunks(length.max(1)) {
        if let Err(fault) = answer.feed(piece) {
            return Some(Err(fault));
        }
    }
    Some(finished(answer))
}

// A text, and its fault.
fn faulty_texts() -> [(&'static [u8], AnswerFault); 32] {
    [
        (b"", AnswerFault::Statuses),
        (b"\n\nc s SATISFIABLE\n", AnswerFault::Statuses),
        (b"s UNKNOWN\ns UNKNOWN\n", AnswerFault::Statuses),
        (b"s UNKNOWN\ns what\n", AnswerFault::Statuses),
        (b"sSATISFIABLE\n", AnswerFault::Statuses),
        (b" s SATISFIABLE\n", AnswerFault::Statuses),
        (b"s OPTIMUM \n", AnswerFault::StatusText),
        (b"s OPTIMUM FOUND again\n", AnswerFault::StatusText),
        (b"s FOUND\n", AnswerFault::StatusText),
        (b"s\n", AnswerFault::StatusText),
        (b"s SATISFIABLE yes\n", AnswerFault::StatusText),
        (
            b"s SATISFIABLESATISFIABLESATISFIABLE",
            AnswerFault::StatusText,
        ),
        (b"v y1\n", AnswerFault::Literal),
        (b"v ~x1\n", AnswerFault::Literal),
        (b"v x1-x2\n", AnswerFault::Literal),
        (b"v x\n", AnswerFault::Literal),
        (b"v -\n", AnswerFault::Literal),
        (b"v x0\n", AnswerFault::Range),
        (b"v x9\n", AnswerFault::Range),
        (
            b"v x9999999999999999999999999999999999999999\n",
            AnswerFault::Range,
        ),
        (
            b"v x18446744073709551617\ns SATISFIABLE\n",
            AnswerFault::Range,
        ),
        (b"v x1 -x1\n", AnswerFault::BothValues),
        (b"v x1\nv x2 -x01\n", AnswerFault::BothValues),
        (b"v -x8\ns UNKNOWN\nv x8", AnswerFault::BothValues),
        (b"o 1 2\n", AnswerFault::Objective),
        (b"o 0000000000000000000\n", AnswerFault::Objective),
        (b"o -\n", AnswerFault::Objective),
        (b"o +", AnswerFault::Objective),
        (b"o\n", AnswerFault::Objective),
        (b"o 1x\n", AnswerFault::Objective),
        (b"o --1\n", AnswerFault::Objective),
        (b"o -1234567890123456789\n", AnswerFault::Objective),
    ]
}

// The fault is the same whole and a byte at a time.
#[test]
fn faults_of_answers(rt: HostRuntime) {
    for (text, fault) in faulty_texts() {
        for length in [usize::MAX, 1] {
            assert!(rt;
                in_pieces(rt.alloc(), text, length) == Some(Err(fault)),
                "{text:?}"
            );
        }
    }
}

fn reads(alloc: Global, fault: AnswerFault, text: &str) -> bool {
    match format!(in alloc; "{fault}") {
        Ok(line) => line.as_str() == text,
        Err(_) => false,
    }
}

#[test]
fn texts_of_faults(rt: HostRuntime) {
    let rows = [
        (AnswerFault::Statuses, "no status line or a second one"),
        (AnswerFault::StatusText, "unknown status"),
        (AnswerFault::Literal, "bad literal"),
        (AnswerFault::Range, "variable out of range"),
        (AnswerFault::BothValues, "variable with both values"),
        (AnswerFault::Objective, "bad o value"),
    ];
    for (fault, text) in rows {
        assert!(rt; reads(rt.alloc(), fault, text), "{fault:?}");
    }
}

const WHOLE: &[u8] =
    b"c hello\r\nd 1 2\r\no 5\r\ns OPTIMUM FOUND\r\nv x1 -x2\r\nv -x3 x1 -x4\r\nv -x5 -x6 x8 \r\n";

const SAID_BY_WHOLE: Said = Said {
    status: Status::Optimum,
    last_o: Some(5),
    values: [true, false, false, false, false, false, false, true],
};

// A text, and its meaning.
fn sound_texts() -> [(&'static [u8], Said); 8] {
    [
        (WHOLE, SAID_BY_WHOLE),
        (
            b"s OPTIMUM FOUND",
            Said {
                last_o: None,
                values: [false; 8],
                ..SAID_BY_WHOLE
            },
        ),
        (
            b"o 000000000000000001\ns SATISFIABLE\nv x8 x00000000000000000000000000000000000000001",
            Said {
                status: Status::Satisfiable,
                last_o: Some(1),
                ..SAID_BY_WHOLE
            },
        ),
        (
            b"o -7\no +6\ns SATISFIABLE\nv-x8\nv x8\nv",
            Said {
                status: Status::Satisfiable,
                last_o: Some(6),
                values: [false, false, false, false, false, false, false, true],
            },
        ),
        (
            b"v\tx3\r\ns\tUNKNOWN\t",
            Said {
                status: Status::Unknown,
                last_o: None,
                values: [false, false, true, false, false, false, false, false],
            },
        ),
        (
            b"s UNSATISFIABLE",
            Said {
                status: Status::Unsatisfiable,
                last_o: None,
                values: [false; 8],
            },
        ),
        (
            b"s  UNSUPPORTED  \n",
            Said {
                status: Status::Unsupported,
                last_o: None,
                values: [false; 8],
            },
        ),
        (
            b"o -999999999999999999\ns OPTIMUM  FOUND\nv x1 x1 -x2 -x2",
            Said {
                status: Status::Optimum,
                last_o: Some(-999999999999999999),
                values: [true, false, false, false, false, false, false, false],
            },
        ),
    ]
}

// Each text has this meaning, in pieces of each length, and cut in two at each byte.
fn check_sound(rt: &impl Abort, alloc: Global, text: &[u8], said: Said) {
    for length in 1..=text.len() {
        let found = in_pieces(alloc, text, length);
        assert!(rt; found == Some(Ok(said)), "pieces of {length} bytes");
        let (first, second) = text.split_at(length);
        let found = of_pieces(alloc, &[first, b"", second]);
        assert!(rt; found == Some(Ok(said)), "cut after {length} bytes");
    }
    let found = of_pieces(alloc, &[b"", b"", text]);
    assert!(rt; found == Some(Ok(said)), "two empty pieces first");
}

#[test]
fn sound_answers(rt: HostRuntime) {
    for (text, said) in sound_texts() {
        check_sound(&rt, rt.alloc(), text, said);
    }
}

// After a fault every call returns it.
#[test]
fn fault_for_good(rt: HostRuntime) -> Result<(), Fail> {
    let mut answer = Answer::new(rt.alloc(), 8)?;
    let fault = Err(AnswerFault::Range);
    let fed = [
        answer.feed(b"v x"),
        answer.feed(b"9 "),
        answer.feed(b"s SATISFIABLE\n"),
    ];
    assert!(rt; fed == [Ok(()), fault, fault]);
    assert!(rt; finished(answer) == Err(AnswerFault::Range));
    Ok(())
}

// A word without an end is judged by `finish` only.
#[test]
fn open_word_is_judged_at_the_end(rt: HostRuntime) -> Result<(), Fail> {
    let mut answer = Answer::new(rt.alloc(), 8)?;
    assert!(rt; answer.feed(b"v x9").is_ok());
    assert!(rt; finished(answer) == Err(AnswerFault::Range));
    Ok(())
}

// A line of ten million bytes is skipped, and `feed` takes no allocator.
#[test]
fn long_line_is_skipped(rt: HostRuntime) -> Result<(), Fail> {
    let line = vec![in rt.alloc(); b'c'; 10_000_000]?;
    let found = in_pieces(rt.alloc(), &line, 4096);
    assert!(rt; found == Some(Err(AnswerFault::Statuses)));
    let unknown = Said {
        status: Status::Unknown,
        last_o: None,
        values: [false; 8],
    };
    let found = of_pieces(rt.alloc(), &[&line, b"\ns UNKNOWN"]);
    assert!(rt; found == Some(Ok(unknown)));
    Ok(())
}
