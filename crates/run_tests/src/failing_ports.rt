//! A port of a run that fails at each of its calls in turn.
use crate::changes::texts_of;
use crate::decoded_answers::DECODING;
use crate::job_runs::{
    CallPlans, Ended, NOTHING, PIECE, Sent, by_bytes, done, end_of, even, refused, whole,
};
use crate::jobs::{
    Job, decoding, decoding_held, encoding, extending, extending_held, holding, jobs,
};
use byte_ports::CallPlan;
use rota_core::{FileFault, FileName, Kind};
use rota_pb::Fault;
use solver_text::AnswerFault;
use std::alloc::{AllocError, Global};
use std::process::Abort;
use std::test::Fail;

// No port fails.
fn all_even() -> CallPlans {
    CallPlans {
        readers: [even(); 5],
        targets: [even(); 2],
    }
}

// The reader of this number has this plan, and the targets have the other.
fn with_reader(reader: usize, plan: CallPlan, targets: CallPlan) -> CallPlans {
    let mut plans = CallPlans {
        targets: [targets; 2],
        ..all_even()
    };
    if let Some(own) = plans.readers.get_mut(reader) {
        *own = plan;
    }
    plans
}

// The run ended like this. Otherwise its kind and number are printed.
fn check_end(rt: &impl Abort, found: Ended, wanted: Ended, kind: &str, number: usize) {
    assert_eq!(rt; found, wanted, "{kind} {number}");
}

// The outcome is the same in pieces of each length, from one byte to the whole text.
#[test]
fn runs_in_pieces_of_each_length(rt: HostRuntime) {
    for job in &jobs() {
        for length in 1..200 {
            let pieces = CallPlan::new(length, None);
            let plans = CallPlans {
                readers: [pieces; 5],
                targets: [pieces; 2],
            };
            let end = end_of(rt.alloc(), job, &plans);
            check_end(&rt, end, done(job), "pieces of", length);
        }
    }
}

// The number of calls that read the text to its end. The last of them finds nothing.
fn calls_to_the_end(text: &[u8]) -> u64 {
    text.len().div_ceil(PIECE) as u64 + 1
}

// If the reader fails, the run ends and calls no target (that would be `Write`). Otherwise it is complete.
fn check_reader(rt: &impl Abort, alloc: Global, job: &Job, reader: usize, text: &[u8]) {
    let calls = calls_to_the_end(text);
    for good_calls in 0..calls {
        let failing = CallPlan::new(PIECE, Some(good_calls));
        let plans = with_reader(reader, failing, by_bytes(0));
        let end = end_of(alloc, job, &plans);
        check_end(rt, end, refused(Fault::Read), "reader", reader);
    }
    let plans = with_reader(reader, CallPlan::new(PIECE, Some(calls)), even());
    let end = end_of(alloc, job, &plans);
    check_end(rt, end, done(job), "reader", reader);
}

#[test]
fn runs_end_where_a_read_fails(rt: HostRuntime) {
    for job in &jobs() {
        for (reader, text) in job.inputs.iter().enumerate() {
            if !text.is_empty() {
                check_reader(&rt, rt.alloc(), job, reader, text);
            }
        }
    }
}

// The first target accepts one byte per call and fails after this number of calls.
fn with_first_target(good_calls: u64) -> CallPlans {
    CallPlans {
        targets: [by_bytes(good_calls), even()],
        ..all_even()
    }
}

fn with_second_target(good_calls: u64) -> CallPlans {
    CallPlans {
        targets: [even(), by_bytes(good_calls)],
        ..all_even()
    }
}

// This number of bytes of the text was sent, and none is flushed.
fn cut_after(bytes: usize) -> Sent {
    Sent { bytes, ..NOTHING }
}

// Bytes written before a failure were sent. The flush is the last call; if it succeeds, the run is complete.
fn check_first_target(rt: &impl Abort, alloc: Global, job: &Job) {
    let calls = job.outputs[0].len().saturating_add(1);
    for good_calls in 0..calls {
        let cut = Ended {
            outcome: Err(Fault::Write),
            sent: [cut_after(good_calls), NOTHING],
        };
        let end = end_of(alloc, job, &with_first_target(good_calls as u64));
        check_end(rt, end, cut, "call", good_calls);
    }
    let end = end_of(alloc, job, &with_first_target(calls as u64));
    check_end(rt, end, done(job), "call", calls);
}

#[test]
fn runs_end_where_a_write_fails(rt: HostRuntime) {
    for job in &jobs() {
        check_first_target(&rt, rt.alloc(), job);
    }
}

// The whole solution is sent before the report gets a byte.
fn check_second_target(rt: &impl Abort, alloc: Global, job: &Job) {
    let [solution, report] = job.outputs;
    let calls = report.len().saturating_add(1);
    for good_calls in 0..calls {
        let cut = Ended {
            outcome: Err(Fault::Write),
            sent: [whole(solution), cut_after(good_calls)],
        };
        let end = end_of(alloc, job, &with_second_target(good_calls as u64));
        check_end(rt, end, cut, "call", good_calls);
    }
    let end = end_of(alloc, job, &with_second_target(calls as u64));
    check_end(rt, end, done(job), "call", calls);
}

#[test]
fn decoding_ends_where_the_report_fails(rt: HostRuntime) {
    check_second_target(&rt, rt.alloc(), &decoding());
}

// The job with another text for the input of this number.
fn with_input(job: Job<'static>, index: usize, text: &'static [u8]) -> Job<'static> {
    let mut inputs = job.inputs;
    if let Some(own) = inputs.get_mut(index) {
        *own = text;
    }
    Job { inputs, ..job }
}

fn bad(kind: Kind, file: FileName, line: u32) -> Fault {
    Fault::File(FileFault::Bad { kind, file, line })
}

// A job with a faulty input, the number of a later reader, and the fault.
type Faulty = (Job<'static>, usize, Fault);

fn with_faulty_scenario(job: Job<'static>, reader: usize) -> Faulty {
    let fault = bad(Kind::OtherWord, FileName::Scenario, 1);
    (with_input(job, 0, b"SCENA"), reader, fault)
}

fn with_late_history() -> Faulty {
    let text = b"HISTORY 2 s1 NURSE_HISTORY Ann 0 0 None 0 0 0";
    let fault = bad(Kind::LateWeek, FileName::History, 0);
    (with_input(holding(), 1, text), 3, fault)
}

fn with_faulty_week() -> Faulty {
    let fault = bad(Kind::OtherWord, FileName::Week, 2);
    (with_input(holding(), 2, b"WEEK_DATA s1\n("), 3, fault)
}

fn with_faulty_cells(job: Job<'static>) -> Faulty {
    let fault = bad(Kind::OtherWord, FileName::Fixed, 2);
    (with_input(job, 3, b"SOLUTION 0 s1\nASSIGN"), 4, fault)
}

fn faulty_jobs() -> [Faulty; 7] {
    [
        with_faulty_scenario(encoding(), 1),
        with_faulty_scenario(decoding(), 2),
        with_faulty_scenario(extending(), 4),
        with_late_history(),
        with_faulty_week(),
        with_faulty_cells(decoding_held()),
        with_faulty_cells(extending_held()),
    ]
}

// A later reader that would fail at its first call is not called.
#[test]
fn fault_of_an_earlier_file_comes_first(rt: HostRuntime) {
    for (job, reader, fault) in faulty_jobs() {
        let plans = with_reader(reader, by_bytes(0), by_bytes(0));
        let end = end_of(rt.alloc(), &job, &plans);
        check_end(&rt, end, refused(fault), "reader", reader);
    }
}

// A fault in the bytes that were read comes before the reader's failure.
#[test]
fn answer_fails_after_some_bytes(rt: HostRuntime) {
    let rows: [(&[u8], Fault); 2] = [
        (b"v x9\n", Fault::Answer(AnswerFault::Range)),
        (b"v x9", Fault::Read),
    ];
    for (answer, fault) in rows {
        let job = with_input(decoding(), 4, answer);
        let plans = with_reader(4, CallPlan::new(200, Some(1)), even());
        let end = end_of(rt.alloc(), &job, &plans);
        check_end(&rt, end, refused(fault), "reader", 4);
    }
}

// The run on this answer, if one piece of 4096 bytes is read before a read fails.
fn end_of_one_piece(alloc: Global, answer: Vec<u8>) -> Result<Ended, AllocError> {
    let mut texts = texts_of(alloc, &DECODING, &[])?;
    texts.last = answer;
    let plans = with_reader(4, CallPlan::new(4096, Some(1)), even());
    Ok(end_of(alloc, &texts.job(&DECODING), &plans))
}

// A fault shown by the piece's last byte is found before the next read fails. One byte less shows none.
#[test]
fn answer_of_one_piece_fails(rt: HostRuntime) -> Result<(), Fail> {
    let mut answer = Vec::from_slice(rt.alloc(), b"c")?;
    answer.resize(4090, b' ')?;
    answer.extend_from_slice(b"\nv x9")?;
    let shorter = Vec::from_slice(rt.alloc(), &answer)?;
    answer.push(b' ')?;
    assert_eq!(rt; answer.len(), 4096);
    let judged = refused(Fault::Answer(AnswerFault::Range));
    check_end(
        &rt,
        end_of_one_piece(rt.alloc(), answer)?,
        judged,
        "reader",
        4,
    );
    let unread = refused(Fault::Read);
    check_end(
        &rt,
        end_of_one_piece(rt.alloc(), shorter)?,
        unread,
        "reader",
        4,
    );
    Ok(())
}
