//! The number of calls of the ports of a run: a reader is called until it reports its end, a target for its
//! text and to flush it, and none is called again after a call that failed.
ghost use Rattle.std.specs.Prelude.{None};

use crate::target_calls::{Allowance, Calls, Counted};
use crate::week_files::{instance_of, one_nurse_one_shift};
use byte_ports::{PortFault, Source};
use rota_core::{Instance, Roster};
use rota_pb::{Choice, Fault, encode, extend, run_decode, write_solution};
use solver_text::AnswerFault;
use std::alloc::Global;
use std::process::Abort;
use std::test::Fail;

// A source of a text that fails after this number of calls. Its calls are counted, including those after the
// failure.
#[derive(Drop)]
struct CountedSource<'a> {
    rest: &'a [u8],
    allowance: Allowance,
    calls: u32,
    ended: bool,
}

impl Source for CountedSource<'_> {
    ghost left = { λ _. None };

    ghost has_failed = { λ s. s.allowance.failed };

    ghost has_ended = { λ s. s.ended };

    fn read(&mut self, buffer: &mut [u8]) -> Result<usize, PortFault> {
        self.calls = self.calls.saturating_add(1);
        if !self.allowance.failed && buffer.is_empty() {
            return Ok(0);
        }
        self.allowance.call()?;
        let rest = self.rest;
        let count = rest.len().min(buffer.len());
        let (piece, after) = rest.split_at(count);
        buffer[..count].copy_from_slice(piece);
        self.rest = after;
        self.ended = self.ended || count == 0;
        Ok(count)
    }
}

fn source(text: &[u8], good_calls: u32) -> CountedSource<'_> {
    CountedSource {
        rest: text,
        allowance: Allowance::new(good_calls),
        calls: 0,
        ended: false,
    }
}

// The result of a run, and the number of calls of its ports: the readers of the scenario, the history, the
// week, the held cells and the answer, and the targets of the solution and of the report.
#[derive(Clone, Copy, PartialEq, Eq, Debug)]
struct Ended {
    outcome: Result<(), Fault>,
    reads: [u32; 5],
    solution: Calls,
    report: Calls,
}

// The result of `decode` for this answer, if its ports have these numbers of good calls, in that order.
fn decoded(alloc: Global, answer: &[u8], good_calls: [u32; 7]) -> Ended {
    let choice = Choice {
        early: false,
        fixed: true,
    };
    let files = one_nurse_one_shift();
    let mut sce = source(files.scenario, good_calls[0]);
    let mut his = source(files.history, good_calls[1]);
    let mut week = source(files.week, good_calls[2]);
    let mut fix = source(b"SOLUTION\n0 s1\n\nASSIGNMENTS = 0\n", good_calls[3]);
    let mut answer = source(answer, good_calls[4]);
    let mut solution = Counted::new(good_calls[5]);
    let mut report = Counted::new(good_calls[6]);
    let outcome = run_decode(
        alloc,
        choice,
        &mut sce,
        &mut his,
        &mut week,
        &mut fix,
        &mut answer,
        &mut solution,
        &mut report,
    );
    Ended {
        outcome,
        reads: [sce.calls, his.calls, week.calls, fix.calls, answer.calls],
        solution: solution.calls,
        report: report.calls,
    }
}

// The number of calls of a port that needs two, with this number of good calls.
fn calls_of_two(good_calls: u32) -> u32 {
    2.min(good_calls.saturating_add(1))
}

// The number of calls of a target of one buffer, with this number of good calls.
fn calls_of_target(good_calls: u32) -> Calls {
    Calls {
        writes: 1,
        flushes: u32::from(good_calls > 0),
    }
}

// The number of its calls, if it is called.
fn calls_where(is_called: bool, good_calls: u32) -> Calls {
    if is_called {
        calls_of_target(good_calls)
    } else {
        Calls {
            writes: 0,
            flushes: 0,
        }
    }
}

// The end of a run with these numbers of good calls, if this port is the only one that may have fewer than the two that it
// needs. The ports before it are called twice, and the ports after it only if it has both calls.
fn end_at(port: usize, good_calls: [u32; 7]) -> Ended {
    let is_whole = good_calls == [2; 7];
    let fault = if port < 5 { Fault::Read } else { Fault::Write };
    let mut reads = [0; 5];
    for (reader, calls) in reads.iter_mut().enumerate() {
        if reader < 5 && (is_whole || reader <= port) {
            *calls = calls_of_two(good_calls[reader]);
        }
    }
    Ended {
        outcome: if is_whole { Ok(()) } else { Err(fault) },
        reads,
        solution: calls_where(is_whole || port >= 5, good_calls[5]),
        report: calls_where(is_whole || port >= 6, good_calls[6]),
    }
}

// One of the ports has this number of good calls, and the others have the two that they need.
fn check_port(rt: &impl Abort, alloc: Global, port: usize, own_calls: u32) {
    let mut good_calls = [2; 7];
    if let Some(own) = good_calls.get_mut(port) {
        *own = own_calls;
    }
    let ended = decoded(alloc, b"s SATISFIABLE\nv x8\n", good_calls);
    assert_eq!(rt; ended, end_at(port, good_calls), "port {port}");
}

// Each port in turn has zero, one or both of its calls.
#[test]
fn ports_of_a_run_are_called_twice(rt: HostRuntime) {
    for case in 0..21 {
        check_port(&rt, rt.alloc(), case / 3, (case % 3) as u32);
    }
}

// The result of `decode` for an answer with a number beyond the variables' that is found at this byte, if the
// second read fails.
fn fault_at(alloc: Global, byte: usize) -> Result<(), Fault> {
    let mut answer = [b' '; 6000];
    answer[0] = b'v';
    if 3 <= byte && byte <= 6000 {
        answer[byte - 3] = b'x';
        answer[byte - 2] = b'9';
        answer[byte - 1] = b'\n';
    }
    let mut good_calls = [2; 7];
    good_calls[4] = 1;
    decoded(alloc, &answer, good_calls).outcome
}

// An answer is read 4096 bytes at a time, and a whole piece is checked before the next read.
#[test]
fn whole_piece_is_judged_before_the_next_read(rt: HostRuntime) {
    assert_eq!(rt;
        fault_at(rt.alloc(), 4096),
        Err(Fault::Answer(AnswerFault::Range))
    );
    assert_eq!(rt; fault_at(rt.alloc(), 4097), Err(Fault::Read));
}

// Writes the empty roster to a target: its extension, or its solution file.
fn write_nobody(
    alloc: Global,
    instance: &Instance,
    extends: bool,
    out: &mut Counted,
) -> Result<(), Fault> {
    let roster = Roster::new(alloc, instance)?;
    if extends {
        extend(instance, &roster, out)
    } else {
        write_solution(instance, &roster, out)
    }
}

// Writes one of three texts of the week to a target.
fn write_text(
    alloc: Global,
    instance: &Instance,
    text: u32,
    out: &mut Counted,
) -> Result<(), Fault> {
    match text {
        0 => encode(instance, out),
        _ => write_nobody(alloc, instance, text == 1, out),
    }
}

// A model, an answer and a solution are sent in one write each, and flushed one time. Nothing is sent after a
// failure.
#[test]
fn texts_go_out_once(rt: HostRuntime) -> Result<(), Fail> {
    let instance = instance_of(rt.alloc(), &one_nurse_one_shift())?;
    for case in 0..9 {
        let (text, good_calls) = (case / 3, case % 3);
        let mut out = Counted::new(good_calls);
        let outcome = write_text(rt.alloc(), &instance, text, &mut out);
        assert_eq!(rt; outcome.is_ok(), good_calls == 2);
        assert_eq!(rt; out.calls, calls_of_target(good_calls), "text {text}");
    }
    Ok(())
}
