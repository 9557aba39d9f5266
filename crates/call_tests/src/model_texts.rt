//! Rows of tiny models, put event by event, and targets and writers that fail.
use crate::own_source::Tape;
use crate::week_files::one_nurse_one_shift;
use byte_ports::{CallPlan, MemoryTarget, PortFault, Target, ToWrite};
use opb_text::{OpbTaker, Sink};
use rota_core::Rule;
use rota_items::{Counts, Part, Taker};
use rota_pb::{Choice, Fault, run_encode, status_of};
use std::alloc::{AllocError, Global};
use std::io;
use std::io::Write;
use std::test::Fail;

const TEXT: &[u8] = b"* #variable= 5 #constraint= 3
min: +10 x1 +30 x5 ;
-1 x1 -1 x2 >= -1 ;
+0 x3 >= 0 ;
+1 x1 -1 x4 +1 x5 >= 1 ;
";

// An event of a row.
#[derive(Clone, Copy)]
enum Event {
    Start(Part),
    Term(i64, u32),
    Close(i64),
}

impl Event {
    fn put<T: Taker>(self, taker: &mut T) -> Result<(), T::Fault> {
        match self {
            Event::Start(part) => taker.start_row(part),
            Event::Term(coefficient, variable) => taker.term(coefficient, variable),
            Event::Close(degree) => taker.close_row(degree),
        }
    }
}

// The rows of the text.
const ROWS: [Event; 16] = [
    Event::Start(Part::Objective),
    Event::Term(10, 1),
    Event::Term(30, 5),
    Event::Close(0),
    Event::Start(Part::Hard(Rule::H1)),
    Event::Term(-1, 1),
    Event::Term(-1, 2),
    Event::Close(-1),
    Event::Start(Part::Hard(Rule::H3)),
    Event::Term(0, 3),
    Event::Close(0),
    Event::Start(Part::Soft(Rule::S1, 30)),
    Event::Term(1, 1),
    Event::Term(-1, 4),
    Event::Term(1, 5),
    Event::Close(1),
];

fn take_rows<T: Taker>(taker: &mut T) -> Result<(), T::Fault> {
    for event in ROWS {
        event.put(taker)?;
    }
    Ok(())
}

fn encode<W: Target>(out: &mut W) -> Result<(), PortFault> {
    let mut taker = OpbTaker::new(Sink::new(out));
    taker.first_line(Counts {
        variables: 5,
        constraints: 3,
    })?;
    take_rows(&mut taker)?;
    taker.finish()
}

#[test]
fn puts_the_rows(rt: HostRuntime) -> Result<(), Fail> {
    let mut target = MemoryTarget::new(rt.alloc(), 200, CallPlan::new(7, None))?;
    assert!(rt; encode(&mut target).is_ok());
    assert_eq!(rt; target.bytes(), TEXT);
    assert_eq!(rt; target.flushed(), TEXT.len());
    Ok(())
}

#[test]
fn sink_is_handed_back(rt: HostRuntime) -> Result<(), Fail> {
    let mut target = MemoryTarget::new(rt.alloc(), 200, CallPlan::new(7, None))?;
    let mut taker = OpbTaker::new(Sink::new(&mut target));
    assert!(rt; taker.start_row(Part::Hard(Rule::Unit)).is_ok());
    assert!(rt; taker.term(1, 8).is_ok());
    assert!(rt; taker.close_row(1).is_ok());
    let mut sink = taker.into_sink();
    assert!(rt; sink.finish().is_ok());
    assert_eq!(rt; target.bytes(), b"+1 x8 >= 1 ;\n".as_slice());
    Ok(())
}

// At one byte per call, failing at the call after `good_calls`.
fn bytes_before_failure(
    rt: &impl std::process::Abort,
    alloc: Global,
    good_calls: u64,
) -> Result<usize, AllocError> {
    let mut target = MemoryTarget::new(alloc, 200, CallPlan::new(1, Some(good_calls)))?;
    assert!(rt; encode(&mut target).is_err());
    assert_eq!(rt; target.flushed(), 0);
    assert!(rt; TEXT.starts_with(target.bytes()));
    Ok(target.bytes().len())
}

#[test]
fn target_fails_at_each_call(rt: HostRuntime) -> Result<(), Fail> {
    assert_eq!(rt; TEXT.len(), 109);
    for good_calls in 0..110 {
        let count = bytes_before_failure(&rt, rt.alloc(), good_calls)?;
        assert_eq!(rt; count as u64, good_calls);
    }
    Ok(())
}

#[test]
fn a_full_target_fails(rt: HostRuntime) -> Result<(), Fail> {
    let mut target = MemoryTarget::new(rt.alloc(), 40, CallPlan::new(4096, None))?;
    assert!(rt; encode(&mut target).is_err());
    assert_eq!(rt; target.bytes(), &TEXT[..40]);
    Ok(())
}

// A writer that accepts nothing at its first call, and all of each later piece.
#[derive(Drop)]
struct TakesNothing {
    calls: u32,
}

impl Write for TakesNothing {
    fn write(&mut self, buf: &[u8]) -> io::Result<usize> {
        self.calls = self.calls.saturating_add(1);
        if self.calls > 1 { Ok(buf.len()) } else { Ok(0) }
    }

    fn flush(&mut self) -> io::Result<()> {
        Ok(())
    }
}

#[test]
fn a_writer_that_takes_nothing_fails(rt: HostRuntime) -> Result<(), Fail> {
    let mut target = ToWrite::new(TakesNothing { calls: 0 });
    assert!(rt; encode(&mut target).is_err());
    assert!(rt; encode(&mut target).is_err());
    Ok(())
}

#[test]
fn a_run_fails_where_a_writer_takes_nothing(rt: HostRuntime) {
    let files = one_nurse_one_shift();
    let plain = Choice {
        early: false,
        fixed: false,
    };
    let outcome = run_encode(
        rt.alloc(),
        plain,
        &mut Tape::new(files.scenario),
        &mut Tape::new(files.history),
        &mut Tape::new(files.week),
        &mut Tape::new(b""),
        &mut ToWrite::new(TakesNothing { calls: 0 }),
    );
    assert_eq!(rt; outcome, Err(Fault::Write));
    assert_eq!(rt; status_of(&Fault::Write), 3);
}
