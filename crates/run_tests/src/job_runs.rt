//! Runs over memory, and their results.
use crate::jobs::{Job, Kind};
use byte_ports::{CallPlan, MemorySource, MemoryTarget};
use rota_pb::{Choice, Fault, run_decode, run_encode, run_extend};
use std::alloc::{AllocError, Global};

/// The plans of a run's ports: its five readers, and its two targets.
#[derive(Clone, Copy)]
pub struct CallPlans {
    pub readers: [CallPlan; 5],
    pub targets: [CallPlan; 2],
}

/// The number of bytes that an even port moves in a call.
pub const PIECE: usize = 7;

/// A plan in which no call fails.
pub fn even() -> CallPlan {
    CallPlan::new(PIECE, None)
}

/// A plan of one byte per call. The call after this number of calls fails.
pub fn by_bytes(good_calls: u64) -> CallPlan {
    CallPlan::new(1, Some(good_calls))
}

/// The bytes that were sent to a target.
#[derive(Clone, Copy, PartialEq, Eq, Debug)]
pub struct Sent {
    pub bytes: usize,
    pub flushed: usize,
    /// Whether they are a prefix of the wanted text.
    pub begins: bool,
}

/// Nothing was sent.
pub const NOTHING: Sent = Sent {
    bytes: 0,
    flushed: 0,
    begins: true,
};

/// The whole text was sent, and was flushed.
pub fn whole(text: &[u8]) -> Sent {
    Sent {
        bytes: text.len(),
        flushed: text.len(),
        begins: true,
    }
}

/// The result of a run, and the bytes that were sent to its targets.
#[derive(Clone, Copy, PartialEq, Eq, Debug)]
pub struct Ended {
    pub outcome: Result<(), Fault>,
    pub sent: [Sent; 2],
}

/// The run returns this fault, and sends nothing.
pub fn refused(fault: Fault) -> Ended {
    Ended {
        outcome: Err(fault),
        sent: [NOTHING; 2],
    }
}

/// The run writes the outputs of the job, and flushes them.
pub fn done(job: &Job) -> Ended {
    Ended {
        outcome: Ok(()),
        sent: [whole(job.outputs[0]), whole(job.outputs[1])],
    }
}

// A target has room for this number of bytes.
const ROOM: usize = 4096;

fn sent_to(target: &MemoryTarget, text: &[u8]) -> Sent {
    Sent {
        bytes: target.bytes().len(),
        flushed: target.flushed(),
        begins: text.starts_with(target.bytes()),
    }
}

/// The result of the job's run. It uses the second target only if it has two outputs. If the job has no held
/// cells, their reader would fail at its first call.
pub fn outcome(
    alloc: Global,
    job: &Job,
    readers: [CallPlan; 5],
    first: &mut MemoryTarget,
    second: &mut MemoryTarget,
) -> Result<(), Fault> {
    let choice = Choice {
        early: job.early,
        fixed: !job.inputs[3].is_empty(),
    };
    let mut sce = MemorySource::new(job.inputs[0], readers[0]);
    let mut his = MemorySource::new(job.inputs[1], readers[1]);
    let mut week = MemorySource::new(job.inputs[2], readers[2]);
    let fix_plan = if choice.fixed {
        readers[3]
    } else {
        by_bytes(0)
    };
    let mut fix = MemorySource::new(job.inputs[3], fix_plan);
    let mut last = MemorySource::new(job.inputs[4], readers[4]);
    match job.kind {
        Kind::Encode => run_encode(
            alloc, choice, &mut sce, &mut his, &mut week, &mut fix, first,
        ),
        Kind::Decode => run_decode(
            alloc, choice, &mut sce, &mut his, &mut week, &mut fix, &mut last, first, second,
        ),
        Kind::Extend => run_extend(
            alloc, choice, &mut sce, &mut his, &mut week, &mut fix, &mut last, first,
        ),
    }
}

// The end of the job's run, with a first target.
fn end_with(
    alloc: Global,
    job: &Job,
    plans: &CallPlans,
    first: &mut MemoryTarget,
) -> Result<Ended, AllocError> {
    let mut second = MemoryTarget::new(alloc, ROOM, plans.targets[1])?;
    let outcome = outcome(alloc, job, plans.readers, first, &mut second);
    Ok(Ended {
        outcome,
        sent: [
            sent_to(first, job.outputs[0]),
            sent_to(&second, job.outputs[1]),
        ],
    })
}

/// The end of the job's run with these plans. If no target can be made, it ends like a run without memory.
pub fn end_of(alloc: Global, job: &Job, plans: &CallPlans) -> Ended {
    let Ok(mut first) = MemoryTarget::new(alloc, ROOM, plans.targets[0]) else {
        return refused(Fault::Memory);
    };
    match end_with(alloc, job, plans, &mut first) {
        Ok(end) => end,
        Err(_) => refused(Fault::Memory),
    }
}
