//! Tables of worked rows: the changes of each to the texts of its base, and the texts that the run then
//! writes, or its fault.
use crate::changes::{Base, Changes, texts_of};
use crate::job_runs::{even, outcome};
use crate::jobs::Job;
use crate::reports::Report;
use byte_ports::MemoryTarget;
use rota_core::{FileFault, FileName, Kind};
use rota_pb::Fault;
use std::alloc::{AllocError, Global};
use std::process::Abort;

/// Pieces that make up a text.
pub type Pieces<'a> = &'a [&'a [u8]];

/// How a run ends.
#[derive(Clone, Copy)]
pub enum Wanted<'a> {
    /// It writes this text to its one target.
    Writes(Pieces<'a>),
    /// It writes a solution, and the report.
    Decodes(&'a [u8], Report<'a>),
    /// It writes nothing.
    Fails(Fault),
    /// It writes nothing: the file is at fault in this line.
    Bad(Kind, FileName, u32),
}

/// The purpose of the row, its changes, and the end of the run.
#[derive(Clone, Copy)]
pub struct Row<'a>(pub &'a str, pub Changes<'a>, pub Wanted<'a>);

/// Changes, each a file and its edit.
macro_rules! of {
    ([$($file:ident $edit:expr),*]) => { &[$(($file, $edit)),*] };
    ($week:ident) => { $week };
}

/// Rows of a table, each with its purpose, its changes or the name of its week, and the end of the run.
macro_rules! rows {
    ($($what:literal: $changes:tt => $wanted:expr;)*) => { &[$(Row($what, of!($changes), $wanted)),*] };
}

pub(crate) use of;
pub(crate) use rows;

/// A fault of a file.
pub fn bad(kind: Kind, file: FileName, line: u32) -> Fault {
    Fault::File(FileFault::Bad { kind, file, line })
}

/// The text is these pieces one after the other.
pub fn is_text(text: &[u8], pieces: Pieces) -> bool {
    let mut rest = text;
    for piece in pieces {
        match rest.strip_prefix(*piece) {
            Some(after) => rest = after,
            None => return false,
        }
    }
    rest.is_empty()
}

/// The target got these pieces, and they are flushed.
pub fn is_sent(target: &MemoryTarget, pieces: Pieces) -> bool {
    is_text(target.bytes(), pieces) && target.flushed() == target.bytes().len()
}

// A target has room for this number of bytes.
const ROOM: usize = 1048576;

/// The result of a run, and its targets.
#[derive(Drop)]
pub struct End {
    pub outcome: Result<(), Fault>,
    pub first: MemoryTarget,
    pub second: MemoryTarget,
}

/// The run of the job over ports that never fail.
pub fn end_of(alloc: Global, job: &Job) -> Result<End, AllocError> {
    let mut first = MemoryTarget::new(alloc, ROOM, even())?;
    let mut second = MemoryTarget::new(alloc, ROOM, even())?;
    let outcome = outcome(alloc, job, [even(); 5], &mut first, &mut second);
    Ok(End {
        outcome,
        first,
        second,
    })
}

// The run is done, and wrote these texts.
fn check_texts(rt: &impl Abort, end: &End, what: &str, first: Pieces, second: Pieces) {
    assert_eq!(rt; end.outcome, Ok(()), "{what}");
    assert!(rt;
        is_sent(&end.first, first) && is_sent(&end.second, second),
        "{what}"
    );
}

// The run wrote nothing.
fn check_fault(rt: &impl Abort, end: &End, what: &str, fault: Fault) {
    assert_eq!(rt; end.outcome, Err(fault), "{what}");
    assert!(rt;
        end.first.bytes().is_empty() && end.second.bytes().is_empty(),
        "{what}"
    );
}

/// The run of the job ends like this.
pub fn check_run(
    rt: &impl Abort,
    alloc: Global,
    job: &Job,
    what: &str,
    wanted: Wanted,
) -> Result<(), AllocError> {
    let end = end_of(alloc, job)?;
    match wanted {
        Wanted::Writes(text) => check_texts(rt, &end, what, text, &[]),
        Wanted::Decodes(solution, report) => {
            let text = report.text(alloc)?;
            check_texts(rt, &end, what, &[solution], &[text.as_bytes()]);
        }
        Wanted::Fails(fault) => check_fault(rt, &end, what, fault),
        Wanted::Bad(kind, file, line) => check_fault(rt, &end, what, bad(kind, file, line)),
    }
    Ok(())
}

/// Each row of the table ends as wanted.
pub fn check(rt: &impl Abort, alloc: Global, base: &Base, rows: &[Row]) -> Result<(), AllocError> {
    for Row(what, changes, wanted) in rows {
        let texts = texts_of(alloc, base, changes)?;
        check_run(rt, alloc, &texts.job(base), what, *wanted)?;
    }
    Ok(())
}
