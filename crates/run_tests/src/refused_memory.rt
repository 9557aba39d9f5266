//! Out of memory in the middle of a run. The test prints how each row ended. `tests/program/refused_memory.sh`
//! refuses each allocation in turn, and requires `out of memory`, whatever fault comes later in the files of
//! the row.
use crate::changes::Edit::{Ends, Is, Line};
use crate::changes::File::{Fix, His, Last, Sce, Week};
use crate::changes::{Base, Changes, texts_of};
use crate::file_faults::{BASE, read_all};
use crate::jobs::{Job, Kind, decoding_held, extending_held, holding};
use crate::tables::{End, end_of, of};
use std::alloc::{AllocError, Global};
use std::io;

// Weeks with held cells, and the changes to their files, which have a fault at the end of each.
const ROWS: &[(Kind, Changes)] = &[
    (Kind::Extend, of!([Sce Ends(12, b"Ann Full 1 Nur")])),
    (Kind::Extend, of!([His Line(5, b"more")])),
    (Kind::Extend, of!([Week Line(5, b"more")])),
    (Kind::Extend, of!([His Line(2, b"2 s1")])),
    (Kind::Encode, of!([Fix Ends(5, b"Ann Wed Day Nur")])),
    (Kind::Extend, of!([Last Ends(5, b"Ann Mon Day Nur")])),
    (Kind::Extend, of!([])),
    (Kind::Decode, of!([Last Is(b"s SATISFIABLE\nv x9")])),
    (Kind::Decode, of!([Last Is(b"s SATISFIABLE\nv x8")])),
];

// Prints the result of the job's run. It writes its outputs whole, or nothing.
fn print_end(rt: &impl Print, job: &Job, end: Result<End, AllocError>) -> io::Result<()> {
    let Ok(end) = end else {
        return println!(rt; "out of memory");
    };
    let [first, second] = job.outputs;
    let (sent, also_sent) = (end.first.bytes(), end.second.bytes());
    match end.outcome {
        Ok(()) if sent == first && also_sent == second => println!(rt; "done"),
        Err(fault) if sent.is_empty() && also_sent.is_empty() => println!(rt; "{fault}"),
        _ => println!(rt; "other bytes"),
    }
}

fn run_changed(rt: &impl Print, alloc: Global, kind: Kind, changes: Changes) -> io::Result<()> {
    let base = Base { kind, ..BASE };
    match texts_of(alloc, &base, changes) {
        Ok(texts) => {
            let job = texts.job(&base);
            print_end(rt, &job, end_of(alloc, &job))
        }
        Err(_) => println!(rt; "out of memory"),
    }
}

#[test]
fn runs(rt: HostRuntime) -> io::Result<()> {
    for job in [holding(), decoding_held(), extending_held()] {
        print_end(&rt, &job, end_of(rt.alloc(), &job))?;
    }
    for (kind, changes) in ROWS {
        run_changed(&rt, rt.alloc(), *kind, changes)?;
    }
    Ok(())
}

// The readers of the held cells and of the other files by themselves.
#[test]
fn readers(rt: HostRuntime) -> io::Result<()> {
    let Ok(texts) = texts_of(rt.alloc(), &BASE, &[]) else {
        return println!(rt; "out of memory");
    };
    match read_all(rt.alloc(), &texts) {
        Ok((_, cells)) => println!(rt; "{cells} cells"),
        Err(fault) => println!(rt; "{fault}"),
    }
}
