//! Jobs that are performed over files in memory: the texts of each output, and each missing path.
use crate::job_runs::even;
use crate::jobs::{self, Kind, jobs};
use crate::memory_files::{MemoryFile, MemoryFiles, TargetAtPath};
use byte_ports::{MemorySource, MemoryTarget};
use inrc2pb_program::{Inputs, Job, perform};
use rota_pb::Fault;
use std::alloc::{AllocError, Global};
use std::process::Abort;
use std::test::Fail;

// The texts of a job: the scenario, the history, the week, the held cells, and the answer or the roster.
fn files_of(texts: &jobs::Job<'static>) -> [MemoryFile<'static>; 5] {
    let [scenario, history, week, held, last] = texts.inputs;
    [
        file("scenario", scenario),
        file("history", history),
        file("week", week),
        file("held", held),
        file("last", last),
    ]
}

fn file(path: &'static str, bytes: &'static [u8]) -> MemoryFile<'static> {
    MemoryFile { path, bytes }
}

fn inputs(alloc: Global, texts: &jobs::Job) -> Result<Inputs, AllocError> {
    let [_, _, _, held, _] = texts.inputs;
    Ok(Inputs {
        sce: String::from_str(alloc, "scenario")?,
        his: String::from_str(alloc, "history")?,
        week: String::from_str(alloc, "week")?,
        fix: if held.is_empty() {
            None
        } else {
            Some(String::from_str(alloc, "held")?)
        },
        early: false,
    })
}

// The job of these texts. Its model goes to the first file, and its answer comes from the second, if they are
// named.
fn job(
    alloc: Global,
    texts: &jobs::Job,
    opb: Option<&str>,
    answer: Option<&str>,
) -> Result<Job, AllocError> {
    let inputs = inputs(alloc, texts)?;
    Ok(match texts.kind {
        Kind::Encode => Job::Encode {
            inputs,
            opb: copy(alloc, opb)?,
        },
        Kind::Decode => Job::Decode {
            inputs,
            sol: String::from_str(alloc, "out")?,
            answer: copy(alloc, answer)?,
        },
        Kind::Extend => Job::Extend {
            inputs,
            from: String::from_str(alloc, "last")?,
        },
    })
}

fn copy(alloc: Global, path: Option<&str>) -> Result<Option<String>, AllocError> {
    match path {
        Some(path) => Ok(Some(String::from_str(alloc, path)?)),
        None => Ok(None),
    }
}

// The result of a job, and the bytes that were sent to its file and to the output.
#[derive(Drop)]
struct Ended {
    outcome: Result<(), Fault>,
    file: MemoryTarget,
    output: MemoryTarget,
}

fn end_of(
    alloc: Global,
    job: &Job,
    files: &[MemoryFile],
    input: &[u8],
) -> Result<Ended, AllocError> {
    let mut files = MemoryFiles {
        files,
        plan: even(),
    };
    let mut input = MemorySource::new(input, even());
    let mut file = TargetAtPath {
        path: job.output_path(),
        target: MemoryTarget::new(alloc, 4096, even())?,
    };
    let mut output = TargetAtPath {
        path: None,
        target: MemoryTarget::new(alloc, 4096, even())?,
    };
    let outcome = perform(alloc, job, &mut files, &mut input, &mut file, &mut output);
    Ok(Ended {
        outcome,
        file: file.target,
        output: output.target,
    })
}

// The job is done, and these texts went to its file and to the output.
fn check_done(rt: &impl Abort, ended: &Ended, file: &[u8], output: &[u8]) {
    assert_eq!(rt; ended.outcome, Ok(()));
    assert_eq!(rt; ended.file.bytes(), file);
    assert_eq!(rt; ended.output.bytes(), output);
}

#[test]
fn texts_go_to_their_outputs(rt: HostRuntime) -> Result<(), Fail> {
    let alloc = rt.alloc();
    for texts in &jobs() {
        let asked = job(alloc, texts, Some("out"), Some("last"))?;
        let ended = end_of(alloc, &asked, &files_of(texts), b"")?;
        let [first, second] = texts.outputs;
        match texts.kind {
            Kind::Encode | Kind::Decode => check_done(&rt, &ended, first, second),
            Kind::Extend => check_done(&rt, &ended, b"", first),
        }
    }
    Ok(())
}

// If no file is named, the model goes to the output, and the answer comes from the input.
#[test]
fn input_and_output_where_no_file_is_named(rt: HostRuntime) -> Result<(), Fail> {
    let alloc = rt.alloc();
    for texts in &jobs() {
        let asked = job(alloc, texts, None, None)?;
        let [_, _, _, _, last] = texts.inputs;
        let ended = end_of(alloc, &asked, &files_of(texts), last)?;
        let [first, second] = texts.outputs;
        match texts.kind {
            Kind::Encode | Kind::Extend => check_done(&rt, &ended, b"", first),
            Kind::Decode => check_done(&rt, &ended, first, second),
        }
    }
    Ok(())
}

// The files of a job, with this one at another path.
fn files_without(texts: &jobs::Job<'static>, number: usize) -> [MemoryFile<'static>; 5] {
    let mut files = files_of(texts);
    if let Some(moved) = files.get_mut(number) {
        moved.path = "elsewhere";
    }
    files
}

// The read failed if the job names the missing file, and then nothing was sent.
fn check_missing(rt: &impl Abort, ended: &Ended, is_named: bool) {
    if is_named {
        assert_eq!(rt; ended.outcome, Err(Fault::Read));
        assert!(rt; ended.file.bytes().is_empty() && ended.output.bytes().is_empty());
    } else {
        assert_eq!(rt; ended.outcome, Ok(()));
    }
}

// Each file in turn is at another path.
#[test]
fn each_path_missing(rt: HostRuntime) -> Result<(), Fail> {
    let alloc = rt.alloc();
    for texts in &jobs() {
        let asked = job(alloc, texts, Some("out"), Some("last"))?;
        for (number, bytes) in texts.inputs.iter().enumerate() {
            let ended = end_of(alloc, &asked, &files_without(texts, number), b"")?;
            check_missing(&rt, &ended, !bytes.is_empty());
        }
    }
    Ok(())
}
