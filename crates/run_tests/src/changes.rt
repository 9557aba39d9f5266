//! The changes of a table's row to the texts of its base.
use crate::jobs::{Job, Kind};
use std::alloc::{AllocError, Global};

/// A file of a run.
#[derive(Clone, Copy, PartialEq, Eq, Debug)]
pub enum File {
    Sce,
    His,
    Week,
    /// The held cells.
    Fix,
    /// The answer, or the roster to extend.
    Last,
}

/// A change to a text. Lines are numbered from 1.
#[derive(Clone, Copy)]
pub enum Edit<'a> {
    /// The whole text is replaced by this one.
    Is(&'a [u8]),
    /// The line is replaced by this one. Past the last line, this line is added.
    Line(usize, &'a [u8]),
    /// The line and all lines after it are replaced by this text.
    Ends(usize, &'a [u8]),
    /// The text gets this length: it is cut, or extended with blanks.
    Sized(usize),
}

/// The changes of a row, one after the other.
pub type Changes<'a> = &'a [(File, Edit<'a>)];

/// The texts of a table, which its rows change.
#[derive(Clone, Copy)]
pub struct Base<'a> {
    pub kind: Kind,
    pub early: bool,
    /// The scenario, the history, the week, the held cells, and the answer or the roster to extend.
    pub inputs: [&'a [u8]; 5],
}

/// The texts of a row.
#[derive(Drop)]
pub struct Texts {
    pub sce: Vec<u8>,
    pub his: Vec<u8>,
    pub week: Vec<u8>,
    pub fix: Vec<u8>,
    pub last: Vec<u8>,
}

impl Texts {
    /// The job of these texts.
    pub fn job(&self, base: &Base) -> Job<'_> {
        Job {
            kind: base.kind,
            early: base.early,
            inputs: [&self.sce, &self.his, &self.week, &self.fix, &self.last],
            outputs: [b"", b""],
        }
    }
}

// The text up to a line, the replacement, and then the rest, if it is kept.
fn with_line(
    alloc: Global,
    text: &[u8],
    edit: (usize, &[u8], bool),
) -> Result<Vec<u8>, AllocError> {
    let (number, line, goes_on) = edit;
    let before = number.saturating_sub(1);
    let mut made = Vec::new(alloc);
    for old in text.split_inclusive(|byte| *byte == b'\n').take(before) {
        made.extend_from_slice(old)?;
    }
    made.extend_from_slice(line)?;
    if goes_on {
        made.push(b'\n')?;
        for old in text.split_inclusive(|byte| *byte == b'\n').skip(number) {
            made.extend_from_slice(old)?;
        }
    }
    Ok(made)
}

fn edited(alloc: Global, text: &[u8], edit: Edit) -> Result<Vec<u8>, AllocError> {
    match edit {
        Edit::Is(other) => Vec::from_slice(alloc, other),
        Edit::Line(number, line) => with_line(alloc, text, (number, line, true)),
        Edit::Ends(number, end) => with_line(alloc, text, (number, end, false)),
        Edit::Sized(length) => {
            let mut made = Vec::from_slice(alloc, text)?;
            made.resize(length, b' ')?;
            Ok(made)
        }
    }
}

// The text of this file with the changes.
fn changed(
    alloc: Global,
    base: &[u8],
    changes: Changes,
    file: File,
) -> Result<Vec<u8>, AllocError> {
    let mut text = Vec::from_slice(alloc, base)?;
    for (of, edit) in changes {
        if *of == file {
            text = edited(alloc, &text, *edit)?;
        }
    }
    Ok(text)
}

/// The texts of the base with the changes.
pub fn texts_of(alloc: Global, base: &Base, changes: Changes) -> Result<Texts, AllocError> {
    let [sce, his, week, fix, last] = base.inputs;
    Ok(Texts {
        sce: changed(alloc, sce, changes, File::Sce)?,
        his: changed(alloc, his, changes, File::His)?,
        week: changed(alloc, week, changes, File::Week)?,
        fix: changed(alloc, fix, changes, File::Fix)?,
        last: changed(alloc, last, changes, File::Last)?,
    })
}
