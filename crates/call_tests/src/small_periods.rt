//! Runs for one week and for two, over files in memory.
use crate::week_files::WeekFiles as Week;
use byte_ports::{CallPlan, MemorySource, MemoryTarget};
use rota_bound_run::{PeriodFiles, Question, WeekFiles, run_bound};
use rota_pb::PeriodFault;
use std::alloc::{AllocError, Global};

/// A certificate of one leaf for one week: the price of a place on Monday is 40 points.
pub const PROOF_OF_ONE: &[u8] = b"CERTIFICATE s1
WEEKS = 1
PRICES = 1
ROWS = 1
Early Head 40000 0 0 0 0 0 0
LEAVES = 1
LEAF 0 SURCHARGES = 0
";

/// The same for two weeks.
pub const PROOF_OF_TWO: &[u8] = b"CERTIFICATE s1
WEEKS = 2
PRICES = 1
ROWS = 1
Early Head 40000 0 0 0 0 0 0
ROWS = 1
Early Head 40000 0 0 0 0 0 0
LEAVES = 1
LEAF 0 SURCHARGES = 0
";

/// A roster in which nobody works.
pub const NOBODY: &[u8] = b"SOLUTION
0 s1
ASSIGNMENTS = 0
";

/// A roster with one assignment.
pub const ANN_WORKS: &[u8] = b"SOLUTION
0 s1
ASSIGNMENTS = 1
Ann Mon Day Nurse
";

/// Ann is off on the last Sunday, and she works on the first Monday.
pub const TWO_FACTS: &[u8] = b"FACTS s1
ROWS = 2
HOLDS CHOICE 2 Ann Sun None
HOLDS CHOICE 1 Ann Mon Day
";

/// The question and the files of a run for one or two equal weeks.
#[derive(Clone, Copy)]
pub struct Run {
    pub minimums: bool,
    pub week: Week,
    pub two: bool,
    pub given: Option<&'static [u8]>,
    pub proof: Option<&'static [u8]>,
    pub rosters: &'static [&'static [u8]],
}

/// A run for one week, without facts, a certificate and rosters.
pub fn one_week(week: Week) -> Run {
    Run {
        minimums: false,
        week,
        two: false,
        given: None,
        proof: None,
        rosters: &[],
    }
}

/// The same for two weeks.
pub fn two_weeks(week: Week) -> Run {
    Run {
        two: true,
        ..one_week(week)
    }
}

// Makes sources one after the other. The one with a number fails after some calls.
#[derive(Drop)]
struct Sources {
    next: usize,
    failing: Option<(usize, u64)>,
}

impl Sources {
    fn of(&mut self, bytes: &'static [u8]) -> MemorySource<'static> {
        let good_calls = match self.failing {
            Some((number, calls)) if number == self.next => Some(calls),
            _ => None,
        };
        self.next = self.next.saturating_add(1);
        MemorySource::new(bytes, CallPlan::new(4096, good_calls))
    }

    fn of_week(&mut self, run: &Run) -> WeekFiles<MemorySource<'static>> {
        WeekFiles {
            week: self.of(run.week.week),
            fix: None,
        }
    }

    fn of_some(&mut self, text: Option<&'static [u8]>) -> Option<MemorySource<'static>> {
        match text {
            Some(text) => Some(self.of(text)),
            None => None,
        }
    }
}

// The files of the run, in the order in which they are read.
fn files_of(
    alloc: Global,
    run: &Run,
    failing: Option<(usize, u64)>,
) -> Result<PeriodFiles<MemorySource<'static>>, AllocError> {
    let mut sources = Sources { next: 0, failing };
    let scenario = sources.of(run.week.scenario);
    let history = sources.of(run.week.history);
    let mut weeks: Vec<WeekFiles<MemorySource<'static>>> = Vec::new(alloc);
    weeks.push(sources.of_week(run))?;
    if run.two {
        weeks.push(sources.of_week(run))?;
    }
    let given = sources.of_some(run.given);
    let proof = sources.of_some(run.proof);
    let mut rosters = Vec::new(alloc);
    for text in run.rosters {
        rosters.push(sources.of(*text))?;
    }
    Ok(PeriodFiles {
        scenario,
        history,
        weeks,
        given,
        proof,
        rosters,
    })
}

/// Performs the run, if it has no roster or one for each week. The file with the number of `failing`, if any, fails after
/// some calls.
pub fn perform(
    alloc: Global,
    run: &Run,
    failing: Option<(usize, u64)>,
    out: &mut MemoryTarget,
) -> Result<(), PeriodFault> {
    let mut files = files_of(alloc, run, failing)?;
    let question = Question {
        early: false,
        minimums: run.minimums,
    };
    if files.weeks.is_empty() {
        return Ok(());
    }
    if files.rosters.is_empty() || files.rosters.len() == files.weeks.len() {
        return run_bound(alloc, question, &mut files, out);
    }
    Ok(())
}
