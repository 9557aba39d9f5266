//! The results of the public calls for a week's files, as lines for tests to compare.
//!
//!     call_report [--early] [--fix FILE] SCENARIO HISTORY WEEK [SOLUTION]
//!
//! It prints the week's tables, the numbers of its cells, and the size of its model, by arithmetic and by
//! counting. With a solution it prints the judge's verdict on the roster.
#![tactic(auto)]

mod costs;
mod files;
mod numbers;
mod tables;
mod words;

use crate::costs::print_costs;
use crate::files::{Stop, Words, command_line, instance_of};
use crate::numbers::print_numbers;
use crate::tables::print_tables;
use rota_core::Instance;
use std::rt::{Env, Files};

fn main(rt: HostRuntime) -> Result<(), Stop> {
    run(&rt)
}

fn run<R: Env + Files + Print + AllocGlobal>(rt: &R) -> Result<(), Stop> {
    let words = command_line(rt)?;
    match Words::of(words.as_slice()) {
        Some(words) => report(rt, &words),
        None => Err(Stop::Words),
    }
}

fn report<R: Files + Print + AllocGlobal>(rt: &R, words: &Words<'_>) -> Result<(), Stop> {
    let instance = instance_of(rt, words)?;
    print_report(rt, &instance, words.solution)
}

fn print_report<R: Files + Print + AllocGlobal>(
    rt: &R,
    instance: &Instance,
    solution: Option<&str>,
) -> Result<(), Stop> {
    match solution {
        Some(solution) => print_costs(rt, instance, solution),
        None => print_week(rt, instance),
    }
}

fn print_week<R: Print>(rt: &R, instance: &Instance) -> Result<(), Stop> {
    print_tables(rt, instance)?;
    print_numbers(rt, instance)
}
