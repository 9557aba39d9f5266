//! The costs of a roster.
use crate::files::Stop;
use rota_core::{Instance, Rule};
use rota_judge::{Judge, Verdict, verdict_of};
use rota_read::read_solution;
use std::fs;
use std::rt::Files;

/// Prints the number of cells in the roster of the solution, the first row that it does not satisfy with the
/// rule of that row, and the roster's costs, in total and by soft rule.
pub fn print_costs<R: Files + Print + AllocGlobal>(
    rt: &R,
    instance: &Instance,
    solution: &str,
) -> Result<(), Stop> {
    let roster = read_solution(rt.alloc(), instance, &fs::read(rt, solution)?)?;
    println!(rt; "cells {}", roster.count())?;
    let judge = Judge::of_roster(instance, &roster);
    print_verdict(rt, &verdict_of(instance, judge))
}

fn print_verdict<R: Print>(rt: &R, verdict: &Verdict) -> Result<(), Stop> {
    match verdict.unmet {
        Some((row, rule)) => println!(rt; "unmet {row} {rule}")?,
        None => println!(rt; "unmet none")?,
    }
    println!(rt; "objective {}", verdict.objective)?;
    for (rule, cost) in Rule::SOFT.into_iter().zip(verdict.costs) {
        println!(rt; "{rule} {cost}")?;
    }
    Ok(())
}
