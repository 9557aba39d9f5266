//! Memory that runs out while tables, rosters and answers are made. Each test prints its result, or that
//! memory ran out. `tests/program/refused_memory.sh` refuses each allocation in turn and compares the lines.
use crate::answers::of_pieces;
use crate::week_files::{instance_of, one_nurse_one_shift};
use rota_certificate_read::{read_certificate, read_facts};
use rota_core::{Bits, FileFault, Instance, Roster, Scenario};
use rota_read::{read_history, read_scenario, read_solution, read_week};
use solver_text::Answer;
use std::alloc::Global;
use std::fmt::Debug;
use std::io;

fn print<T: Debug>(rt: &impl Print, found: &Result<T, FileFault>) -> io::Result<()> {
    match found {
        Ok(value) => println!(rt; "{value:?}"),
        Err(FileFault::Memory) => println!(rt; "out of memory"),
        Err(fault) => println!(rt; "{fault:?}"),
    }
}

// The results made from a scenario's text and, except for the scenario and its copy, from another one.
#[derive(Clone, Copy)]
enum Table {
    Scenario,
    Copy,
    History,
    Week,
    Certificate,
    Facts,
}

// The numbers of weeks and nurses.
fn weeks_and_nurses(scenario: &Scenario) -> (u16, u16) {
    (scenario.weeks(), scenario.nurses())
}

// The numbers of a copy.
fn numbers_of_copy(alloc: Global, scenario: &Scenario) -> Result<(u16, u16), FileFault> {
    Ok(weeks_and_nurses(&scenario.copy(alloc)?))
}

// The number of nurses with a row.
fn rows_of_history(alloc: Global, scenario: &Scenario) -> Result<usize, FileFault> {
    match read_history(alloc, scenario, one_nurse_one_shift().history) {
        Ok(history) => Ok(history.into_parts().past.len()),
        Err(fault) => Err(fault),
    }
}

// The number of demands.
fn demands_of_week(alloc: Global, scenario: &Scenario) -> Result<usize, FileFault> {
    match read_week(alloc, scenario, one_nurse_one_shift().week) {
        Ok(week) => Ok(week.into_parts().demands.len()),
        Err(fault) => Err(fault),
    }
}

const CERTIFICATE: &[u8] =
    b"CERTIFICATE s1 WEEKS = 1 PRICES = 1 ROWS = 0 LEAVES = 2 SPLIT EVEN LEAF 0 SURCHARGES = 1 5 LEAF 0 SURCHARGES = 0";

// The number of nodes.
fn count_of_nodes(alloc: Global, scenario: &Scenario) -> Result<usize, FileFault> {
    match read_certificate(alloc, scenario, 1, CERTIFICATE) {
        Ok(certificate) => Ok(certificate.tree.nodes.len()),
        Err(fault) => Err(fault),
    }
}

const FACTS: &[u8] = b"FACTS s1 ROWS = 2 HOLDS EVEN NOT CHOICE 1 Ann Mon None";

// The number of facts.
fn count_of_facts(alloc: Global, scenario: &Scenario) -> Result<usize, FileFault> {
    match read_facts(alloc, scenario, 1, FACTS) {
        Ok(facts) => Ok(facts.conditions.len()),
        Err(fault) => Err(fault),
    }
}

// Prints the size of the table.
fn print_table(
    rt: &impl Print,
    alloc: Global,
    scenario: &Scenario,
    table: Table,
) -> io::Result<()> {
    match table {
        Table::Scenario => print(rt, &Ok(weeks_and_nurses(scenario))),
        Table::Copy => print(rt, &numbers_of_copy(alloc, scenario)),
        Table::History => print(rt, &rows_of_history(alloc, scenario)),
        Table::Week => print(rt, &demands_of_week(alloc, scenario)),
        Table::Certificate => print(rt, &count_of_nodes(alloc, scenario)),
        Table::Facts => print(rt, &count_of_facts(alloc, scenario)),
    }
}

fn read_and_print(rt: &impl Print, alloc: Global, table: Table) -> io::Result<()> {
    match read_scenario(alloc, one_nurse_one_shift().scenario) {
        Ok(scenario) => print_table(rt, alloc, &scenario, table),
        Err(fault) => print::<usize>(rt, &Err(fault)),
    }
}

#[test]
fn scenario_read(rt: HostRuntime) -> io::Result<()> {
    read_and_print(&rt, rt.alloc(), Table::Scenario)
}

#[test]
fn scenario_copied(rt: HostRuntime) -> io::Result<()> {
    read_and_print(&rt, rt.alloc(), Table::Copy)
}

#[test]
fn history_read(rt: HostRuntime) -> io::Result<()> {
    read_and_print(&rt, rt.alloc(), Table::History)
}

#[test]
fn week_read(rt: HostRuntime) -> io::Result<()> {
    read_and_print(&rt, rt.alloc(), Table::Week)
}

#[test]
fn certificate_read(rt: HostRuntime) -> io::Result<()> {
    read_and_print(&rt, rt.alloc(), Table::Certificate)
}

#[test]
fn facts_read(rt: HostRuntime) -> io::Result<()> {
    read_and_print(&rt, rt.alloc(), Table::Facts)
}

// The origin of a roster.
#[derive(Clone, Copy)]
enum Origin {
    Solution,
    New,
}

const SOLUTION: &[u8] = b"SOLUTION 0 s1 ASSIGNMENTS = 1 Ann Mon Day Nurse";

// The number of cells in the roster.
fn count_of(alloc: Global, instance: &Instance, origin: Origin) -> Result<u32, FileFault> {
    match origin {
        Origin::Solution => Ok(read_solution(alloc, instance, SOLUTION)?.count()),
        Origin::New => Ok(Roster::new(alloc, instance)?.count()),
    }
}

fn cells(alloc: Global, origin: Origin) -> Result<u32, FileFault> {
    match instance_of(alloc, &one_nurse_one_shift()) {
        Ok(instance) => count_of(alloc, &instance, origin),
        Err(fault) => Err(fault),
    }
}

#[test]
fn solution_read(rt: HostRuntime) -> io::Result<()> {
    print(&rt, &cells(rt.alloc(), Origin::Solution))
}

#[test]
fn new_roster(rt: HostRuntime) -> io::Result<()> {
    print(&rt, &cells(rt.alloc(), Origin::New))
}

// The number of held cells, after a roster without cells has replaced a roster with one.
fn hold_twice(alloc: Global, instance: Instance) -> Result<u32, FileFault> {
    let first = read_solution(alloc, &instance, SOLUTION)?;
    let second = Roster::new(alloc, &instance)?;
    Ok(instance.hold(first).hold(second).held_count())
}

// The roster that was held before is freed.
#[test]
fn rosters_held_in_turn(rt: HostRuntime) -> io::Result<()> {
    match instance_of(rt.alloc(), &one_nurse_one_shift()) {
        Ok(instance) => print(&rt, &hold_twice(rt.alloc(), instance)),
        Err(fault) => print::<u32>(&rt, &Err(fault)),
    }
}

// The number of truth values, and whether the last one is true.
fn bits(alloc: Global) -> Result<(u32, bool), FileFault> {
    let bits = Bits::new(alloc, 65)?;
    Ok((bits.len(), bits.get(64)))
}

#[test]
fn new_bits(rt: HostRuntime) -> io::Result<()> {
    print(&rt, &bits(rt.alloc()))
}

#[test]
fn new_answer(rt: HostRuntime) -> io::Result<()> {
    match Answer::new(rt.alloc(), 8) {
        Ok(_) => println!(rt; "an answer"),
        Err(_) => println!(rt; "out of memory"),
    }
}

#[test]
fn whole_answer(rt: HostRuntime) -> io::Result<()> {
    match of_pieces(rt.alloc(), &[b"o 5\ns OPTIMUM FOUND\nv x1 -x2", b" x8\n"]) {
        Some(outcome) => println!(rt; "{outcome:?}"),
        None => println!(rt; "out of memory"),
    }
}
