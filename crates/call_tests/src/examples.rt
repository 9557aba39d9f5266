//! The examples at the top of the libraries, line for line: `tests/pages/repository.sh` compares them.
ghost use Rattle.rota_core.specs.InstanceTables.{problem_of};
ghost use Rattle.rota_core.specs.RosterTables.{HasShapeOf};

use crate::week_files::{instance_of, one_nurse_one_shift, run_in_the_history};
use byte_ports::{CallPlan, MemoryTarget, Target};
use opb_text::{OpbTaker, Sink};
use rota_certificate_read::{read_certificate, read_facts};
use rota_core::{Cell, FileFault, Instance, Roster, Rule};
use rota_items::{Counter, Counts, Part, Taker, counts, drive_constraints};
use rota_judge::{Judge, verdict_of};
use rota_layout::{Cursor, LayoutError};
use rota_read::{read_history, read_scenario};
use rota_rules::early_excess;
use solver_text::{Answer, Status};
use std::alloc::Global;
use std::process::Abort;
use std::test::Fail;

#[test]
fn example_of_byte_ports(rt: HostRuntime) -> Result<(), Fail> {
    let alloc = rt.alloc();
    let mut target = MemoryTarget::new(alloc, 100, CallPlan::new(2, None))?;
    let sent = target.write(b"text")?;
    assert_eq!(rt; sent, 2);
    target.flush()?;
    assert_eq!(rt; target.bytes(), b"te".as_slice());
    Ok(())
}

#[test]
fn rosters_are_filled(rt: HostRuntime) -> Result<(), Fail> {
    let instance = instance_of(rt.alloc(), &one_nurse_one_shift())?;
    example_of_rota_core(&rt, rt.alloc(), &instance)
}

fn example_of_rota_core(rt: &impl Abort, alloc: Global, instance: &Instance) -> Result<(), Fail> {
    let mut roster = Roster::new(alloc, &instance)?;
    if let (Some(nurse), Some(shift), Some(skill)) = (
        instance.find_nurse(b"Ann"),
        instance.find_shift(b"Day"),
        instance.find_skill(b"Nurse"),
    ) {
        roster.put(Cell {
            nurse,
            day: 6,
            shift,
            skill,
        });
    }
    for cell in roster.cells() {
        assert_eq!(rt; cell.day, 6);
    }
    assert_eq!(rt; roster.count(), 1);
    Ok(())
}

#[test]
fn slots_are_read(rt: HostRuntime) -> Result<(), Fail> {
    assert_eq!(rt; example_of_rota_layout(&rt), Ok(()));
    Ok(())
}

fn example_of_rota_layout(rt: &impl Abort) -> Result<(), LayoutError> {
    let mut cursor = Cursor::open(b"ROWS = 12")?;
    assert_eq!(rt; cursor.setting(b"ROWS", 0, 100)?, 12);
    cursor.finish()
}

#[test]
fn example_of_rota_read(rt: HostRuntime) -> Result<(), Fail> {
    let (alloc, text) = (rt.alloc(), one_nurse_one_shift().scenario);
    let scenario = read_scenario(alloc, text)?;
    assert_eq!(rt; scenario.name(), b"s1".as_slice());
    if let Err(fault) = read_history(alloc, &scenario, b"HISTORY\n0 s1\n") {
        let line = format!(in alloc; "{fault}")?;
        assert_eq!(rt; line.as_str(), "history line 2: end of file");
    }
    Ok(())
}

#[test]
fn example_of_rota_certificate_read(rt: HostRuntime) -> Result<(), Fail> {
    let (alloc, text) = (rt.alloc(), one_nurse_one_shift().scenario);
    let scenario = read_scenario(alloc, text)?;
    let given = read_facts(alloc, &scenario, 1, b"FACTS s1\nROWS = 1\nHOLDS EVEN\n")?;
    assert_eq!(rt; given.conditions.len(), 1);
    if let Err(fault) = read_certificate(alloc, &scenario, 1, b"CERTIFICATE s1\n") {
        let line = format!(in alloc; "{fault}")?;
        assert_eq!(rt; line.as_str(), "certificate line 1: end of file");
    }
    Ok(())
}

#[test]
fn rosters_are_judged(rt: HostRuntime) -> Result<(), Fail> {
    let instance = instance_of(rt.alloc(), &run_in_the_history())?;
    check_first_cell(&rt, rt.alloc(), &instance)
}

fn check_first_cell(rt: &impl Abort, alloc: Global, instance: &Instance) -> Result<(), Fail> {
    let mut roster = Roster::new(alloc, instance)?;
    roster.put(Cell {
        nurse: 0,
        day: 0,
        shift: 0,
        skill: 0,
    });
    example_of_rota_judge(rt, instance, &roster)
}

fn example_of_rota_judge(rt: &impl Abort, instance: &Instance, roster: &Roster) -> Result<(), Fail>
    requires { HasShapeOf (problem_of instance.now) roster.now }
{
    let verdict = verdict_of(&instance, Judge::of_roster(&instance, &roster));
    for (rule, cost) in Rule::SOFT.into_iter().zip(verdict.costs) {
        let wanted = if rule == Rule::S2 { 30 } else { 0 };
        assert_eq!(rt; cost, wanted, "{rule}");
    }
    assert!(rt; verdict.unmet.is_none());
    Ok(())
}

#[test]
fn example_of_rota_rules(rt: HostRuntime) -> Result<(), Fail> {
    assert_eq!(rt; early_excess(15, 12, &[3, 2]), 2);
    Ok(())
}

#[test]
fn rows_are_counted(rt: HostRuntime) -> Result<(), Fail> {
    let instance = instance_of(rt.alloc(), &one_nurse_one_shift())?;
    example_of_rota_items(&rt, &instance)
}

fn example_of_rota_items(rt: &impl Abort, instance: &Instance) -> Result<(), Fail> {
    let mut counter = Counter::new();
    let Ok(()) = drive_constraints(&instance, &mut counter);
    assert_eq!(rt; counter.counts, counts(&instance));
    Ok(())
}

#[test]
fn example_of_text_sink(rt: HostRuntime) -> Result<(), Fail> {
    let alloc = rt.alloc();
    let mut target = MemoryTarget::new(alloc, 100, CallPlan::new(100, None))?;
    let mut sink = Sink::new(&mut target);
    sink.number_between(b"penalty ", 320, b"\n")?;
    sink.finish()?;
    assert_eq!(rt; target.bytes(), b"penalty 320\n".as_slice());
    Ok(())
}

#[test]
fn example_of_opb_text(rt: HostRuntime) -> Result<(), Fail> {
    let alloc = rt.alloc();
    let mut target = MemoryTarget::new(alloc, 100, CallPlan::new(100, None))?;
    let mut taker = OpbTaker::new(Sink::new(&mut target));
    taker.first_line(Counts {
        variables: 2,
        constraints: 1,
    })?;
    taker.start_row(Part::Hard(Rule::H1))?;
    taker.term(-1, 1)?;
    taker.term(-1, 2)?;
    taker.close_row(-1)?;
    taker.finish()?;
    let text = b"* #variable= 2 #constraint= 1\n-1 x1 -1 x2 >= -1 ;\n";
    assert_eq!(rt; target.bytes(), text.as_slice());
    Ok(())
}

#[test]
fn example_of_solver_text(rt: HostRuntime) -> Result<(), Fail> {
    let alloc = rt.alloc();
    let mut answer = Answer::new(alloc, 3)?;
    answer.feed(b"s OPTIMUM FOUND\nv x1 -x")?;
    answer.feed(b"2 x3\n")?;
    let solved = answer.finish()?;
    assert_eq!(rt; solved.status, Status::Optimum);
    for index in solved.bits.true_indices() {
        assert!(rt; index == 0 || index == 2);
    }
    Ok(())
}
