//! The tables of a week: a line for each nurse, shift type and skill, for each skill that a nurse has, each
//! forbidden succession, each demand, and each requested day off.

use crate::files::Stop;
use crate::words::{Place, text_of};
use rota_core::{Contract, DAYS, Demand, Instance, Past};

const NOBODY: Demand = Demand {
    minimum: 0,
    optimal: 0,
};

/// The numbers of the week, and its tables.
pub fn print_tables<R: Print>(rt: &R, instance: &Instance) -> Result<(), Stop> {
    println!(rt; "scenario {}", text_of(instance.scenario_name()))?;
    println!(rt; "week {} last {}", instance.week(), instance.last_week())?;
    println!(rt; "early {} held {}", instance.early(), instance.held_count())?;
    print_skills(rt, instance)?;
    print_shifts(rt, instance)?;
    print_nurses(rt, instance)?;
    print_demands(rt, instance)
}

// The name, and its number among the nurses, the shift types and the skills.
fn print_name<R: Print>(rt: &R, instance: &Instance, name: &[u8]) -> Result<(), Stop> {
    let nurse = Place(instance.find_nurse(name));
    let shift = Place(instance.find_shift(name));
    let skill = Place(instance.find_skill(name));
    println!(rt; "name {} {nurse} {shift} {skill}", text_of(name))?;
    Ok(())
}

// Each skill: its number and its name.
fn print_skills<R: Print>(rt: &R, instance: &Instance) -> Result<(), Stop> {
    for skill in 0..instance.skills() {
        println!(rt; "skill {skill}")?;
        print_name(rt, instance, instance.skill_name(skill))?;
    }
    Ok(())
}

// Each shift type: its number, limits and name, and the shift types that may not follow it.
fn print_shifts<R: Print>(rt: &R, instance: &Instance) -> Result<(), Stop> {
    for shift in 0..instance.shifts() {
        let limits = instance.limits(shift);
        println!(rt; "shift {shift} {} {}", limits.min, limits.max)?;
        print_name(rt, instance, instance.shift_name(shift))?;
        print_successions(rt, instance, shift)?;
    }
    Ok(())
}

// The shift types that may not follow this one.
fn print_successions<R: Print>(rt: &R, instance: &Instance, shift: u8) -> Result<(), Stop> {
    for next in 0..instance.shifts() {
        if instance.forbidden(shift, next) {
            println!(rt; "not before {next}")?;
        }
    }
    Ok(())
}

// Each nurse: her number, name, contract, history, skills and requests.
fn print_nurses<R: Print>(rt: &R, instance: &Instance) -> Result<(), Stop> {
    for nurse in 0..instance.nurses() {
        println!(rt; "nurse {nurse}")?;
        print_name(rt, instance, instance.nurse_name(nurse))?;
        print_contract(rt, &instance.contract(nurse))?;
        print_past(rt, &instance.past(nurse))?;
        print_skills_of(rt, instance, nurse)?;
        print_requests_of(rt, instance, nurse)?;
    }
    Ok(())
}

// The limits of assignments, working days, days off and worked weekends, and whether weekends are complete.
fn print_contract<R: Print>(rt: &R, contract: &Contract) -> Result<(), Stop> {
    let Contract {
        total,
        work,
        off,
        ..
    } = contract;
    println!(rt; "total {} {}", total.min, total.max)?;
    println!(rt;
        "work {} {} off {} {}",
        work.min, work.max, off.min, off.max
    )?;
    println!(rt;
        "weekends {} complete {}",
        contract.weekends, contract.complete
    )?;
    Ok(())
}

// The nurse's history before this week.
fn print_past<R: Print>(rt: &R, past: &Past) -> Result<(), Stop> {
    println!(rt;
        "before {} {} {}",
        past.assignments,
        past.weekends,
        Place(past.last)
    )?;
    println!(rt;
        "runs {} {} {}",
        past.shift_run, past.work_run, past.off_run
    )?;
    Ok(())
}

// The skills that the nurse has.
fn print_skills_of<R: Print>(rt: &R, instance: &Instance, nurse: u16) -> Result<(), Stop> {
    for skill in 0..instance.skills() {
        if instance.has_skill(nurse, skill) {
            println!(rt; "has skill {skill}")?;
        }
    }
    Ok(())
}

// The day and shift type of each cell that request rows of the nurse match, and the number of such rows.
fn print_requests_of<R: Print>(rt: &R, instance: &Instance, nurse: u16) -> Result<(), Stop> {
    for day in 0..DAYS {
        for shift in 0..instance.shifts() {
            let rows = instance.requests(nurse, day, shift);
            if rows > 0 {
                println!(rt; "off {day} {shift}: {rows}")?;
            }
        }
    }
    Ok(())
}

// The day, shift type and skill of each demand for nurses.
fn print_demands<R: Print>(rt: &R, instance: &Instance) -> Result<(), Stop> {
    for day in 0..DAYS {
        for shift in 0..instance.shifts() {
            for skill in 0..instance.skills() {
                let demand = instance.demand(day, shift, skill);
                if demand != NOBODY {
                    print_demand(rt, day, shift, skill, demand)?;
                }
            }
        }
    }
    Ok(())
}

// The day, shift type and skill, and the minimum and the optimal number of nurses.
fn print_demand<R: Print>(
    rt: &R,
    day: u8,
    shift: u8,
    skill: u8,
    demand: Demand,
) -> Result<(), Stop> {
    let Demand { minimum, optimal } = demand;
    println!(rt; "demand {day} {shift} {skill}: {minimum} {optimal}")?;
    Ok(())
}
