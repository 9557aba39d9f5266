//! Prints the nurses who could fill each demand of a week, with the variable of each in the week's model. It
//! is a small program that uses only `rota_core`, `rota_read` and `rota_items`.
//!
//! `inrc2pb-fits SCENARIO HISTORY WEEK` prints a line for each day, shift type and skill that needs nurses. A
//! nurse fits if she has the skill and, on Monday, if her last shift does not forbid the shift type.
//! `inrc2pb-fits --help` prints a help text.
#![tactic(auto)]

ghost use Rattle.std.specs.Prelude.{◌≡◌, ◌<◌, IfOk};
ghost use Rattle.rota_core.specs.InstanceTables.{problem_of};
ghost use Rattle.rota_core.specs.ScenarioTables.{numbers_of};

use anyhow::{Context, Result, bail};
use rota_core::{Cell, DAYS, History, Instance, Scenario, Week};
use rota_items::cell_var;
use rota_read::{day_name, read_history, read_scenario, read_week};
use std::io::Write;
use std::rt::{Env, Files};
use std::{env, fs, io};

const HELP: &str = "Prints the nurses who could fill each place of a week

Usage: inrc2pb-fits SCENARIO HISTORY WEEK

Arguments:
  SCENARIO  the scenario, with the ward's nurses and their skills
  HISTORY   the history before the week
  WEEK      the requirements and requests of the week

Options:
  -h, --help  print help

A line names the day, the shift type and the skill of a place, the minimum and the best number of nurses, and each
nurse who fits, with her variable in the week's model. A nurse fits if she has the skill and, on Monday, if her last
shift does not forbid the shift type.

The files: docs/formats.md. Exit status: 0 on success, else 1.
";

fn main(rt: HostRuntime) -> Result<()> {
    let words: Vec<String> = env::args(&rt)?.collect(rt.alloc())?;
    match words.as_slice() {
        [_, word] if word.as_str() == "--help" || word.as_str() == "-h" => help(&rt),
        [_, scenario, history, week] => {
            let instance = join(&rt, scenario.as_str(), history.as_str(), week.as_str())?;
            tell_places(&rt, &instance)
        }
        _ => bail!("give the files of a scenario, a history and a week, or --help"),
    }
}

fn help(rt: &impl Print) -> Result<()> {
    io::writer(rt).write_all(HELP.as_bytes())?;
    Ok(())
}

// The bytes of the file. An error gives its name.
fn bytes_of<R: Files + AllocGlobal>(rt: &R, path: &str) -> Result<Vec<u8>> {
    fs::read(rt, path).context(format_args!("{path}"))
}

// The scenario that the file spells.
fn scenario_of<R: Files + AllocGlobal>(rt: &R, path: &str) -> Result<Scenario> {
    let text = bytes_of(rt, path)?;
    Ok(read_scenario(rt.alloc(), &text)?)
}

// The history that the file spells.
fn history_of<R: Files + AllocGlobal>(rt: &R, scenario: &Scenario, path: &str) -> Result<History>
    ensures { IfOk result (λ h. h.numbers ≡ numbers_of scenario.now) }
{
    let text = bytes_of(rt, path)?;
    Ok(read_history(rt.alloc(), scenario, &text)?)
}

// The week's data that the file spells.
fn week_of<R: Files + AllocGlobal>(rt: &R, scenario: &Scenario, path: &str) -> Result<Week>
    ensures { IfOk result (λ w. w.numbers ≡ numbers_of scenario.now) }
{
    let text = bytes_of(rt, path)?;
    Ok(read_week(rt.alloc(), scenario, &text)?)
}

// The week that the three files spell.
fn join<R: Files + AllocGlobal>(
    rt: &R,
    scenario: &str,
    history: &str,
    week: &str,
) -> Result<Instance> {
    let scenario = scenario_of(rt, scenario)?;
    let history = history_of(rt, &scenario, history)?;
    let week = week_of(rt, &scenario, week)?;
    Ok(Instance::join(scenario, history, week, false)?)
}

// The lines of all demands.
fn tell_places(rt: &impl Print, instance: &Instance) -> Result<()> {
    for day in 0..DAYS {
        for shift in 0..instance.shifts() {
            for skill in 0..instance.skills() {
                tell_place(rt, instance, day, shift, skill)?;
            }
        }
    }
    Ok(())
}

// A line with the nurses who fit, if there is a demand.
fn tell_place(rt: &impl Print, instance: &Instance, day: u8, shift: u8, skill: u8) -> Result<()>
    requires day_in { day < DAYS }
    requires shift_in { shift < (problem_of instance.now).shifts }
    requires skill_in { skill < (problem_of instance.now).skills }
{
    let demand = instance.demand(day, shift, skill);
    if demand.minimum == 0 && demand.optimal == 0 {
        return Ok(());
    }
    let mut out = io::writer(rt);
    out.write_all(day_name(day))?;
    out.write_all(b" ")?;
    out.write_all(instance.shift_name(shift))?;
    out.write_all(b" ")?;
    out.write_all(instance.skill_name(skill))?;
    write!(out, " ({},{}):", demand.minimum, demand.optimal)?;
    for nurse in 0..instance.nurses() {
        let cell = Cell {
            nurse,
            day,
            shift,
            skill,
        };
        if fits(instance, cell) {
            out.write_all(b" ")?;
            out.write_all(instance.nurse_name(nurse))?;
            write!(out, " x{}", cell_var(instance, cell))?;
        }
    }
    out.write_all(b"\n")?;
    Ok(())
}

// Whether the nurse has the skill and, on Monday, her last shift does not forbid the shift type.
fn fits(instance: &Instance, cell: Cell) -> bool {
    let forbidden = match instance.past(cell.nurse).last {
        Some(last) if cell.day == 0 => instance.forbidden(last, cell.shift),
        _ => false,
    };
    instance.has_skill(cell.nurse, cell.skill) && !forbidden
}
