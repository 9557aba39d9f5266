//! The words of the command line, and the files that they name, read.
ghost use Rattle.std.specs.Prelude.{◌≡◌, IfOk};
ghost use Rattle.rota_core.specs.InstanceTables.{problem_of as tables_of};
ghost use Rattle.rota_core.specs.ScenarioTables.{numbers_of};
ghost use Rattle.rota_core.specs.RosterTables.{HasShapeOf};

use rota_core::{FileFault, History, Instance, Roster, Scenario, Week};
use rota_read::{read_fixed, read_history, read_scenario, read_week};
use std::alloc::AllocError;
use std::rt::{Env, Files};
use std::{env, fs, io};

/// The reason why the program stops.
#[derive(Debug, Drop)]
pub enum Stop {
    File(FileFault),
    Io(io::Error),
    Words,
}

impl From<FileFault> for Stop {
    fn from(fault: FileFault) -> Stop {
        Stop::File(fault)
    }
}

impl From<io::Error> for Stop {
    fn from(error: io::Error) -> Stop {
        Stop::Io(error)
    }
}

impl From<AllocError> for Stop {
    fn from(_: AllocError) -> Stop {
        Stop::File(FileFault::Memory)
    }
}

/// The words of the command line, the program's name first.
pub fn command_line<R: Env + AllocGlobal>(rt: &R) -> Result<Vec<String>, Stop> {
    Ok(env::args(rt)?.collect(rt.alloc())?)
}

/// The options and paths that the words of the command line name.
#[derive(Clone, Copy)]
pub struct Words<'a> {
    early: bool,
    fixed: Option<&'a str>,
    scenario: &'a str,
    history: &'a str,
    week: &'a str,
    pub solution: Option<&'a str>,
}

impl<'a> Words<'a> {
    /// The options and paths that these words name. The first word is the program's name. Returns `None` if
    /// they name no week.
    pub fn of(words: &'a [String]) -> Option<Words<'a>> {
        let (_, words) = words.split_first()?;
        let (early, words) = match words {
            [flag, rest @ ..] if flag.as_str() == "--early" => (true, rest),
            _ => (false, words),
        };
        let (fixed, words) = match words {
            [option, path, rest @ ..] if option.as_str() == "--fix" => (Some(path.as_str()), rest),
            _ => (None, words),
        };
        let [scenario, history, week, rest @ ..] = words else {
            return None;
        };
        Some(Words {
            early,
            fixed,
            scenario: scenario.as_str(),
            history: history.as_str(),
            week: week.as_str(),
            solution: rest.first().map(|path| path.as_str()),
        })
    }
}

// The scenario that the file at the path spells.
fn scenario_of<R: Files + AllocGlobal>(rt: &R, path: &str) -> Result<Scenario, Stop> {
    let text = fs::read(rt, path)?;
    Ok(read_scenario(rt.alloc(), &text)?)
}

// The history that the file at the path spells.
fn history_of<R: Files + AllocGlobal>(
    rt: &R,
    scenario: &Scenario,
    path: &str,
) -> Result<History, Stop>
    ensures { IfOk result (λ h. h.numbers ≡ numbers_of scenario.now) }
{
    let text = fs::read(rt, path)?;
    Ok(read_history(rt.alloc(), scenario, &text)?)
}

// The week that the file at the path spells.
fn week_of<R: Files + AllocGlobal>(rt: &R, scenario: &Scenario, path: &str) -> Result<Week, Stop>
    ensures { IfOk result (λ w. w.numbers ≡ numbers_of scenario.now) }
{
    let text = fs::read(rt, path)?;
    Ok(read_week(rt.alloc(), scenario, &text)?)
}

// The instance of the scenario, after the history at the path.
fn after<R: Files + AllocGlobal>(
    rt: &R,
    scenario: Scenario,
    history: &str,
    week: Week,
    early: bool,
) -> Result<Instance, Stop>
    requires { week.numbers ≡ numbers_of scenario }
{
    let history = history_of(rt, &scenario, history)?;
    Ok(Instance::join(scenario, history, week, early)?)
}

// The instance that the three files spell.
fn joined<R: Files + AllocGlobal>(rt: &R, words: &Words<'_>) -> Result<Instance, Stop> {
    let scenario = scenario_of(rt, words.scenario)?;
    let week = week_of(rt, &scenario, words.week)?;
    after(rt, scenario, words.history, week, words.early)
}

// The cells of the file at the path, which must be held.
fn held_of<R: Files + AllocGlobal>(rt: &R, instance: &Instance, path: &str) -> Result<Roster, Stop>
    ensures { IfOk result (λ roster. HasShapeOf (tables_of instance.now) roster) }
{
    let text = fs::read(rt, path)?;
    Ok(read_fixed(rt.alloc(), instance, &text)?)
}

// The instance with the cells of the file at the path held.
fn holding<R: Files + AllocGlobal>(
    rt: &R,
    instance: Instance,
    path: &str,
) -> Result<Instance, Stop> {
    let cells = held_of(rt, &instance, path)?;
    Ok(instance.hold(cells))
}

/// The instance that the files spell.
pub fn instance_of<R: Files + AllocGlobal>(rt: &R, words: &Words<'_>) -> Result<Instance, Stop> {
    let instance = joined(rt, words)?;
    match words.fixed {
        Some(path) => holding(rt, instance, path),
        None => Ok(instance),
    }
}
