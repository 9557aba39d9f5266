//! An instance: one week of a rostering problem and the history of the weeks before.

ghost use Rattle.std.specs.Prelude.{◌≡◌, ◌<◌, ◌≤◌, ◌↔◌, None, IfOk, IfErr, IsErr, All, length};
ghost use Rattle.rota_core.specs.Limits.{Within};

use crate::fault::{FileFault, FileName, Kind};
use crate::history::{History, HistoryParts};
use crate::limits::{DAYS, MAX_NURSES, MAX_SHIFTS, MAX_SKILLS};
use crate::roster::Roster;
use crate::roster_cells::Cells;
use crate::scenario::Scenario;
use crate::tables::{NO_DEMAND, NO_PAST, value_at};
use crate::values::{Cell, Contract, Demand, Past, Span};
use crate::week::{Week, WeekParts};
use std::marker::Model;
use std::mem;

/// The tables of one week: its scenario, which spans the week, the history before it, and its own demands and
/// requests. All have the same nurses, shift types and skills. The instance also records whether excess is
/// charged in each week, and the cells that are held. Nurses, shift types and skills are numbered from 0 in
/// the order of the scenario's file, and days are 0 (Monday) to 6 (Sunday).
///
/// The getters accept every number. One that is not of the week finds what the table has at its index, which may
/// belong to other numbers; after the end of the table it finds 0, `false` or `None`.
pub struct Instance {
    scenario: Scenario,
    history: HistoryParts,
    week: WeekParts,
    early: bool,
    held: Option<Roster>,
}

impl Drop for Instance {
    fn drop(self) {
        let Instance {
            scenario: _,
            history: _,
            week: _,
            early: _,
            held: _,
        } = self;
    }
}

impl Model for Instance {
    ghost use Rattle.rota_core.specs.InstanceTables.{InstanceTables, IsInstance};
    ghost use Rattle.rota_core.specs.Parts.{instance_of};

    ghost Value = { InstanceTables };

    ghost view = { λ i. instance_of i.scenario i.history i.week i.early i.held };

    ghost invariant = { λ i. IsInstance (instance_of i.scenario i.history i.week i.early i.held) };
}

impl Instance {
    ghost use Rattle.rota_core.specs.InstanceTables.{IsInstance, holding, problem_of};
    ghost use Rattle.rota_core.specs.Pasts.{ArePasts, with_pasts};
    ghost use Rattle.rota_core.specs.Roster.{InWeek};
    ghost use Rattle.rota_core.specs.RosterCells.{cells_of};
    ghost use Rattle.rota_core.specs.RosterTables.{HasShapeOf};
    ghost use Rattle.rota_core.specs.ScenarioTables.{numbers_of};
    ghost use Rattle.rota_core.specs.WeekTables.{IsDemand, IsPast};

    /// The instance of these three tables, with no cell held. Returns `LateWeek` at line 0 of the history if
    /// the history's week number is not below the scenario's number of weeks. `early` says whether the excess
    /// of a total is charged in each week, not only in the last. See `rota_read::read_week`.
    pub fn join(
        scenario: Scenario,
        history: History,
        week: Week,
        early: bool,
    ) -> Result<Instance, FileFault>
        requires history_fits { history.numbers ≡ numbers_of scenario }
        requires week_fits { week.numbers ≡ numbers_of scenario }
        ensures joined { IfOk result (λ i. i ≡ record {
          scenario = scenario;
          history = history;
          week = week;
          is_early = early;
          held = None;
        }) }
        ensures limits { IfOk result (λ i. IsInstance i) }
        ensures fault { IfErr result (λ e. e ≡ FileFault.Bad Kind.LateWeek FileName.History 0) }
        ensures late { IsErr result ↔ (scenario.weeks ≤ history.week) }
    {
        let history = history.into_parts();
        if history.week >= scenario.weeks() {
            return Err(FileFault::Bad {
                kind: Kind::LateWeek,
                file: FileName::History,
                line: 0,
            });
        }
        Ok(Instance {
            scenario,
            history,
            week: week.into_parts(),
            early,
            held: None,
        })
    }

    /// The instance in which exactly the cells of the roster are held.
    pub fn hold(self, roster: Roster) -> Instance
        requires { HasShapeOf (problem_of self) roster }
        ensures holds { result ≡ holding self roster }
        ensures limits { IsInstance result }
    {
        let Instance {
            scenario,
            history,
            week,
            early,
            held: _,
        } = self;
        Instance {
            scenario,
            history,
            week,
            early,
            held: Some(roster),
        }
    }

    /// Puts these pasts of the nurses into the history, and returns those that it had.
    pub fn replace_pasts(&mut self, pasts: Vec<Past>) -> Vec<Past>
        requires { ArePasts (problem_of self.old).numbers pasts.items }
        ensures replaced { self.new ≡ with_pasts self.old pasts.items }
        ensures before { result.items ≡ self.old.history.past }
    {
        mem::replace(&mut self.history.past, pasts)
    }

    /// The scenario of the week.
    pub fn scenario(&self) -> &Scenario
        ensures { result.now ≡ self.now.scenario }
    {
        &self.scenario
    }

    /// The number of nurses, 1 to `MAX_NURSES`.
    pub fn nurses(&self) -> u16
        ensures count { result ≡ (problem_of self.now).nurses }
        ensures within { Within MAX_NURSES result }
        ensures limits { IsInstance self.now }
    {
        self.scenario.nurses()
    }

    /// The number of shift types, 1 to `MAX_SHIFTS`.
    pub fn shifts(&self) -> u8
        ensures count { result ≡ (problem_of self.now).shifts }
        ensures within { Within MAX_SHIFTS result }
        ensures limits { IsInstance self.now }
    {
        self.scenario.shifts()
    }

    /// The number of skills, 1 to `MAX_SKILLS`.
    pub fn skills(&self) -> u8
        ensures count { result ≡ (problem_of self.now).skills }
        ensures within { Within MAX_SKILLS result }
    {
        self.scenario.skills()
    }

    /// The number of the week, from 0.
    pub fn week(&self) -> u16
        ensures week { result ≡ self.now.history.week }
        ensures spanned { result < self.now.scenario.weeks }
        ensures limits { IsInstance self.now }
    {
        self.history.week
    }

    /// Whether the week is the last week of the scenario.
    pub fn last_week(&self) -> bool
        ensures { result ≡ (problem_of self.now).is_last }
    {
        self.scenario.weeks() == self.week() + 1
    }

    /// Whether the excess of a total is charged in each week, not only in the last.
    pub fn early(&self) -> bool
        ensures { result ≡ (problem_of self.now).is_early }
    {
        self.early
    }

    /// Whether the cell is held.
    pub fn held(&self, cell: Cell) -> bool
        ensures { result ≡ (problem_of self.now).is_held cell }
    {
        match &self.held {
            Some(roster) => roster.has(cell),
            None => false,
        }
    }

    /// The held cells, in the order of nurse, day, shift type and skill.
    pub fn held_cells(&self) -> Cells<'_>
        ensures cells { let problem = problem_of self.now in result ≡ cells_of problem problem.is_held }
        ensures inside { All (InWeek (problem_of self.now)) result }
    {
        match &self.held {
            Some(roster) => roster.cells(),
            None => Cells::at(None, self.shifts(), self.skills()),
        }
    }

    /// The number of held cells.
    pub fn held_count(&self) -> u32
        ensures { let problem = problem_of self.now in result ≡ length (cells_of problem problem.is_held) }
    {
        match &self.held {
            Some(roster) => roster.count(),
            None => 0,
        }
    }

    /// The contract of the nurse.
    pub fn contract(&self, nurse: u16) -> Contract
        ensures { result ≡ (problem_of self.now).contract nurse }
    {
        self.scenario.contract(nurse)
    }

    /// The nurse's history from earlier weeks.
    pub fn past(&self, nurse: u16) -> Past
        ensures past { result ≡ (problem_of self.now).past nurse }
        ensures within { IsPast (problem_of self.now).shifts result }
    {
        value_at(&self.history.past, usize::from(nurse), NO_PAST)
    }

    /// The limits of consecutive assignments to the shift type.
    pub fn limits(&self, shift: u8) -> Span
        ensures { result ≡ (problem_of self.now).limits shift }
    {
        self.scenario.limits(shift)
    }

    /// Whether the second shift type may not follow the first on the next day.
    pub fn forbidden(&self, first: u8, second: u8) -> bool
        ensures { result ≡ (problem_of self.now).is_forbidden first second }
    {
        self.scenario.forbidden(first, second)
    }

    /// Whether the nurse has the skill.
    pub fn has_skill(&self, nurse: u16, skill: u8) -> bool
        ensures { result ≡ (problem_of self.now).has_skill nurse skill }
    {
        self.scenario.has_skill(nurse, skill)
    }

    /// The minimum and the optimal number of nurses for the day, the shift type and the skill.
    pub fn demand(&self, day: u8, shift: u8, skill: u8) -> Demand
        ensures demand { result ≡ (problem_of self.now).demand day shift skill }
        ensures within { IsDemand result }
    {
        let row = usize::from(day) * usize::from(self.week.shifts) + usize::from(shift);
        let index = row * usize::from(self.week.skills) + usize::from(skill);
        value_at(&self.week.demands, index, NO_DEMAND)
    }

    /// The number of request rows that ask to keep the nurse off the shift type, or off every shift type, on the
    /// day.
    pub fn requests(&self, nurse: u16, day: u8, shift: u8) -> u16
        ensures { result ≡ (problem_of self.now).requests nurse day shift }
    {
        let row = usize::from(nurse) * DAYS as usize + usize::from(day);
        let index = row * usize::from(self.week.shifts) + usize::from(shift);
        value_at(&self.week.requests, index, 0)
    }
}
