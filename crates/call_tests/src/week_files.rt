//! The files of small weeks.
ghost use Rattle.std.specs.Prelude.{◌≡◌};
ghost use Rattle.rota_core.specs.ScenarioTables.{numbers_of};

use rota_core::{FileFault, Instance, Scenario, Week};
use rota_read::{read_history, read_scenario, read_week};
use std::alloc::Global;

/// The three files of a week.
#[derive(Clone, Copy)]
pub struct WeekFiles {
    pub scenario: &'static [u8],
    pub history: &'static [u8],
    pub week: &'static [u8],
}

// The scenario of one nurse, with these limits on her days of work in a row.
macro_rules! one_nurse {
    ($limits:literal) => {
        concat!(
            "SCENARIO = s1
WEEKS = 2
SKILLS = 1
Nurse
SHIFT_TYPES = 1
Day (1,9)
FORBIDDEN_SHIFT_TYPES_SUCCESSIONS
Day 0
CONTRACTS = 1
Full (1,9) ",
            $limits,
            " (1,9) 9 0
NURSES = 1
Ann Full 1 Nurse
"
        )
        .as_bytes()
    };
}

pub fn one_nurse_one_shift() -> WeekFiles {
    WeekFiles {
        scenario: one_nurse!("(1,9)"),
        history: b"HISTORY
0 s1
NURSE_HISTORY
Ann 0 0 None 0 0 0
",
        week: b"WEEK_DATA
s1
REQUIREMENTS
SHIFT_OFF_REQUESTS = 0
",
    }
}

/// Ann worked on two days before Monday, and should work on at most two days in a row.
pub fn run_in_the_history() -> WeekFiles {
    WeekFiles {
        scenario: one_nurse!("(1,2)"),
        history: b"HISTORY
0 s1
NURSE_HISTORY
Ann 2 0 Day 2 2 0
",
        ..one_nurse_one_shift()
    }
}

/// Two nurses, three shift types and two skills. On Monday one nurse is wanted early as a head nurse. Ann has the skill, but
/// comes from a night, after which nobody may work early. Bob is no head nurse.
pub fn two_nurses() -> WeekFiles {
    WeekFiles {
        scenario: b"SCENARIO = s1
WEEKS = 2
SKILLS = 2
Head Nurse
SHIFT_TYPES = 3
Early (1,9) Late (1,9) Night (1,9)
FORBIDDEN_SHIFT_TYPES_SUCCESSIONS
Early 0
Late 1 Early
Night 2 Early Late
CONTRACTS = 1
Full (1,9) (1,9) (1,9) 9 0
NURSES = 2
Ann Full 2 Head Nurse
Bob Full 1 Nurse
",
        history: b"HISTORY
0 s1
NURSE_HISTORY
Ann 1 0 Night 1 1 0
Bob 0 0 None 0 0 0
",
        week: b"WEEK_DATA
s1
REQUIREMENTS
Early Head (1,1) (0,0) (0,0) (0,0) (0,0) (0,0) (0,0)
SHIFT_OFF_REQUESTS = 0
",
    }
}

// The instance of the scenario, after this history.
fn after(
    alloc: Global,
    scenario: Scenario,
    history: &[u8],
    week: Week,
) -> Result<Instance, FileFault>
    requires { week.numbers ≡ numbers_of scenario }
{
    let history = read_history(alloc, &scenario, history)?;
    Instance::join(scenario, history, week, false)
}

/// The instance that the files spell.
pub fn instance_of(alloc: Global, files: &WeekFiles) -> Result<Instance, FileFault> {
    let scenario = read_scenario(alloc, files.scenario)?;
    let week = read_week(alloc, &scenario, files.week)?;
    after(alloc, scenario, files.history, week)
}
