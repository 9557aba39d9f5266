//! A week whose rows do not come from a file: the example of your own format in `docs/embedding.md`.
ghost use Rattle.std.specs.Prelude.{◌≡◌, IfOk};
ghost use Rattle.std.specs.Option.{ForSome};
ghost use Rattle.rota_core.specs.ScenarioTables.{numbers_of};

use rota_core::{Demand, Scenario, Week, WeekParts};
use std::alloc::{AllocError, Global};

/// The number of nurses that a day needs, on a shift type and with a skill.
#[derive(Clone, Copy)]
pub struct Row {
    pub day: u8,
    pub shift: u8,
    pub skill: u8,
    pub demand: Demand,
}

/// The week of these rows, without requests, or `None` if a number of a row is above its limit.
pub fn week_of_rows(
    alloc: Global,
    scenario: &Scenario,
    rows: &[Row],
) -> Result<Option<Week>, AllocError>
    ensures { IfOk result (λ given. ForSome given (λ week. week.numbers ≡ numbers_of scenario.now)) }
{
    let (nurses, shifts, skills) = (scenario.nurses(), scenario.shifts(), scenario.skills());
    let no_demand = Demand {
        minimum: 0,
        optimal: 0,
    };
    let mut demands = vec![in alloc; no_demand; 7 * usize::from(shifts) * usize::from(skills)]?;
    for row in rows {
        if row.day > 6 || row.shift >= shifts || row.skill >= skills {
            return Ok(None);
        }
        if row.demand.minimum > 9999 || row.demand.optimal > 9999 {
            return Ok(None);
        }
        let line = usize::from(row.day) * usize::from(shifts) + usize::from(row.shift);
        if let Some(demand) = demands.get_mut(line * usize::from(skills) + usize::from(row.skill)) {
            *demand = row.demand;
        }
    }
    let requests = vec![in alloc; 0; usize::from(nurses) * 7 * usize::from(shifts)]?;
    Ok(Some(Week::of_parts(WeekParts {
        nurses,
        shifts,
        skills,
        demands,
        requests,
    })))
}

#[cfg(test)]
mod tests {
    use super::*;
    use crate::week_files::one_nurse_one_shift;
    use rota_core::Instance;
    use rota_read::{read_history, read_scenario};
    use std::test::Fail;

    // The instance of a week with this row, or `None` if the row is refused.
    fn instance_of_row(alloc: Global, row: Row) -> Result<Option<Instance>, Fail> {
        let files = one_nurse_one_shift();
        let scenario = read_scenario(alloc, files.scenario)?;
        let history = read_history(alloc, &scenario, files.history)?;
        let Some(week) = week_of_rows(alloc, &scenario, &[row])? else {
            return Ok(None);
        };
        Ok(Some(Instance::join(scenario, history, week, false)?))
    }

    #[test]
    fn rows_make_a_week(rt: HostRuntime) -> Result<(), Fail> {
        let demand = Demand {
            minimum: 1,
            optimal: 2,
        };
        let row = Row {
            day: 6,
            shift: 0,
            skill: 0,
            demand,
        };
        assert!(rt; instance_of_row(rt.alloc(), Row { day: 7, ..row })?.is_none());
        let Some(instance) = instance_of_row(rt.alloc(), row)? else {
            panic!(rt; "the row is refused");
        };
        for shift in 0..instance.shifts() {
            for skill in 0..instance.skills() {
                assert_eq!(rt; instance.demand(6, shift, skill), demand);
                assert_eq!(rt; instance.demand(5, shift, skill).optimal, 0);
            }
        }
        Ok(())
    }
}
