//! The part of a past on which the charges depend.

ghost use Rattle.std.specs.Prelude.{◌≡◌, ◌-◌};
ghost use Rattle.rota_certificate.specs.Nearness.{IsNear};
ghost use Rattle.rota_certificate.specs.Stages.{days_before, least_in, week_of};

use crate::capped::capped;
use crate::stages::Stage;
use rota_core::{DAYS, Past};

/// The past before the last `days_left` days of the week, with capped numbers, and without the totals if
/// they are not charged. The minimum cost of the nurse after it is the same.
pub fn charged_past(stage: &Stage<'_>, days_left: u8, past: Past) -> Past
    requires { IsNear (week_of stage.now).week.shifts (days_before stage.now (DAYS - days_left)) past }
    ensures same { least_in stage.now days_left result ≡ least_in stage.now days_left past }
    ensures near { IsNear (week_of stage.now).week.shifts (days_before stage.now (DAYS - days_left)) result }
{
    let past = capped(stage.instance, stage.nurse, past);
    if stage.charged {
        past
    } else {
        Past {
            assignments: 0,
            weekends: 0,
            last: past.last,
            shift_run: past.shift_run,
            work_run: past.work_run,
            off_run: past.off_run,
        }
    }
}
