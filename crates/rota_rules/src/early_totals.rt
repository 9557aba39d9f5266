//! The costs, with `--early`, of the excess above a maximum total in consecutive weeks.

ghost use Rattle.std.specs.Prelude.{◌≡◌, ◌≤◌, All, length, sum};
ghost use Rattle.rota_rules.specs.CountedTotals.{added_excess};
ghost use Rattle.rota_rules.specs.EarlyWeeks.{early_charges};
ghost use Rattle.rota_core.specs.Limits.{max_number, max_weeks};

use rota_core::DAYS;

/// The excess above `limit` that the weeks charge with `--early`, if the total was `start` before the first
/// week and each week adds its step.
///
/// Each week starts with the total of the week before. Together they charge the excess above the limit at the
/// end, less the excess at the start.
pub fn early_excess(limit: u16, start: u16, steps: &[u8]) -> u64
    requires limit_in { limit ≤ max_number }
    requires start_in { start ≤ max_number }
    requires few { length steps.now ≤ max_weeks }
    requires small { All (λ step. step ≤ DAYS) steps.now }
    ensures weeks { result ≡ early_charges limit start steps.now }
    ensures whole { result ≡ added_excess limit start (sum steps.now) }
{
    let limit = u64::from(limit);
    let mut total = u64::from(start);
    let mut excess = 0;
    for step in steps {
        let before = total.saturating_sub(limit);
        total += u64::from(*step);
        excess += total.saturating_sub(limit) - before;
    }
    excess
}
