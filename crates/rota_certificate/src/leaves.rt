//! The bound of a leaf. `unit` is the value of a point.

ghost use Rattle.std.specs.Prelude.{◌≡◌, ◌≤◌, ◌*◌, IfOk, IfSome, None, false, true, if◌then◌else◌, map};
ghost use Rattle.std.specs.List.{AllByRecursion};
ghost use Rattle.rota_core.specs.Limits.{max_price};
ghost use Rattle.rota_core.specs.SumsBelow.{sum_below};
ghost use Rattle.rota_certificate.specs.CaseLimits.{AreLimitedCharges};
ghost use Rattle.rota_certificate.specs.LeafBounds.{added_prices, bound_of_leaf, leaf_bound, most_bound, nurse_count};
ghost use Rattle.rota_certificate.specs.LentLeaves.{prices_lent, week_lent, weeks_of};
ghost use Rattle.rota_certificate.specs.Minimums.{not_allowed};
ghost use Rattle.rota_certificate.specs.NurseBounds.{nurse_bound};
ghost use Rattle.rota_certificate.specs.Tariffs.{has_overdrawn, tariff_of};

use crate::known::Known;
use crate::nurses::nurse_bound;
use crate::places::leaf_place_bounds;
use crate::points::PointValue;
use crate::stages::LentLeaf;
use crate::surcharges::{Surcharged, with_surcharges};
use crate::tariffs::{gained, lost, tariff_of};
use rota_core::{DAYS, MAX_PRICE};
use std::alloc::{AllocError, Global};

// The number of nurses of the leaf.
fn nurse_count(leaf: &LentLeaf<'_>) -> u16
    ensures count { result ≡ nurse_count (weeks_of leaf.now) }
    ensures small { result ≤ 1000 }
{
    leaf.weeks[0].instance.nurses()
}

// The bounds of all nurses with their tariffs, unless the surcharges make a weight negative.
fn nurse_bounds(
    unit: PointValue,
    leaf: &LentLeaf<'_>,
    charges: &[Surcharged],
    known: &mut Known,
) -> Option<u64>
    requires limited { AreLimitedCharges charges.now }
    ensures none { result ≡ None → has_overdrawn unit charges.now (nurse_count (weeks_of leaf.now)) ≡ true }
    ensures some { let weeks = weeks_of leaf.now in IfSome result (λ sum. has_overdrawn unit charges.now (nurse_count weeks) ≡ false) }
    ensures bounds { let weeks = weeks_of leaf.now in
        IfSome result (λ sum. sum ≡ sum_below (nurse_count weeks) (λ n. nurse_bound unit (tariff_of unit charges.now n) weeks n)) }
    ensures small { IfSome result (λ sum. sum ≤ 1000 * (3 * not_allowed)) }
{
    let mut sum = 0;
    for nurse in 0..nurse_count(leaf) {
        match tariff_of(unit, charges, nurse) {
            None => return None,
            Some(tariff) => sum += nurse_bound(leaf, known, unit, tariff, nurse),
        }
    }
    Some(sum)
}

// The sum that is added to the bounds of the nurses.
fn added_prices(leaf: &LentLeaf<'_>) -> u64
    ensures sum { result ≡ added_prices (weeks_of leaf.now) }
    ensures small { result ≤ 1000 * (52 * (7 * max_price)) }
{
    let nurses = nurse_count(leaf);
    let days = leaf.weeks.len() as u64 * (u64::from(DAYS) * u64::from(MAX_PRICE));
    u64::from(nurses) * days
}

// The bound of the leaf with these surcharges of its conditions.
fn bound_of_leaf(
    unit: PointValue,
    leaf: &LentLeaf<'_>,
    charges: &[Surcharged],
    known: &mut Known,
) -> u64
    requires limited { AreLimitedCharges charges.now }
    ensures bound { let weeks = weeks_of leaf.now in
        result ≡ (if has_overdrawn unit charges.now (nurse_count weeks) then 0 else bound_of_leaf unit leaf.now.case charges.now weeks) }
    ensures small { result ≤ most_bound }
{
    match nurse_bounds(unit, leaf, charges, known) {
        None => 0,
        Some(nurses) => {
            let sum = leaf_place_bounds(unit, leaf) + nurses + gained(charges);
            let less = added_prices(leaf) + lost(charges);
            sum.saturating_sub(less)
        }
    }
}

/// The bound of the leaf with these surcharges, in thousandths of a point. It is 0 if they make a
/// weight negative. The first surcharge belongs to the first condition of the case, and so on; a
/// missing one is 0. Forgets what was known.
///
/// The only error is that memory runs out.
pub fn leaf_bound(
    alloc: Global,
    unit: PointValue,
    leaf: &LentLeaf<'_>,
    surcharges: &[u32],
    known: &mut Known,
) -> Result<u64, AllocError>
    requires surcharges { AllByRecursion (λ surcharge. surcharge ≤ max_price) surcharges.now }
    ensures bound { IfOk result (λ sum. sum ≡
        leaf_bound unit (map week_lent leaf.now.weeks) leaf.now.case (map prices_lent leaf.now.weeks) surcharges.now) }
    ensures small { IfOk result (λ sum. sum ≤ most_bound) }
{
    let charges = with_surcharges(alloc, leaf.case, surcharges)?;
    Ok(bound_of_leaf(unit, leaf, &charges, known))
}
