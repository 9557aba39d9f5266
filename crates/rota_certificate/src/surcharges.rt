//! The conditions of a leaf with their surcharges.

ghost use Rattle.std.specs.Prelude.{◌≡◌, ◌≤◌, IfOk, slice_index_or};
ghost use Rattle.std.specs.List.{AllByRecursion};
ghost use Rattle.rota_core.specs.Limits.{max_price};
ghost use Rattle.rota_certificate.specs.CaseLimits.{AreLimitedCharges, IsLimitedCase};
ghost use Rattle.rota_certificate.specs.Tariffs.{surcharged};

use crate::demand::condition_at;
use rota_core::Condition;
use std::alloc::{AllocError, Global};

/// A condition of a leaf's case with its surcharge, in thousandths of a point.
#[derive(Clone, Copy)]
pub struct Surcharged {
    /// The condition.
    pub condition: Condition,
    /// The surcharge.
    pub surcharge: u32,
}

// The surcharge with this number, or 0.
fn surcharge_at(surcharges: &[u32], index: usize) -> u32
    ensures { result ≡ slice_index_or surcharges.now index 0 }
{
    if index < surcharges.len() {
        surcharges[index]
    } else {
        0
    }
}

/// The conditions of the case with these surcharges, in order; a missing surcharge is 0.
pub fn with_surcharges(
    alloc: Global,
    case: &[Condition],
    surcharges: &[u32],
) -> Result<Vec<Surcharged>, AllocError>
    requires case { IsLimitedCase case.now }
    requires small { AllByRecursion (λ surcharge. surcharge ≤ max_price) surcharges.now }
    ensures charges { IfOk result (λ charges. charges.items ≡ surcharged case.now surcharges.now) }
    ensures limited { IfOk result (λ charges. AreLimitedCharges charges.items) }
{
    let mut charges = Vec::with_capacity(alloc, case.len())?;
    for index in 0..case.len() {
        let condition = condition_at(case, index);
        let surcharge = surcharge_at(surcharges, index);
        charges.push(Surcharged {
            condition,
            surcharge,
        })?;
    }
    Ok(charges)
}
