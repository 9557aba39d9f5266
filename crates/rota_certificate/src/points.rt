//! The value of a point of the penalty.

ghost use Rattle.std.specs.Prelude.{◌≡◌, ◌*◌, ◌≤◌};
ghost use Rattle.rota_core.specs.Prices.{thousandths};

use rota_core::POINT;
use std::marker::Model;

/// The value of a point of the penalty, in units of a price: 1000, or 0 if the soft rules are left
/// out.
#[derive(Clone, Copy)]
pub struct PointValue {
    units: u64,
}

impl Model for PointValue {
    ghost use Rattle.std.specs.Prelude.{ℕ, ◌≤◌};
    ghost use Rattle.rota_core.specs.Prices.{thousandths};

    ghost Value = { ℕ };

    ghost view = { λ v. v.units };

    ghost invariant = { λ v. v.units ≤ thousandths };

    ghost inverse = { λ units. record { units = units } };
}

impl PointValue {
    /// The value of a point if the soft rules count.
    pub fn with_soft_rules() -> PointValue
        ensures { result ≡ thousandths }
    {
        PointValue { units: POINT }
    }

    /// The value of a point if the soft rules are left out.
    pub fn without_soft_rules() -> PointValue
        ensures { result ≡ 0 }
    {
        PointValue { units: 0 }
    }

    /// The value of this number of points.
    pub fn times(self, points: u64) -> u64
        requires small { points ≤ 1000000000 }
        ensures product { result ≡ self * points }
        ensures small { result ≤ 1000000000000 }
    {
        self.units * points
    }
}
