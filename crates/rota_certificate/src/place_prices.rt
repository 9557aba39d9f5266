//! The price of a place.

ghost use Rattle.std.specs.Prelude.{◌≡◌, ◌≤◌};
ghost use Rattle.rota_core.specs.Limits.{max_price};

use std::marker::Model;

/// The price of a place, in thousandths of a point: at most `MAX_PRICE`.
#[derive(Clone, Copy)]
pub struct PlacePrice {
    thousandths: u32,
}

impl Model for PlacePrice {
    ghost use Rattle.std.specs.Prelude.{ℕ, ◌≤◌};
    ghost use Rattle.rota_core.specs.Limits.{max_price};

    ghost Value = { ℕ };

    ghost view = { λ p. p.thousandths };

    ghost invariant = { λ p. p.thousandths ≤ max_price };

    ghost inverse = { λ price. record { thousandths = price } };
}

impl PlacePrice {
    /// The price of this number of thousandths of a point.
    pub fn new(thousandths: u32) -> PlacePrice
        requires { thousandths ≤ max_price }
        ensures { result ≡ thousandths }
    {
        PlacePrice { thousandths }
    }

    /// The number of thousandths of a point.
    pub fn thousandths(self) -> u64
        ensures same { result ≡ self }
        ensures small { result ≤ max_price }
    {
        u64::from(self.thousandths)
    }
}
