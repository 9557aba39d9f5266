//! The prices of the places of a week. A place is a day, a shift type and a skill.

ghost use Rattle.std.specs.Prelude.{◌≡◌, ℕ, ◌+◌, ◌*◌, ◌≤◌, ◌<◌, IfOk, length};
ghost use Rattle.rota_core.specs.Limits.{max_price};

use crate::limits::DAYS;
use crate::tables::value_at;
use std::alloc::{AllocError, Global};
use std::marker::Model;

/// The value of a point, in the unit of prices: thousandths.
pub const POINT: u64 = 1000;

/// A price for each day, shift type and skill of a week, in thousandths of a point and at most `MAX_PRICE`.
pub struct Prices {
    shifts: u8,
    skills: u8,
    prices: Vec<u32>,
}

impl Drop for Prices {
    fn drop(self) {
        let Prices {
            shifts: _,
            skills: _,
            prices: _,
        } = self;
    }
}

impl Model for Prices {
    ghost use Rattle.rota_core.specs.PriceTables.{IsPriceTables, PriceTables};

    ghost Value = { PriceTables };

    ghost view = { λ p. record { shifts = p.shifts; skills = p.skills; prices = p.prices.items } };

    ghost invariant = { λ p. IsPriceTables (record { shifts = p.shifts; skills = p.skills; prices = p.prices.items }) };
}

// The index of a place, for these numbers of shift types and skills.
fn index_of_place(shifts: u8, skills: u8, day: u8, shift: u8, skill: u8) -> usize
    ensures { result ≡ (day * shifts + shift) * skills + skill }
{
    let row = usize::from(day) * usize::from(shifts) + usize::from(shift);
    row * usize::from(skills) + usize::from(skill)
}

impl Prices {
    ghost use Rattle.rota_core.specs.PriceTables.{IsPriceTables, price_index, prices_of, SetsPrice};

    /// Prices of 0 for these numbers of shift types and skills.
    pub fn new(alloc: Global, shifts: u8, skills: u8) -> Result<Prices, AllocError>
        ensures shifts { IfOk result (λ prices. prices.shifts ≡ shifts) }
        ensures skills { IfOk result (λ prices. prices.skills ≡ skills) }
        ensures free { IfOk result (λ prices. (d s k : ℕ) → prices_of prices d s k ≡ 0) }
    {
        let places = DAYS as usize * usize::from(shifts) * usize::from(skills);
        Ok(Prices {
            shifts,
            skills,
            prices: vec![in alloc; 0; places]?,
        })
    }

    /// The prices of this table: index (d * S + s) * K + k is the price of day d, shift type s and skill k, for S
    /// shift types and K skills.
    pub fn of_table(shifts: u8, skills: u8, prices: Vec<u32>) -> Prices
        requires { IsPriceTables (record { shifts = shifts; skills = skills; prices = prices.items }) }
        ensures { result ≡ record { shifts = shifts; skills = skills; prices = prices.items } }
    {
        Prices {
            shifts,
            skills,
            prices,
        }
    }

    /// The number of shift types for which there are prices.
    pub fn shifts(&self) -> u8
        ensures { result ≡ self.now.shifts }
    {
        self.shifts
    }

    /// The number of skills for which there are prices.
    pub fn skills(&self) -> u8
        ensures { result ≡ self.now.skills }
    {
        self.skills
    }

    /// The price of the place. A place outside the week may have the index of another.
    pub fn price(&self, day: u8, shift: u8, skill: u8) -> u32
        ensures price { result ≡ prices_of self.now day shift skill }
        ensures within { result ≤ max_price }
    {
        value_at(&self.prices, self.index(day, shift, skill), 0)
    }

    /// Sets the price of the place. The other places keep theirs.
    pub fn set(&mut self, day: u8, shift: u8, skill: u8, price: u32)
        requires day_in { day < DAYS }
        requires shift_in { shift < self.old.shifts }
        requires skill_in { skill < self.old.skills }
        requires within { price ≤ max_price }
        ensures { SetsPrice self.old self.new day shift skill price }
    {
        let index = self.index(day, shift, skill);
        self.prices[index] = price;
    }

    fn index(&self, day: u8, shift: u8, skill: u8) -> usize
        ensures index { result ≡ price_index self.now day shift skill }
        ensures below { day < DAYS → shift < self.now.shifts → skill < self.now.skills → result < length self.now.prices }
    {
        index_of_place(self.shifts, self.skills, day, shift, skill)
    }
}
