//! The weeks of a leaf, as the search for a nurse's minimum goes through them.

ghost use Rattle.std.specs.Prelude.{◌≡◌, ◌<◌, ◌&&◌, ◌||◌, not};
ghost use Rattle.rota_core.specs.InstanceTables.{problem_of};
ghost use Rattle.rota_certificate.specs.LeafBounds.{nurse_count};
ghost use Rattle.rota_certificate.specs.LentLeaves.{weeks_of};
ghost use Rattle.rota_certificate.specs.NurseBounds.{charge_totals, pay_for_history};

use crate::points::PointValue;
use crate::tariffs::Tariff;
use rota_core::{Condition, Contract, Instance, Prices};
use std::marker::Model;

/// A week and its prices.
#[derive(Clone, Copy)]
pub struct LentWeek<'a> {
    /// The week. Its history is the one before the first week of the leaf.
    pub instance: &'a Instance,
    /// The price of each place of the week.
    pub prices: &'a Prices,
}

/// The weeks of a leaf, and its case.
#[derive(Drop)]
pub struct LentLeaf<'a> {
    /// The weeks in order.
    pub weeks: &'a [LentWeek<'a>],
    /// The conditions of the case.
    pub case: &'a [Condition],
}

impl<'a> Model for LentLeaf<'a> {
    ghost use Rattle.rota_certificate.specs.LentLeaves.{IsLeaf, LentTables};

    ghost Value = { LentTables };

    ghost view = { λ l. record { weeks = l.weeks.now; case = l.case.now } };

    ghost invariant = { λ l. IsLeaf (record { weeks = l.weeks.now; case = l.case.now }) };
}

/// A week of a leaf in the search for a nurse's minimum: the week with its prices and its number in
/// the leaf, the value of a point, the nurse with her contract and tariff, and whether totals are charged.
#[derive(Drop)]
pub struct Stage<'a> {
    pub instance: &'a Instance,
    pub prices: &'a Prices,
    pub leaf: &'a LentLeaf<'a>,
    pub week: usize,
    pub unit: PointValue,
    pub nurse: u16,
    pub contract: Contract,
    pub tariff: Tariff,
    pub charged: bool,
}

impl<'a> Model for Stage<'a> {
    ghost use Rattle.rota_certificate.specs.Stages.{IsStage, StageTables};

    ghost Value = { StageTables };

    ghost use Rattle.rota_certificate.specs.StageFields.{stage_of};

    ghost view = { stage_of };

    ghost invariant = { λ s. IsStage (stage_of s) };
}

// Whether the week charges totals.
fn charges_totals(instance: &Instance) -> bool
    ensures { let week = problem_of instance.now in result ≡ (week.is_early || week.is_last) }
{
    instance.early() || instance.last_week()
}

// Whether the week pays for the history's totals above the maximums.
fn pays_for_history(instance: &Instance) -> bool
    ensures { let week = problem_of instance.now in result ≡ (not week.is_early && week.is_last) }
{
    !instance.early() && instance.last_week()
}

// Whether any of the weeks charges totals.
fn charge_totals(leaf: &LentLeaf<'_>) -> bool
    ensures { result ≡ charge_totals (weeks_of leaf.now) }
{
    for one in leaf.weeks {
        if charges_totals(one.instance) {
            return true;
        }
    }
    false
}

/// Whether any of the weeks pays for the history's totals above the maximums.
pub fn pay_for_history(leaf: &LentLeaf<'_>) -> bool
    ensures { result ≡ pay_for_history (weeks_of leaf.now) }
{
    for one in leaf.weeks {
        if pays_for_history(one.instance) {
            return true;
        }
    }
    false
}

impl<'a> Stage<'a> {
    /// The first week of the leaf.
    pub fn first(leaf: &'a LentLeaf<'a>, unit: PointValue, tariff: Tariff, nurse: u16) -> Stage<'a>
        requires { nurse < nurse_count (weeks_of leaf.now) }
        ensures leaf { result.leaf ≡ leaf.now }
        ensures week { result.week ≡ 0 }
        ensures unit { result.unit ≡ unit }
        ensures nurse { result.nurse ≡ nurse }
        ensures tariff { result.tariff ≡ tariff }
        ensures charged { result.charged ≡ charge_totals (weeks_of leaf.now) }
    {
        let charged = charge_totals(leaf);
        let first = leaf.weeks[0];
        let contract = first.instance.contract(nurse);
        Stage {
            instance: first.instance,
            prices: first.prices,
            leaf,
            week: 0,
            unit,
            nurse,
            contract,
            tariff,
            charged,
        }
    }
}
