//! Costs and rebates of a nurse that were computed before. The entry of each follows from its week,
//! day, and past or choice. A later one replaces it there, and a lost one is computed again.

ghost use Rattle.std.specs.Prelude.{◌≡◌, ℕ, ◌≤◌, ◌<◌, All, IfOk, IfSome, List, None, drop, length};
ghost use Rattle.rota_certificate.specs.KnownCosts.{AreRightFor, IsRightCost, IsRightRebate, first_rebate};
ghost use Rattle.rota_certificate.specs.NurseBounds.{LeafWeek, Terms, least_left};

use rota_core::Past;
use std::alloc::{AllocError, Global};
use std::marker::Model;

/// The minimum cost of the last `days_left` days of the week and of the later weeks, after the past.
#[derive(Clone, Copy, Debug, PartialEq, Eq)]
pub struct KnownCost {
    pub week: usize,
    pub days_left: u8,
    pub past: Past,
    pub cost: u64,
}

/// The rebate of the choice for the day of the week with this number.
#[derive(Clone, Copy, Debug, PartialEq, Eq)]
pub struct KnownRebate {
    pub week: usize,
    pub day: u8,
    pub choice: Option<u8>,
    pub rebate: u64,
}

/// Entries for the costs and rebates of a nurse.
#[derive(Drop)]
pub struct Known {
    costs: Vec<Option<KnownCost>>,
    rebates: Vec<Option<KnownRebate>>,
}

// The number of entries for rebates, a prime: enough for eight weeks with seventeen choices a day.
const REBATE_ENTRIES: usize = 1021;

// A number that spreads pasts over the entries: any large odd number, not near a power of two.
const SPREAD: usize = 1_000_003;

// The number of entries for costs, a prime: at least about as large as the number of costs of a nurse
// with four shift types. With fewer entries most costs are lost before they are needed again. All
// entries take about ten megabytes in a period of eight weeks, and forty in a longer one.
fn cost_entries(weeks: usize) -> usize
    ensures some { 0 < result }
    ensures few { result ≤ 1048573 }
{
    match weeks {
        0..=1 => 16_381,
        2 => 65_521,
        3..=8 => 262_139,
        _ => 1_048_573,
    }
}

// Entries without costs.
fn no_costs(alloc: Global, entries: usize) -> Result<Vec<Option<KnownCost>>, AllocError>
    ensures { IfOk result (λ costs. length costs.items ≡ entries) }
{
    let mut costs = Vec::with_capacity(alloc, entries)?;
    for entry in 0..entries {
        costs.push(None)?;
    }
    Ok(costs)
}

// Entries without rebates.
fn no_rebates(alloc: Global) -> Result<Vec<Option<KnownRebate>>, AllocError>
    ensures { IfOk result (λ rebates. 0 < length rebates.items) }
{
    let mut rebates = Vec::with_capacity(alloc, REBATE_ENTRIES)?;
    for entry in 0..REBATE_ENTRIES {
        rebates.push(None)?;
    }
    Ok(rebates)
}

// The number with one more part mixed into it.
fn with_part(mix: usize, part: u16) -> usize {
    mix.wrapping_mul(SPREAD).wrapping_add(usize::from(part))
}

// A number for the choice: 0 for a day off.
fn number_of(choice: Option<u8>) -> u16 {
    match choice {
        None => 0,
        Some(shift) => u16::from(shift) + 1,
    }
}

// A number that spreads the pasts.
fn spread(past: Past) -> usize {
    let mix = with_part(usize::from(number_of(past.last)), past.shift_run);
    let mix = with_part(with_part(mix, past.work_run), past.off_run);
    with_part(with_part(mix, past.assignments), past.weekends)
}

// The entry of a cost among this number of entries.
fn cost_entry(entries: usize, week: usize, days_left: u8, past: Past) -> usize
    requires { 0 < entries }
    ensures { result < entries }
{
    let mix = spread(past).wrapping_mul(SPREAD).wrapping_add(week);
    with_part(mix, u16::from(days_left)) % entries
}

// The entry of a rebate among this number of entries.
fn rebate_entry(entries: usize, week: usize, day: u8, choice: Option<u8>) -> usize
    requires { 0 < entries }
    ensures { result < entries }
{
    with_part(with_part(week, u16::from(day)), number_of(choice)) % entries
}

impl Model for Known {
    ghost use Rattle.rota_certificate.specs.KnownCosts.{HasEntries, KnownTables};

    ghost Value = { KnownTables };

    ghost view = { λ k. record { costs = k.costs.items; rebates = k.rebates.items } };

    ghost invariant = { λ k. HasEntries (record { costs = k.costs.items; rebates = k.rebates.items }) };
}

impl Known {
    /// Entries for this number of weeks.
    pub fn for_weeks(alloc: Global, weeks: usize) -> Result<Known, AllocError> {
        let costs = no_costs(alloc, cost_entries(weeks))?;
        let rebates = no_rebates(alloc)?;
        Ok(Known { costs, rebates })
    }

    // Forgets the costs.
    fn forget_costs(&mut self)
        ensures none { All (λ known. known ≡ None) self.new.costs }
    {
        self.costs.fill(None);
    }

    // Forgets the rebates.
    fn forget_rebates(&mut self)
        ensures costs { self.new.costs ≡ self.old.costs }
        ensures none { All (λ known. known ≡ None) self.new.rebates }
    {
        self.rebates.fill(None);
    }

    /// Forgets all costs and rebates.
    pub fn forget(&mut self)
        ensures { (terms : Terms) (weeks : List LeafWeek) (nurse : ℕ) → AreRightFor terms weeks nurse self.new }
    {
        self.forget_costs();
        self.forget_rebates();
    }

    /// The cost, if it is known.
    pub fn cost(&self, week: usize, days_left: u8, past: Past) -> Option<u64>
        ensures { (terms : Terms) (weeks : List LeafWeek) (nurse : ℕ) → AreRightFor terms weeks nurse self.now →
            IfSome result (λ cost. cost ≡ least_left terms (drop week weeks) nurse days_left past) }
    {
        let found = self.costs[cost_entry(self.costs.len(), week, days_left, past)];
        match found {
            Some(known)
                if known.week == week && known.days_left == days_left && known.past == past => {
                Some(known.cost)
            }
            _ => None,
        }
    }

    /// Keeps the cost.
    pub fn keep_cost(&mut self, known: KnownCost)
        ensures { (terms : Terms) (weeks : List LeafWeek) (nurse : ℕ) → AreRightFor terms weeks nurse self.old →
            IsRightCost terms weeks nurse known → AreRightFor terms weeks nurse self.new }
    {
        let entry = cost_entry(self.costs.len(), known.week, known.days_left, known.past);
        self.costs[entry] = Some(known);
    }

    /// The rebate, if it is known.
    pub fn rebate(&self, week: usize, day: u8, choice: Option<u8>) -> Option<u64>
        ensures { (terms : Terms) (weeks : List LeafWeek) (nurse : ℕ) → AreRightFor terms weeks nurse self.now →
            IfSome result (λ rebate. rebate ≡ first_rebate (drop week weeks) nurse day choice) }
    {
        let found = self.rebates[rebate_entry(self.rebates.len(), week, day, choice)];
        match found {
            Some(known) if known.week == week && known.day == day && known.choice == choice => {
                Some(known.rebate)
            }
            _ => None,
        }
    }

    /// Keeps the rebate.
    pub fn keep_rebate(&mut self, known: KnownRebate)
        ensures { (terms : Terms) (weeks : List LeafWeek) (nurse : ℕ) → AreRightFor terms weeks nurse self.old →
            IsRightRebate weeks nurse known → AreRightFor terms weeks nurse self.new }
    {
        let entry = rebate_entry(self.rebates.len(), known.week, known.day, known.choice);
        self.rebates[entry] = Some(known);
    }
}
