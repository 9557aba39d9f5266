//! The sums that a judge keeps, row by row.
ghost use Rattle.std.specs.Prelude.{◌≡◌, ◌<◌, IfSome, if◌then◌else◌, length};
ghost use Rattle.rota_core.specs.Rules.{soft_rules};
ghost use Rattle.rota_items.specs.Rows.{positive_part};
ghost use Rattle.rota_judge.specs.JudgeSubject.{subject_of};
ghost use Rattle.rota_judge.specs.JudgeState.{closed, constraint_closed, lacking_in, no_sums, no_tally, objective_closed, saturating_sum, with_cost};
ghost use Rattle.rota_judge.specs.Verdicts.{soft_index};
ghost use Rattle.rota_items.specs.MachineBounds.{signed_limit};

use crate::judge::subjects::Subject;
use rota_core::{Rule, SOFT_RULES};
use rota_items::Part;

/// The sums of the terms of a row that count: the sum of its slacks, and the sum of the other terms.
#[derive(Clone, Copy, PartialEq, Eq, Debug)]
pub struct RowSums {
    pub others: i64,
    pub slacks: i64,
}

impl RowSums {
    /// No term yet.
    pub fn new() -> RowSums
        ensures { result ≡ no_sums }
    {
        RowSums {
            others: 0,
            slacks: 0,
        }
    }

    /// Adds a term, at a slack or not.
    pub fn add(&mut self, coefficient: i64, at_slack: bool)
        ensures { self.new ≡ (if at_slack
            then record self.old { slacks = saturating_sum self.old.slacks coefficient }
            else record self.old { others = saturating_sum self.old.others coefficient }) }
    {
        if at_slack {
            self.slacks = self.slacks.saturating_add(coefficient);
        } else {
            self.others = self.others.saturating_add(coefficient);
        }
    }

    /// The shortage of a row: how far its terms without slacks are below the degree.
    pub fn lacking(self, degree: i64) -> u64
        ensures { result ≡ lacking_in self degree }
    {
        positive_part(degree.saturating_sub(self.others))
    }
}

/// The judge's knowledge of the open row, and of the rows before it.
#[derive(Clone, Copy, PartialEq, Eq, Debug)]
pub struct Tally {
    pub part: Part,
    pub sums: RowSums,
    /// The number of closed rows other than the objective.
    pub constraints: u32,
    /// The first constraint that is not satisfied: its number, and its rule.
    pub unmet: Option<(u32, Rule)>,
    /// The value of the objective's row without its slacks: requests, and the constant.
    pub requests_and_constant: u64,
    /// The weights of the true slacks.
    pub slacks: u64,
    /// The weighted shortages of the soft rules.
    pub shortages: [u64; SOFT_RULES],
}

impl Tally {
    /// No row yet.
    pub fn new() -> Tally
        ensures { result ≡ no_tally }
    {
        Tally {
            part: Part::Objective,
            sums: RowSums::new(),
            constraints: 0,
            unmet: None,
            requests_and_constant: 0,
            slacks: 0,
            shortages: [0; SOFT_RULES],
        }
    }

    /// Closes the open row.
    pub fn close(&mut self, subject: Subject<'_>, degree: i64)
        ensures { self.new ≡ closed (subject_of subject.entry) self.old self.old.part degree }
    {
        match self.part {
            Part::Objective => self.close_objective(),
            Part::Hard(rule) => self.close_constraint(subject, rule, 0, degree),
            Part::Soft(rule, weight) => self.close_constraint(subject, rule, weight, degree),
        }
    }

    // The slacks of the objective are charged when their own rows are closed.
    fn close_objective(&mut self)
        ensures { self.new ≡ objective_closed self.old }
    {
        let value = positive_part(self.sums.others);
        self.requests_and_constant = self.requests_and_constant.saturating_add(value);
    }

    // One more constraint, which may be the first unsatisfied one. Its shortage is charged to its rule, and
    // its true slacks to the objective.
    fn close_constraint(&mut self, subject: Subject<'_>, rule: Rule, weight: u64, degree: i64)
        ensures { self.new ≡ constraint_closed (subject_of subject.entry) self.old rule weight degree }
    {
        let lacks = self.sums.lacking(degree);
        let slacks = subject.true_slacks(self.sums, lacks);
        self.constraints = self.constraints.saturating_add(1);
        let here = if lacks <= slacks {
            None
        } else {
            Some((self.constraints, rule))
        };
        self.unmet = self.unmet.or(here);
        self.slacks = self.slacks.saturating_add(weight.saturating_mul(slacks));
        charge(&mut self.shortages, rule, weight.saturating_mul(lacks));
    }
}

/// The number, or 0 if it is negative.
pub fn positive_part(number: i64) -> u64
    ensures value { result ≡ positive_part number }
    ensures small { result < signed_limit }
{
    if number < 0 {
        return 0;
    }
    number as u64
}

// The index of a soft rule in `Rule::SOFT`.
fn soft_index(rule: Rule) -> Option<usize>
    ensures index { result ≡ soft_index rule }
    ensures small { IfSome result (λ index. index < length soft_rules) }
{
    Rule::SOFT.iter().position(|soft| *soft == rule)
}

/// Adds this cost to a soft rule.
pub fn charge(costs: &mut [u64; SOFT_RULES], rule: Rule, more: u64)
    ensures { costs.new ≡ with_cost rule more costs.old }
{
    if let Some(index) = soft_index(rule) {
        costs[index] = costs[index].saturating_add(more);
    }
}
