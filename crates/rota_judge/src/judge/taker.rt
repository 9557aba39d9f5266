//! The taker that evaluates.
ghost use Rattle.std.specs.Prelude.{◌≡◌, if◌then◌else◌, length};
ghost use Rattle.rota_core.specs.InstanceTables.{problem_of};
ghost use Rattle.rota_core.specs.RosterTables.{HasShapeOf};
ghost use Rattle.rota_core.specs.Rules.{soft_rules};
ghost use Rattle.rota_items.specs.Variables.{unit_number};
ghost use Rattle.rota_judge.specs.JudgeState.{SettlesModel, WasDriven, assigned, assignment_in, counts_for, extended, fresh, judged, lacking, roster_in, with_constants};
ghost use Rattle.rota_items.specs.RuleItems.{constant};
ghost use Rattle.rota_judge.specs.Verdicts.{Judges, JudgesTheRules};
ghost use Rattle.rota_items.specs.WeekModel.{model_of};

use crate::judge::subjects::Subject;
use crate::judge::tallies::{RowSums, Tally, charge};
use crate::judge::verdicts::Verdict;
use rota_core::{Bits, Instance, Roster, Rule, SOFT_RULES};
use rota_items::{Part, Taker, constant, constant_of_rule, counts, unit_var};
use std::convert::Infallible;
use std::marker::Model;

/// A taker that evaluates the rows of an instance's model.
///
/// It never fails: a sum that would overflow stays at the maximum or the minimum, which no instance reaches.
/// A variable that the model does not have is false.
#[derive(Drop)]
pub struct Judge<'a> {
    instance: &'a Instance,
    subject: Subject<'a>,
    unit: u32,
    last: u32,
    tally: Tally,
}

impl<'a> Model for Judge<'a> {
    ghost use Rattle.rota_core.specs.InstanceTables.{IsInstance, problem_of};
    ghost use Rattle.rota_judge.specs.JudgeState.{JudgeState, IsSetUp};
    ghost use Rattle.rota_judge.specs.JudgeSubject.{subject_of};

    ghost Value = { JudgeState };

    ghost view = { λ j. record {
      instance = j.instance.now;
      subject = subject_of j.subject;
      tally = j.tally;
    } };

    ghost invariant = { λ j.
        IsInstance j.instance.now × IsSetUp (problem_of j.instance.now) (subject_of j.subject) j.unit j.last };
}

impl<'a> Judge<'a> {
    /// The judge of the assignment in which variable i + 1 is true if bit i is true.
    pub fn of_bits(instance: &'a Instance, bits: &'a Bits) -> Judge<'a>
        requires { length bits.now ≡ (model_of (problem_of instance.now)).variables }
        ensures { result ≡ fresh instance.now (assigned bits.now) }
    {
        Judge {
            instance,
            subject: Subject::Assigned(bits),
            unit: unit_var(instance),
            last: bits.len(),
            tally: Tally::new(),
        }
    }

    /// The judge of the roster's extension. The true variables are: the variables of the roster's cells, the
    /// unit variable, and the first slacks of each constraint of a soft rule. The number of true slacks of a
    /// constraint is its shortage on the roster, or the number of all its slacks if that is smaller.
    ///
    /// See the example at the top of the crate.
    pub fn of_roster(instance: &'a Instance, roster: &'a Roster) -> Judge<'a>
        requires { HasShapeOf (problem_of instance.now) roster.now }
        ensures { result ≡ fresh instance.now (extended roster.now) }
    {
        Judge {
            instance,
            subject: Subject::Extended(roster),
            unit: unit_var(instance),
            last: counts(instance).variables,
            tally: Tally::new(),
        }
    }

    /// The shortage of the open row: how far its terms without slacks are below the degree.
    pub(crate) fn lacking(&self, degree: i64) -> u64
        ensures { result ≡ lacking self.now degree }
    {
        self.tally.sums.lacking(degree)
    }

    /// The judge's findings, after `drive_objective` and then `drive_constraints` of its instance: the first
    /// constraint that is not satisfied, the value of the objective, and the cost of each soft rule. If the
    /// unit variable is true and the roster breaks one of H1 to H5, the constraint belongs to the first rule
    /// that the roster breaks. If the roster keeps H1 to H4, the costs are the costs of the rules, and their
    /// sum is the penalty. If it keeps H1, this holds for the cost of each rule but S1.
    ///
    /// If no constraint is named for an assignment, its roster keeps H1 to H5 at a penalty of at most the
    /// objective. If none is named for a roster's extension, the roster keeps H1 to H5, and the objective is
    /// its penalty.
    pub fn verdict(&self) -> Verdict
        requires driven { WasDriven self.now }
        ensures judges { let problem = problem_of self.now.instance in let subject = self.now.subject in
            Judges problem (assignment_in problem subject) (roster_in problem subject) result }
        ensures rules { let problem = problem_of self.now.instance in let subject = self.now.subject in
            JudgesTheRules problem (assignment_in problem subject) (roster_in problem subject) result }
        ensures model { SettlesModel (problem_of self.now.instance) self.now.subject result }
    {
        let tally = self.tally;
        let requests = tally.requests_and_constant.saturating_sub(self.at_unit());
        let mut costs = tally.shortages;
        charge(&mut costs, Rule::S4, requests);
        charge_constants(&mut costs, self.instance);
        Verdict {
            unmet: tally.unmet,
            objective: tally.requests_and_constant.saturating_add(tally.slacks),
            costs,
        }
    }

    // The objective's value at the unit variable.
    fn at_unit(&self) -> u64
        ensures { let problem = problem_of self.now.instance in
            result ≡ (if counts_for problem self.now.subject (unit_number problem) then constant problem else 0) }
    {
        if self.counts(self.unit) {
            constant(self.instance)
        } else {
            0
        }
    }

    // Whether a term at the variable counts.
    fn counts(&self, variable: u32) -> bool
        ensures { result ≡ counts_for (problem_of self.now.instance) self.now.subject variable }
    {
        if variable == 0 || self.last < variable {
            return false;
        }
        match self.subject {
            Subject::Assigned(bits) => bits.get(variable - 1),
            Subject::Extended(roster) => self.unit <= variable || roster.has_index(variable - 1),
        }
    }
}

impl<'a> Taker for Judge<'a> {
    ghost use Rattle.rota_judge.specs.JudgeState.{JudgeState};

    type Fault = Infallible;

    ghost Value = { JudgeState };

    ghost value = { λ judge. judge };

    ghost step = { judged };

    ghost left = { λ _ _ _. ⊥ };

    fn start_row(&mut self, part: Part) -> Result<(), Infallible> {
        self.tally.part = part;
        self.tally.sums = RowSums::new();
        Ok(())
    }

    fn term(&mut self, coefficient: i64, variable: u32) -> Result<(), Infallible> {
        if !self.counts(variable) {
            return Ok(());
        }
        self.tally.sums.add(coefficient, self.unit < variable);
        Ok(())
    }

    fn close_row(&mut self, degree: i64) -> Result<(), Infallible> {
        self.tally.close(self.subject, degree);
        Ok(())
    }
}

// Charges each soft rule its part of the constant.
#[tactic(auto, using(std::proofs::lemmas::List::Sums::fold_more))]
fn charge_constants(costs: &mut [u64; SOFT_RULES], instance: &Instance)
    ensures { costs.new ≡ with_constants (problem_of instance.now) soft_rules costs.old }
{
    for rule in Rule::SOFT {
        charge(costs, rule, constant_of_rule(instance, rule));
    }
}
