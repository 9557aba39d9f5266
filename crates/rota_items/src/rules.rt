//! The soft rules. Each rule has a file; this one selects the file by the rule.
ghost use Rattle.std.specs.Prelude.{◌≡◌, [], ◌∷◌, length, nat_lt};
ghost use Rattle.rota_core.specs.InstanceTables.{IsInstance, problem_of};
ghost use Rattle.rota_core.specs.Lists.{concat_below};
ghost use Rattle.rota_items.specs.CellEvents.{cell_term_events};
ghost use Rattle.rota_items.specs.Takes.{Takes, TakesItems};
ghost use Rattle.rota_items.specs.RuleItems.{nurse_constant, nurse_items, cell_terms, cell_terms_of_rule, constant, constant_of_rule, items_of_rule, soft_items};
ghost use Rattle.rota_items.specs.ModelCosts.{constant_of_assignments, constant_of_weekends};

mod complete_weekends;
mod consecutive_assignments;
mod consecutive_days_off;
mod counted_totals;
mod item_visits;
mod optimal_coverage;
mod shift_off_requests;
mod total_assignments;
mod weekend_visits;
mod worked_weekends;

use crate::items::run_takers::RunTaker;
use crate::takers::Taker;
use rota_core::{Instance, Rule};

// Sends the taker the items of a rule that charges each nurse, for one nurse.
#[tactic(auto, using(crate::proofs::Taking::taking), unfolding(crate::specs::SentItems::numbered_list))]
fn visit_nurse<T: RunTaker>(
    instance: &Instance,
    taker: &mut T,
    rule: Rule,
    nurse: u16,
) -> Result<(), T::Fault>
    ensures { let problem = problem_of instance.now in
        TakesItems T.ItemTaker problem (nurse_items problem rule nurse) taker.old taker.new result }
{
    match rule {
        Rule::S2 => consecutive_assignments::visit(instance, taker, nurse),
        Rule::S3 => consecutive_days_off::visit(instance, taker, nurse),
        Rule::S5 => complete_weekends::visit(instance, taker, nurse),
        Rule::S6 => total_assignments::visit(instance, taker, nurse),
        Rule::S7 => worked_weekends::visit(instance, taker, nurse),
        _ => Ok(()),
    }
}

// Sends the taker the items of a rule that charges each nurse.
#[tactic(auto, using(crate::proofs::LoopSteps::item_loops))]
fn visit_nurses<T: RunTaker>(instance: &Instance, taker: &mut T, rule: Rule) -> Result<(), T::Fault>
    ensures { let problem = problem_of instance.now in
        TakesItems T.ItemTaker problem (concat_below problem.nurses (nurse_items problem rule))
        taker.old taker.new result }
{
    for nurse in 0..instance.nurses() {
        visit_nurse(instance, taker, rule, nurse)?;
    }
    Ok(())
}

// Sends the taker the items of a rule.
#[tactic(auto, using(crate::proofs::ItemLists::items_of_nurses))]
fn visit_rule<T: RunTaker>(instance: &Instance, taker: &mut T, rule: Rule) -> Result<(), T::Fault>
    ensures { let problem = problem_of instance.now in
        TakesItems T.ItemTaker problem (items_of_rule problem rule) taker.old taker.new result }
{
    match rule {
        Rule::S1 => optimal_coverage::visit(instance, taker),
        _ => visit_nurses(instance, taker, rule),
    }
}

/// Sends the taker the items of all soft rules, in the order of the rules.
#[tactic(auto, using(crate::proofs::Taking::taking, crate::proofs::LogicWords::listing), unfolding(crate::specs::SentItems::numbered_list))]
pub fn visit_soft_items<T: RunTaker>(instance: &Instance, taker: &mut T) -> Result<(), T::Fault>
    ensures { let problem = problem_of instance.now in
        TakesItems T.ItemTaker problem (soft_items problem) taker.old taker.new result }
{
    for rule in Rule::SOFT {
        visit_rule(instance, taker, rule)?;
    }
    Ok(())
}

// Sends the taker the terms that a rule has on cells.
#[tactic(auto, using(crate::proofs::Taking::taking), unfolding(crate::specs::CellEvents::cell_term_events, crate::specs::Events::term_events))]
fn emit_cell_terms_of_rule<T: Taker>(
    instance: &Instance,
    taker: &mut T,
    rule: Rule,
) -> Result<(), T::Fault>
    ensures { let problem = problem_of instance.now in
        Takes T.Taker (cell_term_events problem (cell_terms_of_rule problem rule)) taker.old taker.new result }
{
    match rule {
        Rule::S4 => shift_off_requests::emit_terms(instance, taker),
        _ => Ok(()),
    }
}

/// Sends the taker the terms that the soft rules have on cells.
#[tactic(auto, using(crate::proofs::Taking::taking, crate::proofs::LogicWords::listing), unfolding(crate::specs::CellEvents::cell_term_events, crate::specs::Events::term_events))]
pub fn emit_cell_terms<T: Taker>(instance: &Instance, taker: &mut T) -> Result<(), T::Fault>
    ensures { let problem = problem_of instance.now in
        Takes T.Taker (cell_term_events problem (cell_terms problem)) taker.old taker.new result }
{
    for rule in Rule::SOFT {
        emit_cell_terms_of_rule(instance, taker, rule)?;
    }
    Ok(())
}

/// Whether the soft rules have a term on a cell. Only requests have.
pub fn has_cell_terms(instance: &Instance) -> bool
    ensures { result ≡ nat_lt 0 (length (cell_terms (problem_of instance.now))) }
{
    shift_off_requests::has_terms(instance)
}

// A nurse's part of a rule's constant, which no roster that keeps H1 can avoid, because of the history. It is
// 0 except for the rules of totals, in the weeks in which they count.
fn nurse_constant(instance: &Instance, rule: Rule, nurse: u16) -> u64
    ensures { result ≡ nurse_constant (problem_of instance.now) rule nurse }
{
    match rule {
        Rule::S6 => total_assignments::constant(instance, nurse),
        Rule::S7 => worked_weekends::constant(instance, nurse),
        _ => 0,
    }
}

/// The rule's part of the constant, which no roster that keeps H1 can avoid: the sum of the nurses' parts.
#[tactic(auto, using(crate::proofs::LogicWords::counting, crate::proofs::RuleSizes::few_constants))]
pub fn constant_of_rule(instance: &Instance, rule: Rule) -> u64
    ensures sum { result ≡ constant_of_rule (problem_of instance.now) rule }
    ensures limits { IsInstance instance.now }
{
    let mut sum = 0;
    for nurse in 0..instance.nurses() {
        sum += nurse_constant(instance, rule, nurse);
    }
    sum
}

/// The constant, which no roster of the week that keeps H1 can avoid: the sum of the rules' parts.
#[tactic(auto, using(crate::proofs::LogicWords::listing, crate::proofs::RuleSizes::few_constants))]
pub fn constant(instance: &Instance) -> u64
    ensures { result ≡ constant (problem_of instance.now) }
{
    let mut sum = 0;
    for rule in Rule::SOFT {
        sum += constant_of_rule(instance, rule);
    }
    sum
}

/// The two parts of the constant, first of S6, then of S7, which no roster of the week that keeps H1 can
/// avoid: the history is above a maximum of the contract, or too far below the minimum for seven assignments
/// to reach it. With early charging, the excess before the week is not included.
///
/// Each assignment and each weekend costs its weight. Both parts are 0 except in the last week.
pub fn constant_parts(instance: &Instance) -> [u64; 2]
    ensures { let problem = problem_of instance.now in
        result ≡ constant_of_assignments problem ∷ constant_of_weekends problem ∷ [] }
{
    let assignments = constant_of_rule(instance, Rule::S6);
    let weekends = constant_of_rule(instance, Rule::S7);
    [assignments, weekends]
}
