//! The rows of the hard rules. Each rule has a file; this one combines them.
ghost use Rattle.std.specs.Prelude.{[], ◌∷◌};
ghost use Rattle.rota_core.specs.InstanceTables.{problem_of};
ghost use Rattle.rota_items.specs.Variables.{unit_number};
ghost use Rattle.rota_items.specs.Events.{events};
ghost use Rattle.rota_items.specs.HardRows.{rows_of_hard_rule, rule_rows};
ghost use Rattle.rota_items.specs.Takes.{Takes, TakesRows};
ghost use Rattle.rota_items.specs.WeekModel.{unit_row};

mod held;
mod minimum;
mod one_cell;
mod row_counts;
mod row_takers;
mod row_visits;
mod skills;
mod succession;

use crate::hard::row_takers::RowTaker;
use crate::part::Part;
use crate::takers::Taker;
use crate::variables::unit_var;
use rota_core::{Instance, Rule};
pub use row_counts::count_rule_rows;

// Sends the taker the rows of the rule, if it is a hard rule.
#[tactic(auto, using(crate::proofs::Taking::taking), unfolding(crate::specs::SentItems::numbered_rows))]
fn visit_rule<T: RowTaker>(instance: &Instance, taker: &mut T, rule: Rule) -> Result<(), T::Fault>
    ensures { let problem = problem_of instance.now in
        TakesRows T.RowTaker problem (rows_of_hard_rule problem rule) taker.old taker.new result }
{
    match rule {
        Rule::H1 => one_cell::visit(instance, taker),
        Rule::H2 => minimum::visit(instance, taker),
        Rule::H3 => succession::visit(instance, taker),
        Rule::H4 => skills::visit(instance, taker),
        Rule::H5 => held::visit(instance, taker),
        _ => Ok(()),
    }
}

/// Sends the taker the rows of all hard rules, in the order of the rules.
#[tactic(auto, using(crate::proofs::Taking::taking, crate::proofs::LogicWords::listing), unfolding(crate::specs::SentItems::numbered_rows))]
pub fn visit_rule_rows<T: RowTaker>(instance: &Instance, taker: &mut T) -> Result<(), T::Fault>
    ensures { let problem = problem_of instance.now in
        TakesRows T.RowTaker problem (rule_rows problem) taker.old taker.new result }
{
    for rule in Rule::HARD {
        visit_rule(instance, taker, rule)?;
    }
    Ok(())
}

/// Sends the taker the row that forces the unit variable to be true.
pub fn emit_unit<T: Taker>(instance: &Instance, taker: &mut T) -> Result<(), T::Fault>
    ensures { Takes T.Taker (events (unit_row (unit_number (problem_of instance.now)) ∷ []))
        taker.old taker.new result }
{
    taker.start_row(Part::Hard(Rule::Unit))?;
    taker.term(1, unit_var(instance))?;
    taker.close_row(1)
}
