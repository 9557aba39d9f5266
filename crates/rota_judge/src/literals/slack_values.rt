//! The values of items' slacks, sent to a taker of literals.
ghost use Rattle.std.specs.Prelude.{◌≡◌};
ghost use Rattle.rota_core.specs.InstanceTables.{IsInstance, problem_of};
ghost use Rattle.rota_core.specs.RosterTables.{HasShapeOf, set_of};
ghost use Rattle.rota_items.specs.SentItems.{numbered_item};
ghost use Rattle.rota_items.specs.CellSums.{IsSumOf};
ghost use Rattle.rota_judge.specs.LiteralTakes.{TakesLiterals};
ghost use Rattle.rota_judge.specs.SlackValues.{first_true, slack_truths, with_terms_of};

use crate::judge::Judge;
use crate::literals::literal_takers::LiteralTaker;
use rota_core::{Instance, Roster};
use rota_items::{
    ItemTaker, NurseRuns, Part, RunTaker, SoftItem, Taker, emit_sum, visit_runs, visit_soft_items,
};
use std::convert::Infallible;

// The literals of `count` variables. The first `maximum` are true, or all if `maximum` is larger.
#[tactic(auto, using(rota_items::proofs::ItemLemmas::taking))]
fn emit_first_true<T: LiteralTaker>(taker: &mut T, count: u32, maximum: u64) -> Result<(), T::Fault>
    ensures { TakesLiterals T.LiteralTaker (first_true count maximum) taker.old taker.new result }
{
    for index in 0..count {
        taker.literal(u64::from(index) < maximum)?;
    }
    Ok(())
}

// Sends the judge the terms of an item, in a row that stays open.
fn judge_item(instance: &Instance, judge: &mut Judge<'_>, item: SoftItem) -> Result<(), Infallible>
    requires sum_in { IsSumOf item.sum }
    ensures { judge.new ≡ with_terms_of judge.old (numbered_item (problem_of instance.now) item) }
{
    judge.start_row(Part::Soft(item.rule, u64::from(item.weight)))?;
    emit_sum(instance, judge, item.sum)
}

// Sends a taker of literals the slacks of each item. The first of them are true; their number is the item's
// shortage on the judge's roster.
#[derive(Drop)]
struct SlackValues<'r, 'j, 't, T: LiteralTaker> {
    // The judge takes the terms of each item, and closes no row.
    judge: &'j mut Judge<'r>,
    taker: &'t mut T,
}

impl<'r, 'j, 't, T: LiteralTaker> ItemTaker for SlackValues<'r, 'j, 't, T> {
    type Fault = T::Fault;

    ghost use Rattle.rota_judge.specs.SlackValues.{StopsAtSlacks, SlackState, with_slacks_of};

    ghost Value = { SlackState T.Value };

    ghost value = { λ values. record { name = values.taker.ghost_name; value = T.value values.taker.now; judge_state = values.judge.now } };

    ghost step = { with_slacks_of T.step };

    ghost left = { λ before item values. StopsAtSlacks T.LiteralTaker before item values.taker.ghost_name values.taker.now };

    fn item(&mut self, instance: &Instance, item: SoftItem) -> Result<(), T::Fault> {
        match judge_item(instance, self.judge, item) {
            Ok(()) => {
                let lacking = self.judge.lacking(item.degree);
                emit_first_true(self.taker, item.slacks, lacking)
            }
            Err(never) => match never {},
        }
    }
}

impl<'r, 'j, 't, T: LiteralTaker> RunTaker for SlackValues<'r, 'j, 't, T> {
    fn runs(&mut self, instance: &Instance, runs: NurseRuns) -> Result<(), T::Fault> {
        visit_runs(instance, self, runs)
    }
}

/// Sends the taker the literals of the slacks of all items, in ascending order of the variables. The first
/// slacks of each item are true; their number is the item's shortage on the roster, or the number of all its
/// slacks if that is smaller.
pub fn emit_slack_values<T: LiteralTaker>(
    instance: &Instance,
    roster: &Roster,
    taker: &mut T,
) -> Result<(), T::Fault>
    requires limits { IsInstance instance.now }
    requires shape { HasShapeOf (problem_of instance.now) roster.now }
    ensures { TakesLiterals T.LiteralTaker (slack_truths (problem_of instance.now) (set_of roster.now))
        taker.old taker.new result }
{
    let mut judge = Judge::of_roster(instance, roster);
    let mut values = SlackValues {
        judge: &mut judge,
        taker,
    };
    visit_soft_items(instance, &mut values)
}
