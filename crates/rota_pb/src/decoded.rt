//! The roster of an answer, with its costs.
ghost use Rattle.std.specs.Prelude.{◌≡◌, IfOk, IfErr, length};
ghost use Rattle.rota_core.specs.InstanceTables.{problem_of};
ghost use Rattle.rota_items.specs.WeekModel.{model_of};
ghost use Rattle.rota_pb.specs.Decoded.{IsDecoded, LacksRoster};

use crate::fault::Fault;
use rota_core::{Instance, Roster, SOFT_RULES};
use rota_judge::laws::alike_rosters_cost_the_same;
use rota_judge::{Judge, verdict_of};
use solver_text::{Solved, Status};

/// The roster of an answer that satisfies the model, and its costs.
#[derive(Drop)]
pub struct Decoded {
    /// The cells whose variable is true. The roster keeps H1 to H5.
    pub roster: Roster,
    /// The value of the model's objective under the answer, at least the penalty.
    pub objective: u64,
    /// The cost of each soft rule for the roster, with its weight, in the order of the rules.
    pub costs: [u64; SOFT_RULES],
    /// The sum of the costs.
    pub penalty: u64,
    /// The status that the answer named: `Satisfiable` or `Optimum`.
    pub status: Status,
    /// The value of the answer's last `o` line, if it has one. It is not compared with anything.
    pub last_o: Option<i64>,
}

/// The roster of the answer: the cells whose variable is true. Allocates nothing: the answer's bits become
/// the roster.
///
/// Errors: `NoRoster` if the answer's status is neither `Satisfiable` nor `Optimum`; otherwise `Unmet` with
/// the first constraint of the model that the answer does not satisfy, if there is one. In both cases the
/// bits are dropped.
///
/// Here an answer is read, then the solution file of its roster and a report are written:
///
/// ```
/// let mut answer = Answer::new(alloc, counts(&instance).variables)?;
/// answer.feed(text)?;
/// let solved = answer.finish()?;
/// let decoded = decode(&instance, solved)?;
/// write_solution(&instance, &decoded.roster, sol)?;
/// write_report(&decoded, report)
/// ```
pub fn decode(instance: &Instance, solved: Solved) -> Result<Decoded, Fault>
    requires bits { length solved.bits ≡ (model_of (problem_of instance.now)).variables }
    ensures decoded { IfOk result (IsDecoded (problem_of instance.now) solved) }
    ensures fault { IfErr result (LacksRoster (problem_of instance.now) solved) }
{
    let Solved {
        status,
        last_o,
        bits,
    } = solved;
    if !matches!(status, Status::Satisfiable | Status::Optimum) {
        return Err(Fault::NoRoster(status));
    }
    alike_rosters_cost_the_same();
    let verdict = verdict_of(instance, Judge::of_bits(instance, &bits));
    if let Some((number, _)) = verdict.unmet {
        return Err(Fault::Unmet(number));
    }
    let penalty = verdict.costs.iter().sum();
    Ok(Decoded {
        roster: Roster::of_bits(bits, instance),
        objective: verdict.objective,
        costs: verdict.costs,
        penalty,
        status,
        last_o,
    })
}
