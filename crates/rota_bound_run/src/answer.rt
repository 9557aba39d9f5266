//! The answer to the question about a period.
ghost use Rattle.std.specs.Prelude.{◌≡◌, IfOk, IfSome, option_map};
ghost use Rattle.rota_certificate.specs.PeriodBounds.{AreEvidence};
ghost use Rattle.rota_bound_run.specs.ExactAnswers.{IsAnswer, is_at_bound};
ghost use Rattle.rota_bound_run.specs.PlanJudged.{IsJudged};

use crate::claims::{Claim, claim_of};
use crate::judged::Judged;
use rota_core::{Certificate, Condition, Instance};
use std::alloc::{AllocError, Global};

/// The answer to the question about a period.
#[derive(Drop)]
pub struct PeriodAnswer {
    /// The claim that is proved.
    pub claim: Claim,
    /// The sum of the penalties of the given rosters.
    pub penalty: Option<u64>,
    /// The given rosters have the minimum penalty of all that keep H1 to H5 and meet the given facts.
    pub optimal: bool,
}

// Whether the claim is a bound, and the rosters' penalty is this bound.
fn is_at_bound(claim: Claim, judged: &Option<Judged>) -> bool
    ensures { result ≡ is_at_bound claim judged.now }
{
    match (claim, judged) {
        (Claim::AtLeast(bound), Some(judged)) => judged.penalty == bound,
        _ => false,
    }
}

fn penalty_in(judged: &Option<Judged>) -> Option<u64>
    ensures { result ≡ option_map (λ (j : _). j.penalty) judged.now }
{
    match judged {
        Some(judged) => Some(judged.penalty),
        None => None,
    }
}

/// The answer that the certificate gives, and for the rosters if they are judged.
#[tactic(auto, using(crate::proofs::Penalties::penalty_is_cost))]
pub(crate) fn answer_for(
    alloc: Global,
    weeks: &[Instance],
    given: &[Condition],
    certificate: &Certificate,
    minimums: bool,
    judged: &Option<Judged>,
) -> Result<PeriodAnswer, AllocError>
    requires evidence { AreEvidence weeks.now given.now certificate.now }
    requires judged { IfSome judged.now (IsJudged weeks.now given.now) }
    ensures { IfOk result (IsAnswer minimums weeks.now given.now certificate.now judged.now) }
{
    let claim = claim_of(alloc, weeks, given, certificate, minimums)?;
    Ok(PeriodAnswer {
        claim,
        penalty: penalty_in(judged),
        optimal: is_at_bound(claim, judged),
    })
}
