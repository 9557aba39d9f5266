//! The claim that a certificate proves about all plans of some weeks.
ghost use Rattle.std.specs.Prelude.{◌≡◌, IfOk, if◌then◌else◌, map};
ghost use Rattle.rota_core.specs.InstanceTables.{problem_of};
ghost use Rattle.rota_certificate.specs.PeriodBounds.{AreEvidence, AreOptimalAt};
ghost use Rattle.rota_bound_run.specs.Claims.{Holds};
ghost use Rattle.rota_bound_run.specs.ExactAnswers.{claim_of};
ghost use Rattle.rota_bound_run.specs.declared.claims.Claim.TheVariants.{AtLeast, NoRoster, Unknown};

use rota_certificate::{lower_bound, no_plan_exists};
use rota_core::{Certificate, Condition, Instance};
use std::alloc::{AllocError, Global};

/// A claim about all plans of some weeks that meet the given facts.
#[derive(Clone, Copy)]
pub enum Claim {
    /// Rosters that keep H1 to H5 and meet the given facts have at least this penalty in sum.
    AtLeast(u64),
    /// No rosters keep H1 to H5 and meet the given facts.
    NoRoster,
    /// The certificate does not prove that no rosters do so.
    Unknown,
}

// The claim of the minimums alone.
fn claim_of_minimums(no_roster: bool) -> Claim
    ensures { result ≡ (if no_roster then NoRoster else Unknown) }
{
    if no_roster {
        return Claim::NoRoster;
    }
    Claim::Unknown
}

/// The claim that the certificate proves: with `minimums`, by the hard rules alone.
pub(crate) fn claim_of(
    alloc: Global,
    weeks: &[Instance],
    given: &[Condition],
    certificate: &Certificate,
    minimums: bool,
) -> Result<Claim, AllocError>
    requires { AreEvidence weeks.now given.now certificate.now }
    ensures claim { IfOk result (λ claim. claim ≡ claim_of minimums (map problem_of weeks.now) given.now certificate.now) }
    ensures holds { IfOk result (Holds (map problem_of weeks.now) given.now) }
    ensures optimal { (points : _) → IfOk result (λ claim. claim ≡ AtLeast points → AreOptimalAt (map problem_of weeks.now) given.now points) }
{
    if minimums {
        return Ok(claim_of_minimums(no_plan_exists(alloc, weeks, given, certificate)?));
    }
    Ok(Claim::AtLeast(lower_bound(alloc, weeks, given, certificate)?))
}
