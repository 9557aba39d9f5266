//! The bounds that a certificate proves: the minimum of the bounds of its leaves.

ghost use Rattle.std.specs.Prelude.{◌≡◌, ◌*◌, ◌≤◌, IfOk, [], length, map, nat_lt, reverse, true};
ghost use Rattle.std.specs.List.{AllByRecursion, list_any};
ghost use Rattle.rota_core.specs.Certificates.{IsLeafFor};
ghost use Rattle.rota_core.specs.InstanceTables.{problem_of};
ghost use Rattle.rota_core.specs.Limits.{max_number, max_price};
ghost use Rattle.rota_core.specs.TreeNodes.{leaf_of};
ghost use Rattle.rota_certificate.specs.CertificateBounds.{least_bound, lower_bound, minimums_bound, rounded_up, says_even, says_odd};
ghost use Rattle.rota_certificate.specs.LeafBounds.{most_bound};
ghost use Rattle.rota_certificate.specs.LentLeaves.{prices_lent, week_lent};
ghost use Rattle.rota_certificate.specs.PeriodBounds.{AreEvidence, AreOptimalAt, HaveNoPlan, NoneCostLess};
ghost use Rattle.rota_certificate.specs.Evidence.{AreLent, IsShortPath, bound_asked, bound_by};

use crate::known::Known;
use crate::leaves::leaf_bound;
use crate::paths::{case_at, go_on, with};
use crate::points::PointValue;
use crate::stages::{LentLeaf, LentWeek};
use rota_core::{Certificate, Condition, Fact, Instance, Leaf, Node, POINT, Prices};
use rota_rules::STEP;
use std::alloc::{AllocError, Global};
use std::marker::Model;

// A step of the penalty, and two, in thousandths of a point.
const ONE_STEP: u64 = STEP * POINT;

const TWO_STEPS: u64 = 2 * ONE_STEP;

/// The rules by which plans are judged.
#[derive(Clone, Copy)]
pub enum Rules {
    /// All rules: the bound is of the cost.
    All,
    /// The hard rules alone: a plan that keeps them costs nothing.
    Hard,
}

/// The evidence for a bound of the plans of some weeks by some rules.
#[derive(Drop)]
pub struct Evidence<'a> {
    /// The weeks.
    pub weeks: &'a [Instance],
    /// The conditions that their plans are asked to meet.
    pub given: &'a [Condition],
    /// The certificate for them.
    pub certificate: &'a Certificate,
    /// The rules.
    pub rules: Rules,
}

impl<'a> Model for Evidence<'a> {
    ghost use Rattle.std.specs.Coded.{codes};
    ghost use Rattle.rota_core.specs.TreeNodes.{tree_code};
    ghost use Rattle.rota_certificate.specs.Evidence.{EvidenceTables, IsEvidence};

    ghost Value = { EvidenceTables };

    ghost coded = { Prim.hlevel (codes, tree_code) };

    ghost use Rattle.rota_certificate.specs.EvidenceFields.{evidence_of};

    ghost view = { evidence_of };

    ghost invariant = { λ e. IsEvidence (evidence_of e) };
}

// The weeks with these prices.
fn lend<'a>(
    alloc: Global,
    weeks: &'a [Instance],
    prices: &'a [Prices],
) -> Result<Vec<LentWeek<'a>>, AllocError>
    requires { length prices.now ≡ length weeks.now }
    ensures { IfOk result (λ lent. AreLent lent.items weeks.now prices.now) }
{
    let mut lent = Vec::with_capacity(alloc, weeks.len())?;
    for (week, instance) in weeks.iter().enumerate() {
        lent.push(LentWeek {
            instance,
            prices: &prices[week],
        })?;
    }
    Ok(lent)
}

// Whether the condition says that the number of charges of shift runs is even.
fn says_even(condition: Condition) -> bool
    ensures { result ≡ says_even condition.fact condition.holds }
{
    condition.fact == Fact::EvenShiftRuns && condition.holds
}

// Whether the condition says that this number is odd.
fn says_odd(condition: Condition) -> bool
    ensures { result ≡ says_odd condition.fact condition.holds }
{
    condition.fact == Fact::EvenShiftRuns && !condition.holds
}

// Whether a condition of the case says that this number is even.
fn is_even(case: &[Condition]) -> bool
    ensures { result ≡ list_any (λ one. says_even one.fact one.holds) case.now }
{
    case.iter().any(|one| says_even(*one))
}

// Whether a condition of the case says that this number is odd.
fn is_odd(case: &[Condition]) -> bool
    ensures { result ≡ list_any (λ one. says_odd one.fact one.holds) case.now }
{
    case.iter().any(|one| says_odd(*one))
}

// The minimum of the costs that are possible in the case and not below the sum, which is in
// thousandths of a point.
fn rounded_up(case: &[Condition], sum: u64) -> u64
    requires { sum ≤ most_bound }
    ensures { result ≡ rounded_up case.now sum }
{
    if is_even(case) {
        (sum + (TWO_STEPS - 1)) / TWO_STEPS * (2 * STEP)
    } else if is_odd(case) {
        (sum + (ONE_STEP - 1)) / TWO_STEPS * (2 * STEP) + STEP
    } else {
        (sum + (ONE_STEP - 1)) / ONE_STEP * STEP
    }
}

// The bound of a leaf by these rules.
fn bound_by(
    alloc: Global,
    rules: Rules,
    leaf: &LentLeaf<'_>,
    surcharges: &[u32],
    known: &mut Known,
) -> Result<u64, AllocError>
    requires surcharges { AllByRecursion (λ surcharge. surcharge ≤ max_price) surcharges.now }
    ensures bound { IfOk result (λ bound. bound ≡
        bound_by rules (map week_lent leaf.now.weeks) leaf.now.case (map prices_lent leaf.now.weeks) surcharges.now) }
    ensures small { IfOk result (λ bound. bound ≤ most_bound) }
{
    match rules {
        Rules::All => {
            let unit = PointValue::with_soft_rules();
            let sum = leaf_bound(alloc, unit, leaf, surcharges, known)?;
            Ok(rounded_up(leaf.case, sum))
        }
        Rules::Hard => leaf_bound(alloc, PointValue::without_soft_rules(), leaf, &[], known),
    }
}

// The bound of the leaf at the end of the path.
fn bound_at(
    alloc: Global,
    evidence: &Evidence<'_>,
    path: &[Condition],
    leaf: &Leaf,
    known: &mut Known,
) -> Result<u64, AllocError>
    requires path { IsShortPath (2 * max_number) path.now }
    requires leaf { IsLeafFor (length evidence.now.certificate.prices.items) (leaf_of leaf.now) }
    ensures bound { IfOk result (λ bound. bound ≡ bound_asked evidence.now (reverse path.now) (leaf_of leaf.now)) }
    ensures small { IfOk result (λ bound. bound ≤ most_bound) }
{
    let case = case_at(alloc, path, evidence.given)?;
    let prices = &evidence.certificate.prices[leaf.prices];
    let weeks = lend(alloc, evidence.weeks, prices)?;
    let lent = LentLeaf {
        weeks: &weeks,
        case: &case,
    };
    bound_by(alloc, evidence.rules, &lent, &leaf.surcharges, known)
}

// The minimum of the bounds of all leaves.
fn least_bound(alloc: Global, evidence: &Evidence<'_>) -> Result<u64, AllocError>
    ensures { IfOk result (λ least. least ≡ least_bound (bound_asked evidence.now) [] evidence.now.certificate.tree) }
{
    let mut known = Known::for_weeks(alloc, evidence.weeks.len())?;
    let tree = &evidence.certificate.tree;
    let mut path = Vec::new(alloc);
    let mut least = u64::MAX;
    for node in &tree.nodes {
        match node {
            Node::Split(fact) => path.push(with(*fact))?,
            Node::Leaf(leaf) => {
                let bound = bound_at(alloc, evidence, &path, leaf, &mut known)?;
                least = least.min(bound);
                if !go_on(&mut path)? {
                    return Ok(least);
                }
            }
        }
    }
    Ok(0)
}

/// The lower bound that the certificate proves, in points. No plan of the weeks that keeps the hard
/// rules and meets the given conditions costs less. If one costs as much, it is optimal. The
/// history of each week is the one before the first week.
///
/// The only error is that memory runs out.
pub fn lower_bound(
    alloc: Global,
    weeks: &[Instance],
    given: &[Condition],
    certificate: &Certificate,
) -> Result<u64, AllocError>
    requires { AreEvidence weeks.now given.now certificate.now }
    ensures bound { IfOk result (λ points. points ≡ lower_bound (map problem_of weeks.now) given.now certificate.now) }
    ensures sound { IfOk result (NoneCostLess (map problem_of weeks.now) given.now) }
    ensures optimal { IfOk result (AreOptimalAt (map problem_of weeks.now) given.now) }
{
    let evidence = Evidence {
        weeks,
        given,
        certificate,
        rules: Rules::All,
    };
    least_bound(alloc, &evidence)
}

/// Whether the certificate proves that no plan of the weeks keeps the hard rules and meets the given
/// conditions.
///
/// The only error is that memory runs out.
pub fn no_plan_exists(
    alloc: Global,
    weeks: &[Instance],
    given: &[Condition],
    certificate: &Certificate,
) -> Result<bool, AllocError>
    requires { AreEvidence weeks.now given.now certificate.now }
    ensures answer { IfOk result (λ is. is ≡ nat_lt 0 (minimums_bound (map problem_of weeks.now) given.now certificate.now)) }
    ensures sound { IfOk result (λ is. is ≡ true → HaveNoPlan (map problem_of weeks.now) given.now) }
{
    let evidence = Evidence {
        weeks,
        given,
        certificate,
        rules: Rules::Hard,
    };
    let least = least_bound(alloc, &evidence)?;
    Ok(least > 0)
}
