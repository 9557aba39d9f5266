//! Limits of numbers of charges.

ghost use Rattle.std.specs.Prelude.{◌≡◌};
ghost use Rattle.rota_certificate.specs.Tariffs.{counts, forbidden_by, is_kind, limit_of};

use rota_core::{ChargeKind, ChargeLimit, Condition, Fact};

/// A limit of a number of charges, which a condition of a case sets.
#[derive(Clone, Copy)]
pub enum Limit {
    /// At most the maximum number of charges.
    AtMost(ChargeLimit),
    /// More than the maximum number of charges.
    MoreThan(ChargeLimit),
}

/// The limit of a number of charges that the condition sets, if any.
pub fn limit_of(condition: Condition) -> Option<Limit>
    ensures { result ≡ limit_of condition.fact condition.holds }
{
    match (condition.fact, condition.holds) {
        (Fact::Charges(limit), true) => Some(Limit::AtMost(limit)),
        (Fact::Charges(limit), false) => Some(Limit::MoreThan(limit)),
        (Fact::EvenShiftRuns, false) => Some(Limit::MoreThan(ChargeLimit {
            kind: ChargeKind::ShiftRuns,
            nurse: None,
            most: 0,
        })),
        _ => None,
    }
}

// Whether two kinds are the same.
fn is_kind(one: ChargeKind, other: ChargeKind) -> bool
    ensures { result ≡ is_kind one other }
{
    match (one, other) {
        (ChargeKind::ShiftRuns, ChargeKind::ShiftRuns)
        | (ChargeKind::WorkDays, ChargeKind::WorkDays)
        | (ChargeKind::Assignments, ChargeKind::Assignments)
        | (ChargeKind::Weekends, ChargeKind::Weekends) => true,
        _ => false,
    }
}

/// Whether the limit counts the nurse's charges of the kind.
pub fn counts(limit: ChargeLimit, kind: ChargeKind, nurse: u16) -> bool
    ensures { result ≡ counts limit kind nurse }
{
    let concerned = match limit.nurse {
        Some(one) => one == nurse,
        None => true,
    };
    is_kind(limit.kind, kind) && concerned
}

/// Whether the limit forbids the nurse's charges of the kind: it allows at most 0.
pub fn forbids(limit: Limit, kind: ChargeKind, nurse: u16) -> bool
    ensures { result ≡ forbidden_by kind nurse limit }
{
    match limit {
        Limit::AtMost(limit) => counts(limit, kind, nurse) && limit.most == 0,
        Limit::MoreThan(_) => false,
    }
}
