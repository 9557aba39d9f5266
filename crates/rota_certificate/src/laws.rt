//! The laws of the bound. A law is a call that does nothing: its contract is the statement.

ghost use Rattle.std.specs.Prelude.{◌<◌, ◌∷◌, List};
ghost use Rattle.rota_core.specs.Problem.{Problem};
ghost use Rattle.rota_core.specs.declared.certificate.Certificate.{Certificate};
ghost use Rattle.rota_certificate.specs.CertificateBounds.{lower_bound, minimums_bound};
ghost use Rattle.rota_certificate.specs.Facts.{Case};
ghost use Rattle.rota_certificate.specs.PeriodBounds.{AreEvidenceFor, AreOptimalAt, HaveNoPlan, NoneCostLess};

/// For all certificates with prices up to 999,999,999, no rosters of a period that keep the hard
/// rules and meet the given conditions cost less than the certificate's lower bound.
pub fn certificate_bound_is_sound()
    ensures { (first : Problem) (later : List Problem) (given : Case) (certificate : Certificate) →
        AreEvidenceFor first later given certificate →
        NoneCostLess (first ∷ later) given (lower_bound (first ∷ later) given certificate) }
{}

/// For all certificates with prices up to 999,999,999, rosters of a period that keep the hard rules, meet the given
/// conditions, and cost as much as the certificate's lower bound, are optimal.
pub fn certificate_bound_proves_optimality()
    ensures { (first : Problem) (later : List Problem) (given : Case) (certificate : Certificate) →
        AreEvidenceFor first later given certificate →
        AreOptimalAt (first ∷ later) given (lower_bound (first ∷ later) given certificate) }
{}

/// For all certificates with prices up to 999,999,999, no rosters of a period keep the hard rules
/// and meet the given conditions if the bound without the soft rules is above 0.
pub fn certificate_minimums_prove_that_no_plan_exists()
    ensures { (first : Problem) (later : List Problem) (given : Case) (certificate : Certificate) →
        AreEvidenceFor first later given certificate →
        0 < minimums_bound (first ∷ later) given certificate →
        HaveNoPlan (first ∷ later) given }
{}
