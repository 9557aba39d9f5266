//! The meaning of an answer for a single week. A law is a call that does nothing: its contract is the statement.

ghost use Rattle.rota_core.specs.Problem.{Problem};
ghost use Rattle.rota_bound_run.specs.OneWeek.{SpeaksOfWeek};

/// For a single week without given facts, a lower bound is at most the penalty of each roster that keeps H1 to H5, and
/// an optimal roster has the minimum penalty of all.
pub fn a_period_of_one_week_is_a_week()
    ensures { (week : Problem) → SpeaksOfWeek week }
{}
