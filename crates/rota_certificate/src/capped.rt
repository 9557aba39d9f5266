//! Pasts whose numbers are at most their caps: a charge depends on a number only up to its cap.

ghost use Rattle.std.specs.Prelude.{◌≡◌, ℕ, ◌<◌, IfSome};
ghost use Rattle.rota_core.specs.InstanceTables.{problem_of};
ghost use Rattle.rota_certificate.specs.EquivalentPasts.{AreEquivalent, IsCapped, capped_number, capped_shift_run};
ghost use Rattle.rota_certificate.specs.Nearness.{IsNear};

use rota_core::{Instance, Past, Span};

// The number, or its cap if that is less.
fn capped_number(number: u16, limits: Span) -> u16
    ensures { result ≡ capped_number number limits }
{
    number.min(limits.min.max(limits.max))
}

// The run on the last shift type, or its cap if that is less; 0 after a day off.
fn capped_shift_run(instance: &Instance, past: Past) -> u16
    ensures { result ≡ capped_shift_run (problem_of instance.now) past }
{
    match past.last {
        None => 0,
        Some(last) => capped_number(past.shift_run, instance.limits(last)),
    }
}

/// The past with each number above its cap replaced by the cap. It has the same charges.
pub fn capped(instance: &Instance, nurse: u16, past: Past) -> Past
    requires last_in { IfSome past.last (λ s. s < (problem_of instance.now).shifts) }
    ensures equivalent { AreEquivalent (problem_of instance.now) nurse past result }
    ensures capped { IsCapped (problem_of instance.now) nurse result }
    ensures near { (day : ℕ) → IsNear (problem_of instance.now).shifts day past → IsNear (problem_of instance.now).shifts day result }
{
    let contract = instance.contract(nurse);
    Past {
        assignments: capped_number(past.assignments, contract.total),
        weekends: past.weekends.min(contract.weekends),
        last: past.last,
        shift_run: capped_shift_run(instance, past),
        work_run: capped_number(past.work_run, contract.work),
        off_run: capped_number(past.off_run, contract.off),
    }
}
