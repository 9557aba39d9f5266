//! The totals that count in the week.
ghost use Rattle.std.specs.Prelude.{◌≡◌};
ghost use Rattle.rota_core.specs.InstanceTables.{problem_of};
ghost use Rattle.rota_items.specs.CountedItems.{excess_before_counts, max_totals_count};

use rota_core::Instance;

/// Whether the maximum totals of assignments and of weekends count.
pub fn max_totals_count(instance: &Instance) -> bool
    ensures { result ≡ max_totals_count (problem_of instance.now) }
{
    instance.last_week() || instance.early()
}

/// Whether the excess above the maximum totals before the week counts: in the last week, unless the weeks
/// before have paid for it.
pub fn excess_before_counts(instance: &Instance) -> bool
    ensures { result ≡ excess_before_counts (problem_of instance.now) }
{
    instance.last_week() && !instance.early()
}
