//! The number of windows and patterns that charge the runs of a property in a week.
ghost use Rattle.std.specs.Prelude.{◌≡◌, length};
ghost use Rattle.rota_core.specs.Lists.{concat_below};
ghost use Rattle.rota_items.specs.RunItems.{closed_patterns_on, edge_patterns_on, patterns, windows};

use crate::items::soft_item::NurseRuns;
use rota_core::{DAYS, Span};

/// The number of windows, if `history` days before Monday had the property. A window ends on a day on which
/// the week may have a run above the maximum length.
#[tactic(auto, unfolding(rota_core::specs::Lists::concat_below, rota_core::specs::Lists::singleton_if))]
pub fn windows_of(history: u16, limits: Span) -> u32
    ensures { result ≡ length (windows history limits) }
{
    (u32::from(history) + u32::from(DAYS))
        .saturating_sub(u32::from(limits.max))
        .min(u32::from(DAYS))
}

/// The number of patterns. A pattern is a run below the minimum length that may end on the Sunday before the
/// week, or on Monday to Saturday. It begins after Monday (closed patterns), or on Monday or in the history
/// (edge patterns).
#[tactic(auto, using(crate::proofs::EachPattern::run_counting))]
pub fn patterns_of(history: u16, limits: Span) -> u32
    ensures { result ≡ length (patterns history limits) }
{
    closed_patterns_of(limits.min) + edge_patterns_of(history, limits.min)
}

#[tactic(auto, unfolding(rota_core::specs::Lists::concat_below, rota_core::specs::Lists::singleton_if))]
fn closed_patterns_of(minimum: u16) -> u32
    ensures { result ≡ length (concat_below DAYS (closed_patterns_on minimum)) }
{
    let days = u32::from(DAYS);
    let longest = u32::from(minimum).saturating_sub(1).min(days - 2);
    longest * (2 * days - 3 - longest) / 2
}

#[tactic(auto, unfolding(rota_core::specs::Lists::concat_below, rota_core::specs::Lists::singleton_if))]
fn edge_patterns_of(history: u16, minimum: u16) -> u32
    ensures { result ≡ length (concat_below DAYS (edge_patterns_on history minimum)) }
{
    if history >= 1 {
        u32::from(minimum.saturating_sub(history)).min(u32::from(DAYS))
    } else {
        u32::from(minimum.saturating_sub(1)).min(u32::from(DAYS) - 1)
    }
}
