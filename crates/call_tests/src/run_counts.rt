//! The numbers of windows and patterns, and early charges.
use rota_core::Span;
use rota_items::{patterns_of, windows_of};
use rota_rules::early_excess;

const MOST: u16 = u16::MAX;

// The length of the run before Monday, the limits, and the number of windows.
const WINDOWS: [(u16, (u16, u16), u32); 5] = [
    (9, (1, 5), 7),
    (0, (1, 2), 5),
    (0, (0, 0), 7),
    (2, (1, 9), 0),
    (MOST, (0, MOST), 7),
];

#[test]
fn windows_by_history_and_maximum(rt: HostRuntime) {
    for (history, (min, max), windows) in WINDOWS {
        assert_eq!(rt; windows_of(history, Span { min, max }), windows);
    }
}

// The length of the run before Monday, the limits, and the number of patterns.
const PATTERNS: [(u16, (u16, u16), u32); 5] = [
    (1, (3, 9), 11),
    (0, (9, 9), 21),
    (9999, (9999, 1), 15),
    (0, (0, 0), 0),
    (MOST, (MOST, 0), 15),
];

#[test]
fn patterns_by_history_and_minimum(rt: HostRuntime) {
    for (history, (min, max), patterns) in PATTERNS {
        assert_eq!(rt; patterns_of(history, Span { min, max }), patterns);
    }
}

// The limit, the total before the first week, the addition of each week, and the excess that they pay for
// together.
#[test]
fn excess_of_successive_weeks(rt: HostRuntime) {
    assert!(rt; early_excess(15, 14, &[5, 0, 3]) == 7);
    assert!(rt; early_excess(15, 20, &[7]) == 7);
    assert!(rt; early_excess(15, 0, &[]) == 0);
}
