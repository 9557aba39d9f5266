//! The rules of a week, under the names that the competition gives them.

ghost use Rattle.std.specs.Prelude.{◌≡◌, Some};
ghost use Rattle.rota_core.specs.Rules.{rule_name};

use std::fmt;

/// The number of soft rules.
pub const SOFT_RULES: usize = 7;

/// A rule of the week. `Unit` is no rule of the competition: it represents the variable that is true in every
/// satisfying assignment of a model. Nor is `H5`: it holds the cells of the fix file.
#[derive(Clone, Copy, Debug, PartialEq, Eq)]
pub enum Rule {
    Unit,
    /// At most one assignment for each nurse and day.
    H1,
    /// The minimum number of nurses for each day, shift type and skill.
    H2,
    /// No forbidden succession of shift types.
    H3,
    /// Each nurse has the skill of her assignment.
    H4,
    /// Each held cell is in the roster.
    H5,
    /// The optimal number of nurses for each day, shift type and skill.
    S1,
    /// Consecutive assignments to a shift type, and consecutive working days.
    S2,
    /// Consecutive days off.
    S3,
    /// Requests for shifts off or days off.
    S4,
    /// Complete weekends.
    S5,
    /// The total number of assignments.
    S6,
    /// The total number of weekends with work.
    S7,
}

impl Rule {
    /// The hard rules, which a roster must keep, in order.
    pub const HARD: [Rule; 5] = [Rule::H1, Rule::H2, Rule::H3, Rule::H4, Rule::H5];

    /// The soft rules, which cost something when they are broken, in order.
    pub const SOFT: [Rule; SOFT_RULES] = [
        Rule::S1,
        Rule::S2,
        Rule::S3,
        Rule::S4,
        Rule::S5,
        Rule::S6,
        Rule::S7,
    ];

    /// The rule's name: for example `H1`, and `unit` for `Unit`.
    pub fn name(self) -> &'static str
        ensures { result.now ≡ rule_name self }
    {
        match self {
            Rule::Unit => "unit",
            Rule::H1 => "H1",
            Rule::H2 => "H2",
            Rule::H3 => "H3",
            Rule::H4 => "H4",
            Rule::H5 => "H5",
            Rule::S1 => "S1",
            Rule::S2 => "S2",
            Rule::S3 => "S3",
            Rule::S4 => "S4",
            Rule::S5 => "S5",
            Rule::S6 => "S6",
            Rule::S7 => "S7",
        }
    }
}

impl fmt::Display for Rule {
    ghost output = { λ rule. Some (rule_name rule) };

    fn fmt<W: fmt::Write>(&self, f: &mut fmt::Formatter<W>) -> fmt::Result {
        f.write_str(self.name())
    }
}
