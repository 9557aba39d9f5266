//! The reports on decoded answers.
use rota_core::Rule;
use std::alloc::{AllocError, Global};

/// The charges of soft rules. A rule that is not named charges nothing.
pub type Charges<'a> = &'a [(Rule, u64)];

/// The report on an answer, with the last objective that the answer names, if any.
#[derive(Clone, Copy)]
pub struct Report<'a> {
    pub status: &'a str,
    pub objective: u64,
    pub charges: Charges<'a>,
    pub last: Option<i64>,
}

/// The sum of the charges.
pub fn penalty_of(charges: Charges) -> u64 {
    let mut penalty: u64 = 0;
    for (_, charge) in charges {
        penalty = penalty.saturating_add(*charge);
    }
    penalty
}

// What this rule charges.
fn charge_of(charges: Charges, rule: Rule) -> u64 {
    for (one, charge) in charges {
        if *one == rule {
            return *charge;
        }
    }
    0
}

impl Report<'_> {
    /// The text of the report: a line for each soft rule stands between the penalty and the last objective.
    pub fn text(&self, alloc: Global) -> Result<String, AllocError> {
        let penalty = penalty_of(self.charges);
        let mut text = format!(in alloc;
            "status {}\nobjective {}\npenalty {penalty}\n",
            self.status, self.objective
        )?;
        for rule in Rule::SOFT {
            let charge = charge_of(self.charges, rule);
            text.push_str(&format!(in alloc; "{rule} {charge}\n")?)?;
        }
        if let Some(last) = self.last {
            text.push_str(&format!(in alloc; "last o {last}\n")?)?;
        }
        Ok(text)
    }
}
