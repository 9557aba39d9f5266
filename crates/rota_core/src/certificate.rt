//! Certificates: cases of the plans of some weeks as a tree, and prices for each case.

use crate::prices::Prices;
use std::marker::Model;

/// A kind of charges.
#[derive(Clone, Copy, Debug, PartialEq, Eq)]
pub enum ChargeKind {
    /// The days too many or too few in runs of a shift type.
    ShiftRuns,
    /// The days of work beyond the maximum in a row.
    WorkDays,
    /// The assignments above the maximum total.
    Assignments,
    /// The worked weekends above the maximum.
    Weekends,
}

/// A nurse has this choice on a day of a week.
#[derive(Clone, Copy, Debug, PartialEq, Eq)]
pub struct DayChoice {
    /// The week, from 0.
    pub week: u8,
    /// The number of the nurse.
    pub nurse: u16,
    /// The day: 0 is Monday.
    pub day: u8,
    /// The shift type, with any skill; `None` is a day off.
    pub choice: Option<u8>,
}

/// A place of a week has at most this number of nurses.
#[derive(Clone, Copy, Debug, PartialEq, Eq)]
pub struct NurseLimit {
    /// The week, from 0.
    pub week: u8,
    /// The day: 0 is Monday.
    pub day: u8,
    /// The number of the shift type.
    pub shift: u8,
    /// The number of the skill.
    pub skill: u8,
    /// The maximum number of nurses.
    pub most: u16,
}

/// A nurse, or all nurses, have at most this number of charges of a kind in all weeks.
#[derive(Clone, Copy, Debug, PartialEq, Eq)]
pub struct ChargeLimit {
    /// The kind of charges.
    pub kind: ChargeKind,
    /// The number of the nurse; `None` means all nurses.
    pub nurse: Option<u16>,
    /// The maximum number of charges.
    pub most: u16,
}

/// A fact that holds for a plan, or does not hold.
#[derive(Clone, Copy, Debug, PartialEq, Eq)]
pub enum Fact {
    /// A nurse has a choice on a day.
    Choice(DayChoice),
    /// The number of nurses at a place is within a limit.
    Nurses(NurseLimit),
    /// The number of charges of a kind is within a limit.
    Charges(ChargeLimit),
    /// The number of charges of runs of a shift type, of all nurses in all weeks, is even.
    EvenShiftRuns,
}

/// A fact, and whether it holds.
#[derive(Clone, Copy, Debug, PartialEq, Eq)]
pub struct Condition {
    pub fact: Fact,
    pub holds: bool,
}

/// A case that is not split.
#[derive(Drop)]
pub struct Leaf {
    /// The number of its prices in the certificate, from 0.
    pub prices: usize,
    /// A surcharge for each condition of the case, in thousandths of a point and at most `MAX_PRICE`; a missing one is 0.
    pub surcharges: Vec<u32>,
}

/// A node of a tree of cases.
#[derive(Drop)]
pub enum Node {
    /// The case is split by a fact: first comes the subtree in which it holds, then the one in which it does not hold.
    Split(Fact),
    /// The case is not split.
    Leaf(Leaf),
}

/// A tree of cases.
#[derive(Drop)]
pub struct CaseTree {
    /// The nodes of the tree in preorder: a split comes before its trees. They are those of one tree.
    pub nodes: Vec<Node>,
}

impl Model for CaseTree {
    ghost use Rattle.rota_core.specs.Trees.{Tree};
    ghost use Rattle.rota_core.specs.TreeNodes.{tree_code};

    ghost Value = { Tree };

    ghost coded = { tree_code };

    ghost use Rattle.rota_core.specs.TreeFields.{IsTreeKept, tree_kept};

    ghost view = { tree_kept };

    ghost invariant = { IsTreeKept };
}

/// A tree of cases, and lists of prices for its leaves.
#[derive(Drop)]
pub struct Certificate {
    /// Lists of prices: in each list a table for each week.
    pub prices: Vec<Vec<Prices>>,
    /// The tree.
    pub tree: CaseTree,
}
