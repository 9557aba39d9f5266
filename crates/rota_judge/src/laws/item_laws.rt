//! The meaning of items: their constraints, their slacks and their shortages.
#![tactic(auto, using(crate::proofs::LawProofs::items))]

ghost use Rattle.std.specs.Prelude.{◌≡◌, ◌↔◌, ℕ, pos, ◌≤◌, ◌≤ℤ◌, Bool, All, List, count_by};
ghost use Rattle.rota_items.specs.Linear.{Satisfies, value_of};
ghost use Rattle.rota_items.specs.Rows.{Item, shortage};
ghost use Rattle.rota_items.specs.ModelCosts.{weighted_shortages};
ghost use Rattle.rota_judge.specs.ItemConstraints.{AreBelow, item_constraint, item_constraints};
ghost use Rattle.rota_judge.specs.Extensions.{extension};
ghost use Rattle.rota_items.specs.WeekModel.{slack_variables, slack_weights};

/// An item's constraint holds if and only if the number of its true slacks is at least its shortage.
pub fn item_holds_from_its_shortage_on()
    ensures { (assignment : ℕ → Bool) (item : Item ℕ) (first : ℕ) →
        Satisfies assignment (item_constraint item first) ↔
        (shortage assignment item ≤ count_by assignment (slack_variables item first)) }
{}

/// If no shortage is above the item's number of slacks, and all variables of terms come before all
/// slacks, the items hold with the slacks that they need, and these cost the weighted shortages.
pub fn extension_satisfies_items()
    ensures satisfies { (assignment : ℕ → Bool) (first : ℕ) (items : List (Item ℕ)) →
        AreBelow first items →
        All (λ item. shortage assignment item ≤ item.slacks) items →
        All (Satisfies (extension assignment first items)) (item_constraints first items) }
    ensures objective { (assignment : ℕ → Bool) (first : ℕ) (items : List (Item ℕ)) →
        AreBelow first items →
        All (λ item. shortage assignment item ≤ item.slacks) items →
        value_of (extension assignment first items) (slack_weights first items) ≡
        pos (weighted_shortages assignment items) }
{}

/// If the items hold, their slacks cost at least the weighted shortages.
pub fn satisfied_items_cost_their_shortages()
    ensures { (assignment : ℕ → Bool) (first : ℕ) (items : List (Item ℕ)) →
        All (Satisfies assignment) (item_constraints first items) →
        pos (weighted_shortages assignment items) ≤ℤ value_of assignment (slack_weights first items) }
{}
