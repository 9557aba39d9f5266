//! Takers of the items of the soft rules, item by item.
ghost use Rattle.std.specs.Prelude.{◌≡◌, ℕ, MatchResult};
ghost use Rattle.rota_core.specs.InstanceTables.{problem_of};
ghost use Rattle.rota_items.specs.Rows.{Item};
ghost use Rattle.rota_items.specs.SentItems.{numbered_item};
ghost use Rattle.rota_items.specs.CellSums.{IsSumOf};

use crate::items::soft_item::SoftItem;
use rota_core::Instance;

/// A taker of the items of the soft rules, one at a time. It sends on their rows or the weights of their
/// slacks, or counts them.
///
/// Like a taker of rows it has an abstract value, and an item that it takes is a step of that value.
pub trait ItemTaker {
    /// The reason why an item may be refused.
    type Fault;

    ghost Value: { Type 0 };

    ghost value: { Self → Value };

    ghost step: { Value → Item ℕ → Value };

    ghost left: { Value → Item ℕ → Self → Type 0 };

    /// Takes an item of the instance's week.
    fn item(&mut self, instance: &Instance, item: SoftItem) -> Result<(), Self::Fault>
        requires { IsSumOf item.sum }
        ensures { let one = numbered_item (problem_of instance.now) item in
            MatchResult result
            (λ _. value self.new ≡ step (value self.old) one)
            (λ _. left (value self.old) one self.new) };
}
