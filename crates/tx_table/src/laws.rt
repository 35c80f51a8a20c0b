//! What the rule says, in words of the table.
ghost use Rattle.std.specs.Prelude.{ℕ, List};
ghost use Rattle.tx_table.specs.Book.{Book};
ghost use Rattle.tx_table.specs.Rule.{Rule, Shows};

use crate::shared::Story;

/// Where the rule holds, the entries of all books have one legal order, stripes show who holds them, and free stripes show
/// the memory after that order.
pub fn rule_shows<T: Story>(story: &T)
    ensures { (words : List ℕ) (views : List Book) → Rule (T.story story.now) words views → Shows (T.story story.now) words views }
{
    let _ = story;
}
