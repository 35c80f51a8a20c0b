//! What an engine over the table takes of its caller.
use crate::shared::Story;

/// A story whose rule for entries is the same for all of its values.
pub trait Ruled: Story {
    ghost use Rattle.jmodel.specs.history.History.{Entry};

    /// What may be committed.
    ghost rule: { Entry → Type 0 };

    ghost keeps: { (s : Self) (e : Entry) → rule e → (Self.story s).runs e };

    ghost ruled: { (s : Self) (e : Entry) → (Self.story s).runs e → rule e };
}

/// Names a call, and what is known of the pass that makes it, for contracts alone.
pub trait Calling {
    ghost use Rattle.atomic_table.specs.Seated.{TableId};
    ghost use Rattle.jmodel.specs.history.History.{Call};
    ghost use Rattle.tx_table.specs.Book.{Book};

    ghost call: { Self → Call };

    /// The table of the pass that makes the calls, and its book as they began. Nothing is said of what came since where this is
    /// left out.
    ghost began: { TableId → Book → Type 0 } = { λ _ _. ⊥ };
}
