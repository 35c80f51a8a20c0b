//! Laws of duplicates. Each function does nothing; its contract is the law.
ghost use Rattle.dup_methods.specs.DuplicateLaw.{RowsLaw, LittleLaw, OpsLaw, DuplicateLaw};

/// The block of each instruction means what the rewriting puts in its place.
pub fn rows_law()
    ensures { RowsLaw }
{}

/// What the code of linked methods adds to locals has two bytes, as `duplicate_of` asks.
pub fn little_law()
    ensures { LittleLaw }
{}

/// All blocks of a duplicate, laid one behind the other, mean the instructions of the rewriting's duplicate.
pub fn ops_law()
    ensures { OpsLaw }
{}

/// A whole duplicate, read back from the rewritten class, is the rewriting's.
pub fn duplicate_law()
    ensures { DuplicateLaw }
{}
