//! Laws of code that was laid, for those who build on it. Each function does nothing; its contract is the law.
ghost use Rattle.bytecode.specs.Relocated.{LaidLaw, SpelledLaw, PlaceLaw, SizeLaw, OriginLaw};

/// What was laid is in order, and keeps the rule.
pub fn laid_law()
    ensures { LaidLaw }
{}

/// Decoding what was laid gives it again.
pub fn spelled_law()
    ensures { SpelledLaw }
{}

/// How many instructions stand before the place to which something leads.
pub fn place_law()
    ensures { PlaceLaw }
{}

/// The size of an instruction doesn't depend on its targets.
pub fn size_law()
    ensures { SizeLaw }
{}

/// Blocks that stand for the instructions of code have their order and their exception entries.
pub fn origin_law()
    ensures { OriginLaw }
{}
