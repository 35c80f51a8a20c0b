//! Methods that rewriting leaves as they are mean in rewritten classes what they meant.
ghost use Rattle.rewritten_code.specs.OldLaw.{OldLaw, SameHeadLaw};

/// A method of an original class has the same head in the rewritten class. The head is its name, how calls find it, its signature and types, and how many
/// attempts a call from outside may make.
pub fn same_head_law()
    ensures { SameHeadLaw }
{}

/// A method that is taken means in the rewritten class, whose pool begins with that of its class, what it meant.
pub fn old_law()
    ensures { OldLaw }
{}
