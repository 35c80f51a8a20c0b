//! Laws of reading annotations, for those who build on it. Each function does nothing; its contract is the law.
ghost use Rattle.jmodel.specs.laws.MarkLaw.{AttributeLaw, MarkLaw};

/// An attribute is read as annotations exactly where its bytes spell them.
pub fn attribute_law()
    ensures { AttributeLaw }
{}

/// A method's answer is what the first mark grants of the annotations that its attributes spell; where they spell none, it is a fault.
pub fn mark_law()
    ensures { MarkLaw }
{}
