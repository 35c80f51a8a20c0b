//! What names stand for among rewritten classes.
ghost use Rattle.rewritten_names.specs.LeadsLaw.{CallsLaw, LeadsLaw, SpecialLaw};
ghost use Rattle.rewritten_names.specs.NamesLaw.{NumbersLaw};

/// Among the names of the methods of rewritten classes, in the order of their numbers, each has the number that rewriting gives it: the program's
/// methods, accessors, duplicates, and behind them the methods of the helper of arrays.
pub fn numbers_law()
    ensures { NumbersLaw }
{}

/// Among rewritten classes the names of original code lead to what they led to, names of duplicates to the duplicates of that, and names of accessors and of
/// the helper's methods to these (JVM Specification, Java SE 7, sections 5.4.3.2 to 5.4.3.4).
pub fn leads_law()
    ensures { LeadsLaw }
{}

/// Names in calls of taken methods are plain, and each method of such a name is the program's, unless it is a constructor's.
pub fn calls_law()
    ensures { CallsLaw }
{}

/// The same of names in invokespecial, which stand for what is selected from the superclass upward, or for a method itself (section 6.5).
pub fn special_law()
    ensures { SpecialLaw }
{}
