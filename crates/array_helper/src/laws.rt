//! A law of the helper of arrays: what its methods mean when its class is read.
ghost use Rattle.array_helper.specs.HelperLaw.{HelperLaw};

/// The methods of the helper's class, decoded with the symbols of rewritten classes, are those of the rewriting.
pub fn helper_law()
    ensures { HelperLaw }
{}
