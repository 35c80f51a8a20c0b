//! The premises, in rewritten classes, of the laws on what members mean.
ghost use Rattle.rewritten_ties.specs.KnownLaw.{KnownLaw};
ghost use Rattle.rewritten_ties.specs.RootLaw.{RootLaw};
ghost use Rattle.rewritten_ties.specs.StartLaw.{StartLaw};
ghost use Rattle.rewritten_ties.specs.TiesLaw.{TiesLaw};

use array_helper::laws::helper_law;
use field_members::laws::fields_law;
use rewritten_code::laws::same_head_law;
use rewritten_names::laws::{leads_law, numbers_law, special_law};

/// The names in the code of a taken method lead, with the symbols of its original class and of the rewritten one, where the law of duplicates asks.
pub fn ties_law()
    ensures { TiesLaw }
{
    leads_law();
    special_law();
    helper_law();
}

/// The symbols of a rewritten class know the fields of its original, as the law of accessors asks.
pub fn known_law()
    ensures { KnownLaw }
{
    leads_law();
    fields_law();
}

/// A taken method reads in its rewritten class as the program's, and the name of its duplicate leads to this, as the law of wrappers asks.
pub fn root_law()
    ensures { RootLaw }
{
    leads_law();
    numbers_law();
    same_head_law();
}

/// A taken method that is called from outside has code, and the attempts that it may make are an int.
pub fn start_law()
    ensures { StartLaw }
{}
