//! The law that ties a history to calls made one after another, and what a call takes of its region.
ghost use Rattle.objects.specs.semantics.Opening.{ReturnLaw};
ghost use Rattle.objects.specs.laws.RegionLaw.{RegionLaw};
ghost use Rattle.objects.specs.laws.SerialLaw.{SerialLaw};

/// Along a legal list of explained entries, the original methods, called one after another from the opening state, give
/// each entry's answer, and the last words stand for the last state.
pub fn serial_law()
    ensures { SerialLaw }
{}

/// A call, whatever its code, gives back no word of its region that was used before and takes none beyond it; it takes none at all where it wrote
/// nothing or was refused.
pub fn region_law()
    ensures { RegionLaw }
{}

/// A call ends in one way: static initialisers that all return, run one after another, have none that doesn't.
pub fn return_law()
    ensures { ReturnLaw }
{}
