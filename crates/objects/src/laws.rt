//! Laws of the definitions: each function's contract is one, and its body does nothing.
ghost use Rattle.objects.specs.laws.TypingLaw.{TypedSafety, TypedRewriting, NarrowestIsKnown};
ghost use Rattle.objects.specs.laws.Law.{Simulation, Prefix, PrefixTraps, Soundness, SnapshotSoundness, Completion};

/// A program each of whose methods has a typing never gets stuck over a heap whose objects have values of their types, and keeps it so.
pub fn typed_safety()
    ensures { TypedSafety }
{}

/// Each method of a rewritten program that has code has a typing, where the tables' types have known names and no field of an object is stored to before the
/// object is built.
pub fn typed_rewriting()
    ensures { TypedRewriting }
{}

/// The types of a source method's narrowest typing have known names.
pub fn narrowest_known()
    ensures { NarrowestIsKnown }
{}

/// A call of rewritten typed code, whatever the engine answers, is what the original method would have done in one piece from each state that has what the
/// call's last attempt read.
pub fn simulation()
    ensures { Simulation }
{}

/// An attempt so far is matched by a run of the original method from each state that has what it read.
pub fn prefix()
    ensures { Prefix }
{}

/// The exceptions that instructions of an attempt so far made are those that the original method's make first, from each state that has what it read.
pub fn prefix_traps()
    ensures { PrefixTraps }
{}

/// A call of rewritten typed code is never stuck where what it read is what a state has.
pub fn soundness()
    ensures { Soundness }
{}

/// Nor is it where that is what memory has after a list of explained entries.
pub fn snapshot_soundness()
    ensures { SnapshotSoundness }
{}

/// The other way: where a call of the original method ends, a run of the rewritten code ends with the same answer and state.
pub fn completion()
    ensures { Completion }
{}
