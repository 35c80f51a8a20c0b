//! Places of which there are too many.
ghost use Rattle.std.specs.Prelude.{◌≡◌, IfOk};
ghost use Rattle.jmodel.specs.format.Name.{printed};
ghost use Rattle.jmodel.specs.format.Reading.{Gives};
ghost use Rattle.jmodel.specs.declared.refusal.Halt.TheVariants as halts;
ghost use Rattle.member_code.specs.Coding.{room_for, too_many as too_many_of};

use jmodel::{Bytes, Halt, MethodName, Refusal};
use std::alloc::{AllocError, Global};

/// That the method of this name has too many places of a kind.
pub fn too_many(alloc: Global, name: &MethodName, kind: &[u8]) -> Result<Halt, AllocError>
    ensures { IfOk result (λ h. h ≡ halts.Refused (too_many_of (printed name.now) kind.now)) }
{
    let kind = Bytes::from_slice(alloc, kind)?;
    Ok(Halt::Refused(Refusal::TooManyPlaces(name.printed(alloc)?, kind)))
}

/// Refuses a method of this name that is added to a class, as `TooManyPlaces`, where the class has room for no more methods.
#[tactic(auto, unfolding(crate::specs::Coding::room_for))]
pub fn want_room(alloc: Global, room: usize, name: &MethodName) -> Result<(), Halt>
    ensures { Gives (λ x. x) result (room_for room name.now) }
{
    if room > 0 {
        return Ok(());
    }
    Err(too_many(alloc, name, b"Methods")?)
}
