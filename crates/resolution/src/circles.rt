//! Classes that are above themselves, and all faults of what stands above classes.
ghost use Rattle.std.specs.Prelude.{◌≡◌, Some, slice_get, IfOk};
ghost use Rattle.objects.specs.linking.Faults.{first_fault};
ghost use Rattle.objects.specs.linking.ClassesFaults.{circle_fault as fault_of_circle, supers_fault as fault_of_supers};

use crate::ways::Ways;
use const_pool::ClassFile;
use hierarchy::superclasses::first_super_fault;
use hierarchy::symbols::own_name;
use jmodel::{Bytes, NoMemory, Refusal};
use std::alloc::{AllocError, Global};

fn circle_fault(
    alloc: Global,
    ways: &Ways,
    place: usize,
    class: &ClassFile,
) -> Result<Option<Refusal>, AllocError>
    requires { slice_get ways.now place ≡ Some class.now }
    ensures { IfOk result (λ o. o ≡ fault_of_circle ways.now class.now) }
{
    if ways.is_above_itself(place, class) {
        let name = Bytes::from_slice(alloc, own_name(class))?;
        Ok(Some(Refusal::Circular(name)))
    } else {
        Ok(None)
    }
}

fn first_circle_fault(alloc: Global, ways: &Ways) -> Result<Option<Refusal>, AllocError>
    ensures { IfOk result (λ o. o ≡ first_fault (fault_of_circle ways.now) ways.now) }
{
    let places = ways.places();
    for (place, class) in places.classes().iter().enumerate() {
        if let Some(fault) = circle_fault(alloc, ways, place, class)? {
            return Ok(Some(fault));
        }
    }
    Ok(None)
}

/// The first fault of what classes stand under, in their order: `UnknownClass` or `BadSuper` (`superclasses`); where there is none of these,
/// `Circular` with the name of the first class that is above itself, by superclasses or interfaces.
pub fn supers_fault(alloc: Global, ways: &Ways) -> Result<Option<Refusal>, NoMemory>
    ensures { IfOk result (λ o. o ≡ fault_of_supers ways.now) }
{
    if let Some(fault) = first_super_fault(alloc, ways.places())? {
        return Ok(Some(fault));
    }
    Ok(first_circle_fault(alloc, ways)?)
}
