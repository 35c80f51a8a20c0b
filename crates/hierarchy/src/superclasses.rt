//! What stands right above classes, and its faults.
ghost use Rattle.std.specs.Prelude.{◌≡◌, Some, map, IfOk};
ghost use Rattle.jmodel.specs.declared.refusal.Refusal.TheVariants.{UnknownClass, BadSuper};
ghost use Rattle.jmodel.specs.format.Pool.{text_or_none, class_name};
ghost use Rattle.objects.specs.linking.Members.{own_name as name_of_class};
ghost use Rattle.objects.specs.linking.Faults.{first_fault};
ghost use Rattle.objects.specs.linking.Resolution.{is_in_folder as in_folder, names_interface as of_interface, is_known as known, interface_names};
ghost use Rattle.objects.specs.linking.ClassesFaults.{is_final as final_class, may_be_super as may_stand_above, superclass_fault as fault_of_superclass, interface_fault as fault_of_interface, super_fault as fault_above};

use crate::library::{is_final_library, is_library};
use crate::member_faults::is_interface;
use crate::places::Places;
use crate::symbols::{class_text, own_name, super_name};
use crate::text::equal;
use const_pool::{ClassFile, Pool, is_array_name};
use jmodel::{Bytes, Refusal};
use std::alloc::{AllocError, Global};

/// Whether the folder has a class or an interface of a name.
pub fn is_in_folder<'a>(places: &Places<'a>, name: &'a [u8]) -> bool
    ensures { result ≡ in_folder places.now name.now }
{
    places.class_named(name).is_some()
}

/// Whether the folder has an interface of a name.
pub fn names_interface<'a>(places: &Places<'a>, name: &'a [u8]) -> bool
    ensures { result ≡ of_interface places.now name.now }
{
    match places.class_named(name) {
        Some(class) => is_interface(class),
        None => false,
    }
}

/// Whether the folder or the library has a class of a name.
pub fn is_known<'a>(places: &Places<'a>, name: &'a [u8]) -> bool
    ensures { result ≡ known places.now name.now }
{
    is_in_folder(places, name) || is_library(name)
}

fn unknown_class(alloc: Global, name: &[u8]) -> Result<Option<Refusal>, AllocError>
    ensures { IfOk result (λ o. o ≡ Some (UnknownClass name.now)) }
{
    Ok(Some(Refusal::UnknownClass(Bytes::from_slice(alloc, name)?)))
}

fn bad_super(alloc: Global, own: &[u8], above: &[u8]) -> Result<Option<Refusal>, AllocError>
    ensures { IfOk result (λ o. o ≡ Some (BadSuper own.now above.now)) }
{
    let own = Bytes::from_slice(alloc, own)?;
    let above = Bytes::from_slice(alloc, above)?;
    Ok(Some(Refusal::BadSuper(own, above)))
}

// Whether a class is final, by the flag 0010.
fn is_final(class: &ClassFile) -> bool
    ensures { result ≡ final_class class.now }
{
    class.flags & 0x10 != 0
}

// Whether classes may stand under the class of a name.
fn may_be_super<'a>(places: &Places<'a>, name: &'a [u8]) -> bool
    ensures { result ≡ may_stand_above places.now name.now }
{
    match places.class_named(name) {
        Some(class) => !(is_interface(class) || is_final(class)),
        None => !is_final_library(name),
    }
}

// A class stands under Object or under such a class, an interface under Object alone.
fn superclass_fault<'a>(
    alloc: Global,
    places: &Places<'a>,
    class: &'a ClassFile,
) -> Result<Option<Refusal>, AllocError>
    ensures { IfOk result (λ o. o ≡ fault_of_superclass places.now class.now) }
{
    let name = super_name(class);
    if equal(name, b"java/lang/Object") {
        Ok(None)
    } else if !is_known(places, name) {
        unknown_class(alloc, name)
    } else if is_interface(class) || !may_be_super(places, name) {
        bad_super(alloc, own_name(class), name)
    } else {
        Ok(None)
    }
}

// What a class lists as an interface is no array type, and no class.
fn interface_fault<'a>(
    alloc: Global,
    places: &Places<'a>,
    own: &[u8],
    name: &'a [u8],
) -> Result<Option<Refusal>, AllocError>
    ensures { IfOk result (λ o. o ≡ fault_of_interface places.now own.now name.now) }
{
    if is_array_name(name) || is_known(places, name) && !names_interface(places, name) {
        bad_super(alloc, own, name)
    } else {
        Ok(None)
    }
}

// The first fault of interfaces, by their indexes of the pool, that a class of this name lists.
fn listed_fault<'a>(
    alloc: Global,
    places: &Places<'a>,
    own: &[u8],
    pool: &'a Pool,
    interfaces: &[u16],
) -> Result<Option<Refusal>, AllocError>
    ensures { IfOk result (λ o. o ≡ first_fault (fault_of_interface places.now own.now) (map (λ i. text_or_none (class_name pool.now i)) interfaces.now)) }
{
    for index in interfaces {
        let name = class_text(pool, *index);
        if let Some(fault) = interface_fault(alloc, places, own, name)? {
            return Ok(Some(fault));
        }
    }
    Ok(None)
}

fn interfaces_fault<'a>(
    alloc: Global,
    places: &Places<'a>,
    class: &'a ClassFile,
) -> Result<Option<Refusal>, AllocError>
    ensures { IfOk result (λ o. o ≡ first_fault (fault_of_interface places.now (name_of_class class.now)) (interface_names class.now)) }
{
    let own = own_name(class);
    listed_fault(alloc, places, own, &class.pool, class.interfaces.as_slice())
}

fn super_fault<'a>(
    alloc: Global,
    places: &Places<'a>,
    class: &'a ClassFile,
) -> Result<Option<Refusal>, AllocError>
    ensures { IfOk result (λ o. o ≡ fault_above places.now class.now) }
{
    if let Some(fault) = superclass_fault(alloc, places, class)? {
        return Ok(Some(fault));
    }
    interfaces_fault(alloc, places, class)
}

/// The first fault of what classes stand under, in their order: `UnknownClass` with the name of a superclass that neither the folder nor the
/// library has, or `BadSuper` with the names of a class and of what stands above it and may not. That is a superclass that is an interface or final,
/// a superclass of an interface other than Object, or else what a class lists as an interface and is an array type or a class.
pub fn first_super_fault(alloc: Global, places: &Places) -> Result<Option<Refusal>, AllocError>
    ensures { IfOk result (λ o. o ≡ first_fault (fault_above places.now) places.now) }
{
    for class in places.classes() {
        if let Some(fault) = super_fault(alloc, places, class)? {
            return Ok(Some(fault));
        }
    }
    Ok(None)
}
