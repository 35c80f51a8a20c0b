//! Functions of the library, and the places that parameters take (JVM Specification, Java SE 7, section 4.3.3).
ghost use Rattle.std.specs.Prelude.{◌≡◌, ◌≤◌, Some, IfOk};
ghost use Rattle.jmodel.specs.format.Descriptor.{places as places_of_type, places_of as places_of_types};
ghost use Rattle.objects.specs.linking.Decoding.{width_in as width_of, function_op as function, parameter_places as places_of_parameters};

use crate::text::equal;
use const_pool::{Descriptor, FieldType};
use hierarchy::reference::Reference;
use jmodel::{Halt, NoMemory};
use objects::op::{Binary, Op, Unary, Width};
use std::alloc::Global;

// The width by the descriptor of a function of Math, whose second letter it is.
fn width_in(descriptor: &[u8]) -> Width
    ensures { result ≡ width_of descriptor.now }
{
    match descriptor {
        [_, letter, ..] if *letter == b'J' => Width::Long,
        _ => Width::Int,
    }
}

/// A function of Math.
pub fn function_op(r: &Reference) -> Op
    ensures { Some result ≡ function r.now }
{
    let width = width_in(r.descriptor);
    if equal(r.name, b"abs") {
        Op::Unary(width, Unary::Absolute)
    } else if equal(r.name, b"min") {
        Op::Binary(width, Binary::Minimum)
    } else {
        Op::Binary(width, Binary::Maximum)
    }
}

fn places(t: &FieldType) -> usize
    ensures exact { result ≡ places_of_type t.now }
    ensures few { result ≤ 2 }
{
    match t {
        FieldType::Long | FieldType::Double => 2,
        _ => 1,
    }
}

// How many places values of some types take, which are at most 255.
fn places_of(types: &[FieldType]) -> usize
    requires { places_of_types types.now ≤ 255 }
    ensures { result ≡ places_of_types types.now }
{
    let mut count = 0;
    for t in types {
        count += places(t);
    }
    count
}

/// How many places the parameters of a descriptor have, None where it describes no method.
pub fn parameter_places(alloc: Global, descriptor: &[u8]) -> Result<Option<usize>, NoMemory>
    ensures { IfOk result (λ o. o ≡ places_of_parameters descriptor.now) }
{
    match Descriptor::read(alloc, descriptor) {
        Ok(found) => Ok(Some(places_of(found.parameters.as_slice()))),
        Err(Halt::Refused(_)) => Ok(None),
        Err(Halt::NoMemory) => Err(NoMemory),
    }
}
