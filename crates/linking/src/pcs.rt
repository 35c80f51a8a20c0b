//! Where the instructions of a program's methods stand in their code.
ghost use Rattle.std.specs.Prelude.{◌≡◌, map, slice_get, IfOk};
ghost use Rattle.objects.specs.linking.Linking.{all_decoded as all_of};
ghost use Rattle.linking.specs.Pcs.{pc_at as place_at, pc_in as place_in, pc_of as place_of};

use crate::decoding::all_decoded;
use const_pool::ClassFile;
use hierarchy::code::Coded;
use hierarchy::declared::{Declared, methods_in};
use hierarchy::taken::{are_taken_among, taken_among};
use jmodel::{NoMemory, unless_refused};
use std::alloc::Global;

fn pc_at(coded: &[Option<Coded>], method: usize, number: usize) -> Option<u16>
    ensures { result ≡ place_at (slice_get coded.now method) number }
{
    match coded.get(method)? {
        Some(code) => Some(code.instrs.get(number)?.pc),
        None => None,
    }
}

// The place of an instruction of a method among methods, by their numbers.
fn pc_among(
    alloc: Global,
    methods: &[&Declared],
    method: usize,
    number: usize,
) -> Result<Option<u16>, NoMemory>
    ensures { IfOk result (λ pc. pc ≡ place_in method (all_of (map (λ m. m.now) methods.now)) number) }
{
    match unless_refused(all_decoded(alloc, methods))? {
        Some(coded) => Ok(pc_at(coded.as_slice(), method, number)),
        None => Ok(None),
    }
}

/// The place in its code of an instruction of a method of the program of these classes, by their numbers; None where there is none, or where the
/// code of one of the methods can't be read. Decodes the code again.
pub fn pc_of(
    alloc: Global,
    classes: &[&ClassFile],
    method: usize,
    number: usize,
) -> Result<Option<u16>, NoMemory>
    ensures { IfOk result (λ pc. pc ≡ place_of (map (λ c. c.now) classes.now) method number) }
{
    let methods = methods_in(alloc, classes)?;
    let flags = are_taken_among(alloc, methods.as_slice())?;
    let taken = taken_among(alloc, methods.as_slice(), flags.as_slice())?;
    pc_among(alloc, taken.as_slice(), method, number)
}
