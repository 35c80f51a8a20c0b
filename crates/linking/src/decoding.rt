//! The code of methods, of which abstract and native ones have none (JVM Specification, Java SE 7, section 4.7.3).
ghost use Rattle.std.specs.Prelude.{◌≡◌, map};
ghost use Rattle.jmodel.specs.format.Reading.{Gives};
ghost use Rattle.objects.specs.linking.Linking.{has_no_code as without_code, decoded_member as decoded_of, all_decoded as all_of};

use const_pool::Member;
use hierarchy::code::{Coded, decoded};
use hierarchy::declared::Declared;
use jmodel::Halt;
use std::alloc::Global;

// Whether a method is abstract or native, by the flags 0400 and 0100.
fn has_no_code(method: &Member) -> bool
    ensures { result ≡ without_code method.now }
{
    method.flags & 0x500 != 0
}

/// The Code of a method with its instructions, if it is to have code, or the first fault of these.
pub fn decoded_member(alloc: Global, method: &Declared) -> Result<Option<Coded>, Halt>
    ensures { Gives (λ k. k) result (decoded_of method.now) }
{
    if has_no_code(method.member) {
        return Ok(None);
    }
    match decoded(alloc, method.class, method.member) {
        Ok(coded) => Ok(Some(coded)),
        Err(halt) => Err(halt),
    }
}

/// The same of each method, or the first fault.
pub fn all_decoded(alloc: Global, methods: &[&Declared]) -> Result<Vec<Option<Coded>>, Halt>
    ensures { Gives (λ v. v.items) result (all_of (map (λ m. m.now) methods.now)) }
{
    let mut coded = Vec::new(alloc);
    for method in methods {
        coded.push(decoded_member(alloc, method)?)?;
    }
    Ok(coded)
}
