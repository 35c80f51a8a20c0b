//! What fields and methods begin with, and fields (JVM Specification, Java SE 7, section 4.5).
ghost use Rattle.std.specs.Prelude.{◌≡◌, Bool, if◌then◌else◌, IfOk};
ghost use Rattle.jmodel.specs.format.Reading.{Gives};
ghost use Rattle.jmodel.specs.format.DescriptorReading.{is_field_descriptor as is_field, is_method_descriptor as is_method};
ghost use Rattle.jmodel.specs.format.ClassFileReading.{descriptor_fits as fits_use, member_head_at as member_head, field_at as field, full_name as name_of};
ghost use Rattle.const_pool.specs.Uses.{uses_of};
ghost use Rattle.class_reader.specs.Heads.{head_of};

use const_pool::fields::u2_at;
use const_pool::{Descriptors, Member, Pool, attributes_at, want_descriptor};
use jmodel::{Bytes, Halt};
use std::alloc::{AllocError, Global};

/// A member without its attributes.
#[derive(Clone, Copy)]
pub struct MemberHead {
    pub flags: u16,
    pub name: u16,
    pub descriptor: u16,
}

// Refuses a descriptor that isn't a method's, or a field's.
#[tactic(auto, using(const_pool::proofs::Uses::read_uses), unfolding(jmodel::specs::format::ClassFileReading::descriptor_fits))]
fn descriptor_fits(
    pool: &Pool,
    known: &Descriptors,
    is_method_wanted: bool,
    i: u16,
) -> Result<(), Halt>
    requires { known.now ≡ uses_of pool.now }
    ensures { Gives (λ x. x) result (fits_use pool.now (if is_method_wanted then is_method else is_field) i) }
{
    let _ = pool.utf8_at(i)?;
    if is_method_wanted {
        want_descriptor(known.is_method(i), i)
    } else {
        want_descriptor(known.is_field(i), i)
    }
}

// A member's flags, name and descriptor, which is to be a method's or a field's.
#[tactic(auto, unfolding(jmodel::specs::format::ClassFileReading::member_head_at))]
pub fn member_head_at(
    pool: &Pool,
    known: &Descriptors,
    is_method_wanted: bool,
    bytes: &[u8],
    at: usize,
) -> Result<(MemberHead, usize), Halt>
    requires { known.now ≡ uses_of pool.now }
    ensures { Gives (λ x. (head_of x.0, x.1)) result (member_head pool.now (if is_method_wanted then is_method else is_field) bytes.now at) }
{
    let (flags, at) = u2_at(bytes, at)?;
    let (name, at) = u2_at(bytes, at)?;
    let _ = pool.utf8_at(name)?;
    let (descriptor, after) = u2_at(bytes, at)?;
    descriptor_fits(pool, known, is_method_wanted, descriptor)?;
    let head = MemberHead {
        flags,
        name,
        descriptor,
    };
    Ok((head, after))
}

/// A member as refusals name it: its name and its descriptor.
pub fn full_name(
    alloc: Global,
    pool: &Pool,
    name: u16,
    descriptor: u16,
) -> Result<Bytes, AllocError>
    ensures { IfOk result (λ b. b ≡ name_of pool.now name descriptor) }
{
    let mut text = Bytes::new(alloc);
    if let Some(part) = pool.utf8(name) {
        text.extend_from_slice(part.as_slice())?;
    }
    if let Some(part) = pool.utf8(descriptor) {
        text.extend_from_slice(part.as_slice())?;
    }
    Ok(text)
}

/// A field, and the place after it.
#[tactic(auto, unfolding(jmodel::specs::format::ClassFileReading::field_at))]
pub fn field_at(
    alloc: Global,
    pool: &Pool,
    known: &Descriptors,
    bytes: &[u8],
    at: usize,
) -> Result<(Member, usize), Halt>
    requires { known.now ≡ uses_of pool.now }
    ensures { Gives (λ x. x) result (field pool.now bytes.now at) }
{
    let (head, at) = member_head_at(pool, known, false, bytes, at)?;
    let (attributes, after) = attributes_at(alloc, pool, bytes, at)?;
    let member = Member {
        flags: head.flags,
        name: head.name,
        descriptor: head.descriptor,
        attributes,
    };
    Ok((member, after))
}
