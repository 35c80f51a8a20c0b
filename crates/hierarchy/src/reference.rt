//! References to fields and methods (JVM Specification, Java SE 7, section 4.4.2).
ghost use Rattle.std.specs.Prelude.{◌≡◌, option_map};
ghost use Rattle.jmodel.specs.format.Pool.{class_name, pair as pair_of, named, field_name, method_name, member_name};

use const_pool::{Constant, Pool};
use std::marker::Model;

/// What a reference to a member says: the class, the name and the descriptor.
#[derive(Drop)]
pub struct Reference<'a> {
    pub class: &'a [u8],
    pub name: &'a [u8],
    pub descriptor: &'a [u8],
}

impl<'a> Model for Reference<'a> {
    ghost use Rattle.jmodel.specs.format.Pool.{MemberName};

    ghost Value = { MemberName };

    ghost view = { λ r. record { class = r.class.now; name = r.name.now; descriptor = r.descriptor.now } };
}

impl<'a> Reference<'a> {
    /// A reference to the member of this class, this name and this descriptor.
    pub fn new(class: &'a [u8], name: &'a [u8], descriptor: &'a [u8]) -> Self
        ensures { result ≡ record { class = class.now; name = name.now; descriptor = descriptor.now } }
    {
        Reference {
            class,
            name,
            descriptor,
        }
    }
}

// The name and the descriptor of a NameAndType.
fn pair(pool: &Pool, i: u16) -> Option<(&[u8], &[u8])>
    ensures { option_map (λ p. (p.0.now, p.1.now)) result ≡ pair_of pool.now i }
{
    let Some(Constant::NameAndType { name, descriptor }) = pool.entry(i) else {
        return None;
    };
    let name = pool.utf8(*name)?;
    let descriptor = pool.utf8(*descriptor)?;
    Some((name.as_slice(), descriptor.as_slice()))
}

/// What a reference to a member of this class and pair says.
pub fn named_reference(pool: &Pool, class: u16, i: u16) -> Option<Reference<'_>>
    ensures { result ≡ named (class_name pool.now class) (pair_of pool.now i) }
{
    let class = pool.class_name(class)?;
    let (name, descriptor) = pair(pool, i)?;
    Some(Reference::new(class.as_slice(), name, descriptor))
}

/// What a Fieldref says, None where the index isn't one's.
pub fn field_reference(pool: &Pool, i: u16) -> Option<Reference<'_>>
    ensures { result ≡ field_name pool.now i }
{
    match pool.entry(i) {
        Some(Constant::Field { class, pair }) => named_reference(pool, *class, *pair),
        _ => None,
    }
}

/// What a Methodref says, None where the index isn't one's.
pub fn method_reference(pool: &Pool, i: u16) -> Option<Reference<'_>>
    ensures { result ≡ method_name pool.now i }
{
    match pool.entry(i) {
        Some(Constant::Method { class, pair }) => named_reference(pool, *class, *pair),
        _ => None,
    }
}

/// What a Fieldref, a Methodref or an InterfaceMethodref says, None where the index isn't one's.
pub fn member_reference(pool: &Pool, i: u16) -> Option<Reference<'_>>
    ensures { result ≡ member_name pool.now i }
{
    match pool.entry(i) {
        Some(
            Constant::Field { class, pair }
            | Constant::Method { class, pair }
            | Constant::InterfaceMethod { class, pair },
        ) => named_reference(pool, *class, *pair),
        _ => None,
    }
}
