//! What the names in a class's pool stand for.
ghost use Rattle.std.specs.Prelude.{◌≡◌, option_copied, IfOk, find};
ghost use Rattle.jmodel.specs.format.Pool.{utf8, class_name, text_or_none};
ghost use Rattle.objects.specs.linking.Members.{is_static as is_static_member, own_name as own_name_of, name_of as method_name_of};
ghost use Rattle.jmodel.specs.format.ClassRules.{same_text, is_named as is_named_attribute};
ghost use Rattle.objects.specs.linking.Superclasses.{super_name as super_name_of};

use crate::text::same;
use const_pool::{Attribute, ClassFile, Member, Pool};
use jmodel::{Bytes, MethodName};
use std::alloc::{AllocError, Global};

/// Whether a text is there and is this one.
pub fn is_text(found: Option<&Bytes>, text: &[u8]) -> bool
    ensures { result ≡ same_text (option_copied found.entry) text.now }
{
    match found {
        Some(bytes) => same(bytes, text),
        None => false,
    }
}

/// The text of an index of the pool, no bytes where it isn't a text's.
pub fn text(pool: &Pool, i: u16) -> &[u8]
    ensures { result.now ≡ text_or_none (utf8 pool.now i) }
{
    match pool.utf8(i) {
        Some(bytes) => bytes.as_slice(),
        None => b"",
    }
}

/// The name of the class of an index of the pool, no bytes where it isn't a class's.
pub fn class_text(pool: &Pool, i: u16) -> &[u8]
    ensures { result.now ≡ text_or_none (class_name pool.now i) }
{
    match pool.class_name(i) {
        Some(bytes) => bytes.as_slice(),
        None => b"",
    }
}

/// The name of the class itself.
pub fn own_name(class: &ClassFile) -> &[u8]
    ensures { result.now ≡ own_name_of class.now }
{
    match class.pool.class_name(class.this_class) {
        Some(bytes) => bytes.as_slice(),
        None => b"",
    }
}

/// The name of the class above, no bytes where it has none.
pub fn super_name(class: &ClassFile) -> &[u8]
    ensures { result.now ≡ super_name_of class.now }
{
    match class.pool.class_name(class.super_class) {
        Some(bytes) => bytes.as_slice(),
        None => b"",
    }
}

/// Whether an attribute has this name.
pub fn is_named(pool: &Pool, name: &[u8], attribute: &Attribute) -> bool
    ensures { result ≡ is_named_attribute pool.now name.now attribute.now }
{
    is_text(pool.utf8(attribute.name), name)
}

/// The first attribute of this name.
pub fn find_attribute<'a>(pool: &Pool, name: &[u8], list: &'a [Attribute]) -> Option<&'a Attribute>
    ensures { option_copied result ≡ find (is_named_attribute pool.now name.now) list.now }
{
    list.iter().find(|a| is_named(pool, name, a))
}

/// Whether a member is static, by the flag 0008.
pub fn is_static(member: &Member) -> bool
    ensures { result ≡ is_static_member member.now }
{
    member.flags & 8 != 0
}

/// The name of a method of the class.
pub fn name_of(alloc: Global, class: &ClassFile, method: &Member) -> Result<MethodName, AllocError>
    ensures { IfOk result (λ n. n ≡ method_name_of class.now method.now) }
{
    let own = own_name(class);
    let name = text(&class.pool, method.name);
    let descriptor = text(&class.pool, method.descriptor);
    Ok(MethodName {
        class: Bytes::from_slice(alloc, own)?,
        name: Bytes::from_slice(alloc, name)?,
        descriptor: Bytes::from_slice(alloc, descriptor)?,
    })
}
