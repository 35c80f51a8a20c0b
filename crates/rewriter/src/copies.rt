//! Copies of the parts of a class.
ghost use Rattle.std.specs.Prelude.{◌≡◌, IfOk};

use const_pool::{Attribute, ClassFile, Constant, Member, Pool};
use std::alloc::{AllocError, Global};

fn copy_constant(alloc: Global, entry: &Constant) -> Result<Constant, AllocError>
    ensures { IfOk result (λ c. c ≡ entry.now) }
{
    match entry {
        Constant::Utf8(bytes) => Ok(Constant::Utf8(bytes.copy(alloc)?)),
        Constant::Integer(n) => Ok(Constant::Integer(*n)),
        Constant::Float(bits) => Ok(Constant::Float(*bits)),
        Constant::Long(n) => Ok(Constant::Long(*n)),
        Constant::Double(bits) => Ok(Constant::Double(*bits)),
        Constant::Class(name) => Ok(Constant::Class(*name)),
        Constant::Text(text) => Ok(Constant::Text(*text)),
        Constant::Field { class, pair } => Ok(Constant::Field {
            class: *class,
            pair: *pair,
        }),
        Constant::Method { class, pair } => Ok(Constant::Method {
            class: *class,
            pair: *pair,
        }),
        Constant::InterfaceMethod { class, pair } => Ok(Constant::InterfaceMethod {
            class: *class,
            pair: *pair,
        }),
        Constant::NameAndType { name, descriptor } => Ok(Constant::NameAndType {
            name: *name,
            descriptor: *descriptor,
        }),
        Constant::Second => Ok(Constant::Second),
    }
}

// A copy of a pool.
fn copy_pool(alloc: Global, pool: &Pool) -> Result<Pool, AllocError>
    ensures { IfOk result (λ p. p ≡ pool.now) }
{
    let mut entries = Vec::new(alloc);
    for entry in pool.entries() {
        entries.push(copy_constant(alloc, entry)?)?;
    }
    Ok(Pool::from_entries(entries))
}

// A copy of an attribute.
fn copy_attribute(alloc: Global, attribute: &Attribute) -> Result<Attribute, AllocError>
    ensures { IfOk result (λ a. a ≡ attribute.now) }
{
    Ok(Attribute {
        name: attribute.name,
        bytes: attribute.bytes.copy(alloc)?,
    })
}

// Copies of attributes.
fn copy_attributes(alloc: Global, list: &[Attribute]) -> Result<Vec<Attribute>, AllocError>
    ensures { IfOk result (λ v. v.items ≡ list.now) }
{
    let mut copied = Vec::new(alloc);
    for attribute in list {
        copied.push(copy_attribute(alloc, attribute)?)?;
    }
    Ok(copied)
}

// A copy of a field or a method.
fn copy_member(alloc: Global, member: &Member) -> Result<Member, AllocError>
    ensures { IfOk result (λ m. m ≡ member.now) }
{
    Ok(Member {
        flags: member.flags,
        name: member.name,
        descriptor: member.descriptor,
        attributes: copy_attributes(alloc, member.attributes.as_slice())?,
    })
}

// Copies of fields or methods.
fn copy_members(alloc: Global, list: &[Member]) -> Result<Vec<Member>, AllocError>
    ensures { IfOk result (λ v. v.items ≡ list.now) }
{
    let mut copied = Vec::new(alloc);
    for member in list {
        copied.push(copy_member(alloc, member)?)?;
    }
    Ok(copied)
}

/// A copy of a class file.
pub fn copy_class(alloc: Global, class: &ClassFile) -> Result<ClassFile, AllocError>
    ensures { IfOk result (λ c. c ≡ class.now) }
{
    Ok(ClassFile {
        minor: class.minor,
        major: class.major,
        pool: copy_pool(alloc, &class.pool)?,
        flags: class.flags,
        this_class: class.this_class,
        super_class: class.super_class,
        interfaces: Vec::from_slice(alloc, class.interfaces.as_slice())?,
        fields: copy_members(alloc, class.fields.as_slice())?,
        methods: copy_members(alloc, class.methods.as_slice())?,
        attributes: copy_attributes(alloc, class.attributes.as_slice())?,
    })
}
