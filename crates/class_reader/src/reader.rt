//! A class file as a whole.
ghost use Rattle.std.specs.Prelude.{◌≡◌, ◌≤◌, length, IfOk, Ok};
ghost use Rattle.jmodel.specs.format.Reading.{Gives};
ghost use Rattle.jmodel.specs.format.ClassFile.{ClassFile as Form};
ghost use Rattle.jmodel.specs.format.ClassFileReading.{parts_at as parts, ended as ended_at, distinct_members as distinct_members_of, class_file_of};
ghost use Rattle.jmodel.specs.format.ClassRules.{Spells};
ghost use Rattle.class_reader.specs.Numbers.{AreNamed};

use crate::distinct::distinct;
use crate::head::{head_at, magic_at, version_at};
use crate::lists::{MemberKind, members_at};
use const_pool::fields::offset;
use const_pool::{ClassFile, Descriptors, Pool, attributes_at};
use jmodel::{Halt, Refusal};
use std::alloc::Global;

// What follows the pool, up to the class's attributes.
#[tactic(auto, unfolding(jmodel::specs::format::ClassFileReading::parts_at))]
fn parts_at(
    alloc: Global,
    minor: u16,
    pool: Pool,
    bytes: &[u8],
    at: usize,
) -> Result<(ClassFile, usize), Halt>
    ensures { Gives (λ x. x) result (parts minor pool bytes.now at) }
{
    let known = Descriptors::of(alloc, &pool)?;
    let (head, at) = head_at(alloc, &pool, bytes, at)?;
    let (fields, at) = members_at(alloc, &pool, &known, MemberKind::Field, bytes, at)?;
    let (methods, at) = members_at(alloc, &pool, &known, MemberKind::Method, bytes, at)?;
    let (attributes, after) = attributes_at(alloc, &pool, bytes, at)?;
    let class = ClassFile {
        minor,
        major: 49,
        pool,
        flags: head.flags,
        this_class: head.this_class,
        super_class: head.super_class,
        interfaces: head.interfaces,
        fields,
        methods,
        attributes,
    };
    Ok((class, after))
}

fn ended(bytes: &[u8], at: usize) -> Result<(), Halt>
    ensures { Gives (λ x. x) result (ended_at bytes.now at) }
{
    if at == bytes.len() {
        return Ok(());
    }
    Err(Halt::Refused(Refusal::Trailing(offset(at))))
}

// Refuses a second field, then a second method, of one name and descriptor.
#[tactic(auto, unfolding(jmodel::specs::format::ClassFileReading::distinct_members))]
fn distinct_members(alloc: Global, class: &ClassFile) -> Result<(), Halt>
    requires few { length class.now.pool ≤ 65536 }
    requires fields { AreNamed class.now.pool class.now.fields }
    requires methods { AreNamed class.now.pool class.now.methods }
    ensures { Gives (λ x. x) result (distinct_members_of class.now) }
{
    distinct(alloc, &class.pool, &class.fields)?;
    distinct(alloc, &class.pool, &class.methods)
}

#[tactic(auto, unfolding(jmodel::specs::format::ClassFileReading::class_file_of))]
fn read(alloc: Global, bytes: &[u8]) -> Result<ClassFile, Halt>
    ensures { Gives (λ x. x) result (class_file_of bytes.now) }
{
    let at = magic_at(bytes)?;
    let (minor, at) = version_at(bytes, at)?;
    let (pool, at) = Pool::read(alloc, bytes, at)?;
    let (class, at) = parts_at(alloc, minor, pool, bytes, at)?;
    ended(bytes, at)?;
    distinct_members(alloc, &class)?;
    Ok(class)
}

/// The class that the bytes are. Refused with the first fault in file order:
///
/// - `Truncated`: the offset of the first number or run of bytes that isn't wholly there;
/// - `BadMagic`, and `BadVersion` with a major version other than 49;
/// - in the pool, first over its spelling `BadTag` and `BadUtf8` with an offset, then over what its entries name
///   `BadIndex`, `WrongKind` and `BadDescriptor` with an index;
/// - the same three for what stands behind the pool, and `BadCode` with the name and descriptor of a method whose Code
///   attribute isn't in its form, or is missing, or is one too many;
/// - `Trailing` with the offset of what follows the class;
/// - `Doubled` with name and descriptor of the first second one of a field, then of a method.
pub fn read_class(alloc: Global, bytes: &[u8]) -> Result<ClassFile, Halt>
    // What is read is a class that keeps the rules, and the bytes are its spelling.
    ensures found { IfOk result (λ c. Spells bytes.now c) }
    // Each class that the bytes spell is read, unless memory runs out.
    ensures only { (c : Form) → Spells bytes.now c → Gives (λ x. x) result (Ok c) }
    // Which class it is, or which fault is the first.
    ensures exact { Gives (λ x. x) result (class_file_of bytes.now) }
{
    read(alloc, bytes)
}
