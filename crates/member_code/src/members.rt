//! Members that are added, with the entries of the pool that they name.
ghost use Rattle.std.specs.Prelude.{◌≡◌, [], ◌∷◌, IfOk};
ghost use Rattle.std.specs.List.{AllByRecursion};
ghost use Rattle.jmodel.specs.declared.instruction.Instr.{Instr as Form};
ghost use Rattle.jmodel.specs.format.Instruction.{targets_of};
ghost use Rattle.jmodel.specs.format.Relocation.{IsShaped};
ghost use Rattle.member_code.specs.Growing.{Grows};
ghost use Rattle.member_code.specs.Coding.{typed_name as typed, added_method as method_of, coded_method as coded, straight_method as straight};

use crate::laying::straight_bytes;
use bytecode::Instr;
use const_pool::{Attribute, Member, Pool};
use jmodel::{Bytes, Halt, MethodName};
use std::alloc::{AllocError, Global};

/// How many places a method's operand stack takes at most, and all its locals.
#[derive(Clone, Copy)]
pub struct Frame {
    pub stack: u16,
    pub locals: u16,
}

/// A list of one attribute.
pub fn alone(alloc: Global, attribute: Attribute) -> Result<Vec<Attribute>, AllocError>
    ensures { IfOk result (λ v. v.items ≡ attribute ∷ []) }
{
    let mut list = Vec::new(alloc);
    list.push(attribute)?;
    Ok(list)
}

/// A method, with these indexes of its name, its descriptor and the text Code.
pub fn added_method(
    alloc: Global,
    flags: u16,
    named: (u16, u16),
    code: u16,
    bytes: Bytes,
) -> Result<Member, AllocError>
    ensures { IfOk result (λ m. m ≡ method_of flags named.0 named.1 code bytes) }
{
    let (name, descriptor) = named;
    Ok(Member {
        flags,
        name,
        descriptor,
        attributes: alone(alloc, Attribute { name: code, bytes })?,
    })
}

/// The indexes of the texts of a name and a descriptor. Refused as PoolFull, without the class's name, as adding to a pool is.
#[tactic(auto, unfolding(crate::specs::Coding::typed_name))]
pub fn typed_name(pool: &mut Pool, name: &[u8], descriptor: &[u8]) -> Result<(u16, u16), Halt>
    ensures { Grows (λ p. p) result pool.new (typed name.now descriptor.now pool.old) }
{
    let named = pool.add_utf8(name)?;
    let typed = pool.add_utf8(descriptor)?;
    Ok((named, typed))
}

/// A method with these flags, the name and the descriptor of this one, and these bytes of its Code. Refused as PoolFull, without the
/// class's name.
#[tactic(auto, unfolding(crate::specs::Coding::coded_method))]
pub fn coded_method(
    alloc: Global,
    pool: &mut Pool,
    flags: u16,
    name: &MethodName,
    bytes: Bytes,
) -> Result<Member, Halt>
    ensures { Grows (λ m. m) result pool.new (coded flags name.now bytes pool.old) }
{
    let named = typed_name(pool, name.name.as_slice(), name.descriptor.as_slice())?;
    let code = pool.add_utf8(b"Code")?;
    Ok(added_method(alloc, flags, named, code, bytes)?)
}

/// A public static synthetic method, whose code is one run of instructions without jumps, in such a frame.
/// Refused as PoolFull, without the class's name.
#[tactic(auto, unfolding(crate::specs::Coding::straight_method))]
pub fn straight_method(
    alloc: Global,
    pool: &mut Pool,
    frame: Frame,
    instrs: Vec<Instr>,
    name: &MethodName,
) -> Result<Member, Halt>
    requires each { AllByRecursion IsShaped instrs.items }
    requires nowhere { AllByRecursion (λ (i : Form). targets_of i.operands ≡ []) instrs.items }
    ensures { Grows (λ m. m) result pool.new (straight frame.stack frame.locals instrs.items name.now pool.old) }
{
    let bytes = straight_bytes(alloc, frame.stack, frame.locals, instrs)?;
    coded_method(alloc, pool, 0x1009, name, bytes)
}
