//! Duplicates of methods.
ghost use Rattle.std.specs.Prelude.{◌≡◌, ◌+◌, ◌≤◌, Some, IfOk, IfSome};
ghost use Rattle.std.specs.List.{AllByRecursion};
ghost use Rattle.jmodel.specs.format.Reading.{Gives};
ghost use Rattle.jmodel.specs.format.Relocation.{AreBlocks};
ghost use Rattle.jmodel.specs.format.Instruction.{SpellsInstrs};
ghost use Rattle.objects.specs.linking.Linking.{has_no_code as is_without_code, decoded_member as decoded_so};
ghost use Rattle.member_code.specs.Growing.{Grows};
ghost use Rattle.member_code.specs.Coding.{room_for, typed_name as name_typed};
ghost use Rattle.member_code.specs.Names.{duplicate_named as duplicate_name};
ghost use Rattle.dup_methods.specs.Limits.{added_locals as locals_added, AddsLittle, FitsOp, FitsCount};
ghost use Rattle.dup_methods.specs.Duplicates.{stub as stub_of, refs_of as refs, duplicate_flags as flags_of_duplicate, duplicate_bytes as bytes_of_duplicate, texts_of as texts, made_duplicate as made, coded_duplicate as coded_copy, abstract_duplicate as abstract_copy, duplicate_of as duplicate};

use crate::blocks::blocks_of;
use crate::limits::{added_locals, want_arguments, want_places};
use crate::originals::Original;
use bytecode::{Block, Instr, opcodes};
use const_pool::{Code, Member, Pool};
use hierarchy::Method;
use hierarchy::code::{Coded, decoded};
use jmodel::{Bytes, Halt};
use member_code::instrs::plain;
use member_code::laying::bytes_of_method;
use member_code::members::{added_method, typed_name};
use member_code::names::duplicate_named;
use member_code::places::want_room;
use std::alloc::Global;

// What the code of a duplicate names: what its blocks do, and the class of conflicts.
#[tactic(auto, unfolding(crate::specs::Duplicates::refs_of))]
fn refs_of(
    alloc: Global,
    pool: &mut Pool,
    original: &Original<'_>,
    instrs: &[Instr],
) -> Result<(Vec<Block>, u16), Halt>
    requires few { original.now.method.places ≤ 254 }
    requires ops { AllByRecursion (FitsOp original.now.method) original.now.method.ops }
    requires counts { AllByRecursion FitsCount instrs.now }
    ensures { Grows (λ x. (x.0.items, x.1)) result pool.new (refs original.now instrs.now pool.old) }
{
    let blocks = blocks_of(alloc, pool, original, instrs)?;
    let conflict = pool.add_class(b"org/deuce/transaction/TransactionException")?;
    Ok((blocks, conflict))
}

// The blocks, and behind them the stub that throws a conflict on, past every entry of the method's own.
fn duplicate_bytes(
    alloc: Global,
    method: &Method,
    code: &Code,
    blocks: &[Block],
    conflict: u16,
) -> Result<Bytes, Halt>
    requires blocks { AreBlocks blocks.now code.now.handlers (Some conflict) stub_of }
    requires locals { code.now.max_locals + locals_added method.now ≤ 65535 }
    requires stack { code.now.max_stack ≤ 65534 }
    ensures { Gives (λ b. b) result (bytes_of_duplicate method.now code.now blocks.now conflict) }
{
    bytes_of_method(
        alloc,
        method.name(),
        code.max_stack + 1,
        code.max_locals + added_locals(method),
        blocks,
        code.handlers.as_slice(),
        Some(conflict),
        &[plain(opcodes::ATHROW)],
    )
}

// The flags without VARARGS and with SYNTHETIC.
fn duplicate_flags(flags: u16) -> u16
    ensures { result ≡ flags_of_duplicate flags }
{
    flags & 0xff7f | 0x1000
}

// The name and the descriptor of a method's duplicate.
fn typed_name_of(alloc: Global, pool: &mut Pool, method: &Method) -> Result<(u16, u16), Halt>
    ensures { Grows (λ x. x) result pool.new (name_typed (duplicate_name method.now.name).name (duplicate_name method.now.name).descriptor pool.old) }
{
    let name = duplicate_named(alloc, method.name())?;
    typed_name(pool, name.name.as_slice(), name.descriptor.as_slice())
}

// What else a duplicate names: its name and its descriptor, and the text Code.
#[tactic(auto, unfolding(crate::specs::Duplicates::texts_of))]
fn texts_of(alloc: Global, pool: &mut Pool, method: &Method) -> Result<((u16, u16), u16), Halt>
    ensures { Grows (λ x. x) result pool.new (texts method.now pool.old) }
{
    let named = typed_name_of(alloc, pool, method)?;
    let text = pool.add_utf8(b"Code")?;
    Ok((named, text))
}

fn flags_of(original: &Original<'_>) -> u16
    ensures { result ≡ flags_of_duplicate original.now.member.flags }
{
    let member = original.member;
    duplicate_flags(member.flags)
}

#[tactic(auto, unfolding(crate::specs::Duplicates::made_duplicate))]
fn made_duplicate(
    alloc: Global,
    pool: &mut Pool,
    original: &Original<'_>,
    coded: &Coded,
) -> Result<Member, Halt>
    requires few { original.now.method.places ≤ 254 }
    requires ops { AllByRecursion (FitsOp original.now.method) original.now.method.ops }
    requires counts { AllByRecursion FitsCount coded.now.instrs }
    requires locals { coded.now.code.max_locals + locals_added original.now.method ≤ 65535 }
    requires stack { coded.now.code.max_stack ≤ 65534 }
    requires handlers { length coded.now.code.handlers ≤ 65534 }
    requires spelled { SpellsInstrs original.now.class.pool coded.now.code.handlers coded.now.code.code coded.now.instrs }
    ensures { Grows (λ m. m) result pool.new (made original.now coded.now pool.old) }
{
    prove!(pool.entries().len() < 65535);
    let (blocks, conflict) = refs_of(alloc, pool, original, coded.instrs.as_slice())?;
    let (named, text) = texts_of(alloc, pool, original.method)?;
    let blocks = blocks.as_slice();
    let bytes = duplicate_bytes(alloc, original.method, &coded.code, blocks, conflict)?;
    Ok(added_method(alloc, flags_of(original), named, text, bytes)?)
}

ghost use Rattle.std.specs.Prelude.{length};

#[tactic(auto, unfolding(crate::specs::Duplicates::coded_duplicate))]
fn coded_duplicate(
    alloc: Global,
    pool: &mut Pool,
    original: &Original<'_>,
    coded: &Coded,
) -> Result<Member, Halt>
    requires adds { AllByRecursion AddsLittle original.now.method.ops }
    requires spelled { SpellsInstrs original.now.class.pool coded.now.code.handlers coded.now.code.code coded.now.instrs }
    ensures { Grows (λ m. m) result pool.new (coded_copy original.now coded.now pool.old) }
{
    let instrs = coded.instrs.as_slice();
    want_arguments(alloc, original.program, original.method, instrs)?;
    want_places(alloc, original.method, &coded.code)?;
    made_duplicate(alloc, pool, original, coded)
}

// An abstract method has an abstract duplicate.
#[tactic(auto, unfolding(crate::specs::Duplicates::abstract_duplicate))]
fn abstract_duplicate(
    alloc: Global,
    pool: &mut Pool,
    original: &Original<'_>,
) -> Result<Member, Halt>
    ensures { Grows (λ m. m) result pool.new (abstract_copy original.now pool.old) }
{
    want_arguments(alloc, original.program, original.method, &[])?;
    let (name, descriptor) = typed_name_of(alloc, pool, original.method)?;
    Ok(Member {
        flags: flags_of(original),
        name,
        descriptor,
        attributes: Vec::new(alloc),
    })
}

fn has_no_code(member: &Member) -> bool
    ensures { result ≡ is_without_code member.now }
{
    member.flags & 0x500 != 0
}

// The code of a method, none where it is abstract.
fn decoded_member(alloc: Global, original: &Original<'_>) -> Result<Option<Coded>, Halt>
    ensures gives { Gives (λ k. k) result (decoded_so (record { class = original.now.class; member = original.now.member })) }
    ensures spelled { IfOk result (λ k. IfSome k (λ c. SpellsInstrs original.now.class.pool c.code.handlers c.code.code c.instrs)) }
{
    if has_no_code(original.member) {
        return Ok(None);
    }
    Ok(Some(decoded(alloc, original.class, original.member)?))
}

// Refuses the duplicate of a method whose class has no room for it.
fn want_place(alloc: Global, room: usize, method: &Method) -> Result<(), Halt>
    ensures { Gives (λ x. x) result (room_for room (duplicate_name method.now.name)) }
{
    let name = duplicate_named(alloc, method.name())?;
    want_room(alloc, room, &name)
}

/// The duplicate of a method, whose class has room for so many more methods, with its entries in the class's pool. What iinc adds has two bytes in every
/// method of a linked program (`little_law`). The duplicate is refused as
///
/// - `BadCode`, `BadInstr` or `BadTarget`, as decoding the method's code is, which that of a linked program never is;
/// - else `TooManyPlaces` with the duplicate's printed name and `Methods`, where there is no room (JVM Specification, Java SE 7, section 4.1);
/// - else `TooManyPlaces` with the method's printed name and `Arguments`, where its arguments with the context would take more than 255 places,
///   or those of a method that it calls (section 4.3.3);
/// - else the same with `Handlers`, `Locals` or `Stack`, where the duplicate would have more than 65,535 of them (sections 4.7.3 and 4.9.1);
/// - else `PoolFull`, without the class's name, where the count of the class's pool would pass 65,535 or a text would have more than 65,535
///   bytes (sections 4.1 and 4.4.7);
/// - else `CodeTooLarge` or `BranchTooFar` with the method's printed name, as laying the code is (section 4.9.1).
#[tactic(auto, unfolding(crate::specs::Duplicates::duplicate_of))]
pub fn duplicate_of(
    alloc: Global,
    pool: &mut Pool,
    original: &Original<'_>,
    room: usize,
) -> Result<Member, Halt>
    requires { AllByRecursion AddsLittle original.now.method.ops }
    ensures { Grows (λ m. m) result pool.new (duplicate room original.now pool.old) }
{
    let coded = decoded_member(alloc, original)?;
    want_place(alloc, room, original.method)?;
    match coded {
        Some(coded) => coded_duplicate(alloc, pool, original, &coded),
        None => abstract_duplicate(alloc, pool, original),
    }
}
