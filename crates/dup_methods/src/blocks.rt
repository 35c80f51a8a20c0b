//! The blocks of a duplicate: what stands there for each instruction.
ghost use Rattle.std.specs.Prelude.{◌≡◌, ◌≤◌, [], ◌∷◌, IfOk, IfSome, Ok, option_copied};
ghost use Rattle.jmodel.specs.format.ClassFile.{Pool as Entries};
ghost use Rattle.std.specs.List.{AllByRecursion};
ghost use Rattle.objects.specs.linking.Taken.{index_of as index_in};
ghost use Rattle.objects.specs.rewriting.Rewriting.{array_under as type_under, helped as helped_by, word_places as places_of_word};
ghost use Rattle.objects.specs.typing.TypeOrder.{element_class as class_of_element};
ghost use Rattle.member_code.specs.Growing.{Grows, grow_from};
ghost use Rattle.member_code.specs.Names.{duplicate_named as duplicate_name};
ghost use Rattle.dup_methods.specs.Names.{getter_named as named_getter, setter_named as named_setter, load_named as named_load, as_name as as_named};
ghost use Rattle.dup_methods.specs.Limits.{FitsOp, FitsCount};
ghost use Rattle.dup_methods.specs.Duplicates.{call_of as calling, interface_call_of as calling_interface, accessor_call, helper_call as calling_helper, duplicate_call as calling_duplicate, interface_call as calling_by_interface, class_cast as casting, after_load as after_loading, element_load as loading, element_store as storing, called as named_method, block_of as block_for, numbered_block};

use crate::limits::{count_of, moved_local_of};
use crate::names::{as_name, getter_named, load_named, setter_named, store_named};
use crate::originals::Original;
use bytecode::{Block, Instr, Operands, opcodes};
use const_pool::Pool;
use hierarchy::TypeEntry;
use hierarchy::reference::{Reference, member_reference};
use jmodel::{Halt, MethodName, VType};
use member_code::instrs::{call_interface, check_cast, increment, load, naming, plain, store};
use member_code::names::duplicate_named;
use objects::op::{Op, Sort, WordType};
use std::alloc::{AllocError, Global};

// An instruction that stays as it is.
fn kept(alloc: Global, i: &Instr) -> Result<Vec<Instr>, Halt>
    ensures { (pool : Entries) → Grows (λ v. v.items) result pool (Ok (i.now ∷ [], pool)) }
{
    Ok(vec![in alloc; i.copy(alloc)?]?)
}

fn alone(alloc: Global, i: Instr) -> Result<Vec<Instr>, Halt>
    ensures { (pool : Entries) → Grows (λ v. v.items) result pool (Ok (i ∷ [], pool)) }
{
    Ok(vec![in alloc; i]?)
}

// A call of a method, by an opcode, with the context from local `context` as last argument.
#[tactic(auto, unfolding(crate::specs::Duplicates::call_of))]
fn call_of(
    alloc: Global,
    pool: &mut Pool,
    context: u16,
    opcode: u8,
    name: &MethodName,
) -> Result<Vec<Instr>, Halt>
    ensures { Grows (λ v. v.items) result pool.new (calling context opcode name.now pool.old) }
{
    let class = name.class.as_slice();
    let method = pool.add_method(class, name.name.as_slice(), name.descriptor.as_slice())?;
    Ok(vec![in alloc; load(Sort::Reference, context), naming(opcode, method)]?)
}

// The same of an interface's method, whose arguments take `count` places.
#[tactic(auto, unfolding(crate::specs::Duplicates::interface_call_of))]
fn interface_call_of(
    alloc: Global,
    pool: &mut Pool,
    context: u16,
    count: u8,
    name: &MethodName,
) -> Result<Vec<Instr>, Halt>
    ensures { Grows (λ v. v.items) result pool.new (calling_interface context count name.now pool.old) }
{
    let class = name.class.as_slice();
    let descriptor = name.descriptor.as_slice();
    let method = pool.add_interface_method(class, name.name.as_slice(), descriptor)?;
    Ok(vec![in alloc;
        load(Sort::Reference, context),
        call_interface(method, count),
    ]?)
}

// A call of the getter of the field with a number.
fn getter_call(
    alloc: Global,
    pool: &mut Pool,
    original: &Original<'_>,
    field: usize,
    i: &Instr,
) -> Result<Vec<Instr>, Halt>
    requires { original.now.method.places ≤ 254 }
    ensures { Grows (λ v. v.items) result pool.new (accessor_call original.now.method.places named_getter (field_at original.now.program field) i.now pool.old) }
{
    match original.program.field(field) {
        Some(found) => {
            let name = getter_named(alloc, found)?;
            call_of(
                alloc,
                pool,
                original.context(),
                opcodes::INVOKESTATIC,
                &name,
            )
        }
        None => kept(alloc, i),
    }
}

ghost use Rattle.objects.specs.semantics.Program.{field_at};

// A call of its setter.
fn setter_call(
    alloc: Global,
    pool: &mut Pool,
    original: &Original<'_>,
    field: usize,
    i: &Instr,
) -> Result<Vec<Instr>, Halt>
    requires { original.now.method.places ≤ 254 }
    ensures { Grows (λ v. v.items) result pool.new (accessor_call original.now.method.places named_setter (field_at original.now.program field) i.now pool.old) }
{
    match original.program.field(field) {
        Some(found) => {
            let name = setter_named(alloc, found)?;
            call_of(
                alloc,
                pool,
                original.context(),
                opcodes::INVOKESTATIC,
                &name,
            )
        }
        None => kept(alloc, i),
    }
}

// The index of the pool that an instruction names.
fn index_of(operands: &Operands) -> Option<u16>
    ensures { result ≡ index_in operands.now }
{
    match operands {
        Operands::Pool(index) => Some(*index),
        Operands::Interface { index, .. } => Some(*index),
        _ => None,
    }
}

// The method that an instruction of the original names.
fn called<'a>(original: &Original<'a>, i: &Instr) -> Option<Reference<'a>>
    ensures { result ≡ named_method original.now i.now }
{
    let class = original.class;
    member_reference(&class.pool, index_of(&i.operands)?)
}

// The name of the duplicate of the method that a reference says.
fn name_of_duplicate(alloc: Global, reference: &Reference<'_>) -> Result<MethodName, AllocError>
    ensures { IfOk result (λ n. n ≡ duplicate_name (as_named reference.now)) }
{
    let name = as_name(alloc, reference)?;
    duplicate_named(alloc, &name)
}

// A call, by an opcode, of the duplicate of the method that an instruction names.
fn duplicate_call(
    alloc: Global,
    pool: &mut Pool,
    original: &Original<'_>,
    opcode: u8,
    i: &Instr,
) -> Result<Vec<Instr>, Halt>
    requires { original.now.method.places ≤ 254 }
    ensures { Grows (λ v. v.items) result pool.new (calling_duplicate original.now.method.places opcode (named_method original.now i.now) i.now pool.old) }
{
    match called(original, i) {
        Some(reference) => {
            let name = name_of_duplicate(alloc, &reference)?;
            call_of(alloc, pool, original.context(), opcode, &name)
        }
        None => kept(alloc, i),
    }
}

// The same of an interface's method. The count of argument places is one higher.
fn interface_call(
    alloc: Global,
    pool: &mut Pool,
    original: &Original<'_>,
    i: &Instr,
) -> Result<Vec<Instr>, Halt>
    requires few { original.now.method.places ≤ 254 }
    requires count { FitsCount i.now }
    ensures { Grows (λ v. v.items) result pool.new (calling_by_interface original.now.method.places (named_method original.now i.now) i.now pool.old) }
{
    match called(original, i) {
        Some(reference) => {
            let name = name_of_duplicate(alloc, &reference)?;
            let count = count_of(&i.operands) + 1;
            interface_call_of(alloc, pool, original.context(), count, &name)
        }
        None => kept(alloc, i),
    }
}

// All bytes but the last.
#[tactic(auto, using(crate::proofs::Bytes::front_is))]
fn without_last(bytes: &[u8]) -> &[u8]
    ensures { result.now ≡ all_but_last bytes.now }
{
    if bytes.is_empty() {
        &[]
    } else {
        &bytes[..bytes.len() - 1]
    }
}

ghost use Rattle.objects.specs.typing.TypeOrder.{without_last as all_but_last, named_by as named_by_descriptor};

// The class's name, or the array's descriptor, that a descriptor says.
fn named_by(descriptor: &[u8]) -> &[u8]
    ensures { result.now ≡ named_by_descriptor descriptor.now }
{
    match descriptor {
        [b'L', rest @ ..] => without_last(rest),
        _ => descriptor,
    }
}

// The class of the elements of an array of references.
fn element_class(array: &[u8]) -> &[u8]
    ensures { result.now ≡ class_of_element array.now }
{
    match array {
        [_, element @ ..] => named_by(element),
        [] => &[],
    }
}

// A cast to a class, where that isn't Object.
#[tactic(auto, unfolding(crate::specs::Duplicates::class_cast))]
fn class_cast(alloc: Global, pool: &mut Pool, name: &[u8]) -> Result<Vec<Instr>, Halt>
    ensures { Grows (λ v. v.items) result pool.new (casting name.now pool.old) }
{
    if name == b"java/lang/Object".as_slice() {
        return Ok(Vec::new(alloc));
    }
    let class = pool.add_class(name)?;
    alone(alloc, check_cast(class))
}

// What follows the load of an element of an array of this type.
fn after_load(
    alloc: Global,
    pool: &mut Pool,
    word: WordType,
    array: Option<&VType>,
) -> Result<Vec<Instr>, Halt>
    ensures { Grows (λ v. v.items) result pool.new (after_loading word (option_copied array.entry) pool.old) }
{
    match (word, array) {
        (WordType::Reference, Some(VType::Ref(name))) => {
            class_cast(alloc, pool, element_class(name.as_slice()))
        }
        (WordType::Reference, Some(VType::Null)) => {
            Ok(vec![in alloc; plain(opcodes::POP), plain(opcodes::ACONST_NULL)]?)
        }
        _ => Ok(Vec::new(alloc)),
    }
}

// The type of the array that an element is taken of, under so many places.
fn array_under(types: Option<&TypeEntry>, places: usize) -> Option<&VType>
    ensures { option_copied result ≡ type_under places (option_copied types.entry) }
{
    types?.stack().get(places)
}

// Bytes and booleans have arrays of their own, which the types tell apart.
fn helped(array: Option<&VType>, word: WordType) -> WordType
    ensures { result ≡ helped_by (option_copied array.entry) word }
{
    match (array, word) {
        (Some(VType::Ref(name)), WordType::Byte) if is_of_booleans(name.as_slice()) => {
            WordType::Boolean
        }
        _ => word,
    }
}

fn is_of_booleans(array: &[u8]) -> bool
    ensures { result ≡ bytes_eq array.now (codes "[Z") }
{
    array == b"[Z".as_slice()
}

ghost use Rattle.std.specs.Prelude.{bytes_eq, codes};

fn places_of(word: WordType) -> usize
    ensures says { result ≡ places_of_word word }
    ensures few { result ≤ 2 }
{
    if matches!(word, WordType::Long) { 2 } else { 1 }
}

// Puts instructions behind others.
fn extend(instrs: &mut Vec<Instr>, more: Vec<Instr>) -> Result<(), AllocError>
    ensures { OnOk result (instrs.new.items ≡ instrs.old.items ++ more.items) }
{
    for i in more {
        instrs.push(i)?;
    }
    Ok(())
}

ghost use Rattle.std.specs.Prelude.{OnOk, ◌++◌};

// The call that loads an element of an array of this type.
fn load_call(
    alloc: Global,
    pool: &mut Pool,
    context: u16,
    word: WordType,
    array: Option<&VType>,
) -> Result<Vec<Instr>, Halt>
    ensures { Grows (λ v. v.items) result pool.new (calling_helper context (named_load (helped_by (option_copied array.entry) word)) pool.old) }
{
    let name = load_named(alloc, helped(array, word))?;
    call_of(alloc, pool, context, opcodes::INVOKESTATIC, &name)
}

// A load of an element of an array of this type.
#[tactic(auto, unfolding(crate::specs::Duplicates::element_load))]
fn element_load(
    alloc: Global,
    pool: &mut Pool,
    context: u16,
    word: WordType,
    array: Option<&VType>,
) -> Result<Vec<Instr>, Halt>
    ensures { Grows (λ v. v.items) result pool.new (loading context word (option_copied array.entry) pool.old) }
{
    let mut block = load_call(alloc, pool, context, word, array)?;
    let after = after_load(alloc, pool, word, array)?;
    extend(&mut block, after)?;
    Ok(block)
}

// A store of one.
fn element_store(
    alloc: Global,
    pool: &mut Pool,
    context: u16,
    word: WordType,
    array: Option<&VType>,
) -> Result<Vec<Instr>, Halt>
    ensures { Grows (λ v. v.items) result pool.new (storing context word (option_copied array.entry) pool.old) }
{
    let name = store_named(alloc, helped(array, word))?;
    call_of(alloc, pool, context, opcodes::INVOKESTATIC, &name)
}

// What stands in the duplicate for an instruction, which means this, and before which the types are these. Refused as PoolFull, without the class's
// name, as adding to a pool is.
fn block_of(
    alloc: Global,
    pool: &mut Pool,
    original: &Original<'_>,
    op: Option<&Op>,
    types: Option<&TypeEntry>,
    i: &Instr,
) -> Result<Vec<Instr>, Halt>
    requires few { original.now.method.places ≤ 254 }
    requires op { IfSome (option_copied op) (λ (o : Form). FitsOp original.now.method o) }
    requires count { FitsCount i.now }
    ensures { Grows (λ v. v.items) result pool.new (block_for original.now (option_copied op.entry) (option_copied types.entry) i.now pool.old) }
{
    let Some(op) = op else {
        return kept(alloc, i);
    };
    let context = original.context();
    match op {
        Op::GetStatic(f) => getter_call(alloc, pool, original, *f, i),
        Op::GetField { field, .. } => getter_call(alloc, pool, original, *field, i),
        Op::PutStatic(f) => setter_call(alloc, pool, original, *f, i),
        Op::PutField { field, .. } => setter_call(alloc, pool, original, *field, i),
        Op::LoadElement(word) => {
            element_load(alloc, pool, context, *word, array_under(types, 1))
        }
        Op::StoreElement(word) => {
            let array = array_under(types, 1 + places_of(*word));
            element_store(alloc, pool, context, *word, array)
        }
        Op::InvokeStatic(_) => duplicate_call(alloc, pool, original, opcodes::INVOKESTATIC, i),
        Op::InvokeSpecial(_) => duplicate_call(alloc, pool, original, opcodes::INVOKESPECIAL, i),
        Op::InvokeVirtual { .. } => {
            duplicate_call(alloc, pool, original, opcodes::INVOKEVIRTUAL, i)
        }
        Op::InvokeInterface { .. } => interface_call(alloc, pool, original, i),
        Op::Load(sort, _) => alone(alloc, load(*sort, moved_local_of(original.method, op))),
        Op::Store(sort, _) => alone(alloc, store(*sort, moved_local_of(original.method, op))),
        Op::Increment(_, add) => {
            alone(alloc, increment(moved_local_of(original.method, op), *add))
        }
        _ => kept(alloc, i),
    }
}

ghost use Rattle.objects.specs.declared.op.Op.{Op as Form};

// The block of the instruction with a number.
fn numbered(
    alloc: Global,
    pool: &mut Pool,
    original: &Original<'_>,
    n: usize,
    i: &Instr,
) -> Result<Block, Halt>
    requires few { original.now.method.places ≤ 254 }
    requires ops { AllByRecursion (FitsOp original.now.method) original.now.method.ops }
    requires count { FitsCount i.now }
    ensures { Grows (λ b. b) result pool.new (numbered_block original.now n i.now pool.old) }
{
    let instrs = block_of(alloc, pool, original, original.op(n), original.types(n), i)?;
    Ok(Block { pc: i.pc, instrs })
}

/// The blocks of all instructions, in order. Refused as PoolFull, without the class's name, as adding to a pool is.
pub(crate) fn blocks_of(
    alloc: Global,
    pool: &mut Pool,
    original: &Original<'_>,
    instrs: &[Instr],
) -> Result<Vec<Block>, Halt>
    requires few { original.now.method.places ≤ 254 }
    requires ops { AllByRecursion (FitsOp original.now.method) original.now.method.ops }
    requires counts { AllByRecursion FitsCount instrs.now }
    ensures { Grows (λ v. v.items) result pool.new (grow_from (numbered_block original.now) 0 instrs.now pool.old) }
{
    let mut blocks = Vec::new(alloc);
    for (n, i) in instrs.iter().enumerate() {
        blocks.push(numbered(alloc, pool, original, n, i)?)?;
    }
    Ok(blocks)
}
