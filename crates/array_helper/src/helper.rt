//! The helper of arrays: for each type of elements a method that reads an element, and one that writes one.
ghost use Rattle.std.specs.Prelude.{◌≡◌, IfOk, codes};
ghost use Rattle.std.specs.List.{flat_map};
ghost use Rattle.objects.specs.linking.Decoding.{read_descriptor as type_of_read, write_descriptor as type_of_write};
ghost use Rattle.jmodel.specs.format.Reading.{Gives};
ghost use Rattle.member_code.specs.Growing.{Grows, grow_from};
ghost use Rattle.array_helper.specs.Helper.{look_call as with_look_call, read_call as with_read_call, write_call as with_write_call, load_code as code_of_load, load_instrs as instrs_of_load, load_method as loading, store_instrs as instrs_of_store, store_method as storing, element_methods as both, both_of, every_method as methods_of_all, helper_parts as parts_of_helper, helper_file};

use crate::names::{helper_name, load_named, store_named};
use bytecode::{Instr, opcodes};
use const_pool::{ClassFile, Member, Pool};
use jmodel::Halt;
use member_code::instrs::{call_virtual, give, load, plain};
use member_code::members::{Frame, straight_method};
use member_code::words::{add_context_method, places_of, sort_of};
use objects::op::{Sort, WordType};
use std::alloc::{AllocError, Global};

/// The helper's methods for a type of elements.
#[derive(Drop)]
pub struct ElementMethods {
    pub load: Member,
    pub store: Member,
}

// The indexes of the helper's class and of the one above it, and its methods.
#[derive(Drop)]
struct HelperParts {
    this_class: u16,
    super_class: u16,
    methods: Vec<Member>,
}

fn read_descriptor(word: WordType) -> &'static [u8]
    ensures { result.now ≡ type_of_read (codes "I") word }
{
    match word {
        WordType::Boolean => b"(Ljava/lang/Object;ZI)Z",
        WordType::Byte => b"(Ljava/lang/Object;BI)B",
        WordType::Char => b"(Ljava/lang/Object;CI)C",
        WordType::Short => b"(Ljava/lang/Object;SI)S",
        WordType::Int => b"(Ljava/lang/Object;II)I",
        WordType::Long => b"(Ljava/lang/Object;JI)J",
        WordType::Reference => b"(Ljava/lang/Object;Ljava/lang/Object;I)Ljava/lang/Object;",
    }
}

fn write_descriptor(word: WordType) -> &'static [u8]
    ensures { result.now ≡ type_of_write (codes "I") word }
{
    match word {
        WordType::Boolean => b"(Ljava/lang/Object;ZI)V",
        WordType::Byte => b"(Ljava/lang/Object;BI)V",
        WordType::Char => b"(Ljava/lang/Object;CI)V",
        WordType::Short => b"(Ljava/lang/Object;SI)V",
        WordType::Int => b"(Ljava/lang/Object;II)V",
        WordType::Long => b"(Ljava/lang/Object;JI)V",
        WordType::Reference => b"(Ljava/lang/Object;Ljava/lang/Object;I)V",
    }
}

// The index of the context's method that is called before a read.
#[tactic(auto, unfolding(crate::specs::Helper::look_call))]
fn add_look_call(pool: &mut Pool) -> Result<u16, Halt>
    ensures { Grows (λ n. n) result pool.new (with_look_call pool.old) }
{
    add_context_method(pool, b"beforeReadAccess", b"(Ljava/lang/Object;I)V")
}

// The index of the context's method that takes what was read.
fn add_read_call(pool: &mut Pool, word: WordType) -> Result<u16, Halt>
    ensures { Grows (λ n. n) result pool.new (with_read_call word pool.old) }
{
    add_context_method(pool, b"onReadAccess", read_descriptor(word))
}

// The index of the context's method that writes.
fn add_write_call(pool: &mut Pool, word: WordType) -> Result<u16, Halt>
    ensures { Grows (λ n. n) result pool.new (with_write_call word pool.old) }
{
    add_context_method(pool, b"onWriteAccess", write_descriptor(word))
}

fn load_code(word: WordType) -> u8
    ensures { result ≡ code_of_load word }
{
    match word {
        WordType::Int => opcodes::IALOAD,
        WordType::Long => opcodes::LALOAD,
        WordType::Reference => opcodes::AALOAD,
        WordType::Byte | WordType::Boolean => opcodes::BALOAD,
        WordType::Char => opcodes::CALOAD,
        WordType::Short => opcodes::SALOAD,
    }
}

// Before the read, the plain load, after the read.
fn load_instrs(
    alloc: Global,
    word: WordType,
    before: u16,
    after: u16,
) -> Result<Vec<Instr>, AllocError>
    ensures { IfOk result (λ v. v.items ≡ instrs_of_load word before after) }
{
    Ok(vec![in alloc;
        load(Sort::Reference, 2),
        load(Sort::Reference, 0),
        load(Sort::Int, 1),
        call_virtual(before),
        load(Sort::Reference, 2),
        load(Sort::Reference, 0),
        load(Sort::Reference, 0),
        load(Sort::Int, 1),
        plain(load_code(word)),
        load(Sort::Int, 1),
        call_virtual(after),
        give(sort_of(word)),
    ]?)
}

#[tactic(auto, unfolding(crate::specs::Helper::load_method))]
fn load_method(alloc: Global, pool: &mut Pool, word: WordType) -> Result<Member, Halt>
    ensures { Grows (λ m. m) result pool.new (loading word pool.old) }
{
    let name = load_named(alloc, word)?;
    prove!(pool.entries().len() < 65535);
    let before = add_look_call(pool)?;
    let after = add_read_call(pool, word)?;
    let code = load_instrs(alloc, word, before, after)?;
    let frame = Frame {
        stack: 3 + places_of(word),
        locals: 3,
    };
    straight_method(alloc, pool, frame, code, &name)
}

// In place of the store.
fn store_instrs(alloc: Global, word: WordType, write: u16) -> Result<Vec<Instr>, AllocError>
    ensures { IfOk result (λ v. v.items ≡ instrs_of_store word write) }
{
    Ok(vec![in alloc;
        load(Sort::Reference, 2 + places_of(word)),
        load(Sort::Reference, 0),
        load(sort_of(word), 2),
        load(Sort::Int, 1),
        call_virtual(write),
        plain(opcodes::RETURN),
    ]?)
}

#[tactic(auto, unfolding(crate::specs::Helper::store_method))]
fn store_method(alloc: Global, pool: &mut Pool, word: WordType) -> Result<Member, Halt>
    ensures { Grows (λ m. m) result pool.new (storing word pool.old) }
{
    let name = store_named(alloc, word)?;
    prove!(pool.entries().len() < 65535);
    let write = add_write_call(pool, word)?;
    let code = store_instrs(alloc, word, write)?;
    let frame = Frame {
        stack: 3 + places_of(word),
        locals: 3 + places_of(word),
    };
    straight_method(alloc, pool, frame, code, &name)
}

#[tactic(auto, unfolding(crate::specs::Helper::element_methods))]
fn element_methods(alloc: Global, pool: &mut Pool, word: WordType) -> Result<ElementMethods, Halt>
    ensures { Grows (λ m. m) result pool.new (both word pool.old) }
{
    let load = load_method(alloc, pool, word)?;
    let store = store_method(alloc, pool, word)?;
    Ok(ElementMethods { load, store })
}

const ELEMENTS: [WordType; 7] = [
    WordType::Byte,
    WordType::Boolean,
    WordType::Char,
    WordType::Short,
    WordType::Int,
    WordType::Long,
    WordType::Reference,
];

fn all_methods(
    alloc: Global,
    pool: &mut Pool,
    words: &[WordType],
) -> Result<Vec<ElementMethods>, Halt>
    ensures { Grows (λ v. v.items) result pool.new (grow_from (λ n t. both t) 0 words.now pool.old) }
{
    let mut methods = Vec::new(alloc);
    for word in words {
        methods.push(element_methods(alloc, pool, *word)?)?;
    }
    Ok(methods)
}

// The methods of all types, one after another.
fn in_order(alloc: Global, all: Vec<ElementMethods>) -> Result<Vec<Member>, AllocError>
    ensures { IfOk result (λ v. v.items ≡ flat_map both_of all.items) }
{
    let mut members = Vec::new(alloc);
    for both in all {
        members.push(both.load)?;
        members.push(both.store)?;
    }
    Ok(members)
}

#[tactic(auto, unfolding(crate::specs::Helper::every_method))]
fn every_method(alloc: Global, pool: &mut Pool) -> Result<Vec<ElementMethods>, Halt>
    ensures { Grows (λ v. v.items) result pool.new (methods_of_all pool.old) }
{
    all_methods(alloc, pool, &ELEMENTS)
}

#[tactic(auto, unfolding(crate::specs::Helper::helper_parts))]
fn helper_parts(alloc: Global, pool: &mut Pool) -> Result<HelperParts, Halt>
    ensures { Grows (λ p. (p.this_class, p.super_class, p.methods.items)) result pool.new (parts_of_helper pool.old) }
{
    let this_class = pool.add_class(helper_name())?;
    let super_class = pool.add_class(b"java/lang/Object")?;
    let all = every_method(alloc, pool)?;
    Ok(HelperParts {
        this_class,
        super_class,
        methods: in_order(alloc, all)?,
    })
}

/// The class file of the helper of arrays, `org/deuce/transaction/ArrayHelper`, of version 49. Refused where its definition is: as `PoolFull`
/// where its pool would be full, which has some hundred entries.
#[tactic(auto, unfolding(crate::specs::Helper::helper_file))]
pub fn helper_class(alloc: Global) -> Result<ClassFile, Halt>
    ensures { Gives (λ c. c) result helper_file }
{
    let mut pool = Pool::new(alloc);
    let parts = helper_parts(alloc, &mut pool)?;
    Ok(ClassFile {
        minor: 0,
        major: 49,
        pool,
        flags: 0x11,
        this_class: parts.this_class,
        super_class: parts.super_class,
        interfaces: Vec::new(alloc),
        fields: Vec::new(alloc),
        methods: parts.methods,
        attributes: Vec::new(alloc),
    })
}
