//! Accessors: for each field a getter and a setter, which read and write it over the context.
ghost use Rattle.std.specs.Prelude.{◌≡◌, ◌<◌, codes, IfOk};
ghost use Rattle.std.specs.List.{flat_map};
ghost use Rattle.objects.specs.linking.Decoding.{read_descriptor as type_of_read, write_descriptor as type_of_write};
ghost use Rattle.member_code.specs.Growing.{Grows, Becomes};
ghost use Rattle.field_members.specs.Accessors.{read_call as with_read_call, write_call as with_write_call, receiver_places as places_of_receiver, base_if as static_base_if, place_of as place, object as object_instr, look_code as code_of_look, read_code as code_of_read, is_cast as is_cast_to, cast_if as casts, look_of as look, read_of as read, getter_instrs as instrs_of_getter, getter_of as getter, setter_code as code_of_setter, setter_instrs as instrs_of_setter, setter_of as setter, accessors_of as both, room_in as room_of, all_accessors as every, both_of, with_accessors};

use crate::names::{address_name, getter_named, setter_named};
use bytecode::{Instr, opcodes};
use const_pool::{ClassFile, Member, Pool};
use hierarchy::{Declared, Field};
use jmodel::Halt;
use member_code::instrs::{call_virtual, check_cast, get_field, get_static, give, load, plain};
use member_code::members::{Frame, straight_method};
use member_code::places::want_room;
use member_code::words::{add_context_method, places_of, sort_of};
use objects::op::{Sort, WordType};
use std::alloc::{AllocError, Global};

/// The accessors of a field.
#[derive(Drop)]
pub struct Accessors {
    pub getter: Member,
    pub setter: Member,
}

/// What an accessor names to find its field: the static base, where the field is one of it, and the field that holds the place.
#[derive(Clone, Copy)]
pub struct Place {
    pub base: Option<u16>,
    pub address: u16,
}

fn receiver_places(field: &Field) -> u16
    ensures { result ≡ places_of_receiver field.now }
{
    if field.base.is_none() { 1 } else { 0 }
}

fn read_descriptor(word: WordType) -> &'static [u8]
    ensures { result.now ≡ type_of_read (codes "J") word }
{
    match word {
        WordType::Boolean => b"(Ljava/lang/Object;ZJ)Z",
        WordType::Byte => b"(Ljava/lang/Object;BJ)B",
        WordType::Char => b"(Ljava/lang/Object;CJ)C",
        WordType::Short => b"(Ljava/lang/Object;SJ)S",
        WordType::Int => b"(Ljava/lang/Object;IJ)I",
        WordType::Long => b"(Ljava/lang/Object;JJ)J",
        WordType::Reference => b"(Ljava/lang/Object;Ljava/lang/Object;J)Ljava/lang/Object;",
    }
}

fn write_descriptor(word: WordType) -> &'static [u8]
    ensures { result.now ≡ type_of_write (codes "J") word }
{
    match word {
        WordType::Boolean => b"(Ljava/lang/Object;ZJ)V",
        WordType::Byte => b"(Ljava/lang/Object;BJ)V",
        WordType::Char => b"(Ljava/lang/Object;CJ)V",
        WordType::Short => b"(Ljava/lang/Object;SJ)V",
        WordType::Int => b"(Ljava/lang/Object;IJ)V",
        WordType::Long => b"(Ljava/lang/Object;JJ)V",
        WordType::Reference => b"(Ljava/lang/Object;Ljava/lang/Object;J)V",
    }
}

// The index of the context's method that takes what was read.
fn add_read_call(pool: &mut Pool, word: WordType) -> Result<u16, Halt>
    ensures { Grows (λ n. n) result pool.new (with_read_call word pool.old) }
{
    add_context_method(pool, b"onReadAccess", read_descriptor(word))
}

// The index of the context's method that writes.
fn add_write_call(pool: &mut Pool, word: WordType) -> Result<u16, Halt>
    ensures { Grows (λ n. n) result pool.new (with_write_call word pool.old) }
{
    add_context_method(pool, b"onWriteAccess", write_descriptor(word))
}

// The index of the static base, where the field is one of it.
fn base_if(pool: &mut Pool, field: &Field) -> Result<Option<u16>, Halt>
    ensures { Grows (λ i. i) result pool.new (static_base_if field.now.base field.now.class pool.old) }
{
    match field.base {
        None => Ok(None),
        Some(_) => {
            let class = field.class.as_slice();
            Ok(Some(pool.add_field(class, b"__CLASS_BASE__", b"Ljava/lang/Object;")?))
        }
    }
}

#[tactic(auto, unfolding(crate::specs::Accessors::place_of))]
fn place_of(alloc: Global, pool: &mut Pool, field: &Field) -> Result<Place, Halt>
    ensures { Grows (λ p. p) result pool.new (place field.now pool.old) }
{
    let name = address_name(alloc, field)?;
    let base = base_if(pool, field)?;
    let address = pool.add_field(field.class.as_slice(), name.as_slice(), b"J")?;
    Ok(Place { base, address })
}

// The object, on the stack.
fn object(base: Option<u16>) -> Instr
    ensures { result ≡ object_instr base }
{
    match base {
        None => load(Sort::Reference, 0),
        Some(base) => get_static(base),
    }
}

fn look_code(alloc: Global, p: Place, before: u16) -> Result<Vec<Instr>, AllocError>
    ensures { IfOk result (λ v. v.items ≡ code_of_look p before) }
{
    let context = if p.base.is_none() { 1 } else { 0 };
    Ok(vec![in alloc;
        load(Sort::Reference, context),
        object(p.base),
        get_static(p.address),
        call_virtual(before),
    ]?)
}

fn read_code(alloc: Global, p: Place, field: u16, after: u16) -> Result<Vec<Instr>, AllocError>
    ensures { IfOk result (λ v. v.items ≡ code_of_read p field after) }
{
    match p.base {
        None => Ok(vec![in alloc;
            load(Sort::Reference, 1),
            load(Sort::Reference, 0),
            load(Sort::Reference, 0),
            get_field(field),
            get_static(p.address),
            call_virtual(after),
        ]?),
        Some(base) => Ok(vec![in alloc;
            load(Sort::Reference, 0),
            get_static(base),
            get_static(field),
            get_static(p.address),
            call_virtual(after),
        ]?),
    }
}

// Before the read.
#[tactic(auto, unfolding(crate::specs::Accessors::look_of))]
fn look_of(alloc: Global, pool: &mut Pool, p: Place) -> Result<Vec<Instr>, Halt>
    ensures { Grows (λ v. v.items) result pool.new (look p pool.old) }
{
    let before = add_context_method(pool, b"beforeReadAccess", b"(Ljava/lang/Object;J)V")?;
    Ok(look_code(alloc, p, before)?)
}

// The plain load, and after the read.
#[tactic(auto, unfolding(crate::specs::Accessors::read_of))]
fn read_of(alloc: Global, pool: &mut Pool, p: Place, field: &Field) -> Result<Vec<Instr>, Halt>
    ensures { Grows (λ v. v.items) result pool.new (read p field.now pool.old) }
{
    let loaded = pool.add_field(
        field.class.as_slice(),
        field.name.as_slice(),
        field.descriptor.as_slice(),
    )?;
    let after = add_read_call(pool, field.declared.word)?;
    Ok(read_code(alloc, p, loaded, after)?)
}

fn is_cast(declared: &Declared) -> bool
    ensures { result ≡ is_cast_to declared.now.word declared.now.class }
{
    match declared.word {
        WordType::Reference => declared.class.as_slice() != b"java/lang/Object".as_slice(),
        _ => false,
    }
}

// The cast of what a read gives.
fn cast_if(alloc: Global, pool: &mut Pool, casted: bool, class: &[u8]) -> Result<Vec<Instr>, Halt>
    ensures { Grows (λ v. v.items) result pool.new (casts casted class.now pool.old) }
{
    let mut instrs = Vec::new(alloc);
    if casted {
        instrs.push(check_cast(pool.add_class(class)?))?;
    }
    Ok(instrs)
}

#[tactic(auto, unfolding(crate::specs::Accessors::getter_instrs))]
fn getter_instrs(alloc: Global, pool: &mut Pool, field: &Field) -> Result<Vec<Instr>, Halt>
    ensures { Grows (λ v. v.items) result pool.new (instrs_of_getter field.now pool.old) }
{
    let declared = &field.declared;
    let p = place_of(alloc, pool, field)?;
    let mut instrs = look_of(alloc, pool, p)?;
    let mut read = read_of(alloc, pool, p, field)?;
    let class = declared.class.as_slice();
    let mut cast = cast_if(alloc, pool, is_cast(declared), class)?;
    instrs.append(&mut read)?;
    instrs.append(&mut cast)?;
    instrs.push(give(sort_of(declared.word)))?;
    Ok(instrs)
}

#[tactic(auto, unfolding(crate::specs::Accessors::getter_of))]
fn getter_of(alloc: Global, pool: &mut Pool, room: usize, field: &Field) -> Result<Member, Halt>
    ensures { Grows (λ m. m) result pool.new (getter room field.now pool.old) }
{
    let name = getter_named(alloc, field)?;
    want_room(alloc, room, &name)?;
    prove!(pool.entries().len() < 65535);
    let code = getter_instrs(alloc, pool, field)?;
    let frame = Frame {
        stack: 4 + places_of(field.declared.word),
        locals: receiver_places(field) + 1,
    };
    straight_method(alloc, pool, frame, code, &name)
}

fn setter_code(
    alloc: Global,
    p: Place,
    word: WordType,
    receiver: u16,
    write: u16,
) -> Result<Vec<Instr>, AllocError>
    requires { receiver < 2 }
    ensures { IfOk result (λ v. v.items ≡ code_of_setter p word receiver write) }
{
    Ok(vec![in alloc;
        load(Sort::Reference, receiver + places_of(word)),
        object(p.base),
        load(sort_of(word), receiver),
        get_static(p.address),
        call_virtual(write),
        plain(opcodes::RETURN),
    ]?)
}

// In place of the store.
#[tactic(auto, unfolding(crate::specs::Accessors::setter_instrs))]
fn setter_instrs(alloc: Global, pool: &mut Pool, field: &Field) -> Result<Vec<Instr>, Halt>
    ensures { Grows (λ v. v.items) result pool.new (instrs_of_setter field.now pool.old) }
{
    let word = field.declared.word;
    let p = place_of(alloc, pool, field)?;
    let write = add_write_call(pool, word)?;
    Ok(setter_code(alloc, p, word, receiver_places(field), write)?)
}

#[tactic(auto, unfolding(crate::specs::Accessors::setter_of))]
fn setter_of(alloc: Global, pool: &mut Pool, room: usize, field: &Field) -> Result<Member, Halt>
    ensures { Grows (λ m. m) result pool.new (setter room field.now pool.old) }
{
    let name = setter_named(alloc, field)?;
    want_room(alloc, room, &name)?;
    prove!(pool.entries().len() < 65535);
    let code = setter_instrs(alloc, pool, field)?;
    let places = places_of(field.declared.word);
    let frame = Frame {
        stack: 4 + places,
        locals: receiver_places(field) + places + 1,
    };
    straight_method(alloc, pool, frame, code, &name)
}

// The getter and the setter of a field, in a class that has room for so many more methods.
#[tactic(auto, unfolding(crate::specs::Accessors::accessors_of))]
fn accessors_of(
    alloc: Global,
    pool: &mut Pool,
    room: usize,
    field: &Field,
) -> Result<Accessors, Halt>
    ensures { Grows (λ a. a) result pool.new (both room field.now pool.old) }
{
    let getter = getter_of(alloc, pool, room, field)?;
    let setter = setter_of(alloc, pool, room.saturating_sub(1), field)?;
    Ok(Accessors { getter, setter })
}

// How many more methods a class has room for.
fn room_in(class: &ClassFile) -> usize
    ensures { result ≡ room_of class.now }
{
    65535usize.saturating_sub(class.methods.len())
}

fn all_accessors(
    alloc: Global,
    pool: &mut Pool,
    room: usize,
    fields: &[Field],
) -> Result<Vec<Accessors>, Halt>
    ensures { Grows (λ v. v.items) result pool.new (every room fields.now pool.old) }
{
    let mut members = Vec::new(alloc);
    for (n, field) in fields.iter().enumerate() {
        let left = room.saturating_sub(n).saturating_sub(n);
        members.push(accessors_of(alloc, pool, left, field)?)?;
    }
    Ok(members)
}

// The members of all, one after another.
fn in_order(alloc: Global, all: Vec<Accessors>) -> Result<Vec<Member>, AllocError>
    ensures { IfOk result (λ v. v.items ≡ flat_map both_of all.items) }
{
    let mut members = Vec::new(alloc);
    for both in all {
        members.push(both.getter)?;
        members.push(both.setter)?;
    }
    Ok(members)
}

/// Adds to a class a getter and a setter for each of its fields, which are these as the program has them, in the order of its file. Refused
/// as
///
/// - `TooManyPlaces` with the added method's printed name and `Methods`, where the class would have more than 65535 methods (JVM Specification,
///   Java SE 7, section 4.1);
/// - else `PoolFull`, without the class's name, where the count of the class's pool would pass 65535 or a text would have more than 65535
///   bytes (section 4.4.7).
pub fn add_accessors(alloc: Global, fields: &[Field], class: &mut ClassFile) -> Result<(), Halt>
    ensures { Becomes result class.new (with_accessors fields.now class.old) }
{
    let room = room_in(class);
    let all = all_accessors(alloc, &mut class.pool, room, fields)?;
    let mut added = in_order(alloc, all)?;
    class.methods.append(&mut added)?;
    Ok(())
}
