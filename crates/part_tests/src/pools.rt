use const_pool::{Code, Constant, Descriptor, Pool};
use jmodel::{Bytes, Halt};
use std::alloc::{AllocError, Global};
use std::process::Abort;
use std::test::*;

// A pool with entries of each kind. A Long and a Double take two indexes, so the last one is 20.
const POOL: [u8; 113] = *b"\x00\x15\
    \x07\x00\x02\
    \x01\x00\x07Counter\
    \x07\x00\x04\
    \x01\x00\x10java/lang/Object\
    \x01\x00\x01n\
    \x01\x00\x01I\
    \x01\x00\x03inc\
    \x01\x00\x03()I\
    \x09\x00\x01\x00\x0b\
    \x0a\x00\x01\x00\x0c\
    \x0c\x00\x05\x00\x06\
    \x0c\x00\x07\x00\x08\
    \x0b\x00\x01\x00\x0c\
    \x05\xff\xff\xff\xff\xff\xff\xff\xfe\
    \x06\x3f\xf0\x00\x00\x00\x00\x00\x00\
    \x03\xff\xff\xff\xff\
    \x04\x3f\x80\x00\x00\
    \x08\x00\x05";

// Indexes, and what is printed of the pool's entries there.
const ENTRIES: [(u16, &str); 14] = [
    (0, "None"),
    (1, "Some(Class(2))"),
    (5, "Some(Utf8(Bytes { items: [110] }))"),
    (9, "Some(Field { class: 1, pair: 11 })"),
    (10, "Some(Method { class: 1, pair: 12 })"),
    (12, "Some(NameAndType { name: 7, descriptor: 8 })"),
    (13, "Some(InterfaceMethod { class: 1, pair: 12 })"),
    (14, "Some(Long(-2))"),
    (15, "Some(Second)"),
    (16, "Some(Double(4607182418800017408))"),
    (18, "Some(Integer(-1))"),
    (19, "Some(Float(1065353216))"),
    (20, "Some(Text(5))"),
    (21, "None"),
];

// A Code of ten bytes with a handler and an attribute.
const CODE: [u8; 37] = *b"\x00\x02\x00\x01\x00\x00\x00\x0a\
    \xb2\x00\x09\x04\x60\x59\xb3\x00\x09\xac\
    \x00\x01\x00\x00\x00\x0a\x00\x09\x00\x03\
    \x00\x01\x00\x05\x00\x00\x00\x01\x00";

const DESCRIPTORS: [(&[u8], &str); 3] = [
    (b"()V", "Descriptor { parameters: [], result: None }"),
    (
        b"(ZBCSIJFD)I",
        "Descriptor { parameters: [Boolean, Byte, Char, Short, Int, Long, Float, Double], result: Some(Int) }",
    ),
    (
        b"(La/B;[[J)[I",
        "Descriptor { parameters: [Reference(Bytes { items: [97, 47, 66] }), Reference(Bytes { items: [91, 91, 74] })], result: Some(Reference(Bytes { items: [91, 73] })) }",
    ),
];

fn pool(alloc: Global) -> Result<Pool, Halt> {
    let (pool, _) = Pool::read(alloc, &POOL, 0)?;
    Ok(pool)
}

fn printed(alloc: Global, entry: Option<&Constant>) -> Result<String, AllocError> {
    format!(in alloc; "{entry:?}")
}

#[test]
fn reads_entries(rt: HostRuntime) -> Result<(), Fail> {
    let (pool, after) = Pool::read(rt.alloc(), &POOL, 0)?;
    assert!(rt; after == 113 && pool.entries().len() == 20);
    for (i, wanted) in ENTRIES {
        assert_eq!(rt; printed(rt.alloc(), pool.entry(i))?.as_str(), wanted);
    }
    Ok(())
}

// Whether this is the wanted text.
fn is_text(text: Option<&Bytes>, wanted: &[u8]) -> bool {
    text.is_some_and(|text| text.as_slice() == wanted)
}

// Whether entry 9 is the field n of Counter, an int.
fn has_field(pool: &Pool) -> bool {
    pool.member(9).is_some_and(|(class, name, descriptor)| {
        (class.as_slice(), name.as_slice(), descriptor.as_slice())
            == (b"Counter".as_slice(), b"n".as_slice(), b"I".as_slice())
    })
}

#[test]
fn looks_up(rt: HostRuntime) -> Result<(), Fail> {
    let pool = pool(rt.alloc())?;
    let are_texts = is_text(pool.utf8(7), b"inc") && is_text(pool.class_name(1), b"Counter");
    assert!(rt; are_texts && has_field(&pool));
    Ok(())
}

// A call that adds to a pool. A member has its class, its name and its descriptor.
#[derive(Clone, Copy)]
enum Add<'a> {
    Utf8(&'a [u8]),
    Class(&'a [u8]),
    Integer(i32),
    Long(i64),
    Field(&'a [u8], &'a [u8], &'a [u8]),
    Method(&'a [u8], &'a [u8], &'a [u8]),
    InterfaceMethod(&'a [u8], &'a [u8], &'a [u8]),
}

// The index that the pool answers.
fn added(pool: &mut Pool, call: Add) -> Result<u16, Halt> {
    match call {
        Add::Utf8(text) => pool.add_utf8(text),
        Add::Class(name) => pool.add_class(name),
        Add::Integer(n) => pool.add_integer(n),
        Add::Long(n) => pool.add_long(n),
        Add::Field(class, name, descriptor) => pool.add_field(class, name, descriptor),
        Add::Method(class, name, descriptor) => pool.add_method(class, name, descriptor),
        Add::InterfaceMethod(class, name, descriptor) => {
            pool.add_interface_method(class, name, descriptor)
        }
    }
}

// Makes these calls in turn, each of which has to answer the index beside it.
fn add_each(rt: &impl Abort, pool: &mut Pool, calls: &[(Add, u16)]) -> Result<(), Halt> {
    for (i, (call, index)) in calls.iter().enumerate() {
        assert_eq!(rt; added(pool, *call)?, *index, "at call {i}");
    }
    Ok(())
}

#[test]
fn finds(rt: HostRuntime) -> Result<(), Fail> {
    let mut pool = pool(rt.alloc())?;
    let calls = [
        (Add::Utf8(b"Counter"), 2),
        (Add::Class(b"Counter"), 1),
        (Add::Integer(-1), 18),
        (Add::Long(-2), 14),
        (Add::Field(b"Counter", b"n", b"I"), 9),
        (Add::Method(b"Counter", b"inc", b"()I"), 10),
        (Add::InterfaceMethod(b"Counter", b"inc", b"()I"), 13),
    ];
    add_each(&rt, &mut pool, &calls)?;
    Ok(())
}

// New entries stand behind the old ones, those that an entry names before it.
#[test]
fn adds(rt: HostRuntime) -> Result<(), Fail> {
    let mut pool = pool(rt.alloc())?;
    let calls = [
        (Add::Utf8(b"A"), 21),
        (Add::Class(b"A"), 22),
        (Add::Integer(7), 23),
        (Add::Long(7), 24),
        (Add::Field(b"A", b"n", b"J"), 28),
        (Add::Method(b"A", b"inc", b"()I"), 29),
        (Add::InterfaceMethod(b"B", b"inc", b"()I"), 32),
    ];
    add_each(&rt, &mut pool, &calls)?;
    Ok(())
}

// Entry 10 is no InterfaceMethodref, and entry 13 has no parameters. A text that was added is walked until it is kept.
#[test]
fn counts_arguments(rt: HostRuntime) -> Result<(), Fail> {
    let mut pool = pool(rt.alloc())?;
    let i = pool.add_interface_method(b"A", b"put", b"(JLa/B;[D)V")?;
    let walked = pool.argument_places(i);
    pool.keep_places()?;
    let counts = [10, 13, i].map(|i| pool.argument_places(i));
    assert!(rt; walked == Some(5) && counts == [None, Some(1), Some(5)]);
    Ok(())
}

#[test]
fn reads_descriptors(rt: HostRuntime) -> Result<(), Fail> {
    for (bytes, wanted) in DESCRIPTORS {
        let read = Descriptor::read(rt.alloc(), bytes)?;
        assert_eq!(rt; format!(in rt.alloc(); "{read:?}")?.as_str(), wanted);
    }
    Ok(())
}

#[test]
fn reads_code(rt: HostRuntime) -> Result<(), Fail> {
    let pool = pool(rt.alloc())?;
    let code = Code::read(rt.alloc(), &pool, &CODE);
    assert_eq!(rt;
        format!(in rt.alloc(); "{code:?}")?.as_str(),
        "Some(Ok(Code { max_stack: 2, max_locals: 1, code: Bytes { items: [178, 0, 9, 4, 96, 89, 179, 0, 9, 172] }, handlers: [Handler { start: 0, end: 10, handler: 9, catch_type: 3 }], attributes: [Attribute { name: 5, bytes: Bytes { items: [0] } }] }))"
    );
    Ok(())
}
