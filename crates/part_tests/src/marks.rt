use annotations::atomic_of;
use const_pool::{Attribute, Member, Pool};
use jmodel::{Bytes, Halt};
use std::alloc::Global;
use std::test::*;

// The first text is the name of the attribute, and the sixth that of the method. The ints have the indexes 7 to 9.
const POOL: [u8; 124] = *b"\x00\x0a\
    \x01\x00\x19RuntimeVisibleAnnotations\
    \x01\x00\x1bRuntimeInvisibleAnnotations\
    \x01\x00\x12Lorg/deuce/Atomic;\
    \x01\x00\x07retries\
    \x01\x00\x07LOther;\
    \x01\x00\x05other\
    \x03\x00\x00\x00\x05\
    \x03\x00\x00\x00\x00\
    \x03\xff\xff\xff\xff";

// Annotations, and what is printed of the mark among them.
const MARKS: [(&[u8], &str); 16] = [
    (&[0, 0], "Ok(None)"),
    (
        &[0, 1, 0, 3, 0, 0],
        "Ok(Some(Atomic { retries: 2147483647 }))",
    ),
    (
        &[0, 1, 0, 3, 0, 1, 0, 4, b'I', 0, 7],
        "Ok(Some(Atomic { retries: 5 }))",
    ),
    (&[0, 1, 0, 3, 0, 1, 0, 4, b'I', 0, 8], "Err(Retries(0))"),
    (&[0, 1, 0, 3, 0, 1, 0, 4, b'I', 0, 9], "Err(Retries(-1))"),
    (&[0, 1, 0, 3, 0, 1, 0, 4, b's', 0, 6], "Err(Bad(8))"),
    (&[0, 1, 0, 3, 0, 1, 0, 4, b'I', 0, 6], "Err(Bad(9))"),
    // The first pair counts, and the first mark.
    (
        &[0, 1, 0, 3, 0, 2, 0, 4, b'I', 0, 7, 0, 4, b's', 0, 6],
        "Ok(Some(Atomic { retries: 5 }))",
    ),
    (
        &[
            0, 2, 0, 3, 0, 1, 0, 4, b'I', 0, 7, 0, 3, 0, 1, 0, 4, b'I', 0, 8,
        ],
        "Ok(Some(Atomic { retries: 5 }))",
    ),
    // A fault behind the mark, a byte left over, a tag that is none, and indexes that are no texts.
    (&[0, 2, 0, 3, 0, 0, 0, 7, 0, 0], "Err(Bad(6))"),
    (&[0, 0, 9], "Err(Bad(2))"),
    (&[0, 1, 0, 5, 0, 1, 0, 6, b'x', 0, 0], "Err(Bad(8))"),
    (&[0, 1, 0, 7, 0, 0], "Err(Bad(2))"),
    (&[0, 1, 0, 5, 0, 1, 0, 7, b'I', 0, 7], "Err(Bad(6))"),
    // Marks inside an array and inside a value make no mark.
    (
        &[0, 1, 0, 5, 0, 1, 0, 6, b'[', 0, 1, b'@', 0, 3, 0, 0],
        "Ok(None)",
    ),
    (
        &[
            0, 1, 0, 5, 0, 2, 0, 6, b'e', 0, 9, 0, 9, 0, 6, b'@', 0, 3, 0, 0,
        ],
        "Ok(None)",
    ),
];

// What is printed of the mark of a method with one attribute.
fn mark(alloc: Global, bytes: &[u8]) -> Result<String, Halt> {
    let (pool, _) = Pool::read(alloc, &POOL, 0)?;
    let bytes = Bytes::from_slice(alloc, bytes)?;
    let mut attributes = Vec::new(alloc);
    attributes.push(Attribute { name: 1, bytes })?;
    let method = Member {
        flags: 9,
        name: 6,
        descriptor: 6,
        attributes,
    };
    Ok(format!(in alloc; "{:?}", atomic_of(&pool, &method))?)
}

#[test]
fn marks(rt: HostRuntime) -> Result<(), Fail> {
    for (bytes, wanted) in MARKS {
        assert_eq!(rt; mark(rt.alloc(), bytes)?.as_str(), wanted);
    }
    Ok(())
}
