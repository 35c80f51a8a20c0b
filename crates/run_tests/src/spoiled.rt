//! The example's class file cut at each byte, and with each bit turned.
use crate::fixture::{COUNTER, ONE_CALL, RUN, call, folder_of};
use deuce_io::{IoEnd, MemSink};
use std::alloc::Global;
use std::test::Fail;
use std::thread::Threads;

/// Whether a run of one call on a front of the class file tells that it is cut.
fn is_cut<R: Threads + Sync>(rt: &R, alloc: Global, class: &[u8]) -> Result<bool, IoEnd> {
    let mut folder = folder_of(alloc, class, ONE_CALL)?;
    let (status, written) = call(rt, alloc, RUN, &mut folder, MemSink::new(alloc, 64))?;
    let line = b"error 3 d/Counter.class 1 Truncated ";
    Ok(status == 3 && written.as_slice().starts_with(line))
}

#[test]
fn a_front_of_a_class_is_truncated(rt: HostRuntime) -> Result<(), Fail> {
    for len in 0..COUNTER.len() {
        assert!(rt; is_cut(&rt, rt.alloc(), &COUNTER[..len])?);
    }
    Ok(())
}

/// A status, and how the text begins that may come with it: the call's answer, a fault of the file,
/// of its name or superclass, its annotations or its code, or a construct that is left out.
const FRONTS: [(u8, &[u8]); 10] = [
    (0, b"history 1\n"),
    (3, b"error 3 d/Counter.class "),
    (4, b"error 4 13 BadInstr Counter.inc()I "),
    (4, b"error 4 14 BadTarget Counter.inc()I "),
    (4, b"error 4 18 UnknownClass "),
    (4, b"error 4 20 Construct "),
    (4, b"error 4 21 ReservedName Counter"),
    (4, b"error 4 22 BadAnnotation Counter.inc()I "),
    (4, b"error 4 31 BadSuper Counter "),
    (5, b"error 5 32 Untypable Counter.inc()I "),
];

/// A status, and the text that may come with it: a fault of the class's name or superclass, or a
/// call of no marked method.
const TEXTS: [(u8, &[u8]); 4] = [
    (4, b"error 4 17 DoubledClass java/lang/Object\n"),
    (4, b"error 4 19 Circular Counter\n"),
    (6, b"error 6 27 UnknownMethod /phases/0/lanes/0/0/call\n"),
    (6, b"error 6 28 NotAtomic /phases/0/lanes/0/0/call\n"),
];

/// Whether a status comes with the text that was written.
fn is_end(status: u8, written: &[u8]) -> bool {
    FRONTS.iter().any(|(with, front)| *with == status && written.starts_with(front))
        || TEXTS
            .iter()
            .any(|(with, text)| *with == status && written == *text)
}

/// Whether a run of one call on a class ends with a status and a text that may come with it.
fn ends<R: Threads + Sync>(rt: &R, alloc: Global, class: &[u8]) -> Result<bool, IoEnd> {
    let mut folder = folder_of(alloc, class, ONE_CALL)?;
    let (status, text) = call(rt, alloc, RUN, &mut folder, MemSink::new(alloc, 64))?;
    Ok(is_end(status, text.as_slice()))
}

#[test]
fn each_flip_of_a_bit_ends(rt: HostRuntime) -> Result<(), Fail> {
    let alloc = rt.alloc();
    let mut class = COUNTER;
    for at in 0..COUNTER.len() {
        for bit in 0..8u32 {
            class[at] ^= 1u8 << bit;
            assert!(rt; ends(&rt, alloc, class.as_slice())?);
            class[at] = COUNTER[at];
        }
    }
    Ok(())
}
