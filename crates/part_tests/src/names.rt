use jmodel::Bytes;
use std::test::*;

#[test]
fn bytes_grow(rt: HostRuntime) -> Result<(), Fail> {
    let mut bytes = Bytes::new(rt.alloc());
    assert!(rt; bytes.is_empty());
    bytes.push(b'a')?;
    bytes.extend_from_slice(b"bc")?;
    assert!(rt; bytes.len() == 3 && bytes.as_slice() == b"abc".as_slice());
    Ok(())
}

#[test]
fn bytes_are_copied(rt: HostRuntime) -> Result<(), Fail> {
    let bytes = Bytes::from_slice(rt.alloc(), b"abc")?;
    let copy = bytes.copy(rt.alloc())?;
    assert!(rt; copy.as_slice() == b"abc".as_slice());
    Ok(())
}
