//! Texts, and the bytes of Code attributes.
ghost use Rattle.std.specs.Prelude.{◌≡◌, ◌≤◌, ◌++◌, [], IfOk, OnOk, length};
ghost use Rattle.std.specs.List.{flat_map};
ghost use Rattle.jmodel.specs.format.ClassFile.{u2, handler as entry_bytes, code_spelling};
ghost use Rattle.member_code.specs.Coding.{high as high_of, low as low_of};

use const_pool::Handler;
use jmodel::Bytes;
use std::alloc::{AllocError, Global};

/// The higher byte of an index.
pub fn high(i: u16) -> u8
    ensures { result ≡ high_of i }
{
    (i / 256) as u8
}

/// The lower byte of an index.
pub fn low(i: u16) -> u8
    ensures { result ≡ low_of i }
{
    (i % 256) as u8
}

/// Two texts, one behind the other.
pub fn joined(alloc: Global, first: &[u8], second: &[u8]) -> Result<Bytes, AllocError>
    ensures { IfOk result (λ t. t ≡ first.now ++ second.now) }
{
    let mut text = Bytes::from_slice(alloc, first)?;
    text.extend_from_slice(second)?;
    Ok(text)
}

fn push_u2(bytes: &mut Bytes, n: u16) -> Result<(), AllocError>
    ensures { OnOk result (bytes.new ≡ bytes.old ++ u2 n) }
{
    bytes.extend_from_slice(&n.to_be_bytes())
}

fn push_entry(bytes: &mut Bytes, entry: &Handler) -> Result<(), AllocError>
    ensures { OnOk result (bytes.new ≡ bytes.old ++ entry_bytes entry.now) }
{
    push_u2(bytes, entry.start)?;
    push_u2(bytes, entry.end)?;
    push_u2(bytes, entry.handler)?;
    push_u2(bytes, entry.catch_type)
}

fn push_entries(bytes: &mut Bytes, entries: &[Handler]) -> Result<(), AllocError>
    ensures { OnOk result (bytes.new ≡ bytes.old ++ flat_map entry_bytes entries.now) }
{
    for entry in entries {
        push_entry(bytes, entry)?;
    }
    Ok(())
}

/// The bytes of a Code without attributes.
pub fn spelled(
    alloc: Global,
    max_stack: u16,
    max_locals: u16,
    code: &[u8],
    entries: &[Handler],
) -> Result<Bytes, AllocError>
    requires code { length code.now ≤ 65535 }
    requires entries { length entries.now ≤ 65535 }
    ensures { IfOk result (λ b. b ≡ code_spelling (record { max_stack = max_stack; max_locals = max_locals; code = code.now; handlers = entries.now; attributes = [] })) }
{
    let mut bytes = Bytes::new(alloc);
    push_u2(&mut bytes, max_stack)?;
    push_u2(&mut bytes, max_locals)?;
    bytes.extend_from_slice(&(code.len() as u32).to_be_bytes())?;
    bytes.extend_from_slice(code)?;
    push_u2(&mut bytes, entries.len() as u16)?;
    push_entries(&mut bytes, entries)?;
    push_u2(&mut bytes, 0)?;
    Ok(bytes)
}
