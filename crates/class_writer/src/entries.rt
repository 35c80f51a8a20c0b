//! Entries of a constant pool, as they are spelled (JVM Specification, Java SE 7, section 4.4).
ghost use Rattle.std.specs.Prelude.{◌≡◌, ◌++◌, ◌<◌, ◌^◌, OnOk, length};
ghost use Rattle.jmodel.specs.format.ClassFile.{constant, u2, u4, u8 as u8_text};
ghost use Rattle.class_writer.specs.Short.{IsShort, tag_in, content_of};

use jmodel::{Bytes, Constant};
use std::alloc::AllocError;

/// Two bytes at the end, the higher first.
pub fn put_u2(out: &mut Bytes, n: u16) -> Result<(), AllocError>
    ensures { OnOk result (out.new ≡ out.old ++ u2 n) }
{
    out.extend_from_slice(&n.to_be_bytes())
}

/// Four bytes at the end, the highest first.
pub fn put_u4(out: &mut Bytes, n: u32) -> Result<(), AllocError>
    ensures { OnOk result (out.new ≡ out.old ++ u4 n) }
{
    out.extend_from_slice(&n.to_be_bytes())
}

fn put_u8(out: &mut Bytes, n: u64) -> Result<(), AllocError>
    ensures { OnOk result (out.new ≡ out.old ++ u8_text n) }
{
    out.extend_from_slice(&n.to_be_bytes())
}

fn put_text(out: &mut Bytes, text: &Bytes) -> Result<(), AllocError>
    requires { length text.now < 2 ^ 16 }
    ensures { OnOk result (out.new ≡ out.old ++ u2 (length text.now) ++ text.now) }
{
    put_u2(out, text.len() as u16)?;
    out.extend_from_slice(text.as_slice())
}

fn put_pair(out: &mut Bytes, a: u16, b: u16) -> Result<(), AllocError>
    ensures { OnOk result (out.new ≡ out.old ++ u2 a ++ u2 b) }
{
    put_u2(out, a)?;
    put_u2(out, b)
}

fn tag_of(entry: &Constant) -> u8
    ensures { result ≡ tag_in entry.now }
{
    match entry {
        Constant::Utf8(_) => 1,
        Constant::Integer(_) => 3,
        Constant::Float(_) => 4,
        Constant::Long(_) => 5,
        Constant::Double(_) => 6,
        Constant::Class(_) => 7,
        Constant::Text(_) => 8,
        Constant::Field { .. } => 9,
        Constant::Method { .. } => 10,
        Constant::InterfaceMethod { .. } => 11,
        Constant::NameAndType { .. } => 12,
        Constant::Second => 0,
    }
}

// What stands behind an entry's tag.
fn put_content(out: &mut Bytes, entry: &Constant) -> Result<(), AllocError>
    requires { IsShort entry.now }
    ensures { OnOk result (out.new ≡ out.old ++ content_of entry.now) }
{
    match entry {
        Constant::Utf8(text) => put_text(out, text),
        Constant::Integer(n) => put_u4(out, n.cast_unsigned()),
        Constant::Float(bits) => put_u4(out, *bits),
        Constant::Long(n) => put_u8(out, n.cast_unsigned()),
        Constant::Double(bits) => put_u8(out, *bits),
        Constant::Class(i) | Constant::Text(i) => put_u2(out, *i),
        Constant::Field { class, pair }
        | Constant::Method { class, pair }
        | Constant::InterfaceMethod { class, pair } => put_pair(out, *class, *pair),
        Constant::NameAndType { name, descriptor } => put_pair(out, *name, *descriptor),
        Constant::Second => Ok(()),
    }
}

/// An entry at the end. A second place isn't spelled.
pub fn put_constant(out: &mut Bytes, entry: &Constant) -> Result<(), AllocError>
    requires { IsShort entry.now }
    ensures { OnOk result (out.new ≡ out.old ++ constant entry.now) }
{
    if let Constant::Second = entry {
        return Ok(());
    }
    out.push(tag_of(entry))?;
    put_content(out, entry)
}
