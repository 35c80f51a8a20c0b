//! The entries of a list by their indexes, which count from 1 (JVM Specification, Java SE 7, section 4.4).
ghost use Rattle.std.specs.Prelude.{◌≡◌, option_copied};
ghost use Rattle.jmodel.specs.format.Pool.{entry as entry_of, utf8 as text_of, class_name as class_of};

use jmodel::{Bytes, Constant};

/// The entry of an index.
pub fn entry(entries: &[Constant], i: u16) -> Option<&Constant>
    ensures { option_copied result ≡ entry_of entries.now i }
{
    if i == 0 {
        return None;
    }
    entries.get(i as usize - 1)
}

/// The bytes of a Utf8.
pub fn text(entries: &[Constant], i: u16) -> Option<&Bytes>
    ensures { option_copied result ≡ text_of entries.now i }
{
    match entry(entries, i) {
        Some(Constant::Utf8(bytes)) => Some(bytes),
        _ => None,
    }
}

/// The name of a Class.
pub fn class_name(entries: &[Constant], i: u16) -> Option<&Bytes>
    ensures { option_copied result ≡ class_of entries.now i }
{
    match entry(entries, i) {
        Some(Constant::Class(name)) => text(entries, *name),
        _ => None,
    }
}
