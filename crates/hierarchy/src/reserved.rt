//! Names that rewriting keeps for itself.
ghost use Rattle.std.specs.Prelude.{◌≡◌, IfOk};
ghost use Rattle.std.specs.List.{list_all};
ghost use Rattle.objects.specs.linking.Reserved.{has_part as part_of, is_reserved as reserved, is_unreserved as free_constant};
ghost use Rattle.objects.specs.linking.ClassesFaults.{reserved_fault as fault_of_names, reserved_class as first_reserved};

use crate::symbols::own_name;
use const_pool::{ClassFile, Constant};
use jmodel::{Bytes, Refusal};
use std::alloc::{AllocError, Global};

fn has_part(part: &[u8], text: &[u8]) -> bool
    ensures { result ≡ part_of part.now text.now }
{
    for i in 0..text.len() {
        if text[i..].starts_with(part) {
            return true;
        }
    }
    false
}

// Whether a text has a part that rewriting keeps for itself.
fn is_reserved(text: &[u8]) -> bool
    ensures { result ≡ reserved text.now }
{
    has_part(b"org/deuce/transaction/", text)
        || has_part(b"__ADDRESS__", text)
        || has_part(b"__Getter$", text)
        || has_part(b"__Setter$", text)
        || has_part(b"__CLASS_BASE__", text)
        || has_part(b"__CLINIT__", text)
}

// No text with such a part.
fn is_free_constant(entry: &Constant) -> bool
    ensures { result ≡ free_constant entry.now }
{
    match entry {
        Constant::Utf8(text) => !is_reserved(text.as_slice()),
        _ => true,
    }
}

fn each_is_free(entries: &[Constant]) -> bool
    ensures { result ≡ list_all free_constant entries.now }
{
    entries.iter().all(|c| is_free_constant(c))
}

fn reserved_fault(alloc: Global, class: &ClassFile) -> Result<Option<Refusal>, AllocError>
    ensures { IfOk result (λ o. o ≡ fault_of_names class.now) }
{
    if each_is_free(class.pool.entries()) {
        return Ok(None);
    }
    let name = Bytes::from_slice(alloc, own_name(class))?;
    Ok(Some(Refusal::ReservedName(name)))
}

/// The fault of the first class file in the pool of which a text has a part that rewriting keeps for itself: `ReservedName` with the name of the
/// class.
pub fn reserved_class(alloc: Global, files: &[ClassFile]) -> Result<Option<Refusal>, AllocError>
    ensures { IfOk result (λ o. o ≡ first_reserved files.now) }
{
    for file in files {
        if let Some(fault) = reserved_fault(alloc, file)? {
            return Ok(Some(fault));
        }
    }
    Ok(None)
}
