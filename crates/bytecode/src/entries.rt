//! What instructions ask of the pool.
ghost use Rattle.std.specs.Prelude.{◌≡◌};
ghost use Rattle.jmodel.specs.format.Instruction.{is_of_kind as of_kind, is_entry as entry_is};

use const_pool::Pool;
use jmodel::{Constant, EntryKind};

fn is_of_kind(kind: EntryKind, entry: &Constant) -> bool
    ensures { result ≡ of_kind kind entry.now }
{
    match kind {
        EntryKind::Single => matches!(
            entry,
            Constant::Integer(_) | Constant::Float(_) | Constant::Text(_) | Constant::Class(_)
        ),
        EntryKind::Double => matches!(entry, Constant::Long(_) | Constant::Double(_)),
        EntryKind::Field => matches!(entry, Constant::Field { .. }),
        EntryKind::Method => matches!(entry, Constant::Method { .. }),
        EntryKind::InterfaceMethod => matches!(entry, Constant::InterfaceMethod { .. }),
        EntryKind::Class => matches!(entry, Constant::Class(_)),
    }
}

/// Whether the index is that of an entry of this kind. Takes no memory.
pub fn is_entry(pool: &Pool, kind: EntryKind, i: u16) -> bool
    ensures { result ≡ entry_is pool.now kind i }
{
    match pool.entry(i) {
        Some(entry) => is_of_kind(kind, entry),
        None => false,
    }
}
