//! Stores to a field of an object that another constructor has not run over (JVM Specification, Java SE 7, section
//! 4.10.1.4). An accessor takes an object that is built, so it can't make them.
ghost use Rattle.std.specs.Prelude.{◌≡◌, option_copied};
ghost use Rattle.objects.specs.rewriting.Rewriting.{word_places as places_of_word};
ghost use Rattle.program_typing.specs.Early.{is_this as is_this_type, is_early_over as is_early_over_field, is_early as is_early_op, early_store as early_store_of};

use hierarchy::{Field, Method, Program, TypeEntry, Typing};
use jmodel::VType;
use objects::op::{Op, WordType};

/// How many places a value takes on the stack (JVM Specification, Java SE 7, section 2.6.1).
fn places_of(word: WordType) -> usize
    ensures { result ≡ places_of_word word }
{
    if matches!(word, WordType::Long) { 2 } else { 1 }
}

/// Whether a place holds the object of a constructor that isn't built.
fn is_this(place: Option<&VType>) -> bool
    ensures { result ≡ is_this_type (option_copied place.entry) }
{
    matches!(place, Some(VType::UninitThis))
}

/// Whether a store to a field of an object is one to an object that isn't built. The object lies under the value.
fn is_early_over(field: Option<&Field>, types: Option<&TypeEntry>) -> bool
    ensures { result ≡ is_early_over_field (option_copied field.entry) (option_copied types.entry) }
{
    match (field, types) {
        (Some(field), Some(types)) => is_this(types.stack().get(places_of(field.declared.word))),
        _ => false,
    }
}

/// Whether an instruction makes such a store, before which a frame has these types.
fn is_early(program: &Program, types: Option<&TypeEntry>, op: &Op) -> bool
    ensures { result ≡ is_early_op program.now (option_copied types.entry) op.now }
{
    match op {
        Op::PutField { field, .. } => is_early_over(program.field(*field), types),
        _ => false,
    }
}

/// The place of the first instruction of a method, counted in instructions, that stores to a field of an object that
/// another constructor has not run over, by a table of its types.
pub fn early_store(program: &Program, method: &Method, typing: &Typing) -> Option<usize>
    ensures { result ≡ early_store_of program.now method.now typing.now }
{
    for (pc, op) in method.ops().iter().enumerate() {
        if is_early(program, typing.at(pc), op) {
            return Some(pc);
        }
    }
    None
}
