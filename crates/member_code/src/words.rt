//! Words of each type: how many places their values take, and which loads and stores they have.
ghost use Rattle.std.specs.Prelude.{◌≡◌};
ghost use Rattle.jmodel.specs.format.PoolAdding.{add_method as with_method};
ghost use Rattle.objects.specs.rewriting.Rewriting.{word_places as places_of_word};
ghost use Rattle.objects.specs.semantics.Step.{sort_of as sort_of_word};
ghost use Rattle.objects.specs.typing.TypeOrder.{context_class};
ghost use Rattle.member_code.specs.Growing.{Grows};

use const_pool::Pool;
use jmodel::Halt;
use objects::op::{Sort, WordType};

const CONTEXT: &[u8] = b"org/deuce/transaction/Context";

/// How many places a value takes: two for a long, else one (JVM Specification, Java SE 7, section 2.6.1).
pub fn places_of(word: WordType) -> u16
    ensures { result ≡ places_of_word word }
{
    if matches!(word, WordType::Long) { 2 } else { 1 }
}

/// As what a value is loaded, stored and returned (JVM Specification, Java SE 7, section 2.11.1).
pub fn sort_of(word: WordType) -> Sort
    ensures { result ≡ sort_of_word word }
{
    match word {
        WordType::Long => Sort::Long,
        WordType::Reference => Sort::Reference,
        _ => Sort::Int,
    }
}

/// The index of a method of the context. Refused as `PoolFull`, without the class's name, as adding to a pool is.
pub fn add_context_method(pool: &mut Pool, name: &[u8], descriptor: &[u8]) -> Result<u16, Halt>
    ensures { Grows (λ n. n) result pool.new (with_method pool.old context_class name.now descriptor.now) }
{
    pool.add_method(CONTEXT, name, descriptor)
}
