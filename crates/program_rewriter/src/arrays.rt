//! Types of arrays, as a table of types has them.
ghost use Rattle.std.specs.Prelude.{◌≡◌, option_copied, bytes_eq, codes, not};
ghost use Rattle.objects.specs.typing.TypeOrder.{element_class as class_of_element, without_last as all_but_last, named_by as named_by_descriptor, object_class};
ghost use Rattle.objects.specs.rewriting.Rewriting.{array_under as type_under, helped as helped_by};

use hierarchy::TypeEntry;
use jmodel::VType;
use objects::op::WordType;

// All bytes but the last.
#[tactic(auto, using(crate::proofs::Fronts::front_is))]
fn without_last(bytes: &[u8]) -> &[u8]
    ensures { result.now ≡ all_but_last bytes.now }
{
    if bytes.is_empty() {
        &[]
    } else {
        &bytes[..bytes.len() - 1]
    }
}

// The class's name, or the array's descriptor, that a descriptor says.
fn named_by(descriptor: &[u8]) -> &[u8]
    ensures { result.now ≡ named_by_descriptor descriptor.now }
{
    match descriptor {
        [b'L', rest @ ..] => without_last(rest),
        _ => descriptor,
    }
}

/// The class of the elements of an array of references.
pub(crate) fn element_class(array: &[u8]) -> &[u8]
    ensures { result.now ≡ class_of_element array.now }
{
    match array {
        [_, element @ ..] => named_by(element),
        [] => &[],
    }
}

/// Whether an element of an array of this type is cast: where its class isn't Object.
pub(crate) fn is_cast(array: &[u8]) -> bool
    ensures { result ≡ not (bytes_eq (class_of_element array.now) object_class) }
{
    element_class(array) != b"java/lang/Object".as_slice()
}

/// The type of the array that an element is taken of, under so many places.
pub(crate) fn array_under(types: Option<&TypeEntry>, places: usize) -> Option<&VType>
    ensures { option_copied result ≡ type_under places (option_copied types.entry) }
{
    types?.stack().get(places)
}

fn is_of_booleans(array: &[u8]) -> bool
    ensures { result ≡ bytes_eq array.now (codes "[Z") }
{
    array == b"[Z".as_slice()
}

/// Bytes and booleans have arrays of their own, which the types tell apart.
pub(crate) fn helped(array: Option<&VType>, word: WordType) -> WordType
    ensures { result ≡ helped_by (option_copied array.entry) word }
{
    match (array, word) {
        (Some(VType::Ref(name)), WordType::Byte) if is_of_booleans(name.as_slice()) => {
            WordType::Boolean
        }
        _ => word,
    }
}
