//! Parts of the methods that are added: types of parameters and results, casts, and the method around its instructions.
ghost use Rattle.std.specs.Prelude.{◌≡◌, ◌≤◌, ◌∷◌, [], ◌++◌, IfOk, OnOk};
ghost use Rattle.objects.specs.semantics.Step.{sort_of as sort_of_word};
ghost use Rattle.objects.specs.typing.TypeOrder.{place_types as types_of_places};
ghost use Rattle.objects.specs.rewriting.Rewriting.{added as added_method, as_result as type_of_result, context as context_place, cast_to as casts_to, cast_of as casts_by, word_places as places_of_word};

use hierarchy::{Body, Declared, Method, Shape};
use jmodel::{Bytes, MethodName, VType};
use member_code::words::sort_of;
use objects::op::{Dispatch, Op, WordType};
use std::alloc::{AllocError, Global};

/// How many places a value takes: two for a long, else one (JVM Specification, Java SE 7, section 2.6.1).
pub(crate) fn places_of(word: WordType) -> usize
    ensures says { result ≡ places_of_word word }
    ensures few { result ≤ 2 }
{
    if matches!(word, WordType::Long) { 2 } else { 1 }
}

/// The type of a class.
pub(crate) fn class_type(alloc: Global, name: &[u8]) -> Result<VType, AllocError>
    ensures { IfOk result (λ t. t ≡ VType.Ref name.now) }
{
    Ok(VType::Ref(Bytes::from_slice(alloc, name)?))
}

/// The type of the context.
pub(crate) fn context_type(alloc: Global) -> Result<VType, AllocError>
    ensures { IfOk result (λ t. t ≡ context_place) }
{
    class_type(alloc, b"org/deuce/transaction/Context")
}

/// The type of a word that a method gives.
pub(crate) fn as_result(alloc: Global, declared: &Declared) -> Result<VType, AllocError>
    ensures { IfOk result (λ t. t ≡ type_of_result declared.now) }
{
    match declared.word {
        WordType::Reference => class_type(alloc, declared.class.as_slice()),
        WordType::Long => Ok(VType::Long),
        _ => Ok(VType::Int),
    }
}

/// Puts the types of a word's places behind types.
pub(crate) fn push_places(
    alloc: Global,
    types: &mut Vec<VType>,
    declared: &Declared,
) -> Result<(), AllocError>
    ensures { OnOk result (types.new.items ≡ types.old.items ++ types_of_places declared.now) }
{
    match declared.word {
        WordType::Reference => types.push(class_type(alloc, declared.class.as_slice())?)?,
        WordType::Long => {
            types.push(VType::Long)?;
            types.push(VType::Second)?;
        }
        _ => types.push(VType::Int)?,
    }
    Ok(())
}

/// Puts a cast to a class behind instructions, where that isn't Object.
pub(crate) fn push_cast(alloc: Global, ops: &mut Vec<Op>, class: &[u8]) -> Result<(), AllocError>
    ensures { OnOk result (ops.new.items ≡ ops.old.items ++ casts_to class.now []) }
{
    if class != b"java/lang/Object".as_slice() {
        ops.push(Op::CheckCast(Bytes::from_slice(alloc, class)?))?;
    }
    Ok(())
}

/// Puts the return of a word behind instructions, after a cast to its class, where it is a reference.
pub(crate) fn push_given(
    alloc: Global,
    ops: &mut Vec<Op>,
    declared: &Declared,
) -> Result<(), AllocError>
    ensures { OnOk result (ops.new.items ≡ ops.old.items ++ casts_by declared.now (Op.ReturnValue (sort_of_word declared.now.word) ∷ [])) }
{
    if matches!(declared.word, WordType::Reference) {
        push_cast(alloc, ops, declared.class.as_slice())?;
    }
    ops.push(Op::ReturnValue(sort_of(declared.word)))?;
    Ok(())
}

/// An added static method. Its frame has its parameters alone.
pub(crate) fn added(
    alloc: Global,
    name: MethodName,
    parameters: Vec<VType>,
    max_stack: usize,
    gives: Option<VType>,
    ops: Vec<Op>,
) -> Method
    ensures { result ≡ added_method name.class name.name name.descriptor parameters.items max_stack gives ops.items }
{
    let body = Body {
        locals: parameters.len(),
        max_stack,
        ops,
        catches: Vec::new(alloc),
    };
    let shape = Shape {
        dispatch: Dispatch::Static,
        parameters,
        result: gives,
    };
    Method::new(name, shape, false, None, body)
}
