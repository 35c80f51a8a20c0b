//! The helper of arrays: for each type of elements a method that reads an element, and one that writes one, over the context.
ghost use Rattle.std.specs.Prelude.{◌≡◌, ◌∷◌, [], ◌++◌, IfOk, OnOk};
ghost use Rattle.std.specs.List.{flat_map};
ghost use Rattle.objects.specs.rewriting.Rewriting.{any_of as any_word, plain_load as load_of_elements, element_getter_method as getter_of, element_setter_method as setter_of, helper_methods as methods_of_helper, array_type};

use crate::names::{array_of, load_named, store_named};
use crate::shapes::{added, as_result, context_type, places_of, push_places};
use hierarchy::{Declared, Method};
use jmodel::{Bytes, NoMemory, VType};
use member_code::words::sort_of;
use objects::op::{ContextCall, Op, Sort, WordType};
use std::alloc::{AllocError, Global};

// What any element of a type is.
fn any_of(alloc: Global, word: WordType) -> Result<Declared, AllocError>
    ensures { IfOk result (λ d. d ≡ any_word word) }
{
    Ok(Declared {
        word,
        class: Bytes::from_slice(alloc, b"java/lang/Object")?,
    })
}

// An element of booleans is loaded as one of bytes.
fn plain_load(word: WordType) -> Op
    ensures { result ≡ load_of_elements word }
{
    match word {
        WordType::Boolean => Op::LoadElement(WordType::Byte),
        _ => Op::LoadElement(word),
    }
}

// The array and the index.
fn array_and_index(alloc: Global, word: WordType) -> Result<Vec<VType>, AllocError>
    ensures { IfOk result (λ v. v.items ≡ VType.Ref (array_type word) ∷ VType.Int ∷ []) }
{
    Ok(vec![in alloc; VType::Ref(array_of(alloc, word)?), VType::Int]?)
}

// Before the read, the plain load, after the read.
fn getter_ops(alloc: Global, word: WordType) -> Result<Vec<Op>, AllocError>
    ensures { IfOk result (λ v. v.items ≡ (getter_of word).ops) }
{
    Ok(vec![in alloc;
        Op::Load(Sort::Reference, 2),
        Op::Load(Sort::Reference, 0),
        Op::Load(Sort::Int, 1),
        Op::Context(ContextCall::BeforeReadElement),
        Op::Load(Sort::Reference, 2),
        Op::Load(Sort::Reference, 0),
        Op::Load(Sort::Reference, 0),
        Op::Load(Sort::Int, 1),
        plain_load(word),
        Op::Load(Sort::Int, 1),
        Op::Context(ContextCall::OnReadElement(word)),
        Op::ReturnValue(sort_of(word)),
    ]?)
}

fn element_getter(alloc: Global, word: WordType) -> Result<Method, AllocError>
    ensures { IfOk result (λ m. m ≡ getter_of word) }
{
    let name = load_named(alloc, word)?;
    let mut takes = array_and_index(alloc, word)?;
    takes.push(context_type(alloc)?)?;
    let gives = as_result(alloc, &any_of(alloc, word)?)?;
    let ops = getter_ops(alloc, word)?;
    Ok(added(alloc, name, takes, 3 + places_of(word), Some(gives), ops))
}

// In place of the store.
fn element_setter(alloc: Global, word: WordType) -> Result<Method, AllocError>
    ensures { IfOk result (λ m. m ≡ setter_of word) }
{
    let name = store_named(alloc, word)?;
    let mut takes = array_and_index(alloc, word)?;
    push_places(alloc, &mut takes, &any_of(alloc, word)?)?;
    takes.push(context_type(alloc)?)?;
    let ops = vec![in alloc;
        Op::Load(Sort::Reference, 2 + places_of(word)),
        Op::Load(Sort::Reference, 0),
        Op::Load(sort_of(word), 2),
        Op::Load(Sort::Int, 1),
        Op::Context(ContextCall::OnWriteElement(word)),
        Op::Return,
    ]?;
    Ok(added(alloc, name, takes, 3 + places_of(word), None, ops))
}

const WORDS: [WordType; 7] = [
    WordType::Byte,
    WordType::Boolean,
    WordType::Char,
    WordType::Short,
    WordType::Int,
    WordType::Long,
    WordType::Reference,
];

// Puts the methods for a type behind others.
fn push_both(alloc: Global, methods: &mut Vec<Method>, word: WordType) -> Result<(), AllocError>
    ensures { OnOk result (methods.new.items ≡ methods.old.items ++ getter_of word ∷ setter_of word ∷ []) }
{
    methods.push(element_getter(alloc, word)?)?;
    methods.push(element_setter(alloc, word)?)?;
    Ok(())
}

// The methods for these types, one after another.
fn methods_for(alloc: Global, words: &[WordType]) -> Result<Vec<Method>, AllocError>
    ensures { IfOk result (λ v. v.items ≡ flat_map (λ t. getter_of t ∷ setter_of t ∷ []) words.now) }
{
    let mut methods = Vec::new(alloc);
    for word in words {
        push_both(alloc, &mut methods, *word)?;
    }
    Ok(methods)
}

/// The methods of the helper of arrays.
pub fn helper_methods(alloc: Global) -> Result<Vec<Method>, NoMemory>
    ensures { IfOk result (λ v. v.items ≡ methods_of_helper) }
{
    Ok(methods_for(alloc, &WORDS)?)
}
