//! Method descriptors with the types that they name (JVM Specification, Java SE 7, section 4.3.3).
ghost use Rattle.std.specs.Prelude.{◌≡◌, List, ℕ, pos, IfOk, Ok, option_map};
ghost use Rattle.jmodel.specs.declared.class_file.FieldType.{FieldType as Form};
ghost use Rattle.jmodel.specs.declared.refusal.Refusal.TheVariants.{BadDescriptor};
ghost use Rattle.jmodel.specs.format.Descriptor.{Signature, DescribesMethod};
ghost use Rattle.jmodel.specs.format.Reading.{Gives};
ghost use Rattle.jmodel.specs.format.DescriptorReading.{type_of as type_in, types_at, signature_of, signature_or};
ghost use Rattle.const_pool.specs.Results.{void, result_in, made_of};

use crate::descriptor::{base, closing, is_array_name, is_method_descriptor, type_rest};
use jmodel::{Bytes, FieldType, Halt, Refusal};
use std::alloc::{AllocError, Global};
use std::marker::Model;

/// What a method takes, and what it gives where it gives something.
#[derive(Debug, Drop)]
pub struct Descriptor {
    pub parameters: Vec<FieldType>,
    pub result: Option<FieldType>,
}

impl Model for Descriptor {
    ghost use Rattle.jmodel.specs.format.Descriptor.{Signature as Form};

    ghost Value = { Form };

    ghost view = { λ d. record { parameters = d.parameters.items; result = d.result } };
}

// The type of a whole descriptor.
#[tactic(auto, unfolding(jmodel::specs::format::DescriptorReading::type_of))]
fn type_of(alloc: Global, text: &[u8]) -> Result<FieldType, AllocError>
    ensures { IfOk result (λ t. t ≡ type_in text.now) }
{
    match text {
        [] => Ok(FieldType::Reference(Bytes::new(alloc))),
        [letter, rest @ ..] => {
            if let Some(t) = base(*letter) {
                return Ok(t);
            }
            if is_array_name(text) {
                return Ok(FieldType::Reference(Bytes::from_slice(alloc, text)?));
            }
            let name = &rest[..rest.len().saturating_sub(1)];
            Ok(FieldType::Reference(Bytes::from_slice(alloc, name)?))
        }
    }
}

// The types up to a closing parenthesis, and what follows it.
fn types(alloc: Global, bytes: &[u8]) -> Result<Option<(Vec<FieldType>, &[u8])>, AllocError>
    ensures { IfOk result (λ o. option_map {U = List Form × List ℕ} (λ p. (p.0.items, p.1.now)) o ≡ types_at 256 bytes.now) }
{
    let mut types = Vec::new(alloc);
    let mut rest = bytes;
    for _ in 0..256usize {
        if let Some(after) = closing(rest) {
            return Ok(Some((types, after)));
        }
        let Some(after) = type_rest(rest) else {
            return Ok(None);
        };
        let item = type_of(alloc, &rest[..rest.len() - after.len()])?;
        types.push(item)?;
        rest = after;
    }
    Ok(None)
}

fn is_void(text: &[u8]) -> bool
    ensures { result ≡ void text.now }
{
    match text {
        [letter] => *letter == b'V',
        _ => false,
    }
}

// What a descriptor gives, of a text that is V or a type.
fn result_of(alloc: Global, text: &[u8]) -> Result<Option<FieldType>, AllocError>
    ensures { IfOk result (λ r. r ≡ result_in text.now) }
{
    if is_void(text) {
        return Ok(None);
    }
    Ok(Some(type_of(alloc, text)?))
}

// The signature of these types and what follows them.
fn from_types(
    alloc: Global,
    found: Option<(Vec<FieldType>, &[u8])>,
) -> Result<Option<Descriptor>, AllocError>
    ensures { IfOk result (λ o. o ≡ made_of (option_map {U = List Form × List ℕ} (λ p. (p.0.items, p.1.now)) found.entry)) }
{
    match found {
        None => Ok(None),
        Some((parameters, after)) => {
            let result_type = result_of(alloc, after)?;
            Ok(Some(Descriptor {
                parameters,
                result: result_type,
            }))
        }
    }
}

#[tactic(auto, using(crate::proofs::Reading::by_types, crate::proofs::Reading::no_signature))]
fn signature(alloc: Global, bytes: &[u8]) -> Result<Option<Descriptor>, AllocError>
    ensures { IfOk result (λ o. o ≡ signature_of bytes.now) }
{
    if bytes.is_empty() || !is_method_descriptor(bytes) {
        return Ok(None);
    }
    let found = types(alloc, &bytes[1..])?;
    from_types(alloc, found)
}

impl Descriptor {
    /// The signature that the bytes describe. Refused as BadDescriptor of index 0 exactly where they describe none, whose
    /// parameters take at most 255 places.
    pub fn read(alloc: Global, b: &[u8]) -> Result<Descriptor, Halt>
        ensures found { IfOk result (λ d. DescribesMethod b.now d) }
        ensures only { (s : Signature) → DescribesMethod b.now s → Gives (λ x. x) result (Ok s) }
        ensures exact { Gives (λ x. x) result (signature_or (BadDescriptor (pos 0)) (signature_of b.now)) }
    {
        read_descriptor(alloc, b)
    }

    /// The signature that the bytes describe, None where they describe none whose parameters take at most 255 places.
    pub fn find(alloc: Global, bytes: &[u8]) -> Result<Option<Descriptor>, AllocError>
        ensures { IfOk result (λ o. o ≡ signature_of bytes.now) }
    {
        signature(alloc, bytes)
    }
}

fn read_descriptor(alloc: Global, b: &[u8]) -> Result<Descriptor, Halt>
    ensures { Gives (λ x. x) result (signature_or (BadDescriptor (pos 0)) (signature_of b.now)) }
{
    match signature(alloc, b)? {
        Some(found) => Ok(found),
        None => Err(Halt::Refused(Refusal::BadDescriptor(0))),
    }
}
