//! Names of duplicates, which take the context as last parameter.
ghost use Rattle.std.specs.Prelude.{◌≡◌, ◌≤◌, length, IfOk, false};
ghost use Rattle.objects.specs.rewriting.Rewriting.{before_end as bytes_before_end, with_context as context_in, duplicate_name as name_of_duplicate};
ghost use Rattle.member_code.specs.Names.{duplicate_named as named_duplicate};

use jmodel::{Bytes, MethodName};
use std::alloc::{AllocError, Global};

// How many bytes stand before the parenthesis that ends the parameters. A class's name goes from L to a semicolon.
fn before_end(descriptor: &[u8]) -> usize
    ensures says { result ≡ bytes_before_end false descriptor.now }
    ensures within { result ≤ length descriptor.now }
{
    let mut in_name = false;
    for (n, c) in descriptor.iter().enumerate() {
        if in_name {
            in_name = *c != b';';
        } else if *c == b')' {
            return n;
        } else {
            in_name = *c == b'L';
        }
    }
    descriptor.len()
}

/// A method's descriptor with the context as last parameter.
pub fn with_context(alloc: Global, descriptor: &[u8]) -> Result<Bytes, AllocError>
    ensures { IfOk result (λ d. d ≡ context_in descriptor.now) }
{
    let end = before_end(descriptor);
    let mut text = Bytes::from_slice(alloc, &descriptor[..end])?;
    text.extend_from_slice(b"Lorg/deuce/transaction/Context;")?;
    text.extend_from_slice(&descriptor[end..])?;
    Ok(text)
}

// The name of a method's duplicate: its own. A method with the name of static initialisers can't be called, so that duplicate has another.
fn duplicate_name(name: &[u8]) -> &[u8]
    ensures { result.now ≡ name_of_duplicate name.now }
{
    if name == b"<clinit>".as_slice() {
        b"__CLINIT__"
    } else {
        name
    }
}

/// The name and the descriptor of a method's duplicate, in the method's class.
pub fn duplicate_named(alloc: Global, method: &MethodName) -> Result<MethodName, AllocError>
    ensures { IfOk result (λ n. n ≡ named_duplicate method.now) }
{
    Ok(MethodName {
        class: method.class.copy(alloc)?,
        name: Bytes::from_slice(alloc, duplicate_name(method.name.as_slice()))?,
        descriptor: with_context(alloc, method.descriptor.as_slice())?,
    })
}
