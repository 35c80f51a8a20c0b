//! Calls of a transaction's context, as rewritten code makes them.
ghost use Rattle.std.specs.Prelude.{◌≡◌};
ghost use Rattle.objects.specs.linking.Decoding.{type_with, is_called as is_call_of, is_get_context as is_context_getter, context_call as call_of_context};
ghost use Rattle.linking.specs.ContextCalls.{read_text, read_element_text, write_text, write_element_text, ending_call as ending_call_of, accessing_call as accessing_call_of, first_call, read_of, write_of};

use crate::text::equal;
use hierarchy::reference::Reference;
use objects::op::{ContextCall, WordType};

const WORD_TYPES: [WordType; 7] = [
    WordType::Boolean,
    WordType::Byte,
    WordType::Char,
    WordType::Short,
    WordType::Int,
    WordType::Long,
    WordType::Reference,
];

// The descriptor of `onReadAccess` for a field of a type.
#[tactic(auto, unfolding(crate::specs::ContextCalls::read_text))]
fn read_descriptor(word_type: WordType) -> &'static [u8]
    ensures { result.now ≡ read_text word_type }
{
    match word_type {
        WordType::Boolean => b"(Ljava/lang/Object;ZJ)Z",
        WordType::Byte => b"(Ljava/lang/Object;BJ)B",
        WordType::Char => b"(Ljava/lang/Object;CJ)C",
        WordType::Short => b"(Ljava/lang/Object;SJ)S",
        WordType::Int => b"(Ljava/lang/Object;IJ)I",
        WordType::Long => b"(Ljava/lang/Object;JJ)J",
        WordType::Reference => b"(Ljava/lang/Object;Ljava/lang/Object;J)Ljava/lang/Object;",
    }
}

// The same for an element.
#[tactic(auto, unfolding(crate::specs::ContextCalls::read_element_text))]
fn read_element_descriptor(word_type: WordType) -> &'static [u8]
    ensures { result.now ≡ read_element_text word_type }
{
    match word_type {
        WordType::Boolean => b"(Ljava/lang/Object;ZI)Z",
        WordType::Byte => b"(Ljava/lang/Object;BI)B",
        WordType::Char => b"(Ljava/lang/Object;CI)C",
        WordType::Short => b"(Ljava/lang/Object;SI)S",
        WordType::Int => b"(Ljava/lang/Object;II)I",
        WordType::Long => b"(Ljava/lang/Object;JI)J",
        WordType::Reference => b"(Ljava/lang/Object;Ljava/lang/Object;I)Ljava/lang/Object;",
    }
}

// The descriptor of `onWriteAccess` for a field of a type.
#[tactic(auto, unfolding(crate::specs::ContextCalls::write_text))]
fn write_descriptor(word_type: WordType) -> &'static [u8]
    ensures { result.now ≡ write_text word_type }
{
    match word_type {
        WordType::Boolean => b"(Ljava/lang/Object;ZJ)V",
        WordType::Byte => b"(Ljava/lang/Object;BJ)V",
        WordType::Char => b"(Ljava/lang/Object;CJ)V",
        WordType::Short => b"(Ljava/lang/Object;SJ)V",
        WordType::Int => b"(Ljava/lang/Object;IJ)V",
        WordType::Long => b"(Ljava/lang/Object;JJ)V",
        WordType::Reference => b"(Ljava/lang/Object;Ljava/lang/Object;J)V",
    }
}

// The same for an element.
#[tactic(auto, unfolding(crate::specs::ContextCalls::write_element_text))]
fn write_element_descriptor(word_type: WordType) -> &'static [u8]
    ensures { result.now ≡ write_element_text word_type }
{
    match word_type {
        WordType::Boolean => b"(Ljava/lang/Object;ZI)V",
        WordType::Byte => b"(Ljava/lang/Object;BI)V",
        WordType::Char => b"(Ljava/lang/Object;CI)V",
        WordType::Short => b"(Ljava/lang/Object;SI)V",
        WordType::Int => b"(Ljava/lang/Object;II)V",
        WordType::Long => b"(Ljava/lang/Object;JI)V",
        WordType::Reference => b"(Ljava/lang/Object;Ljava/lang/Object;I)V",
    }
}

fn read_type(descriptor: &[u8]) -> Option<WordType>
    ensures { result ≡ type_with read_text descriptor.now }
{
    WORD_TYPES
        .iter()
        .copied()
        .find(|t| equal(read_descriptor(*t), descriptor))
}

fn read_element_type(descriptor: &[u8]) -> Option<WordType>
    ensures { result ≡ type_with read_element_text descriptor.now }
{
    WORD_TYPES
        .iter()
        .copied()
        .find(|t| equal(read_element_descriptor(*t), descriptor))
}

fn write_type(descriptor: &[u8]) -> Option<WordType>
    ensures { result ≡ type_with write_text descriptor.now }
{
    WORD_TYPES
        .iter()
        .copied()
        .find(|t| equal(write_descriptor(*t), descriptor))
}

fn write_element_type(descriptor: &[u8]) -> Option<WordType>
    ensures { result ≡ type_with write_element_text descriptor.now }
{
    WORD_TYPES
        .iter()
        .copied()
        .find(|t| equal(write_element_descriptor(*t), descriptor))
}

// Which read a descriptor of `onReadAccess` says: of a field, else of an element.
#[tactic(auto, unfolding(crate::specs::ContextCalls::read_of, crate::specs::ContextCalls::read_text, crate::specs::ContextCalls::read_element_text))]
fn read_call(descriptor: &[u8]) -> Option<ContextCall>
    ensures { result ≡ read_of descriptor.now }
{
    match read_type(descriptor) {
        Some(word_type) => Some(ContextCall::OnRead(word_type)),
        None => Some(ContextCall::OnReadElement(read_element_type(descriptor)?)),
    }
}

// Which write a descriptor of `onWriteAccess` says: of a field, else of an element.
#[tactic(auto, unfolding(crate::specs::ContextCalls::write_of, crate::specs::ContextCalls::write_text, crate::specs::ContextCalls::write_element_text))]
fn write_call(descriptor: &[u8]) -> Option<ContextCall>
    ensures { result ≡ write_of descriptor.now }
{
    match write_type(descriptor) {
        Some(word_type) => Some(ContextCall::OnWrite(word_type)),
        None => Some(ContextCall::OnWriteElement(write_element_type(descriptor)?)),
    }
}

fn is_called(name: &[u8], descriptor: &[u8], r: &Reference) -> bool
    ensures { result ≡ is_call_of name.now descriptor.now r.now }
{
    equal(r.name, name) && equal(r.descriptor, descriptor)
}

/// Whether it is the call that gives the lane's context.
pub fn is_get_context(r: &Reference) -> bool
    ensures { result ≡ is_context_getter r.now }
{
    equal(r.class, b"org/deuce/transaction/ContextDelegator")
        && equal(r.name, b"getInstance")
        && equal(r.descriptor, b"()Lorg/deuce/transaction/Context;")
}

// What ends an attempt.
fn ending_call(r: &Reference) -> Option<ContextCall>
    ensures { result ≡ ending_call_of r.now }
{
    if is_called(b"commit", b"()Z", r) {
        Some(ContextCall::Commit)
    } else if is_called(b"rollback", b"()V", r) {
        Some(ContextCall::Rollback)
    } else {
        None
    }
}

// What reads or writes, or ends an attempt.
fn accessing_call(r: &Reference) -> Option<ContextCall>
    ensures { result ≡ accessing_call_of r.now }
{
    if equal(r.name, b"onReadAccess") {
        read_call(r.descriptor)
    } else if equal(r.name, b"onWriteAccess") {
        write_call(r.descriptor)
    } else {
        ending_call(r)
    }
}

// What begins an attempt or stands before a read, or one of the others.
fn first_call(r: &Reference) -> Option<ContextCall>
    ensures { result ≡ first_call r.now }
{
    if is_called(b"init", b"(II)V", r) {
        Some(ContextCall::Init)
    } else if is_called(b"beforeReadAccess", b"(Ljava/lang/Object;J)V", r) {
        Some(ContextCall::BeforeRead)
    } else if is_called(b"beforeReadAccess", b"(Ljava/lang/Object;I)V", r) {
        Some(ContextCall::BeforeReadElement)
    } else {
        accessing_call(r)
    }
}

/// Which call of the context a name and a descriptor say, None where they say none.
pub fn context_call(r: &Reference) -> Option<ContextCall>
    ensures { result ≡ call_of_context r.now }
{
    first_call(r)
}
