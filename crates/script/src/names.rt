//! Texts that name methods.
ghost use Rattle.std.specs.Prelude.{◌≡◌, ℕ, List, bytes_eq, map, IfOk, OnOk};
ghost use Rattle.std.specs.List.{list_any};
ghost use Rattle.jmodel.specs.format.ClassRules.{same_text};
ghost use Rattle.objects.specs.linking.Members.{name_of as name_in};
ghost use Rattle.const_pool.specs.Firsts.{or_at, text_known};
ghost use Rattle.script.specs.Script.{can_be_named as can_be_named_by, is_callable as is_callable_by, is_called, call_text as call_text_of, number_named, names_method as names_method_of};

use const_pool::{ClassFile, Member};
use hierarchy::symbols::name_of;
use hierarchy::{Method, Program};
use jmodel::{Bytes, MethodName};
use objects::op::Dispatch;
use std::alloc::{AllocError, Global};
use std::collections::BTreeMap;

/// The numbers of methods that a script may call, by the texts that name them.
pub type Numbers = BTreeMap<Vec<u8>, usize>;

/// Whether a text can name a method: neither its class nor its name has a parenthesis, and its name has no dot.
fn can_be_named(name: &MethodName) -> bool
    ensures { result ≡ can_be_named_by name.now }
{
    !name.class.as_slice().contains(&b'(')
        && !name.name.as_slice().contains(&b'(')
        && !name.name.as_slice().contains(&b'.')
}

/// Whether a script may call a method: it is marked and static, and no static initialiser.
fn is_callable(method: &Method) -> bool
    ensures { result ≡ is_callable_by method.now }
{
    method.retries().is_some()
        && matches!(method.dispatch(), Dispatch::Static)
        && !method.is_initialiser()
}

/// The text that names a method which a script may call.
fn call_text(alloc: Global, method: &Method) -> Result<Option<Bytes>, AllocError>
    ensures { IfOk result (λ text. text ≡ call_text_of method.now) }
{
    if is_callable(method) && can_be_named(method.name()) {
        Ok(Some(method.name().printed(alloc)?))
    } else {
        Ok(None)
    }
}

/// Notes the number of a text that has none yet.
fn note(alloc: Global, numbers: &mut Numbers, text: &[u8], number: usize) -> Result<(), AllocError>
    ensures { OnOk result ((q : List ℕ) → text_known numbers.new q ≡ or_at (text_known numbers.old q) (bytes_eq text.now q) number) }
{
    if numbers.contains_key(text) {
        return Ok(());
    }
    let copy = Vec::from_slice(alloc, text)?;
    numbers.insert(copy, number)?;
    Ok(())
}

/// Notes the number of a method that a script may call, where the text that names it has none yet.
fn note_method(
    alloc: Global,
    numbers: &mut Numbers,
    method: &Method,
    number: usize,
) -> Result<(), AllocError>
    ensures { OnOk result ((q : List ℕ) → text_known numbers.new q ≡ or_at (text_known numbers.old q) (same_text (call_text_of method.now) q) number) }
{
    match call_text(alloc, method)? {
        Some(text) => note(alloc, numbers, text.as_slice(), number),
        None => Ok(()),
    }
}

/// The numbers of the methods of a program that a script may call, by the texts that name them.
pub fn numbers_of(alloc: Global, program: &Program) -> Result<Numbers, AllocError>
    ensures { IfOk result (λ numbers. (text : List ℕ) → text_known numbers text ≡ number_named program.now text) }
{
    let mut numbers = BTreeMap::new(alloc);
    for (number, method) in program.methods().iter().enumerate() {
        note_method(alloc, &mut numbers, method, number)?;
    }
    Ok(numbers)
}

/// The number of the method that a text names.
pub fn number_of(numbers: &Numbers, text: &[u8]) -> Option<usize>
    ensures { result ≡ text_known numbers.now text.now }
{
    numbers.get(text).copied()
}

/// Whether a text names the method of a name, callable or not.
fn calls(alloc: Global, text: &[u8], name: &MethodName) -> Result<bool, AllocError>
    ensures { IfOk result (λ b. b ≡ is_called text.now name.now) }
{
    Ok(can_be_named(name) && name.printed(alloc)?.as_slice() == text)
}

/// Whether a text names a member of a class, as a method.
fn names_member(
    alloc: Global,
    class: &ClassFile,
    member: &Member,
    text: &[u8],
) -> Result<bool, AllocError>
    ensures { IfOk result (λ b. b ≡ is_called text.now (name_in class.now member.now)) }
{
    let name = name_of(alloc, class, member)?;
    calls(alloc, text, &name)
}

/// Whether a text names a method of a class, callable or not.
fn names_method_of_class(alloc: Global, class: &ClassFile, text: &[u8]) -> Result<bool, AllocError>
    ensures { IfOk result (λ b. b ≡ list_any (λ m. is_called text.now (name_in class.now m)) class.now.methods) }
{
    for member in &class.methods {
        if names_member(alloc, class, member, text)? {
            return Ok(true);
        }
    }
    Ok(false)
}

/// Whether a text names a method of some class, callable or not.
pub fn names_method(alloc: Global, classes: &[&ClassFile], text: &[u8]) -> Result<bool, AllocError>
    ensures { IfOk result (λ b. b ≡ names_method_of (map (λ c. c.now) classes.now) text.now) }
{
    for class in classes {
        if names_method_of_class(alloc, class, text)? {
            return Ok(true);
        }
    }
    Ok(false)
}
