//! Names of classes and arrays, and which are above others.
ghost use Rattle.std.specs.Prelude.{◌≡◌, ◌++◌, ◌∷◌, [], IfOk, OnOk, bytes_eq, codes, find, drop, option_copied};
ghost use Rattle.std.specs.List.{list_any};
ghost use Rattle.objects.specs.semantics.Program.{Row as JRow};
ghost use Rattle.objects.specs.typing.TypeOrder.{object_class, throwable_class, string_class, context_class, conflict_class, conflict_classes, from_class, classes_from, is_array, without_last, is_ended, is_class_above, is_element_within, is_reference_within, class_read, element_read, name_read};
ghost use Rattle.verifier.specs.Names.{exception_class, runtime_class, is_base_within, base_read};

use hierarchy::{Program, Row};
use jmodel::Bytes;
use std::alloc::{AllocError, Global};

/// Whether two names are the same.
pub fn equal(a: &[u8], b: &[u8]) -> bool
    ensures { result ≡ bytes_eq a.now b.now }
{
    a == b
}

pub fn object_class() -> &'static [u8]
    ensures { result.now ≡ object_class }
{
    b"java/lang/Object"
}

pub fn throwable_class() -> &'static [u8]
    ensures { result.now ≡ throwable_class }
{
    b"java/lang/Throwable"
}

fn exception_class() -> &'static [u8]
    ensures { result.now ≡ exception_class }
{
    b"java/lang/Exception"
}

fn runtime_class() -> &'static [u8]
    ensures { result.now ≡ runtime_class }
{
    b"java/lang/RuntimeException"
}

pub fn string_class() -> &'static [u8]
    ensures { result.now ≡ string_class }
{
    b"java/lang/String"
}

/// The class of a transaction's conflict.
pub fn conflict_class() -> &'static [u8]
    ensures { result.now ≡ conflict_class }
{
    b"org/deuce/transaction/TransactionException"
}

/// The class of a transaction's context.
pub fn context_class() -> &'static [u8]
    ensures { result.now ≡ context_class }
{
    b"org/deuce/transaction/Context"
}

/// The first type of a program that has this name, if one has.
pub fn row_named<'a>(program: &'a Program, name: &[u8]) -> Option<&'a Row>
    ensures { option_copied result ≡ find (λ (r : JRow). bytes_eq r.name name.now) program.now.types }
{
    program
        .types()
        .iter()
        .find(|r| equal(r.name().as_slice(), name))
}

/// Whether a name is among others.
pub fn is_among(name: &[u8], names: &[Bytes]) -> bool
    ensures { result ≡ list_any (bytes_eq name.now) names.now }
{
    names.iter().any(|n: &Bytes| equal(name, n.as_slice()))
}

fn push_name(alloc: Global, names: &mut Vec<Bytes>, name: &[u8]) -> Result<(), AllocError>
    ensures { OnOk result (names.new.items ≡ names.old.items ++ name.now ∷ []) }
{
    names.push(Bytes::from_slice(alloc, name)?)?;
    Ok(())
}

/// Puts `Throwable` and the class above it at the end.
fn push_throwables(alloc: Global, names: &mut Vec<Bytes>) -> Result<(), AllocError>
    ensures { OnOk result (names.new.items ≡ names.old.items ++ throwable_class ∷ object_class ∷ []) }
{
    push_name(alloc, names, throwable_class())?;
    push_name(alloc, names, object_class())
}

/// Puts `Exception` and the classes above it at the end.
fn push_exceptions(alloc: Global, names: &mut Vec<Bytes>) -> Result<(), AllocError>
    ensures { OnOk result (names.new.items ≡ names.old.items ++ exception_class ∷ throwable_class ∷ object_class ∷ []) }
{
    push_name(alloc, names, exception_class())?;
    push_throwables(alloc, names)
}

/// Puts `RuntimeException` and the classes above it at the end.
fn push_runtime(alloc: Global, names: &mut Vec<Bytes>) -> Result<(), AllocError>
    ensures { OnOk result (names.new.items ≡ names.old.items ++ runtime_class ∷ exception_class ∷ throwable_class ∷ object_class ∷ []) }
{
    push_name(alloc, names, runtime_class())?;
    push_exceptions(alloc, names)
}

/// Puts a class that isn't the program's at the end, and those above it: of the conflict, or Object.
fn push_free(alloc: Global, names: &mut Vec<Bytes>, name: &[u8]) -> Result<(), AllocError>
    ensures { OnOk result (names.new.items ≡ names.old.items ++ from_class name.now conflict_classes) }
{
    if equal(name, conflict_class()) {
        push_name(alloc, names, conflict_class())?;
        push_runtime(alloc, names)
    } else if equal(name, runtime_class()) {
        push_runtime(alloc, names)
    } else if equal(name, exception_class()) {
        push_exceptions(alloc, names)
    } else if equal(name, throwable_class()) {
        push_throwables(alloc, names)
    } else if equal(name, object_class()) {
        push_name(alloc, names, object_class())
    } else {
        push_name(alloc, names, name)?;
        push_name(alloc, names, object_class())
    }
}

/// Puts copies of names at the end.
fn push_names(alloc: Global, names: &mut Vec<Bytes>, from: &[Bytes]) -> Result<(), AllocError>
    ensures { OnOk result (names.new.items ≡ names.old.items ++ from.now) }
{
    for name in from {
        push_name(alloc, names, name.as_slice())?;
    }
    Ok(())
}

/// A class and those above it, the nearest first.
pub fn classes_from(alloc: Global, program: &Program, name: &[u8]) -> Result<Vec<Bytes>, AllocError>
    ensures { IfOk result (λ v. v.items ≡ classes_from program.now name.now) }
{
    let mut names = Vec::new(alloc);
    match row_named(program, name) {
        Some(row) => push_names(alloc, &mut names, row.lineage())?,
        None => push_free(alloc, &mut names, name)?,
    }
    Ok(names)
}

/// Whether a class of the conflict from `Exception` on is above another that isn't the program's.
fn is_exception_above(narrow: &[u8], wide: &[u8]) -> bool
    ensures { result ≡ list_any (bytes_eq wide.now) (from_class narrow.now (exception_class ∷ throwable_class ∷ object_class ∷ [])) }
{
    if equal(narrow, exception_class()) {
        equal(wide, exception_class())
            || equal(wide, throwable_class())
            || equal(wide, object_class())
    } else if equal(narrow, throwable_class()) {
        equal(wide, throwable_class()) || equal(wide, object_class())
    } else if equal(narrow, object_class()) {
        equal(wide, object_class())
    } else {
        equal(wide, narrow) || equal(wide, object_class())
    }
}

/// Whether a class is one that isn't the program's, or above it.
fn is_free_above(narrow: &[u8], wide: &[u8]) -> bool
    ensures { result ≡ list_any (bytes_eq wide.now) (from_class narrow.now conflict_classes) }
{
    if equal(narrow, conflict_class()) {
        equal(wide, conflict_class())
            || equal(wide, runtime_class())
            || is_exception_above(exception_class(), wide)
    } else if equal(narrow, runtime_class()) {
        equal(wide, runtime_class()) || is_exception_above(exception_class(), wide)
    } else {
        is_exception_above(narrow, wide)
    }
}

/// Whether the second class is the first one, or above it.
pub fn is_class_above(program: &Program, narrow: &[u8], wide: &[u8]) -> bool
    ensures { result ≡ is_class_above program.now narrow.now wide.now }
{
    match row_named(program, narrow) {
        Some(row) => is_among(wide, row.lineage()),
        None => is_free_above(narrow, wide),
    }
}

/// Whether a name is an array's descriptor.
pub fn is_array(name: &[u8]) -> bool
    ensures { result ≡ is_array name.now }
{
    matches!(name.first(), Some(91))
}

/// The bytes from a place on.
pub fn rest(bytes: &[u8], from: usize) -> &[u8]
    ensures { result.now ≡ drop from bytes.now }
{
    if from < bytes.len() {
        &bytes[from..]
    } else {
        &[]
    }
}

/// All bytes but the last.
#[tactic(auto, using(crate::proofs::Bytes::front_is))]
pub fn without_last(bytes: &[u8]) -> &[u8]
    ensures { result.now ≡ without_last bytes.now }
{
    if bytes.is_empty() {
        &[]
    } else {
        &bytes[..bytes.len() - 1]
    }
}

/// Whether a semicolon is last.
#[tactic(auto, using(crate::proofs::Bytes::ended_by))]
pub fn is_ended(bytes: &[u8]) -> bool
    ensures { result ≡ is_ended bytes.now }
{
    let front = without_last(bytes);
    equal(rest(bytes, front.len()), b";")
}

/// Whether the elements of one descriptor, in which no array comes first, may be those of another.
fn is_base_within(program: &Program, narrow: &[u8], wide: &[u8]) -> bool
    ensures { result ≡ is_base_within program.now narrow.now wide.now }
{
    match (narrow.first(), wide.first()) {
        (Some(76), Some(76)) => {
            is_ended(rest(wide, 1))
                && is_class_above(
                    program,
                    without_last(rest(narrow, 1)),
                    without_last(rest(wide, 1)),
                )
        }
        (Some(76), _) => false,
        (Some(_), Some(_)) => equal(narrow, wide),
        _ => false,
    }
}

/// Whether the elements of one descriptor may be those of another.
#[tactic(auto, using(crate::proofs::Bytes::base_step, crate::proofs::Bytes::object_step, crate::proofs::Bytes::deeper_step))]
pub fn is_element_within(program: &Program, narrow: &[u8], wide: &[u8]) -> bool
    ensures { result ≡ is_element_within program.now narrow.now wide.now }
{
    for i in 0..narrow.len() {
        let m = rest(narrow, i);
        let n = rest(wide, i);
        if !is_array(m) {
            return is_base_within(program, m, n);
        }
        if !is_array(n) {
            return equal(n, b"Ljava/lang/Object;");
        }
    }
    false
}

/// Whether a class or an array is at most another.
pub fn is_reference_within(program: &Program, narrow: &[u8], wide: &[u8]) -> bool
    ensures { result ≡ is_reference_within program.now narrow.now wide.now }
{
    if !is_array(narrow) {
        is_class_above(program, narrow, wide)
    } else if is_array(wide) {
        is_element_within(program, rest(narrow, 1), rest(wide, 1))
    } else {
        equal(wide, object_class())
    }
}

/// A class's name as typing reads it: an interface, and a class that isn't the program's, is Object.
pub fn class_read<'a>(program: &'a Program, name: &[u8]) -> &'a [u8]
    ensures { result.now ≡ class_read program.now name.now }
{
    match row_named(program, name) {
        Some(row) => row.read().as_slice(),
        None => object_class(),
    }
}

/// Puts the descriptor of a class at the end.
fn push_class(bytes: &mut Vec<u8>, name: &[u8]) -> Result<(), AllocError>
    ensures { OnOk result (bytes.new.items ≡ bytes.old.items ++ (codes "L" ++ name.now ++ codes ";")) }
{
    bytes.push(76)?;
    bytes.extend_from_slice(name)?;
    bytes.push(59)?;
    Ok(())
}

/// An array's descriptor as typing reads it.
fn element_read(alloc: Global, program: &Program, name: &[u8]) -> Result<Bytes, AllocError>
    ensures { IfOk result (λ n. n ≡ element_read program.now name.now) }
{
    let mut bytes = Vec::new(alloc);
    for i in 0..name.len() {
        let n = rest(name, i);
        if !is_array(n) {
            push_element(&mut bytes, program, n)?;
            return Ok(Bytes::from_vec(bytes));
        }
        bytes.push(91)?;
    }
    Ok(Bytes::from_vec(bytes))
}

/// Puts an element that is no array at the end, as typing reads it.
fn push_element(bytes: &mut Vec<u8>, program: &Program, element: &[u8]) -> Result<(), AllocError>
    ensures { OnOk result (bytes.new.items ≡ bytes.old.items ++ base_read program.now element.now) }
{
    if let Some(76) = element.first() {
        push_class(bytes, class_read(program, without_last(rest(element, 1))))
    } else {
        bytes.extend_from_slice(element)?;
        Ok(())
    }
}

/// The name of a class or an array as typing reads it.
pub fn name_read(alloc: Global, program: &Program, name: &[u8]) -> Result<Bytes, AllocError>
    ensures { IfOk result (λ n. n ≡ name_read program.now name.now) }
{
    if is_array(name) {
        element_read(alloc, program, name)
    } else {
        Bytes::from_slice(alloc, class_read(program, name))
    }
}
