//! The marks of methods, their faults, and static initialisers.
ghost use Rattle.std.specs.Prelude.{◌≡◌, pos, codes, IfOk};
ghost use Rattle.jmodel.specs.declared.refusal.Refusal.TheVariants.{Construct};
ghost use Rattle.jmodel.specs.format.Name.{printed as printed_name};
ghost use Rattle.objects.specs.linking.Members.{name_of as method_name};
ghost use Rattle.objects.specs.linking.Classes.{Declared as DeclaredForm};
ghost use Rattle.objects.specs.linking.Faults.{first_fault, may_be_marked as may_have_mark, mark_fault as fault_of_mark};
ghost use Rattle.objects.specs.linking.Code.{mark_retries as retries_of_mark, is_marked as marked, is_initialiser as initialiser, retries_of as retries, is_root as root};

use crate::code::printed;
use crate::declared::Declared;
use crate::symbols::is_text;
use annotations::atomic_of;
use const_pool::fields::offset;
use const_pool::{ClassFile, Member, Pool};
use jmodel::{AnnotationFault, Bytes, NoMemory, Refusal};
use std::alloc::{AllocError, Global};

// How many attempts the mark of a method grants. None also where its annotations or its mark have a fault.
fn mark_retries(pool: &Pool, method: &Member) -> Option<i32>
    ensures { result ≡ retries_of_mark pool.now method.now }
{
    match atomic_of(pool, method) {
        Ok(Some(mark)) => Some(mark.retries),
        _ => None,
    }
}

/// Whether a method is marked as atomic.
pub fn is_marked(pool: &Pool, method: &Member) -> bool
    ensures { result ≡ marked pool.now method.now }
{
    mark_retries(pool, method).is_some()
}

/// Whether a method is a static initialiser: a static one of this name and descriptor that isn't abstract.
pub fn is_initialiser(pool: &Pool, method: &Member) -> bool
    ensures { result ≡ initialiser pool.now method.now }
{
    method.flags & 0x408 == 8
        && is_text(pool.utf8(method.name), b"<clinit>")
        && is_text(pool.utf8(method.descriptor), b"()V")
}

/// How many attempts a call from outside may make of a method: of a static initialiser 2147483647, else those that its mark
/// grants. None also where its annotations or its mark have a fault.
pub fn retries_of(pool: &Pool, method: &Member) -> Option<i32>
    ensures { result ≡ retries pool.now method.now }
{
    if is_initialiser(pool, method) {
        Some(i32::MAX)
    } else {
        mark_retries(pool, method)
    }
}

/// Whether a method is called from outside, each time as a transaction: it is marked, or a static initialiser.
pub fn is_root(pool: &Pool, method: &Member) -> bool
    ensures { result ≡ root pool.now method.now }
{
    retries_of(pool, method).is_some()
}

// A method with code that is neither a constructor nor a static initialiser.
fn may_be_marked(pool: &Pool, method: &Member) -> bool
    ensures { result ≡ may_have_mark pool.now method.now }
{
    let name = pool.utf8(method.name);
    method.flags & 0x500 == 0 && !(is_text(name, b"<init>") || is_text(name, b"<clinit>"))
}

fn misplaced(alloc: Global, class: &ClassFile, method: &Member) -> Result<Refusal, AllocError>
    ensures { IfOk result (λ r. r ≡ Construct (codes "AtomicPlace") (printed_name (method_name class.now method.now)) (pos 0)) }
{
    let kind = Bytes::from_slice(alloc, b"AtomicPlace")?;
    Ok(Refusal::Construct(kind, printed(alloc, class, method)?, 0))
}

// The fault of a method's annotations and their mark.
fn mark_fault(
    alloc: Global,
    class: &ClassFile,
    method: &Member,
) -> Result<Option<Refusal>, NoMemory>
    ensures { IfOk result (λ o. o ≡ fault_of_mark class.now method.now) }
{
    match atomic_of(&class.pool, method) {
        Ok(None) => Ok(None),
        Ok(Some(_)) => {
            if may_be_marked(&class.pool, method) {
                Ok(None)
            } else {
                Ok(Some(misplaced(alloc, class, method)?))
            }
        }
        Err(AnnotationFault::Bad(at)) => {
            let name = printed(alloc, class, method)?;
            Ok(Some(Refusal::BadAnnotation(name, offset(at))))
        }
        Err(AnnotationFault::Retries(n)) => {
            let name = printed(alloc, class, method)?;
            Ok(Some(Refusal::BadRetries(name, i64::from(n))))
        }
    }
}

/// The first fault of the annotations of methods and of their marks, in their order.
pub fn marks_fault(alloc: Global, methods: &[Declared]) -> Result<Option<Refusal>, NoMemory>
    ensures { IfOk result (λ o. o ≡ first_fault (λ (k : DeclaredForm). fault_of_mark k.class k.member) methods.now) }
{
    for method in methods {
        if let Some(fault) = mark_fault(alloc, method.class, method.member)? {
            return Ok(Some(fault));
        }
    }
    Ok(None)
}
