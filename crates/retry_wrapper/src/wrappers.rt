//! Wrappers: the loop of attempts that takes the place of the code of a marked method or a static initialiser.
ghost use Rattle.std.specs.Prelude.{◌≡◌, ◌≤◌, ◌<◌, ◌+◌, [], None, pos, codes, map, max, length, IfOk, OnOk};
ghost use Rattle.jmodel.specs.format.Reading.{Gives};
ghost use Rattle.jmodel.specs.format.Relocation.{AreBlocks};
ghost use Rattle.jmodel.specs.format.ClassRules.{is_named as named_so};
ghost use Rattle.objects.specs.rewriting.Rewriting.{spare_locals as spare};
ghost use Rattle.member_code.specs.Growing.{Grows, Becomes};
ghost use Rattle.retry_wrapper.specs.Wrappers.{few_arguments, few_wrappers, get_call, counts_of as counts, opening_of as opening, ending_of as ending, wrapper_blocks as blocks_of_wrapper, wrapper_handlers as entries_of_wrapper, wrapper_bytes as bytes_of_wrapper, with_bytes as with_these_bytes, with_code as with_this_code, wrapper_of as wrapper, with_wrapper};

use crate::blocks::wrapper_blocks;
use const_pool::{Attribute, ClassFile, Handler, Member, Pool};
use hierarchy::Method;
use jmodel::{Bytes, Halt, MethodName, Refusal, VType};
use member_code::laying::bytes_of_method;
use member_code::names::duplicate_named;
use member_code::places::too_many;
use member_code::words::add_context_method;
use std::alloc::{AllocError, Global};

/// What a wrapper names to begin an attempt.
#[derive(Clone, Copy)]
pub struct Opening {
    pub get: u16,
    pub number: u16,
    pub retries: u16,
    pub init: u16,
}

/// What a wrapper names for the body of an attempt and for its end.
#[derive(Clone, Copy)]
pub struct Ending {
    pub duplicate: u16,
    pub commit: u16,
    pub rollback: u16,
    pub conflict: u16,
}

// Refuses a method whose arguments, with the context, take too many places.
#[tactic(auto, unfolding(crate::specs::Wrappers::few_arguments))]
fn want_arguments(alloc: Global, method: &Method) -> Result<(), Halt>
    ensures exact { Gives (λ x. x) result (few_arguments method.now) }
    ensures few { OnOk result (method.now.places ≤ 254) }
    ensures long { OnOk result (length method.now.parameters ≤ 254) }
{
    if method.entry().places > 254 || method.parameters().len() > 254 {
        return Err(too_many(alloc, method.name(), b"Arguments")?);
    }
    Ok(())
}

// The number of a wrapper as an int.
#[tactic(auto, unfolding(crate::specs::Wrappers::few_wrappers))]
fn want_number(alloc: Global, number: usize) -> Result<i32, Halt>
    ensures exact { Gives (λ n. tt) result (few_wrappers number) }
    ensures same { IfOk result (λ n. n ≡ pos number) }
    ensures few { OnOk result (number < 2147483648) }
{
    if number > 2147483647 {
        return Err(Halt::Refused(Refusal::PoolFull(Bytes::new(alloc))));
    }
    Ok(number as i32)
}

#[tactic(auto, unfolding(crate::specs::Wrappers::counts_of))]
fn counts_of(pool: &mut Pool, number: i32, attempts: i32) -> Result<(u16, u16), Halt>
    ensures { Grows (λ p. p) result pool.new (counts number attempts pool.old) }
{
    let number = pool.add_integer(number)?;
    let retries = pool.add_integer(attempts)?;
    Ok((number, retries))
}

#[tactic(auto, unfolding(crate::specs::Wrappers::get_call))]
fn add_get_call(pool: &mut Pool) -> Result<u16, Halt>
    ensures { Grows (λ n. n) result pool.new (get_call pool.old) }
{
    let adds = pool.add_method(
        b"org/deuce/transaction/ContextDelegator",
        b"getInstance",
        b"()Lorg/deuce/transaction/Context;",
    );
    Ok(adds?)
}

#[tactic(auto, unfolding(crate::specs::Wrappers::opening_of))]
fn opening_of(pool: &mut Pool, number: i32, attempts: i32) -> Result<Opening, Halt>
    ensures { Grows (λ o. o) result pool.new (opening number attempts pool.old) }
{
    let get = add_get_call(pool)?;
    let (number, retries) = counts_of(pool, number, attempts)?;
    let init = add_context_method(pool, b"init", b"(II)V")?;
    Ok(Opening {
        get,
        number,
        retries,
        init,
    })
}

#[tactic(auto, unfolding(crate::specs::Wrappers::ending_of))]
fn ending_of(pool: &mut Pool, name: &MethodName) -> Result<Ending, Halt>
    ensures { Grows (λ e. e) result pool.new (ending name.now pool.old) }
{
    let duplicate = pool.add_method(
        name.class.as_slice(),
        name.name.as_slice(),
        name.descriptor.as_slice(),
    )?;
    let commit = add_context_method(pool, b"commit", b"()Z")?;
    let rollback = add_context_method(pool, b"rollback", b"()V")?;
    let conflict = pool.add_class(b"org/deuce/transaction/TransactionException")?;
    Ok(Ending {
        duplicate,
        commit,
        rollback,
        conflict,
    })
}

// A conflict in the body goes to block 4, any other exception to 5.
fn wrapper_handlers(conflict: u16) -> [Handler; 2]
    ensures { result ≡ entries_of_wrapper conflict }
{
    let on_conflict = Handler {
        start: 2,
        end: 3,
        handler: 4,
        catch_type: conflict,
    };
    let on_any = Handler {
        start: 2,
        end: 3,
        handler: 5,
        catch_type: 0,
    };
    [on_conflict, on_any]
}

// The greater of the arguments' places with the context and three.
fn height(c: u16) -> u16
    requires { c ≤ 254 }
    ensures { result ≡ max (c + 1) 3 }
{
    if c < 2 { 3 } else { c + 1 }
}

// How many locals the wrapper has behind its arguments.
fn spare_locals(method: &Method) -> u16
    ensures says { result ≡ spare method.now.result }
    ensures few { result ≤ 3 }
{
    match method.result() {
        Some(VType::Long) => 3,
        _ => 2,
    }
}

#[tactic(auto, unfolding(crate::specs::Wrappers::wrapper_bytes))]
fn wrapper_bytes(alloc: Global, method: &Method, a: Opening, e: Ending) -> Result<Bytes, Halt>
    requires few { method.now.places ≤ 254 }
    requires long { length method.now.parameters ≤ 254 }
    requires blocks { AreBlocks (blocks_of_wrapper method.now a e) (entries_of_wrapper e.conflict) None [] }
    ensures { Gives (λ b. b) result (bytes_of_wrapper method.now a e) }
{
    let c = method.entry().places as u16;
    let blocks = wrapper_blocks(alloc, method, a, e)?;
    let handlers = wrapper_handlers(e.conflict);
    bytes_of_method(
        alloc,
        method.name(),
        height(c),
        c + spare_locals(method),
        blocks.as_slice(),
        &handlers,
        None,
        &[],
    )
}

fn is_code(pool: &Pool, attribute: &Attribute) -> bool
    ensures { result ≡ named_so pool.now (codes "Code") attribute.now }
{
    match pool.utf8(attribute.name) {
        Some(name) => name.as_slice() == b"Code".as_slice(),
        None => false,
    }
}

fn with_bytes(
    alloc: Global,
    pool: &Pool,
    bytes: &Bytes,
    attribute: &Attribute,
) -> Result<Attribute, AllocError>
    ensures { IfOk result (λ a. a ≡ with_these_bytes pool.now bytes.now attribute.now) }
{
    let kept = if is_code(pool, attribute) {
        bytes
    } else {
        &attribute.bytes
    };
    Ok(Attribute {
        name: attribute.name,
        bytes: kept.copy(alloc)?,
    })
}

// Attributes, with another Code.
fn replaced(
    alloc: Global,
    pool: &Pool,
    bytes: &Bytes,
    attributes: &[Attribute],
) -> Result<Vec<Attribute>, AllocError>
    ensures { IfOk result (λ v. v.items ≡ map (with_these_bytes pool.now bytes.now) attributes.now) }
{
    let mut kept = Vec::new(alloc);
    for attribute in attributes {
        kept.push(with_bytes(alloc, pool, bytes, attribute)?)?;
    }
    Ok(kept)
}

// A method with another Code.
fn with_code(
    alloc: Global,
    pool: &Pool,
    bytes: &Bytes,
    method: &Member,
) -> Result<Member, AllocError>
    ensures { IfOk result (λ m. m ≡ with_this_code pool.now bytes.now method.now) }
{
    Ok(Member {
        flags: method.flags,
        name: method.name,
        descriptor: method.descriptor,
        attributes: replaced(alloc, pool, bytes, method.attributes.as_slice())?,
    })
}

#[tactic(auto, unfolding(crate::specs::Wrappers::wrapper_of))]
fn wrapper_of(
    alloc: Global,
    pool: &mut Pool,
    number: usize,
    attempts: i32,
    method: &Method,
    member: &Member,
) -> Result<Member, Halt>
    ensures { Grows (λ m. m) result pool.new (wrapper number attempts method.now member.now pool.old) }
{
    want_arguments(alloc, method)?;
    let number = want_number(alloc, number)?;
    prove!(pool.entries().len() < 65535);
    let duplicate = duplicate_named(alloc, method.name())?;
    let a = opening_of(pool, number, attempts)?;
    let e = ending_of(pool, &duplicate)?;
    let bytes = wrapper_bytes(alloc, method, a, e)?;
    Ok(with_code(alloc, pool, &bytes, member)?)
}

/// Puts a wrapper in the place of the code of a marked method or a static initialiser, which the class's file has at this index. It has this
/// number among the wrappers, and makes so many attempts. Refused as
///
/// - `TooManyPlaces` with the method's printed name and `Arguments`, where its arguments with the context would take more than 255
///   places (JVM Specification, Java SE 7, section 4.3.3);
/// - else `PoolFull`, without the class's name, where the count of the class's pool would pass 65535 or a text would have more than 65535
///   bytes (sections 4.1 and 4.4.7), or the number has more than 31 bits, which no Integer holds;
/// - else `CodeTooLarge` or `BranchTooFar` with the method's printed name, as laying the code is (section 4.9.1).
pub fn wrap(
    alloc: Global,
    method: &Method,
    number: usize,
    attempts: i32,
    class: &mut ClassFile,
    index: usize,
) -> Result<(), Halt>
    ensures { Becomes result class.new (with_wrapper number attempts method.now class.old index) }
{
    let Some(member) = class.methods.get(index) else {
        return Ok(());
    };
    let wrapper = wrapper_of(alloc, &mut class.pool, number, attempts, method, member)?;
    class.methods[index] = wrapper;
    Ok(())
}
