//! Exception entries, by the numbers of instructions (JVM Specification, Java SE 7, section 4.7.3).
ghost use Rattle.std.specs.Prelude.{◌≡◌, IfOk};
ghost use Rattle.objects.specs.linking.Each.{each};
ghost use Rattle.objects.specs.linking.Code.{number_at};
ghost use Rattle.objects.specs.linking.Decoding.{end_at as end_of, catches_named as named_catches, catches_of as caught, catch_of as one_catch};
ghost use Rattle.hierarchy.specs.Built.{Builds};
ghost use Rattle.linking.specs.Entries.{three_places};

use crate::text::equal;
use const_pool::{Handler, Pool};
use hierarchy::BuildEnd;
use hierarchy::numbered::Numbered;
use jmodel::Bytes;
use objects::op::{Catch, Catches};
use std::alloc::{AllocError, Global};

// The end may be that of the code.
fn end_at(code: &Numbered, len: usize, pc: u16) -> Option<usize>
    ensures { result ≡ end_of code.now len pc }
{
    if pc as usize == len {
        return Some(code.instrs().len());
    }
    code.number_at(pc)
}

// The instances of a class; that of a transaction's conflict is told by its name.
fn catches_named(alloc: Global, name: &[u8]) -> Result<Catches, AllocError>
    ensures { IfOk result (λ k. k ≡ named_catches name.now) }
{
    if equal(name, b"org/deuce/transaction/TransactionException") {
        return Ok(Catches::Conflict);
    }
    Ok(Catches::Of(Bytes::from_slice(alloc, name)?))
}

// Which exceptions an entry takes.
fn catches_of(alloc: Global, pool: &Pool, class: u16) -> Result<Option<Catches>, AllocError>
    ensures { IfOk result (λ o. o ≡ caught pool.now class) }
{
    if class == 0 {
        return Ok(Some(Catches::Any));
    }
    match pool.class_name(class) {
        Some(name) => Ok(Some(catches_named(alloc, name.as_slice())?)),
        None => Ok(None),
    }
}

// Where an entry begins, ends and leads.
fn places_of_entry(code: &Numbered, len: usize, entry: &Handler) -> Option<(usize, usize, usize)>
    ensures { result ≡ three_places (number_at code.now entry.now.start) (end_of code.now len entry.now.end) (number_at code.now entry.now.handler) }
{
    let from = code.number_at(entry.start)?;
    let to = end_at(code, len, entry.end)?;
    let at = code.number_at(entry.handler)?;
    Some((from, to, at))
}

fn catch_of(
    alloc: Global,
    pool: &Pool,
    code: &Numbered,
    len: usize,
    entry: &Handler,
) -> Result<Option<Catch>, AllocError>
    ensures { IfOk result (λ o. o ≡ one_catch pool.now code.now len entry.now) }
{
    let Some((from, to, at)) = places_of_entry(code, len, entry) else {
        return Ok(None);
    };
    let Some(catches) = catches_of(alloc, pool, entry.catch_type)? else {
        return Ok(None);
    };
    Ok(Some(Catch {
        from,
        to,
        at,
        catches,
    }))
}

/// What the exception entries of code of a length mean, one by one. NotBuilt where one means nothing, as in no code that was decoded.
pub fn entries_of(
    alloc: Global,
    pool: &Pool,
    code: &Numbered,
    len: usize,
    entries: &[Handler],
) -> Result<Vec<Catch>, BuildEnd>
    ensures { Builds (λ v. v.items) result (each (one_catch pool.now code.now len) entries.now) }
{
    let mut catches = Vec::new(alloc);
    for entry in entries {
        match catch_of(alloc, pool, code, len, entry)? {
            Some(catch) => catches.push(catch)?,
            None => return Err(BuildEnd::NotBuilt),
        }
    }
    Ok(catches)
}
