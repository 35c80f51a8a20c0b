//! Adding to a constant pool (JVM Specification, Java SE 7, section 4.4). An entry that means the wanted already is used.
ghost use Rattle.std.specs.Prelude.{◌≡◌, ◌+◌, ◌<◌, length, position, option_copied, IfSome};
ghost use Rattle.jmodel.specs.format.ClassRules.{same_text as same};
ghost use Rattle.jmodel.specs.format.Pool.{entry as entry_of};
ghost use Rattle.jmodel.specs.format.PoolAdding.{means_text, means_class as class_means, means_pair as names_mean, pair_means as pair_at_means, means_member as member_means, means_integer, means_long};
ghost use Rattle.const_pool.specs.Kinds.{parts_of};
ghost use Rattle.const_pool.specs.Indexed.{in_order as known_or_behind};

use crate::pool::Pool;
use jmodel::{Bytes, Constant};

/// A kind of reference to members.
#[derive(Clone, Copy)]
pub enum Kind {
    Field,
    Method,
    InterfaceMethod,
}

fn same_text(text: Option<&Bytes>, wanted: &[u8]) -> bool
    ensures { result ≡ same (option_copied text.entry) wanted.now }
{
    match text {
        Some(text) => text.as_slice() == wanted,
        None => false,
    }
}

fn is_text(text: &[u8], entry: &Constant) -> bool
    ensures { result ≡ means_text text.now entry.now }
{
    match entry {
        Constant::Utf8(found) => found.as_slice() == text,
        _ => false,
    }
}

fn is_class(pool: &Pool, name: &[u8], entry: &Constant) -> bool
    ensures { result ≡ class_means pool.now name.now entry.now }
{
    match entry {
        Constant::Class(i) => same_text(pool.utf8(*i), name),
        _ => false,
    }
}

fn is_pair(pool: &Pool, wanted: &[u8], wanted_type: &[u8], entry: &Constant) -> bool
    ensures { result ≡ names_mean pool.now wanted.now wanted_type.now entry.now }
{
    match entry {
        Constant::NameAndType { name, descriptor } => {
            same_text(pool.utf8(*name), wanted) && same_text(pool.utf8(*descriptor), wanted_type)
        }
        _ => false,
    }
}

// Whether the NameAndType of an index means this.
fn is_pair_at(pool: &Pool, i: u16, wanted: &[u8], wanted_type: &[u8]) -> bool
    ensures { result ≡ pair_at_means (entry_of pool.now i) pool.now wanted.now wanted_type.now }
{
    match pool.entry(i) {
        Some(entry) => is_pair(pool, wanted, wanted_type, entry),
        None => false,
    }
}

// The class and the pair of a reference of this kind.
fn parts(kind: Kind, entry: &Constant) -> Option<(u16, u16)>
    ensures { result ≡ parts_of kind entry.now }
{
    match kind {
        Kind::Field => match entry {
            Constant::Field { class, pair } => Some((*class, *pair)),
            _ => None,
        },
        Kind::Method => match entry {
            Constant::Method { class, pair } => Some((*class, *pair)),
            _ => None,
        },
        Kind::InterfaceMethod => match entry {
            Constant::InterfaceMethod { class, pair } => Some((*class, *pair)),
            _ => None,
        },
    }
}

fn is_member(
    kind: Kind,
    pool: &Pool,
    wanted_class: &[u8],
    wanted: &[u8],
    wanted_type: &[u8],
    entry: &Constant,
) -> bool
    ensures { result ≡ member_means (parts_of kind) pool.now wanted_class.now wanted.now wanted_type.now entry.now }
{
    match parts(kind, entry) {
        Some((class, pair)) => {
            same_text(pool.class_name(class), wanted_class)
                && is_pair_at(pool, pair, wanted, wanted_type)
        }
        None => false,
    }
}

fn is_integer(n: i32, entry: &Constant) -> bool
    ensures { result ≡ means_integer n entry.now }
{
    match entry {
        Constant::Integer(m) => *m == n,
        _ => false,
    }
}

fn is_long(n: i64, entry: &Constant) -> bool
    ensures { result ≡ means_long n entry.now }
{
    match entry {
        Constant::Long(m) => *m == n,
        _ => false,
    }
}

// ---- the first of some entries that means the wanted, one by one

fn text_among(text: &[u8], entries: &[Constant]) -> Option<usize>
    ensures exact { result ≡ position (means_text text.now) entries.now }
    ensures inside { IfSome result (λ i. i < length entries.now) }
{
    entries.iter().position(|c| is_text(text, c))
}

fn class_among(pool: &Pool, name: &[u8], entries: &[Constant]) -> Option<usize>
    ensures exact { result ≡ position (class_means pool.now name.now) entries.now }
    ensures inside { IfSome result (λ i. i < length entries.now) }
{
    entries.iter().position(|c| is_class(pool, name, c))
}

fn pair_among(pool: &Pool, name: &[u8], descriptor: &[u8], entries: &[Constant]) -> Option<usize>
    ensures exact { result ≡ position (names_mean pool.now name.now descriptor.now) entries.now }
    ensures inside { IfSome result (λ i. i < length entries.now) }
{
    entries
        .iter()
        .position(|c| is_pair(pool, name, descriptor, c))
}

fn member_among(
    kind: Kind,
    pool: &Pool,
    class: &[u8],
    name: &[u8],
    descriptor: &[u8],
    entries: &[Constant],
) -> Option<usize>
    ensures exact { result ≡ position (member_means (parts_of kind) pool.now class.now name.now descriptor.now) entries.now }
    ensures inside { IfSome result (λ i. i < length entries.now) }
{
    entries
        .iter()
        .position(|c| is_member(kind, pool, class, name, descriptor, c))
}

fn integer_among(n: i32, entries: &[Constant]) -> Option<usize>
    ensures exact { result ≡ position (means_integer n) entries.now }
    ensures inside { IfSome result (λ i. i < length entries.now) }
{
    entries.iter().position(|c| is_integer(n, c))
}

fn long_among(n: i64, entries: &[Constant]) -> Option<usize>
    ensures exact { result ≡ position (means_long n) entries.now }
    ensures inside { IfSome result (λ i. i < length entries.now) }
{
    entries.iter().position(|c| is_long(n, c))
}

// ---- the first entry that means the wanted

// What the index knows, else the place among the entries that begin at `start`.
fn in_order(start: usize, known: Option<u16>, rest: Option<usize>) -> Option<usize>
    requires { IfSome rest (λ i. start + i < 65536) }
    ensures { result ≡ known_or_behind start known rest }
{
    match (known, rest) {
        (Some(i), _) => Some(i as usize),
        (None, Some(i)) => Some(start + i),
        (None, None) => None,
    }
}

pub fn first_text(pool: &Pool, text: &[u8]) -> Option<usize>
    ensures exact { result ≡ position (means_text text.now) pool.now }
    ensures inside { IfSome result (λ i. i < length pool.now) }
{
    let index = pool.index();
    let rest = text_among(text, &pool.entries()[index.count()..]);
    in_order(index.count(), index.text(text), rest)
}

pub fn first_class(pool: &Pool, name: &[u8]) -> Option<usize>
    ensures exact { result ≡ position (class_means pool.now name.now) pool.now }
    ensures inside { IfSome result (λ i. i < length pool.now) }
{
    let index = pool.index();
    let rest = class_among(pool, name, &pool.entries()[index.count()..]);
    in_order(index.count(), index.class(name), rest)
}

pub fn first_pair(pool: &Pool, name: &[u8], descriptor: &[u8]) -> Option<usize>
    ensures exact { result ≡ position (names_mean pool.now name.now descriptor.now) pool.now }
    ensures inside { IfSome result (λ i. i < length pool.now) }
{
    let index = pool.index();
    let rest = pair_among(pool, name, descriptor, &pool.entries()[index.count()..]);
    in_order(index.count(), index.pair(name, descriptor), rest)
}

pub fn first_member(
    kind: Kind,
    pool: &Pool,
    class: &[u8],
    name: &[u8],
    descriptor: &[u8],
) -> Option<usize>
    ensures exact { result ≡ position (member_means (parts_of kind) pool.now class.now name.now descriptor.now) pool.now }
    ensures inside { IfSome result (λ i. i < length pool.now) }
{
    let index = pool.index();
    let rest = member_among(
        kind,
        pool,
        class,
        name,
        descriptor,
        &pool.entries()[index.count()..],
    );
    in_order(
        index.count(),
        index.member(kind, class, name, descriptor),
        rest,
    )
}

pub fn first_integer(pool: &Pool, n: i32) -> Option<usize>
    ensures exact { result ≡ position (means_integer n) pool.now }
    ensures inside { IfSome result (λ i. i < length pool.now) }
{
    let index = pool.index();
    let rest = integer_among(n, &pool.entries()[index.count()..]);
    in_order(index.count(), index.integer(n), rest)
}

pub fn first_long(pool: &Pool, n: i64) -> Option<usize>
    ensures exact { result ≡ position (means_long n) pool.now }
    ensures inside { IfSome result (λ i. i < length pool.now) }
{
    let index = pool.index();
    let rest = long_among(n, &pool.entries()[index.count()..]);
    in_order(index.count(), index.long(n), rest)
}
