//! Lists of fields and of methods, each behind its count (JVM Specification, Java SE 7, sections 4.1, 4.5 and 4.6).
ghost use Rattle.std.specs.Prelude.{◌≡◌};
ghost use Rattle.jmodel.specs.format.Reading.{Gives};
ghost use Rattle.jmodel.specs.format.ClassFileReading.{members_at as members};
ghost use Rattle.const_pool.specs.Uses.{uses_of};
ghost use Rattle.class_reader.specs.Heads.{read_as};

use crate::members::field_at;
use crate::methods::method_at;
use const_pool::fields::u2_at;
use const_pool::{Descriptors, Member, Pool};
use jmodel::Halt;
use std::alloc::Global;

/// What a member is read as.
#[derive(Clone, Copy)]
pub enum MemberKind {
    Field,
    Method,
}

fn member_at(
    alloc: Global,
    pool: &Pool,
    known: &Descriptors,
    kind: MemberKind,
    bytes: &[u8],
    at: usize,
) -> Result<(Member, usize), Halt>
    requires { known.now ≡ uses_of pool.now }
    ensures { Gives (λ x. x) result (read_as kind pool.now bytes.now at) }
{
    match kind {
        MemberKind::Field => field_at(alloc, pool, known, bytes, at),
        MemberKind::Method => method_at(alloc, pool, known, bytes, at),
    }
}

/// The members behind their count, and the place after them.
#[tactic(auto, unfolding(jmodel::specs::format::ClassFileReading::members_at))]
pub fn members_at(
    alloc: Global,
    pool: &Pool,
    known: &Descriptors,
    kind: MemberKind,
    bytes: &[u8],
    at: usize,
) -> Result<(Vec<Member>, usize), Halt>
    requires { known.now ≡ uses_of pool.now }
    ensures { Gives (λ x. (x.0.items, x.1)) result (members (read_as kind pool.now bytes.now) bytes.now at) }
{
    let (count, start) = u2_at(bytes, at)?;
    let mut items = Vec::new(alloc);
    let mut at = start;
    for _ in 0..count {
        let (item, after) = member_at(alloc, pool, known, kind, bytes, at)?;
        items.push(item)?;
        at = after;
    }
    Ok((items, at))
}
