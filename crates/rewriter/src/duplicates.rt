//! The duplicates of a class's methods.
ghost use Rattle.std.specs.Prelude.{◌≡◌, ◌-◌, List, zip};
ghost use Rattle.std.specs.List.{AllZip};
ghost use Rattle.objects.specs.typing.Typing.{Table};
ghost use Rattle.field_members.specs.Accessors.{room_in as room_of};
ghost use Rattle.member_code.specs.Growing.{Grows, Becomes, grow_from};
ghost use Rattle.dup_methods.specs.Duplicates.{duplicate_of as duplicate};
ghost use Rattle.program_typing.specs.Tables.{IsTableOf};
ghost use Rattle.rewriter.specs.Asked.{IsReady, IsShare};
ghost use Rattle.rewriter.specs.Rewritten.{originals, with_duplicates};

use crate::share::Share;
use crate::typed::Typed;
use const_pool::{ClassFile, Member, Pool};
use dup_methods::{Original, duplicate_of};
use jmodel::Halt;
use std::alloc::Global;

// The duplicates of a class's methods, in a class that has room for so many more.
fn duplicate_each(
    alloc: Global,
    pool: &mut Pool,
    typed: &Typed<'_>,
    class: &ClassFile,
    share: &Share<'_>,
    room: usize,
) -> Result<Vec<Member>, Halt>
    requires ready { IsReady typed.now.program.now typed.now.typings.now }
    requires share { IsShare typed.now.program.now class.now share.now }
    ensures { (Ts : List Table) → AllZip (IsTableOf typed.now.program.now) share.now.methods Ts → Grows (λ v. v.items) result pool.new (grow_from (λ n O. duplicate (room - n) O) 0 (originals typed.now.program.now class.now (zip share.now.methods share.now.members) Ts) pool.old) }
{
    let mut copies = Vec::new(alloc);
    let methods = share.methods();
    let members = share.members();
    for (i, method) in methods.iter().enumerate() {
        let number = share.first() + i;
        let original = Original {
            program: typed.program,
            class,
            member: members[i],
            method,
            typing: &typed.typings[number],
        };
        let left = room.saturating_sub(i);
        copies.push(duplicate_of(alloc, pool, &original, left)?)?;
    }
    Ok(copies)
}

// How many more methods a class has room for.
fn room_in(class: &ClassFile) -> usize
    ensures { result ≡ room_of class.now }
{
    65535usize.saturating_sub(class.methods.len())
}

/// Adds to a class the duplicates of its methods, which are the share's.
pub fn add_duplicates(
    alloc: Global,
    typed: &Typed<'_>,
    class: &ClassFile,
    share: &Share<'_>,
    rewritten: &mut ClassFile,
) -> Result<(), Halt>
    requires ready { IsReady typed.now.program.now typed.now.typings.now }
    requires share { IsShare typed.now.program.now class.now share.now }
    ensures { (Ts : List Table) → AllZip (IsTableOf typed.now.program.now) share.now.methods Ts → Becomes result rewritten.new (with_duplicates (originals typed.now.program.now class.now (zip share.now.methods share.now.members) Ts) rewritten.old) }
{
    let room = room_in(rewritten);
    let pool = &mut rewritten.pool;
    let mut added = duplicate_each(alloc, pool, typed, class, share, room)?;
    rewritten.methods.append(&mut added)?;
    Ok(())
}
