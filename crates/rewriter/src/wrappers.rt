//! The wrappers of a class's methods.
ghost use Rattle.std.specs.Prelude.{◌≡◌, ◌<◌, ◌^◌, length, zip, option_copied};
ghost use Rattle.member_code.specs.Growing.{Becomes};
ghost use Rattle.rewriter.specs.Rewritten.{wrapped_if, wrapped_from};

use crate::share::Share;
use const_pool::ClassFile;
use hierarchy::{Method, Program, is_root, retries_of};
use jmodel::Halt;
use retry_wrapper::wrap;
use std::alloc::Global;

// A method of the program that may make so many attempts gets its wrapper; any other stays as it is.
fn wrap_if(
    alloc: Global,
    number: usize,
    attempts: Option<i32>,
    method: Option<&Method>,
    rewritten: &mut ClassFile,
    index: usize,
) -> Result<(), Halt>
    ensures { Becomes result rewritten.new (wrapped_if number attempts (option_copied method.entry) rewritten.old index) }
{
    match (attempts, method) {
        (Some(n), Some(k)) => wrap(alloc, k, number, n, rewritten, index),
        _ => Ok(()),
    }
}

/// Puts wrappers in the places of a class's marked methods and its static initialiser.
pub fn wrap_each(
    alloc: Global,
    program: &Program,
    class: &ClassFile,
    share: &Share<'_>,
    rewritten: &mut ClassFile,
) -> Result<(), Halt>
    requires flags { length share.now.flags ≡ length class.now.methods }
    requires number { share.now.first < 2 ^ 63 }
    requires wrapper { share.now.wrapper < 2 ^ 63 }
    ensures { Becomes result rewritten.new (wrapped_from program.now class.now.pool 0 share.now.first share.now.wrapper (zip class.now.methods share.now.flags) rewritten.old) }
{
    let mut number = share.first();
    let mut wrapper = share.wrapper();
    let flags = share.flags();
    let methods = class.methods.as_slice();
    for (i, member) in methods.iter().enumerate() {
        let is_taken = flags[i];
        let attempts = retries_of(&class.pool, member);
        let method = program.method(number);
        wrap_if(alloc, wrapper, attempts, method, rewritten, i)?;
        number += usize::from(is_taken);
        wrapper += usize::from(is_root(&class.pool, member));
    }
    Ok(())
}
