//! A method of an original program, with what its class's file has of it, and a typing of it.
ghost use Rattle.std.specs.Prelude.{◌≡◌, ◌≤◌, option_copied, slice_get};
ghost use Rattle.objects.specs.typing.Typing.{types_at};

use const_pool::{ClassFile, Member};
use hierarchy::{Method, Program, TypeEntry, Typing};
use objects::op::Op;
use std::marker::Model;

/// A method of a program, its class's file as it was read, with the member that this file has for the method, and a typing of the method:
/// an empty one, where it has no code.
#[derive(Drop)]
pub struct Original<'a> {
    pub program: &'a Program,
    pub class: &'a ClassFile,
    pub member: &'a Member,
    pub method: &'a Method,
    pub typing: &'a Typing,
}

impl<'a> Model for Original<'a> {
    ghost use Rattle.dup_methods.specs.Originals.{Original as Form};

    ghost Value = { Form };

    ghost view = { λ o. record { program = o.program.now; class = o.class.now; member = o.member.now; method = o.method.now; table = o.typing.now } };
}

impl<'a> Original<'a> {
    /// The local of the context in the duplicate: how many places the parameters have.
    pub(crate) fn context(&self) -> u16
        requires { self.now.method.places ≤ 254 }
        ensures { result ≡ self.now.method.places }
    {
        self.method.entry().places as u16
    }

    /// The instruction with a number.
    pub(crate) fn op(&self, n: usize) -> Option<&'a Op>
        ensures { option_copied result ≡ slice_get self.now.method.ops n }
    {
        self.method.op(n)
    }

    /// The types before the instruction with a number, where the typing has some.
    pub(crate) fn types(&self, n: usize) -> Option<&'a TypeEntry>
        ensures { option_copied result ≡ types_at self.now.table n }
    {
        self.typing.at(n)
    }
}
