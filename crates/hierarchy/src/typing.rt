//! Tables of the types of the places of frames (JVM Specification, Java SE 7, section 4.10.1.2).
ghost use Rattle.std.specs.Prelude.{◌≡◌, IfOk, option_copied};
ghost use Rattle.objects.specs.typing.Typing.{types_at};

use std::alloc::AllocError;
use std::marker::Model;
use type_lists::{TypeStack, TypeTree};

/// The types before one instruction.
pub struct TypeEntry {
    locals: TypeTree,
    stack: TypeStack,
    built: bool,
}

impl Drop for TypeEntry {
    fn drop(self) {
        let Self {
            locals: _,
            stack: _,
            built: _,
        } = self;
    }
}

impl Model for TypeEntry {
    ghost use Rattle.objects.specs.typing.Typing.{Types};

    ghost Value = { Types };

    ghost view = { λ e. record { locals = e.locals; stack = e.stack; built = e.built } };
}

impl TypeEntry {
    /// The types of the locals, and of the operand stack, the topmost first. In a constructor `built` says whether another has run over
    /// its object.
    pub fn new(locals: TypeTree, stack: TypeStack, built: bool) -> Self
        ensures { result ≡ record { locals = locals; stack = stack; built = built } }
    {
        TypeEntry {
            locals,
            stack,
            built,
        }
    }

    /// The types once more, in the same memory.
    pub fn share(&self) -> Result<Self, AllocError>
        ensures { IfOk result (λ e. e ≡ self.now) }
    {
        Ok(TypeEntry::new(self.locals.share()?, self.stack.share()?, self.built))
    }

    /// The types of the locals.
    pub fn locals(&self) -> &TypeTree
        ensures { result.now ≡ self.now.locals }
    {
        &self.locals
    }

    /// The types of the operand stack, the topmost first.
    pub fn stack(&self) -> &TypeStack
        ensures { result.now ≡ self.now.stack }
    {
        &self.stack
    }

    /// Whether the object of a constructor is built.
    pub fn built(&self) -> bool
        ensures { result ≡ self.now.built }
    {
        self.built
    }
}

/// A table of types: at each place, counted in instructions, those before its instruction, or none.
#[derive(Drop)]
pub struct Typing {
    entries: Vec<Option<TypeEntry>>,
}

impl Model for Typing {
    ghost use Rattle.objects.specs.typing.Typing.{Table};

    ghost Value = { Table };

    ghost view = { λ t. t.entries.items };
}

impl Typing {
    /// A table of these entries.
    pub fn from_vec(entries: Vec<Option<TypeEntry>>) -> Self
        ensures { result ≡ entries.items }
    {
        Typing { entries }
    }

    /// The entries, each at its place.
    pub fn entries(&self) -> &[Option<TypeEntry>]
        ensures { result.now ≡ self.now }
    {
        self.entries.as_slice()
    }

    /// The types before the instruction at a place, if the table has some.
    pub fn at(&self, pc: usize) -> Option<&TypeEntry>
        ensures { option_copied result ≡ types_at self.now pc }
    {
        self.entries.get(pc)?.as_ref()
    }
}
