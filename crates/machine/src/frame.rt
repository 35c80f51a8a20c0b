//! A frame (JVM Specification, Java SE 7, section 2.6).
ghost use Rattle.std.specs.Prelude.{◌≡◌, ◌∷◌, [], OnOk, ◌-◌, ◌++◌, replicate, ◌+◌, ◌<◌, ◌^◌};
ghost use Rattle.objects.specs.semantics.Step.{next};

use crate::failure::Failure;
use crate::stack::{Locals, Stack};
use hierarchy::program::{Entry, Program};
use jmodel::value::Value;
use objects::op::Slot;
use std::alloc::{AllocError, Global};
use std::marker::Model;

/// A frame. A caller's place is that of its call.
pub struct Frame {
    pub method: usize,
    pub pc: usize,
    pub locals: Locals,
    pub stack: Stack,
}

impl Drop for Frame {
    fn drop(self) {
        let Self {
            method: _,
            pc: _,
            locals: _,
            stack: _,
        } = self;
    }
}

impl Model for Frame {
    ghost use Rattle.objects.specs.semantics.Step.{Frame as JFrame};

    ghost Value = { JFrame };

    ghost view = { λ f. record { method = f.method; pc = f.pc; locals = f.locals; stack = f.stack } };
}

impl Frame {
    ghost use Rattle.objects.specs.declared.op.Slot.TheVariants as slot;
    ghost use Rattle.objects.specs.semantics.Step.{with_stack};
    ghost use Rattle.objects.specs.semantics.Program.{is_counted};
    ghost use Rattle.objects.specs.semantics.Value.{pushed, slots_of};
    ghost use Rattle.std.specs.List.{flat_map};
    ghost use Rattle.objects.specs.declared.op.Slot.{Slot as JSlot};
    ghost use Rattle.machine.specs.Meets.{IsEntered};

    /// A frame of no method. No memory.
    pub(crate) fn empty(alloc: Global) -> Self {
        Frame {
            method: 0,
            pc: 0,
            locals: Locals::new(alloc),
            stack: Stack::new(alloc),
        }
    }

    /// Becomes the frame at the start of a method, with these arguments.
    pub fn start(&mut self, method: usize, entry: Entry, args: &[Value]) -> Result<(), AllocError>
        ensures { OnOk result (self.new ≡ record { method = method; pc = 0; locals = flat_map slots_of args.now ++ replicate (entry.locals - entry.places) slot.Empty; stack = [] }) }
    {
        self.method = method;
        self.pc = 0;
        self.stack.clear();
        self.locals.set_values(args)?;
        self.locals
            .add_empty(entry.locals.saturating_sub(entry.places))
    }

    /// Becomes the frame at the start of a method, whose arguments it takes from its caller's stack. `Wrong` where these are too few.
    #[inline(always)]
    pub(crate) fn enter(
        &mut self,
        method: usize,
        entry: Entry,
        from: &mut Stack,
    ) -> Result<(), Failure>
        ensures { IsEntered method entry.places (entry.locals - entry.places) from.old from.new self.new result }
    {
        self.method = method;
        self.pc = 0;
        self.stack.clear();
        self.locals.take_args(from, entry.places)?;
        self.locals
            .add_empty(entry.locals.saturating_sub(entry.places))?;
        Ok(())
    }

    /// Makes room on the stack for so many slots in all.
    #[inline(always)]
    pub(crate) fn make_room(&mut self, slots: usize) -> Result<(), AllocError>
        ensures { self.new ≡ self.old }
    {
        if self.stack.is_below(slots) {
            self.stack.make_room(slots)?;
        }
        Ok(())
    }

    /// Becomes the same as another frame, with slots of its own.
    pub fn set_copy(&mut self, from: &Frame) -> Result<(), AllocError>
        ensures { OnOk result (self.new ≡ from.now) }
    {
        self.method = from.method;
        self.pc = from.pc;
        self.locals.set_copy(&from.locals)?;
        self.stack.set_copy(&from.stack)
    }

    /// Whether the frame counts.
    pub fn is_counted(&self, program: &Program) -> bool
        ensures { result ≡ is_counted program.now self.now.method }
    {
        program.is_counted(self.method)
    }

    /// Goes on to another instruction.
    pub fn jump(&mut self, to: usize)
        ensures { self.new ≡ record self.old { pc = to } }
    {
        self.pc = to;
    }

    /// Enters an exception handler, whose stack has the exception alone.
    pub fn enter_handler(&mut self, exception: u64) -> Result<(), AllocError>
        ensures { OnOk result (self.new ≡ with_stack self.old (slot.Ref exception ∷ [])) }
    {
        self.stack.clear();
        self.stack.push(Slot::Ref(exception))
    }

    /// Goes on to the next instruction, with a slot on the stack.
    pub fn resume(&mut self, slot: Slot) -> Result<(), AllocError>
        requires { self.old.pc + 1 < 2 ^ 64 }
        ensures { OnOk result (self.new ≡ next (with_stack self.old (slot ∷ self.old.stack))) }
    {
        self.stack.push(slot)?;
        self.advance();
        Ok(())
    }

    /// Goes on to the next instruction, with a value on the stack.
    #[inline(always)]
    pub fn resume_with(&mut self, value: Value) -> Result<(), AllocError>
        requires { self.old.pc + 1 < 2 ^ 64 }
        ensures { OnOk result (self.new ≡ next (with_stack self.old (pushed value self.old.stack))) }
    {
        self.stack.push_value(value)?;
        self.advance();
        Ok(())
    }

    /// Goes on to the next instruction.
    pub fn advance(&mut self)
        requires { self.old.pc + 1 < 2 ^ 64 }
        ensures { self.new ≡ next self.old }
    {
        self.pc += 1;
    }
}
