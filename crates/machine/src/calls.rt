//! Instructions that call methods (JVM Specification, Java SE 7, section 6.5).
ghost use Rattle.std.specs.Prelude.{◌≡◌, IfOk, MatchResult, Some, None, ℕ, List};
ghost use Rattle.objects.specs.semantics.Program.{Program as JProgram, method_at, has_code};
ghost use Rattle.objects.specs.semantics.Step.{Frame as JFrame, Did, Does, does, receiver, runs as runs_of, slot_in, ref_in};
ghost use Rattle.objects.specs.declared.op.Op.TheVariants as op;
ghost use Rattle.objects.specs.declared.op.Slot.TheVariants as slot;
ghost use Rattle.machine.specs.declared.failure.Failure.TheVariants as failure;
ghost use Rattle.machine.specs.Meets.{Meets, Lacks, CanDo};

use crate::failure::Failure;
use crate::frame::Frame;
use hierarchy::program::{Method, Program};
use jmodel::Bytes;
use objects::op::{Doing, Slot, Trap, Use};
use std::alloc::Global;

/// The method of a number, or `Wrong` where the program has none.
pub(crate) fn method_of(program: &Program, number: usize) -> Result<&Method, Failure>
    ensures { MatchResult result (λ m. method_at program.now number ≡ Some m.now) (λ e. (e ≡ failure.Wrong) × (method_at program.now number ≡ None)) }
{
    match program.method(number) {
        Some(method) => Ok(method),
        None => Err(Failure::Wrong),
    }
}

/// What a call of a method does by its name: one without code is abstract.
fn runs(method: &Method, number: usize) -> Doing
    ensures does { (f : JFrame) → runs_of (has_code (Some method.now)) number f ≡ Does result f }
    ensures can { CanDo result }
{
    if method.has_code() {
        Doing::Invoke(number)
    } else {
        Doing::Trap(Trap::AbstractMethod)
    }
}

impl Frame {
    /// The object of a call of a method, below the other arguments, or `Wrong` where there is none.
    fn receiver(&self, method: &Method) -> Result<u64, Failure>
        ensures { MatchResult result (λ o. receiver method.now self.now.stack ≡ Some (slot.Ref o)) (λ e. Lacks e (λ (k : ℕ → Did). slot_in (receiver method.now self.now.stack) (λ v. ref_in v k))) }
    {
        match self.stack.peek(method.entry().places.saturating_sub(1)) {
            Some(Slot::Ref(object)) => Ok(object),
            _ => Err(Failure::Wrong),
        }
    }

    #[inline(always)]
    pub(crate) fn invoke_static(&mut self, program: &Program, n: usize) -> Result<Doing, Failure>
        ensures does { Meets result self.new (does program.now (op.InvokeStatic n) self.old) }
        ensures can { IfOk result CanDo }
        ensures place { (self.new.method ≡ self.old.method) × (self.new.pc ≡ self.old.pc) }
    {
        let method = method_of(program, n)?;
        Ok(runs(method, n))
    }

    pub(crate) fn invoke_special(&mut self, program: &Program, n: usize) -> Result<Doing, Failure>
        ensures does { Meets result self.new (does program.now (op.InvokeSpecial n) self.old) }
        ensures can { IfOk result CanDo }
        ensures place { (self.new.method ≡ self.old.method) × (self.new.pc ≡ self.old.pc) }
    {
        let method = method_of(program, n)?;
        if self.receiver(method)? == 0 {
            return Ok(Doing::Trap(Trap::NullPointer));
        }
        Ok(runs(method, n))
    }

    pub(crate) fn invoke_virtual(&mut self, program: &Program, n: usize) -> Result<Doing, Failure>
        ensures does { (class : List ℕ) → Meets result self.new (does program.now (op.InvokeVirtual n class) self.old) }
        ensures can { IfOk result CanDo }
        ensures place { (self.new.method ≡ self.old.method) × (self.new.pc ≡ self.old.pc) }
    {
        let method = method_of(program, n)?;
        let object = self.receiver(method)?;
        if object == 0 {
            return Ok(Doing::Trap(Trap::NullPointer));
        }
        Ok(Doing::Head(object, Use::Selects(n)))
    }

    pub(crate) fn invoke_interface(
        &mut self,
        alloc: Global,
        program: &Program,
        n: usize,
        interface: &Bytes,
    ) -> Result<Doing, Failure>
        ensures does { Meets result self.new (does program.now (op.InvokeInterface n interface.now) self.old) }
        ensures can { IfOk result CanDo }
        ensures place { (self.new.method ≡ self.old.method) × (self.new.pc ≡ self.old.pc) }
    {
        let method = method_of(program, n)?;
        let object = self.receiver(method)?;
        if object == 0 {
            return Ok(Doing::Trap(Trap::NullPointer));
        }
        let interface = interface.copy(alloc)?;
        Ok(Doing::Head(
            object,
            Use::Implements {
                method: n,
                interface,
            },
        ))
    }

    /// A constructor of a library class, which does nothing: drops its arguments, of so many places, and the object.
    pub(crate) fn init_library(&mut self, places: usize) -> Result<Doing, Failure>
        ensures does { (P : JProgram) (class : List ℕ) → Meets result self.new (does P (op.InitLibrary class places) self.old) }
        ensures can { IfOk result CanDo }
        ensures place { (self.new.method ≡ self.old.method) × (self.new.pc ≡ self.old.pc) }
    {
        self.stack.drop_slots(places)?;
        self.stack.take_ref()?;
        Ok(Doing::Next)
    }
}
