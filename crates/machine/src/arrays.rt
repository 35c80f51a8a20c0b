//! Instructions on objects and arrays (JVM Specification, Java SE 7, section 6.5).
ghost use Rattle.std.specs.Prelude.{◌≡◌, IfOk, ℕ, List};
ghost use Rattle.objects.specs.semantics.Program.{Program as JProgram};
ghost use Rattle.objects.specs.semantics.Step.{does};
ghost use Rattle.objects.specs.declared.op.WordType.{WordType as WordTypes};
ghost use Rattle.objects.specs.declared.op.Op.TheVariants as op;
ghost use Rattle.machine.specs.Meets.{Meets, CanDo};

use crate::failure::Failure;
use crate::frame::Frame;
use crate::stack::sort_of;
use hierarchy::program::Program;
use jmodel::Bytes;
use objects::op::{Doing, Element, Slot, Trap, Use, WordType};
use std::alloc::Global;

impl Frame {
    /// A new array of a type, whose length is on the stack.
    pub(crate) fn new_array(&mut self, of: usize) -> Result<Doing, Failure>
        ensures does { (P : JProgram) → Meets result self.new (does P (op.NewArray of) self.old) }
        ensures can { IfOk result CanDo }
        ensures place { (self.new.method ≡ self.old.method) × (self.new.pc ≡ self.old.pc) }
    {
        let length = self.stack.take_int()?;
        match u64::try_from(length) {
            Ok(length) => Ok(Doing::Make(of, length)),
            Err(_) => Ok(Doing::Trap(Trap::NegativeArraySize)),
        }
    }

    /// The length of an array.
    pub(crate) fn array_length(&mut self) -> Result<Doing, Failure>
        ensures does { (P : JProgram) → Meets result self.new (does P op.ArrayLength self.old) }
        ensures can { IfOk result CanDo }
        ensures place { (self.new.method ≡ self.old.method) × (self.new.pc ≡ self.old.pc) }
    {
        let measured = self.stack.take_ref()?;
        if measured == 0 {
            return Ok(Doing::Trap(Trap::NullPointer));
        }
        Ok(Doing::Head(measured, Use::Measures))
    }

    /// A plain load of an element.
    pub(crate) fn load_element(&mut self) -> Result<Doing, Failure>
        ensures does { (P : JProgram) (t : WordTypes) → Meets result self.new (does P (op.LoadElement t) self.old) }
        ensures can { IfOk result CanDo }
        ensures place { (self.new.method ≡ self.old.method) × (self.new.pc ≡ self.old.pc) }
    {
        let index = self.stack.take_int()?;
        let array = self.stack.take_ref()?;
        if array == 0 {
            return Ok(Doing::Trap(Trap::NullPointer));
        }
        Ok(Doing::Head(array, Use::Indexes(index, Element::Load)))
    }

    /// A plain store of an element.
    pub(crate) fn store_element(&mut self, word_type: WordType) -> Result<Doing, Failure>
        ensures does { (P : JProgram) → Meets result self.new (does P (op.StoreElement word_type) self.old) }
        ensures can { IfOk result CanDo }
        ensures place { (self.new.method ≡ self.old.method) × (self.new.pc ≡ self.old.pc) }
    {
        let value = self.stack.take_value(sort_of(word_type))?;
        let index = self.stack.take_int()?;
        let array = self.stack.take_ref()?;
        if array == 0 {
            return Ok(Doing::Trap(Trap::NullPointer));
        }
        Ok(Doing::Head(array, Use::Indexes(index, Element::Store(value))))
    }

    /// A cast to a class, which lets null pass.
    pub(crate) fn check_cast(&mut self, alloc: Global, class: &Bytes) -> Result<Doing, Failure>
        ensures does { (P : JProgram) → Meets result self.new (does P (op.CheckCast class.now) self.old) }
        ensures can { IfOk result CanDo }
        ensures place { (self.new.method ≡ self.old.method) × (self.new.pc ≡ self.old.pc) }
    {
        let object = self.stack.top_ref()?;
        if object == 0 {
            return Ok(Doing::Next);
        }
        Ok(Doing::Head(object, Use::Casts(class.copy(alloc)?)))
    }

    /// Whether an object is an instance of a class, which null isn't.
    pub(crate) fn instance_of(&mut self, alloc: Global, class: &Bytes) -> Result<Doing, Failure>
        ensures does { (P : JProgram) → Meets result self.new (does P (op.InstanceOf class.now) self.old) }
        ensures can { IfOk result CanDo }
        ensures place { (self.new.method ≡ self.old.method) × (self.new.pc ≡ self.old.pc) }
    {
        let object = self.stack.take_ref()?;
        if object == 0 {
            self.stack.push(Slot::Int(0))?;
            return Ok(Doing::Next);
        }
        Ok(Doing::Head(object, Use::Tests(class.copy(alloc)?)))
    }

    /// Throws an exception, by its type where the method's frames count.
    pub(crate) fn throw(&mut self, program: &Program) -> Result<Doing, Failure>
        ensures does { Meets result self.new (does program.now op.Throw self.old) }
        ensures can { IfOk result CanDo }
        ensures place { (self.new.method ≡ self.old.method) × (self.new.pc ≡ self.old.pc) }
    {
        let object = self.stack.take_ref()?;
        if object == 0 {
            return Ok(Doing::Trap(Trap::NullPointer));
        }
        if self.is_counted(program) {
            Ok(Doing::Raise(object))
        } else {
            Ok(Doing::Throw(object))
        }
    }
}
