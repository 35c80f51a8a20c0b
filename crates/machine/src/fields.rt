//! Instructions that read and write fields (JVM Specification, Java SE 7, chapter 6).
ghost use Rattle.std.specs.Prelude.{◌≡◌, ℕ, List, IfOk, MatchResult, Some, None};
ghost use Rattle.objects.specs.semantics.Program.{field_at};
ghost use Rattle.objects.specs.semantics.Step.{does, inner as inner_of};
ghost use Rattle.objects.specs.declared.op.Op.TheVariants as op;
ghost use Rattle.machine.specs.declared.failure.Failure.TheVariants as failure;
ghost use Rattle.machine.specs.Meets.{Meets, CanDo};

use crate::failure::Failure;
use crate::frame::Frame;
use hierarchy::program::{Field, Program};
use objects::op::{Doing, Place, Request, Trap, WordType};

/// The field of a number, or `Wrong` where the program has none.
fn field_of(program: &Program, number: usize) -> Result<&Field, Failure>
    ensures { MatchResult result (λ f. field_at program.now number ≡ Some f.now) (λ e. (e ≡ failure.Wrong) × (field_at program.now number ≡ None)) }
{
    match program.field(number) {
        Some(field) => Ok(field),
        None => Err(Failure::Wrong),
    }
}

/// The reference of the static fields of a field's class, or `Wrong` where it is none of them.
fn base_of(field: &Field) -> Result<u64, Failure>
    ensures { MatchResult result (λ o. field.now.base ≡ Some o) (λ e. (e ≡ failure.Wrong) × (field.now.base ≡ None)) }
{
    match field.base {
        Some(base) => Ok(base),
        None => Err(Failure::Wrong),
    }
}

/// The type of a field's word.
fn word_type_of(field: &Field) -> WordType
    ensures { result ≡ field.now.declared.word }
{
    field.declared.word
}

/// The place of a field's value in an object. A field whose place has no number of 64 bits has no memory.
fn inner(object: u64, field: &Field) -> Result<Place, Failure>
    ensures { MatchResult result (λ p. p ≡ inner_of object field.now) (λ e. e ≡ failure.NoMemory) }
{
    match field.index.checked_add(1) {
        Some(index) => Ok(Place { object, index }),
        None => Err(Failure::NoMemory),
    }
}

impl Frame {
    pub(crate) fn get_static(&mut self, program: &Program, n: usize) -> Result<Doing, Failure>
        ensures does { Meets result self.new (does program.now (op.GetStatic n) self.old) }
        ensures can { IfOk result CanDo }
        ensures place { (self.new.method ≡ self.old.method) × (self.new.pc ≡ self.old.pc) }
    {
        let field = field_of(program, n)?;
        let base = base_of(field)?;
        let place = inner(base, field)?;
        Ok(Doing::Ask(Request::Get(place)))
    }

    pub(crate) fn put_static(&mut self, program: &Program, n: usize) -> Result<Doing, Failure>
        ensures does { Meets result self.new (does program.now (op.PutStatic n) self.old) }
        ensures can { IfOk result CanDo }
        ensures place { (self.new.method ≡ self.old.method) × (self.new.pc ≡ self.old.pc) }
    {
        let field = field_of(program, n)?;
        let base = base_of(field)?;
        let value = self.stack.take_word(word_type_of(field))?;
        let place = inner(base, field)?;
        Ok(Doing::Ask(Request::Put(place, value)))
    }

    pub(crate) fn get_field(&mut self, program: &Program, n: usize) -> Result<Doing, Failure>
        ensures does { (class : List ℕ) → Meets result self.new (does program.now (op.GetField n class) self.old) }
        ensures can { IfOk result CanDo }
        ensures place { (self.new.method ≡ self.old.method) × (self.new.pc ≡ self.old.pc) }
    {
        let field = field_of(program, n)?;
        let object = self.stack.take_ref()?;
        if object == 0 {
            return Ok(Doing::Trap(Trap::NullPointer));
        }
        let place = inner(object, field)?;
        Ok(Doing::Ask(Request::Get(place)))
    }

    pub(crate) fn put_field(&mut self, program: &Program, n: usize) -> Result<Doing, Failure>
        ensures does { (class : List ℕ) → Meets result self.new (does program.now (op.PutField n class) self.old) }
        ensures can { IfOk result CanDo }
        ensures place { (self.new.method ≡ self.old.method) × (self.new.pc ≡ self.old.pc) }
    {
        let field = field_of(program, n)?;
        let value = self.stack.take_word(word_type_of(field))?;
        let object = self.stack.take_ref()?;
        if object == 0 {
            return Ok(Doing::Trap(Trap::NullPointer));
        }
        let place = inner(object, field)?;
        Ok(Doing::Ask(Request::Put(place, value)))
    }
}
