//! Instructions on numbers (JVM Specification, Java SE 7, chapter 6).
ghost use Rattle.std.specs.Prelude.{◌≡◌, ◌∷◌, IfOk};
ghost use Rattle.objects.specs.semantics.WordTypes.{narrowed as narrowed_to};
ghost use Rattle.objects.specs.declared.op.Slot.TheVariants as slot;
ghost use Rattle.objects.specs.semantics.Program.{Program as JProgram};
ghost use Rattle.objects.specs.semantics.Step.{does, converted, on_int, leaves};
ghost use Rattle.objects.specs.declared.op.Op.TheVariants as op;
ghost use Rattle.objects.specs.declared.op.Width.TheVariants as width;
ghost use Rattle.objects.specs.declared.op.Conversion.TheVariants as conversion;
ghost use Rattle.machine.specs.Meets.{Meets, CanDo};

use crate::arithmetic::{
    binary_longs, compared_longs, divided_longs, low_int, shifted_int, shifted_long, unary_int,
    unary_long,
};
use crate::failure::Failure;
use crate::frame::Frame;
use crate::value::narrowed;
use objects::op::{Binary, Conversion, Division, Doing, Shift, Slot, Trap, Unary, Width, WordType};

impl Frame {
    /// Two longs to one.
    pub(crate) fn add_longs(&mut self, b: Binary) -> Result<Doing, Failure>
        ensures does { (P : JProgram) → Meets result self.new (does P (op.Binary width.Long b) self.old) }
        ensures can { IfOk result CanDo }
        ensures place { (self.new.method ≡ self.old.method) × (self.new.pc ≡ self.old.pc) }
    {
        let y = self.stack.take_long()?;
        let x = self.stack.take_long()?;
        self.stack.push_long(binary_longs(b, x, y))?;
        Ok(Doing::Next)
    }

    /// A number of a width shifted by an int.
    pub(crate) fn shift(&mut self, width: Width, s: Shift) -> Result<Doing, Failure>
        ensures does { (P : JProgram) → Meets result self.new (does P (op.Shift width s) self.old) }
        ensures can { IfOk result CanDo }
        ensures place { (self.new.method ≡ self.old.method) × (self.new.pc ≡ self.old.pc) }
    {
        match width {
            Width::Int => self.shift_int(s),
            Width::Long => self.shift_long(s),
        }
    }

    fn shift_int(&mut self, s: Shift) -> Result<Doing, Failure>
        ensures does { (P : JProgram) → Meets result self.new (does P (op.Shift width.Int s) self.old) }
        ensures can { IfOk result CanDo }
        ensures place { (self.new.method ≡ self.old.method) × (self.new.pc ≡ self.old.pc) }
    {
        let y = self.stack.take_int()?;
        let x = self.stack.take_int()?;
        self.stack.push(Slot::Int(shifted_int(s, x, y)))?;
        Ok(Doing::Next)
    }

    fn shift_long(&mut self, s: Shift) -> Result<Doing, Failure>
        ensures does { (P : JProgram) → Meets result self.new (does P (op.Shift width.Long s) self.old) }
        ensures can { IfOk result CanDo }
        ensures place { (self.new.method ≡ self.old.method) × (self.new.pc ≡ self.old.pc) }
    {
        let y = self.stack.take_int()?;
        let x = self.stack.take_long()?;
        self.stack.push_long(shifted_long(s, x, y))?;
        Ok(Doing::Next)
    }

    /// A division or a remainder of longs, which throws where the second is 0.
    pub(crate) fn divide_longs(&mut self, d: Division) -> Result<Doing, Failure>
        ensures does { (P : JProgram) → Meets result self.new (does P (op.Divide width.Long d) self.old) }
        ensures can { IfOk result CanDo }
        ensures place { (self.new.method ≡ self.old.method) × (self.new.pc ≡ self.old.pc) }
    {
        let y = self.stack.take_long()?;
        let x = self.stack.take_long()?;
        if y == 0 {
            return Ok(Doing::Trap(Trap::Arithmetic));
        }
        self.stack.push_long(divided_longs(d, x, y))?;
        Ok(Doing::Next)
    }

    /// A number of a width to another.
    pub(crate) fn unary(&mut self, width: Width, u: Unary) -> Result<Doing, Failure>
        ensures does { (P : JProgram) → Meets result self.new (does P (op.Unary width u) self.old) }
        ensures can { IfOk result CanDo }
        ensures place { (self.new.method ≡ self.old.method) × (self.new.pc ≡ self.old.pc) }
    {
        match width {
            Width::Int => self.negate_int(u),
            Width::Long => self.negate_long(u),
        }
    }

    fn negate_int(&mut self, u: Unary) -> Result<Doing, Failure>
        ensures does { (P : JProgram) → Meets result self.new (does P (op.Unary width.Int u) self.old) }
        ensures can { IfOk result CanDo }
        ensures place { (self.new.method ≡ self.old.method) × (self.new.pc ≡ self.old.pc) }
    {
        let x = self.stack.take_int()?;
        self.stack.push(Slot::Int(unary_int(u, x)))?;
        Ok(Doing::Next)
    }

    fn negate_long(&mut self, u: Unary) -> Result<Doing, Failure>
        ensures does { (P : JProgram) → Meets result self.new (does P (op.Unary width.Long u) self.old) }
        ensures can { IfOk result CanDo }
        ensures place { (self.new.method ≡ self.old.method) × (self.new.pc ≡ self.old.pc) }
    {
        let x = self.stack.take_long()?;
        self.stack.push_long(unary_long(u, x))?;
        Ok(Doing::Next)
    }

    /// A number to one of another type.
    pub(crate) fn convert(&mut self, c: Conversion) -> Result<Doing, Failure>
        ensures does { Meets result self.new (converted c self.old) }
        ensures can { IfOk result CanDo }
        ensures place { (self.new.method ≡ self.old.method) × (self.new.pc ≡ self.old.pc) }
    {
        match c {
            Conversion::IntToByte => self.narrow(WordType::Byte),
            Conversion::IntToChar => self.narrow(WordType::Char),
            Conversion::IntToShort => self.narrow(WordType::Short),
            Conversion::IntToLong => self.int_to_long(),
            Conversion::LongToInt => self.long_to_int(),
        }
    }

    fn narrow(&mut self, word_type: WordType) -> Result<Doing, Failure>
        ensures does { Meets result self.new (on_int self.old.stack (λ x s. leaves self.old (slot.Int (narrowed_to word_type x) ∷ s))) }
        ensures can { IfOk result CanDo }
        ensures place { (self.new.method ≡ self.old.method) × (self.new.pc ≡ self.old.pc) }
    {
        let x = self.stack.take_int()?;
        self.stack.push(Slot::Int(narrowed(word_type, x)))?;
        Ok(Doing::Next)
    }

    fn int_to_long(&mut self) -> Result<Doing, Failure>
        ensures does { Meets result self.new (converted conversion.IntToLong self.old) }
        ensures can { IfOk result CanDo }
        ensures place { (self.new.method ≡ self.old.method) × (self.new.pc ≡ self.old.pc) }
    {
        let x = self.stack.take_int()?;
        self.stack.push_long(i64::from(x))?;
        Ok(Doing::Next)
    }

    fn long_to_int(&mut self) -> Result<Doing, Failure>
        ensures does { Meets result self.new (converted conversion.LongToInt self.old) }
        ensures can { IfOk result CanDo }
        ensures place { (self.new.method ≡ self.old.method) × (self.new.pc ≡ self.old.pc) }
    {
        let x = self.stack.take_long()?;
        self.stack.push(Slot::Int(low_int(x)))?;
        Ok(Doing::Next)
    }

    /// Two longs to -1, 0 or 1.
    pub(crate) fn compare_longs(&mut self) -> Result<Doing, Failure>
        ensures does { (P : JProgram) → Meets result self.new (does P op.CompareLongs self.old) }
        ensures can { IfOk result CanDo }
        ensures place { (self.new.method ≡ self.old.method) × (self.new.pc ≡ self.old.pc) }
    {
        let y = self.stack.take_long()?;
        let x = self.stack.take_long()?;
        self.stack.push(Slot::Int(compared_longs(x, y)))?;
        Ok(Doing::Next)
    }
}
