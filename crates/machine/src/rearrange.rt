//! What rearranges the operand stack (JVM Specification, Java SE 7, chapter 6: pop, pop2, dup, dup_x1, dup_x2, dup2,
//! dup2_x1, dup2_x2, swap).
ghost use Rattle.std.specs.Prelude.{◌≡◌, IfOk};
ghost use Rattle.objects.specs.semantics.Step.{rearranged};
ghost use Rattle.objects.specs.declared.op.StackOp.TheVariants as stack_op;
ghost use Rattle.machine.specs.Meets.{Meets, CanDo};

use crate::failure::Failure;
use crate::frame::Frame;
use objects::op::{Doing, StackOp};

impl Frame {
    /// Rearranges the stack. `Wrong` where it has too few slots.
    pub fn rearrange(&mut self, op: StackOp) -> Result<Doing, Failure>
        ensures does { Meets result self.new (rearranged op self.old) }
        ensures can { IfOk result CanDo }
        ensures place { (self.new.method ≡ self.old.method) × (self.new.pc ≡ self.old.pc) }
    {
        match op {
            StackOp::Nop => Ok(Doing::Next),
            StackOp::Pop => self.pop(),
            StackOp::Pop2 => self.pop2(),
            StackOp::Dup => self.dup(),
            StackOp::DupX1 => self.dup_x1(),
            StackOp::DupX2 => self.dup_x2(),
            StackOp::Dup2 => self.dup2(),
            StackOp::Dup2X1 => self.dup2_x1(),
            StackOp::Dup2X2 => self.dup2_x2(),
            StackOp::Swap => self.swap(),
        }
    }

    /// Without the topmost slot.
    fn pop(&mut self) -> Result<Doing, Failure>
        ensures does { Meets result self.new (rearranged stack_op.Pop self.old) }
        ensures can { IfOk result CanDo }
        ensures place { (self.new.method ≡ self.old.method) × (self.new.pc ≡ self.old.pc) }
    {
        self.stack.take()?;
        Ok(Doing::Next)
    }

    /// Without the two topmost slots.
    fn pop2(&mut self) -> Result<Doing, Failure>
        ensures does { Meets result self.new (rearranged stack_op.Pop2 self.old) }
        ensures can { IfOk result CanDo }
        ensures place { (self.new.method ≡ self.old.method) × (self.new.pc ≡ self.old.pc) }
    {
        self.stack.take_two()?;
        Ok(Doing::Next)
    }

    /// With the topmost slot twice.
    fn dup(&mut self) -> Result<Doing, Failure>
        ensures does { Meets result self.new (rearranged stack_op.Dup self.old) }
        ensures can { IfOk result CanDo }
        ensures place { (self.new.method ≡ self.old.method) × (self.new.pc ≡ self.old.pc) }
    {
        let x = self.stack.take()?;
        self.stack.push(x)?;
        self.stack.push(x)?;
        Ok(Doing::Next)
    }

    /// With a copy of the topmost slot under the two topmost.
    fn dup_x1(&mut self) -> Result<Doing, Failure>
        ensures does { Meets result self.new (rearranged stack_op.DupX1 self.old) }
        ensures can { IfOk result CanDo }
        ensures place { (self.new.method ≡ self.old.method) × (self.new.pc ≡ self.old.pc) }
    {
        let (x, y) = self.stack.take_two()?;
        self.stack.push(y)?;
        self.stack.push_two(x, y)?;
        Ok(Doing::Next)
    }

    /// With a copy of the topmost slot under the three topmost.
    fn dup_x2(&mut self) -> Result<Doing, Failure>
        ensures does { Meets result self.new (rearranged stack_op.DupX2 self.old) }
        ensures can { IfOk result CanDo }
        ensures place { (self.new.method ≡ self.old.method) × (self.new.pc ≡ self.old.pc) }
    {
        let z = self.stack.take()?;
        let (x, y) = self.stack.take_two()?;
        self.stack.push(z)?;
        self.stack.push_two(x, y)?;
        self.stack.push(z)?;
        Ok(Doing::Next)
    }

    /// With the two topmost slots twice.
    fn dup2(&mut self) -> Result<Doing, Failure>
        ensures does { Meets result self.new (rearranged stack_op.Dup2 self.old) }
        ensures can { IfOk result CanDo }
        ensures place { (self.new.method ≡ self.old.method) × (self.new.pc ≡ self.old.pc) }
    {
        let (x, y) = self.stack.take_two()?;
        self.stack.push_two(x, y)?;
        self.stack.push_two(x, y)?;
        Ok(Doing::Next)
    }

    /// With copies of the two topmost slots under the three topmost.
    fn dup2_x1(&mut self) -> Result<Doing, Failure>
        ensures does { Meets result self.new (rearranged stack_op.Dup2X1 self.old) }
        ensures can { IfOk result CanDo }
        ensures place { (self.new.method ≡ self.old.method) × (self.new.pc ≡ self.old.pc) }
    {
        let (y, z) = self.stack.take_two()?;
        let x = self.stack.take()?;
        self.stack.push_two(y, z)?;
        self.stack.push(x)?;
        self.stack.push_two(y, z)?;
        Ok(Doing::Next)
    }

    /// With copies of the two topmost slots under the four topmost.
    fn dup2_x2(&mut self) -> Result<Doing, Failure>
        ensures does { Meets result self.new (rearranged stack_op.Dup2X2 self.old) }
        ensures can { IfOk result CanDo }
        ensures place { (self.new.method ≡ self.old.method) × (self.new.pc ≡ self.old.pc) }
    {
        let (y, z) = self.stack.take_two()?;
        let (w, x) = self.stack.take_two()?;
        self.stack.push_two(y, z)?;
        self.stack.push_two(w, x)?;
        self.stack.push_two(y, z)?;
        Ok(Doing::Next)
    }

    /// With the two topmost slots in the other order.
    fn swap(&mut self) -> Result<Doing, Failure>
        ensures does { Meets result self.new (rearranged stack_op.Swap self.old) }
        ensures can { IfOk result CanDo }
        ensures place { (self.new.method ≡ self.old.method) × (self.new.pc ≡ self.old.pc) }
    {
        let (x, y) = self.stack.take_two()?;
        self.stack.push_two(y, x)?;
        Ok(Doing::Next)
    }
}
