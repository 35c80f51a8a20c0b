//! Instructions that load and store longs in locals (JVM Specification, Java SE 7, chapter 6).
ghost use Rattle.std.specs.Prelude.{◌≡◌, IfOk};
ghost use Rattle.objects.specs.semantics.Step.{loads, stores};
ghost use Rattle.objects.specs.declared.op.Sort.TheVariants as sort_of;
ghost use Rattle.machine.specs.Meets.{Meets, CanDo};

use crate::failure::Failure;
use crate::frame::Frame;
use objects::op::{Doing, Slot};

impl Frame {
    /// Puts a long local on the stack.
    pub(crate) fn load_long(&mut self, i: usize) -> Result<Doing, Failure>
        ensures does { Meets result self.new (loads sort_of.Long i self.old) }
        ensures can { IfOk result CanDo }
        ensures place { (self.new.method ≡ self.old.method) × (self.new.pc ≡ self.old.pc) }
    {
        let Some(Slot::Long(x)) = self.locals.get(i) else {
            return Err(Failure::Wrong);
        };
        let Some(Slot::Second) = self.locals.get(i + 1) else {
            return Err(Failure::Wrong);
        };
        self.stack.push_long(x)?;
        Ok(Doing::Next)
    }

    /// Takes a long from the stack into a local.
    pub(crate) fn store_long(&mut self, i: usize) -> Result<Doing, Failure>
        ensures does { Meets result self.new (stores sort_of.Long i self.old) }
        ensures can { IfOk result CanDo }
        ensures place { (self.new.method ≡ self.old.method) × (self.new.pc ≡ self.old.pc) }
    {
        let x = self.stack.take_long()?;
        if self.locals.set_long(i, x) {
            Ok(Doing::Next)
        } else {
            Err(Failure::Wrong)
        }
    }
}
