//! Instructions that branch (JVM Specification, Java SE 7, chapter 6).
ghost use Rattle.std.specs.Prelude.{◌≡◌};
ghost use Rattle.objects.specs.semantics.Program.{Program as JProgram};
ghost use Rattle.objects.specs.semantics.Step.{Frame as JFrame, does, branches, same as same_of};
ghost use Rattle.objects.specs.declared.op.Op.TheVariants as op;
ghost use Rattle.machine.specs.Meets.{Flows};

use crate::arithmetic::holds;
use crate::failure::Failure;
use crate::frame::Frame;
use crate::plain::Flow;
use objects::Cases;
use objects::op::Test;

/// Where a branch goes, whose test holds or doesn't.
#[inline(always)]
pub(crate) fn branched(is_taken: bool, to: usize) -> Flow
    ensures { (f g : JFrame) → Flows (Ok result) f g (branches is_taken to f) }
{
    if is_taken { Flow::Jump(to) } else { Flow::Next }
}

/// Whether a test has the wanted outcome.
#[inline(always)]
fn same(wanted: bool, is: bool) -> bool
    ensures { result ≡ same_of wanted is }
{
    if wanted { is } else { !is }
}

impl Frame {
    /// On an int and 0.
    #[inline(always)]
    pub(crate) fn branch(&mut self, test: Test, to: usize) -> Result<Flow, Failure>
        ensures does { (P : JProgram) → Flows result self.new self.old (does P (op.Branch test to) self.old) }
        ensures place { (self.new.method ≡ self.old.method) × (self.new.pc ≡ self.old.pc) }
    {
        let x = self.stack.take_int()?;
        Ok(branched(holds(test, x, 0), to))
    }

    /// On two ints.
    #[inline(always)]
    pub(crate) fn branch_ints(&mut self, test: Test, to: usize) -> Result<Flow, Failure>
        ensures does { (P : JProgram) → Flows result self.new self.old (does P (op.BranchInts test to) self.old) }
        ensures place { (self.new.method ≡ self.old.method) × (self.new.pc ≡ self.old.pc) }
    {
        let y = self.stack.take_int()?;
        let x = self.stack.take_int()?;
        Ok(branched(holds(test, x, y), to))
    }

    /// On whether a reference is null.
    #[inline(always)]
    pub(crate) fn branch_null(&mut self, wanted: bool, to: usize) -> Result<Flow, Failure>
        ensures does { (P : JProgram) → Flows result self.new self.old (does P (op.BranchNull wanted to) self.old) }
        ensures place { (self.new.method ≡ self.old.method) × (self.new.pc ≡ self.old.pc) }
    {
        let object = self.stack.take_ref()?;
        Ok(branched(same(wanted, object == 0), to))
    }

    /// On whether two references are the same.
    #[inline(always)]
    pub(crate) fn branch_references(&mut self, wanted: bool, to: usize) -> Result<Flow, Failure>
        ensures does { (P : JProgram) → Flows result self.new self.old (does P (op.BranchReferences wanted to) self.old) }
        ensures place { (self.new.method ≡ self.old.method) × (self.new.pc ≡ self.old.pc) }
    {
        let second = self.stack.take_ref()?;
        let first = self.stack.take_ref()?;
        Ok(branched(same(wanted, first == second), to))
    }

    /// To the target of the case whose key an int is, else to the other one.
    #[inline(always)]
    pub(crate) fn switch(&mut self, other: usize, cases: &Cases) -> Result<Flow, Failure>
        ensures does { (P : JProgram) → Flows result self.new self.old (does P (op.Switch other cases.now) self.old) }
        ensures place { (self.new.method ≡ self.old.method) × (self.new.pc ≡ self.old.pc) }
    {
        let x = self.stack.take_int()?;
        Ok(Flow::Jump(cases.target(x, other)))
    }
}
