//! What one instruction does to its frame (JVM Specification, Java SE 7, chapter 6).
ghost use Rattle.std.specs.Prelude.{◌≡◌, ◌∷◌, ◌+◌, ◌<◌, ◌^◌, IfOk, MatchResult, slice_get, Some, None, length, true};
ghost use Rattle.objects.specs.semantics.Program.{Program as JProgram, method_at};
ghost use Rattle.objects.specs.semantics.Step.{Frames, does, step};
ghost use Rattle.objects.specs.declared.op.Op.TheVariants as op;
ghost use Rattle.machine.specs.declared.failure.Failure.TheVariants as failure;
ghost use Rattle.machine.specs.Meets.{Meets, CanDo, IsDone, IsOfObjects};

use crate::failure::Failure;
use crate::frame::Frame;
use crate::plain::{Flow, Outcome};
use hierarchy::program::{Method, Program};
use objects::op::{Doing, Op, Slot, Sort, Width};
use std::alloc::Global;

/// The most slots that a plain instruction puts on the stack beyond those that it takes.
const MOST_PUT: usize = 2;

/// The instruction at a place, or `Wrong` where there is none.
#[inline(always)]
pub(crate) fn op_in(ops: &[Op], pc: usize) -> Result<&Op, Failure>
    ensures op { MatchResult result (λ o. slice_get ops.now pc ≡ Some o.now) (λ e. (e ≡ failure.Wrong) × (slice_get ops.now pc ≡ None)) }
    ensures next { IfOk result (λ _. pc + 1 < 2 ^ 64) }
    ensures within { IfOk result (λ _. pc < length ops.now) }
{
    match ops.get(pc) {
        Some(op) => Ok(op),
        None => Err(Failure::Wrong),
    }
}

/// Whether an instruction is one of those that mostly follow on the answer of a caller or of the engine.
#[inline(always)]
fn is_mostly_other(op: &Op) -> bool {
    matches!(
        op,
        Op::Context(_)
            | Op::Return
            | Op::ReturnValue(_)
            | Op::GetField { .. }
            | Op::InvokeStatic(_)
            | Op::InvokeSpecial(_)
            | Op::InvokeVirtual { .. }
    )
}

impl Frame {
    /// Does the instruction that the frame stands at, all but what lies outside the frame. `Wrong` where there is none.
    #[inline(always)]
    pub(crate) fn act_in(
        &mut self,
        alloc: Global,
        program: &Program,
        method: &Method,
    ) -> Result<Doing, Failure>
        requires { method_at program.now self.old.method ≡ Some method.now }
        ensures does { (fs : Frames) → IsDone program.now result self.new fs (step program.now (self.old ∷ fs)) }
        ensures can { IfOk result CanDo }
        ensures place { (self.new.method ≡ self.old.method) × (self.new.pc ≡ self.old.pc) }
        ensures next { IfOk result (λ _. self.new.pc + 1 < 2 ^ 64) }
    {
        let op = op_in(method.ops(), self.pc)?;
        self.act(alloc, program, op)
    }

    /// Whether the frame stands at one of the instructions that mostly follow on a caller's or an engine's answer, and aren't plain.
    #[inline(always)]
    pub(crate) fn is_at_other(&self, method: &Method) -> bool
        ensures next { result ≡ true → self.now.pc + 1 < 2 ^ 64 }
    {
        match op_in(method.ops(), self.pc) {
            Ok(op) => is_mostly_other(op),
            Err(_) => false,
        }
    }

    /// Does one instruction, all but what lies outside the frame. `Wrong` where the frame hasn't what it needs.
    #[inline(always)]
    pub fn act(&mut self, alloc: Global, program: &Program, op: &Op) -> Result<Doing, Failure>
        ensures does { Meets result self.new (does program.now op.now self.old) }
        ensures can { IfOk result CanDo }
        ensures place { (self.new.method ≡ self.old.method) × (self.new.pc ≡ self.old.pc) }
    {
        match op {
            Op::Text(n) => self.text(program, *n),
            Op::Load(Sort::Long, i) => self.load_long(*i),
            Op::Store(Sort::Long, i) => self.store_long(*i),
            Op::Stack(r) => self.rearrange(*r),
            Op::Binary(Width::Long, b) => self.add_longs(*b),
            Op::Shift(width, s) => self.shift(*width, *s),
            Op::Divide(Width::Long, d) => self.divide_longs(*d),
            Op::Unary(width, u) => self.unary(*width, *u),
            Op::Convert(c) => self.convert(*c),
            Op::CompareLongs => self.compare_longs(),
            Op::Context(call) => self.context(*call),
            Op::Return => Ok(Doing::Give(None)),
            Op::ReturnValue(sort) => self.return_value(*sort),
            Op::GetStatic(n) => self.get_static(program, *n),
            Op::PutStatic(n) => self.put_static(program, *n),
            Op::GetField { field, .. } => self.get_field(program, *field),
            Op::PutField { field, .. } => self.put_field(program, *field),
            Op::Constant(_)
            | Op::Load(..)
            | Op::Store(..)
            | Op::Binary(..)
            | Op::Divide(..)
            | Op::Increment(..)
            | Op::Branch(..)
            | Op::BranchInts(..)
            | Op::BranchNull(..)
            | Op::BranchReferences(..)
            | Op::Goto(_)
            | Op::Switch { .. }
            | Op::GetContext => self.act_plainly(op),
            op => self.act_on_objects(alloc, program, op),
        }
    }

    /// The same of instructions that call methods, or are of objects and arrays; `Wrong` at any other.
    fn act_on_objects(
        &mut self,
        alloc: Global,
        program: &Program,
        op: &Op,
    ) -> Result<Doing, Failure>
        requires { IsOfObjects op.now }
        ensures does { Meets result self.new (does program.now op.now self.old) }
        ensures can { IfOk result CanDo }
        ensures place { (self.new.method ≡ self.old.method) × (self.new.pc ≡ self.old.pc) }
    {
        match op {
            Op::InvokeStatic(n) => self.invoke_static(program, *n),
            Op::InvokeSpecial(n) => self.invoke_special(program, *n),
            Op::InvokeVirtual { method, .. } => self.invoke_virtual(program, *method),
            Op::InvokeInterface { method, interface } => {
                self.invoke_interface(alloc, program, *method, interface)
            }
            Op::InitLibrary { places, .. } => self.init_library(*places),
            Op::New(of) => Ok(Doing::Make(*of, 0)),
            Op::NewArray(of) => self.new_array(*of),
            Op::ArrayLength => self.array_length(),
            Op::LoadElement(_) => self.load_element(),
            Op::StoreElement(word_type) => self.store_element(*word_type),
            Op::CheckCast(class) => self.check_cast(alloc, class),
            Op::InstanceOf(class) => self.instance_of(alloc, class),
            Op::Throw => self.throw(program),
            _ => Err(Failure::Wrong),
        }
    }

    /// The same of plain instructions, for which room is made.
    fn act_plainly(&mut self, op: &Op) -> Result<Doing, Failure>
        ensures does { (P : JProgram) → Meets result self.new (does P op.now self.old) }
        ensures can { IfOk result CanDo }
        ensures place { (self.new.method ≡ self.old.method) × (self.new.pc ≡ self.old.pc) }
    {
        self.stack.make_room(MOST_PUT)?;
        match self.plain(op)? {
            Outcome::Int(x) => {
                self.stack.put(Slot::Int(x))?;
                Ok(Doing::Next)
            }
            Outcome::Flow(Flow::Next) => Ok(Doing::Next),
            Outcome::Flow(Flow::Jump(to)) => Ok(Doing::Jump(to)),
            Outcome::Flow(Flow::Trap(trap)) => Ok(Doing::Trap(trap)),
            Outcome::Flow(Flow::Other) => Err(Failure::NoMemory),
        }
    }

    fn text(&mut self, program: &Program, n: usize) -> Result<Doing, Failure>
        ensures does { Meets result self.new (does program.now (op.Text n) self.old) }
        ensures can { IfOk result CanDo }
        ensures place { (self.new.method ≡ self.old.method) × (self.new.pc ≡ self.old.pc) }
    {
        let Some(object) = program.text(n) else {
            return Err(Failure::Wrong);
        };
        self.stack.push(Slot::Ref(object))?;
        Ok(Doing::Next)
    }

    #[inline(always)]
    fn return_value(&mut self, sort: Sort) -> Result<Doing, Failure>
        ensures does { (P : JProgram) → Meets result self.new (does P (op.ReturnValue sort) self.old) }
        ensures can { IfOk result CanDo }
        ensures place { (self.new.method ≡ self.old.method) × (self.new.pc ≡ self.old.pc) }
    {
        let value = self.stack.take_value(sort)?;
        Ok(Doing::Give(Some(value)))
    }
}
