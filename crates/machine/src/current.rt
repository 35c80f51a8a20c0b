//! Instructions of the current frame, one after another.
ghost use Rattle.std.specs.Prelude.{◌≡◌, true, IfOk, MatchBool, ◌+◌, ◌<◌, ◌^◌};
ghost use Rattle.objects.specs.semantics.Program.{Program as JProgram, method_at};
ghost use Rattle.machine.specs.Meets.{CanDo, IsClosed};
ghost use Rattle.machine.specs.Running.{HasJumped, IsGone, IsPlain};

use crate::act::op_in;
use crate::calls::method_of;
use crate::failure::Failure;
use crate::frame::Frame;
use crate::plain::Flow;
use crate::running::{Running, Stage};
use hierarchy::program::{Method, Program};
use objects::op::{Doing, Op};
use std::alloc::Global;
use std::mem;

/// Whether behind each instruction is another, but for those that never go on: the last is one of these.
#[inline(always)]
fn is_closed(ops: &[Op]) -> bool
    ensures { result ≡ true → IsClosed ops.now }
{
    matches!(
        ops.last(),
        Some(Op::Return | Op::ReturnValue(_) | Op::Throw | Op::Goto(_))
    )
}

impl Running {
    /// Jumps in a method that has so many instructions, and whose turns count or don't. A turn is counted, unless the attempt has none left or there
    /// is no attempt: then nothing is done, nor where there is no such instruction.
    #[inline(always)]
    fn jump(&mut self, frame: &mut Frame, to: usize, len: usize, counts: bool) -> bool
        ensures jump { MatchBool result (HasJumped to counts (record self.old { frame = frame.old }) (record self.new { frame = frame.new }))
            ((self.new ≡ self.old) × (frame.new ≡ frame.old)) }
        ensures within { result ≡ true → frame.new.pc < len }
    {
        if to >= len {
            return false;
        }
        if counts && to <= frame.pc {
            if self.turns == 0 || !matches!(self.stage, Stage::Open) {
                return false;
            }
            self.turns -= 1;
        }
        frame.jump(to);
        true
    }

    /// Does instructions of a frame up to the first that does more than go on in its method, or isn't done.
    #[inline(always)]
    fn go_in(&mut self, frame: &mut Frame, method: &Method) -> Result<Flow, Failure>
        ensures run { (P : JProgram) → method_at P frame.old.method ≡ Some method.now
            → IsGone P (record self.old { frame = frame.old }) (record self.new { frame = frame.new }) result }
        ensures method { frame.new.method ≡ frame.old.method }
        ensures stage { self.new.stage ≡ self.old.stage }
        ensures tried { self.new.tried ≡ self.old.tried }
        ensures next { IfOk result (λ _. frame.new.pc + 1 < 2 ^ 64) }
    {
        let ops = method.ops();
        let _first = op_in(ops, frame.pc)?;
        if !is_closed(ops) {
            return Ok(Flow::Other);
        }
        let counts = method.is_counted();
        for _ in 0..u64::MAX {
            match frame.straight(ops)? {
                Flow::Jump(to) => {
                    if !self.jump(frame, to, ops.len(), counts) {
                        return Ok(Flow::Jump(to));
                    }
                }
                flow => return Ok(flow),
            }
        }
        Err(Failure::NoMemory)
    }

    /// The same of the current frame, whose stack is given room for all slots of the method. The frame is held by itself meanwhile, so that its
    /// parts needn't lie in memory. It is a function of its own in the program too, so that it has all registers.
    #[inline(never)]
    fn go_plainly(&mut self, alloc: Global, method: &Method) -> Result<Flow, Failure>
        ensures run { (P : JProgram) → method_at P self.old.frame.method ≡ Some method.now → IsGone P self.old self.new result }
        ensures method { self.new.frame.method ≡ self.old.frame.method }
        ensures stage { self.new.stage ≡ self.old.stage }
        ensures tried { self.new.tried ≡ self.old.tried }
        ensures next { IfOk result (λ _. self.new.frame.pc + 1 < 2 ^ 64) }
    {
        self.frame.make_room(method.max_stack())?;
        let mut frame = mem::replace(&mut self.frame, Frame::empty(alloc));
        let flow = self.go_in(&mut frame, method);
        self.frame = frame;
        flow
    }

    /// The same, without taking the frame out if the instruction at hand is one that the loop leaves as it stands.
    #[inline(always)]
    fn go_where_plain(&mut self, alloc: Global, method: &Method) -> Result<Flow, Failure>
        ensures run { (P : JProgram) → method_at P self.old.frame.method ≡ Some method.now → IsGone P self.old self.new result }
        ensures method { self.new.frame.method ≡ self.old.frame.method }
        ensures stage { self.new.stage ≡ self.old.stage }
        ensures tried { self.new.tried ≡ self.old.tried }
        ensures next { IfOk result (λ _. self.new.frame.pc + 1 < 2 ^ 64) }
    {
        if self.frame.is_at_other(method) {
            return Ok(Flow::Other);
        }
        self.go_plainly(alloc, method)
    }

    /// Does instructions up to the first that does more than go on in its method, and answers what that one leaves to be done. The method is
    /// looked up once.
    #[inline(always)]
    pub(crate) fn go(&mut self, alloc: Global, program: &Program) -> Result<Doing, Failure>
        ensures run { IsPlain program.now self.old self.new result }
        ensures stage { self.new.stage ≡ self.old.stage }
        ensures tried { self.new.tried ≡ self.old.tried }
        ensures can { IfOk result CanDo }
        ensures next { IfOk result (λ _. self.new.frame.pc + 1 < 2 ^ 64) }
    {
        let method = method_of(program, self.frame.method)?;
        for _ in 0..u64::MAX {
            match self.go_where_plain(alloc, method)? {
                Flow::Next => return Ok(Doing::Next),
                Flow::Jump(to) => return Ok(Doing::Jump(to)),
                Flow::Trap(trap) => return Ok(Doing::Trap(trap)),
                Flow::Other => match self.frame.act_in(alloc, program, method)? {
                    Doing::Next => self.frame.advance(),
                    doing => return Ok(doing),
                },
            }
        }
        Err(Failure::NoMemory)
    }
}
