//! One step of the machine: an instruction, and what it does to the frames.
ghost use Rattle.std.specs.Prelude.{◌≡◌, ◌∷◌, [], nat_lt, IfOk, ◌+◌, ◌<◌, ◌^◌};
ghost use Rattle.objects.specs.semantics.Step.{Frames, Frame as JFrame, step, on_doing, jumps, invokes, gives, unwinds, depth, trapped as trapped_of, found as found_of};
ghost use Rattle.objects.specs.linking.Library.{trap_type as type_of};
ghost use Rattle.objects.specs.semantics.Program.{method_at};
ghost use Rattle.machine.specs.Meets.{IsStep, IsAsked, CanAsk, CanDo, GoesOn, entered_asks, given_asks};

use crate::callers::Callers;
use crate::calls::method_of;
use crate::failure::Failure;
use crate::frame::Frame;
use hierarchy::program::Program;
use jmodel::value::Value;
use objects::op::{Asking, Doing, Made, Trap};
use std::alloc::Global;
use std::mem;

/// The most frames that count.
const MOST_FRAMES: usize = 200;

/// The number of the type of an exception that an instruction throws.
fn trap_type(trap: Trap) -> usize
    ensures { result ≡ type_of trap }
{
    match trap {
        Trap::Arithmetic => 8,
        Trap::ArrayStore => 9,
        Trap::ClassCast => 10,
        Trap::NegativeArraySize => 14,
        Trap::NullPointer => 15,
        Trap::ArrayIndex => 17,
        Trap::IncompatibleClassChange => 19,
        Trap::AbstractMethod => 20,
    }
}

/// A new exception is to be made and thrown.
pub(crate) fn trapped(trap: Trap) -> Asking
    ensures step { (fs : Frames) → IsAsked result fs (trapped_of trap fs) }
    ensures can { (f : JFrame) → f.pc + 1 < 2 ^ 64 → CanAsk result f }
    ensures on { GoesOn result }
{
    Asking::Make {
        of: trap_type(trap),
        length: 0,
        made: Made::Raised,
    }
}

/// One step. `Wrong` where the code isn't well formed.
pub fn step(
    alloc: Global,
    program: &Program,
    frame: &mut Frame,
    callers: &mut Callers,
) -> Result<Asking, Failure>
    ensures step { IsStep result (frame.new ∷ callers.new) (step program.now (frame.old ∷ callers.old)) }
    ensures can { IfOk result (λ a. CanAsk a frame.new) }
{
    let method = method_of(program, frame.method)?;
    let doing = frame.act_in(alloc, program, method)?;
    settle(alloc, program, doing, frame, callers)
}

/// Does to the frames what an instruction leaves to be done.
#[inline(always)]
pub(crate) fn settle(
    alloc: Global,
    program: &Program,
    doing: Doing,
    frame: &mut Frame,
    callers: &mut Callers,
) -> Result<Asking, Failure>
    requires can { CanDo doing }
    requires next { frame.old.pc + 1 < 2 ^ 64 }
    ensures step { IsStep result (frame.new ∷ callers.new) (on_doing program.now doing frame.old callers.old) }
    ensures can { IfOk result (λ a. CanAsk a frame.new) }
{
    match doing {
        Doing::Next => {
            frame.advance();
            Ok(Asking::Go)
        }
        Doing::Jump(to) => Ok(jump(program, to, frame)),
        Doing::Invoke(method) => invoke(alloc, program, method, frame, callers),
        Doing::Give(value) => give(value, frame, callers),
        Doing::Throw(exception) => unwind(program, exception, 0, frame, callers),
        Doing::Raise(exception) => Ok(Asking::Raise(exception)),
        Doing::Trap(trap) => Ok(trapped(trap)),
        Doing::Make(of, length) => Ok(Asking::Make {
            of,
            length,
            made: Made::Pushed,
        }),
        Doing::Head(object, how) => Ok(Asking::Head(object, how)),
        Doing::Ask(request) => Ok(Asking::Ask(request)),
    }
}

/// Jumps. A jump back in code whose turns count is a turn.
#[inline(always)]
fn jump(program: &Program, to: usize, frame: &mut Frame) -> Asking
    ensures step { (fs : Frames) → IsAsked result (frame.new ∷ fs) (jumps program.now to frame.old fs) }
    ensures can { CanAsk result frame.new }
{
    let counts = to <= frame.pc && frame.is_counted(program);
    frame.jump(to);
    if counts { Asking::Turn } else { Asking::Go }
}

/// Enters a method, whose arguments it takes from the stack. Answers whether there are too many frames then, where it is a turn.
#[inline(always)]
pub(crate) fn enter(
    alloc: Global,
    program: &Program,
    method: usize,
    frame: &mut Frame,
    callers: &mut Callers,
) -> Result<Option<bool>, Failure>
    requires { frame.old.pc + 1 < 2 ^ 64 }
    ensures { IsStep (entered_asks result) (frame.new ∷ callers.new) (invokes program.now (method_at program.now method) method frame.old callers.old) }
{
    let entry = method_of(program, method)?.entry();
    let mut entered = callers.spare(alloc);
    entered.enter(method, entry, &mut frame.stack)?;
    callers.push(mem::replace(frame, entered))?;
    Ok(if entry.counted {
        Some(is_too_deep(program, frame, callers))
    } else {
        None
    })
}

/// The same, as what the step leaves to be done.
#[inline(always)]
fn invoke(
    alloc: Global,
    program: &Program,
    method: usize,
    frame: &mut Frame,
    callers: &mut Callers,
) -> Result<Asking, Failure>
    requires { frame.old.pc + 1 < 2 ^ 64 }
    ensures step { IsStep result (frame.new ∷ callers.new) (invokes program.now (method_at program.now method) method frame.old callers.old) }
    ensures can { IfOk result (λ a. CanAsk a frame.new) }
    ensures on { IfOk result GoesOn }
{
    match enter(alloc, program, method, frame, callers)? {
        Some(deep) => Ok(Asking::Enter(deep)),
        None => Ok(Asking::Go),
    }
}

/// Enters the method that was found for a call. Where there is none, the call throws.
pub(crate) fn enter_found(
    alloc: Global,
    program: &Program,
    found: Option<usize>,
    frame: &mut Frame,
    callers: &mut Callers,
) -> Result<Asking, Failure>
    requires { frame.old.pc + 1 < 2 ^ 64 }
    ensures step { IsStep result (frame.new ∷ callers.new) (found_of program.now found frame.old callers.old) }
    ensures can { IfOk result (λ a. CanAsk a frame.new) }
    ensures on { IfOk result GoesOn }
{
    match found {
        Some(method) => invoke(alloc, program, method, frame, callers),
        None => Ok(trapped(Trap::AbstractMethod)),
    }
}

/// Whether too many frames count. Where there are so few that all may count, none is looked at.
#[inline(always)]
fn is_too_deep(program: &Program, frame: &Frame, callers: &Callers) -> bool
    ensures { result ≡ nat_lt 200 (depth program.now (frame.now ∷ callers.now)) }
{
    if callers.len() < MOST_FRAMES {
        return false;
    }
    let below = callers.depth(program);
    if frame.is_counted(program) {
        MOST_FRAMES <= below
    } else {
        MOST_FRAMES < below
    }
}

/// Leaves the frame, and gives its caller a value or none. Answers whether there is a caller.
#[inline(always)]
pub(crate) fn give_back(
    value: Option<Value>,
    frame: &mut Frame,
    callers: &mut Callers,
) -> Result<bool, Failure>
    ensures { IsStep (given_asks value result) (frame.new ∷ callers.new) (gives value callers.old) }
{
    let Some(caller) = callers.pop() else {
        return Ok(false);
    };
    callers.keep(mem::replace(frame, caller));
    match value {
        Some(value) => frame.resume_with(value)?,
        None => frame.advance(),
    }
    Ok(true)
}

/// The same, as what the step leaves to be done.
#[inline(always)]
fn give(value: Option<Value>, frame: &mut Frame, callers: &mut Callers) -> Result<Asking, Failure>
    ensures step { IsStep result (frame.new ∷ callers.new) (gives value callers.old) }
    ensures can { IfOk result (λ a. CanAsk a frame.new) }
{
    if give_back(value, frame, callers)? {
        Ok(Asking::Go)
    } else {
        Ok(Asking::Return(value))
    }
}

/// Goes to the innermost handler of an exception of a type.
pub fn unwind(
    program: &Program,
    exception: u64,
    of: usize,
    frame: &mut Frame,
    callers: &mut Callers,
) -> Result<Asking, Failure>
    ensures step { IsStep result (frame.new ∷ callers.new) (unwinds program.now exception of (frame.old ∷ callers.old)) }
    ensures can { IfOk result (λ a. CanAsk a frame.new) }
{
    loop {
        if let Some(at) = program.catch(frame.method, frame.pc, of) {
            frame.enter_handler(exception)?;
            return Ok(jump(program, at, frame));
        }
        match callers.pop() {
            Some(caller) => callers.keep(mem::replace(frame, caller)),
            None => return Ok(Asking::Throw(exception)),
        }
    }
}
