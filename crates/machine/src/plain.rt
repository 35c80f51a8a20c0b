//! Instructions that neither leave their frame nor ask anything of what lies outside it (JVM Specification, Java SE 7, chapter 6). They are small, so
//! that they may all be inlined where they go on one after another. An int that one of them puts on the stack is
//! held beside it until an instruction needs it there, and so is a second one above it. So ints that the next instructions take needn't go through
//! memory. The stack has room for them: room for all slots of a method is made before its instructions go on.
ghost use Rattle.std.specs.Prelude.{◌≡◌, ◌⊎◌, ◌∷◌, ◌+◌, ◌<◌, ◌≤◌, ◌^◌, IfOk, IfSome, Some, length, slice_get};
ghost use Rattle.objects.specs.semantics.Program.{Program as JProgram};
ghost use Rattle.objects.specs.semantics.Step.{Frame as JFrame, Frames, does, leaves, loads, stores, step, on_doing};
ghost use Rattle.objects.specs.declared.op.Doing.TheVariants as doing;
ghost use Rattle.objects.specs.declared.op.Op.TheVariants as op;
ghost use Rattle.objects.specs.declared.op.Slot.TheVariants as slot;
ghost use Rattle.objects.specs.declared.op.Sort.TheVariants as sort_of;
ghost use Rattle.objects.specs.declared.op.Width.TheVariants as width;
ghost use Rattle.machine.specs.Meets.{Flows, IsOutcome, FlowsOn, FlowsOver, FlowsOverTwo, IsOver, IsOverTwo, HasOps, with_int, NeverGoesOn, IsClosed, Stops, StopsOver, StopsOverTwo, HasNext, HasNextOn, HasNextOver, HasNextOverTwo, FlowHasNext};
ghost use Rattle.machine.specs.Running.{IsStraight, IsStraightOn};

use crate::arithmetic::{binary_ints, divided_ints, holds};
use crate::branches::branched;
use crate::failure::Failure;
use crate::frame::Frame;
use jmodel::value::Value;
use objects::op::{Binary, Division, Op, Slot, Sort, Trap, Width};

/// What such an instruction leads to.
#[derive(Clone, Copy)]
pub enum Flow {
    /// The next instruction.
    Next,
    /// Another instruction of the method.
    Jump(usize),
    /// A new exception.
    Trap(Trap),
    /// Nothing was done: it is an instruction of another kind, or the stack has no room.
    Other,
}

/// The same, where an int that belongs on the stack is held beside it.
#[derive(Clone, Copy)]
pub enum Outcome {
    /// The next instruction, with this int topmost: it is held.
    Int(i32),
    Flow(Flow),
}

/// The same of an instruction before which an int is held.
#[derive(Clone, Copy)]
pub enum Over {
    /// The next instruction, with this int topmost in place of the held one.
    Int(i32),
    /// The next instruction, with this int above the held one.
    Pair(i32),
    Flow(Flow),
}

/// The same of an instruction before which two ints are held.
#[derive(Clone, Copy)]
pub enum OverTwo {
    /// The next instruction, with this int topmost in place of both.
    Int(i32),
    /// The next instruction, with this int above both.
    Third(i32),
    Flow(Flow),
    /// Nothing was done, and the lower int is on the stack.
    Under,
}

impl Frame {
    /// Puts a slot on the stack.
    #[inline(always)]
    fn put(&mut self, slot: Slot) -> Result<Flow, Failure>
        ensures does { Flows result self.new self.old (leaves self.old (slot ∷ self.old.stack)) }
        ensures place { (self.new.method ≡ self.old.method) × (self.new.pc ≡ self.old.pc) }
    {
        if !self.stack.has_room(1) {
            return Ok(Flow::Other);
        }
        self.stack.put(slot)?;
        Ok(Flow::Next)
    }

    /// Puts a long on the stack, which takes two slots.
    #[inline(always)]
    fn put_long(&mut self, x: i64) -> Result<Flow, Failure>
        ensures does { Flows result self.new self.old (leaves self.old (slot.Second ∷ slot.Long x ∷ self.old.stack)) }
        ensures place { (self.new.method ≡ self.old.method) × (self.new.pc ≡ self.old.pc) }
    {
        if !self.stack.has_room(2) {
            return Ok(Flow::Other);
        }
        self.stack.put(Slot::Long(x))?;
        self.stack.put(Slot::Second)?;
        Ok(Flow::Next)
    }

    #[inline(always)]
    fn constant(&mut self, value: Value) -> Result<Outcome, Failure>
        ensures does { (P : JProgram) → FlowsOn result self.new self.old (does P (op.Constant value) self.old) }
        ensures place { (self.new.method ≡ self.old.method) × (self.new.pc ≡ self.old.pc) }
    {
        match value {
            Value::Int(x) => Ok(Outcome::Int(x)),
            Value::Long(x) => Ok(Outcome::Flow(self.put_long(x)?)),
            Value::Ref(object) => Ok(Outcome::Flow(self.put(Slot::Ref(object))?)),
        }
    }

    #[inline(always)]
    fn load_int(&self, i: usize) -> Result<Outcome, Failure>
        ensures { FlowsOn result self.now self.now (loads sort_of.Int i self.now) }
    {
        let Some(Slot::Int(x)) = self.locals.get(i) else {
            return Err(Failure::Wrong);
        };
        Ok(Outcome::Int(x))
    }

    /// An object or the context.
    #[inline(always)]
    fn load_object(&mut self, i: usize) -> Result<Flow, Failure>
        ensures does { Flows result self.new self.old (loads sort_of.Reference i self.old) }
        ensures place { (self.new.method ≡ self.old.method) × (self.new.pc ≡ self.old.pc) }
    {
        let slot = match self.locals.get(i) {
            Some(Slot::Ref(object)) => Slot::Ref(object),
            Some(Slot::Context) => Slot::Context,
            _ => return Err(Failure::Wrong),
        };
        self.put(slot)
    }

    #[inline(always)]
    fn store_int(&mut self, i: usize) -> Result<Flow, Failure>
        ensures does { Flows result self.new self.old (stores sort_of.Int i self.old) }
        ensures place { (self.new.method ≡ self.old.method) × (self.new.pc ≡ self.old.pc) }
    {
        let x = self.stack.take_int()?;
        if self.locals.set(i, Slot::Int(x)) {
            Ok(Flow::Next)
        } else {
            Err(Failure::Wrong)
        }
    }

    #[inline(always)]
    fn store_object(&mut self, i: usize) -> Result<Flow, Failure>
        ensures does { Flows result self.new self.old (stores sort_of.Reference i self.old) }
        ensures place { (self.new.method ≡ self.old.method) × (self.new.pc ≡ self.old.pc) }
    {
        let slot = self.stack.take_object()?;
        if self.locals.set(i, slot) {
            Ok(Flow::Next)
        } else {
            Err(Failure::Wrong)
        }
    }

    /// Adds to a local, which holds an int.
    #[inline(always)]
    fn increment(&mut self, i: usize, n: i32) -> Result<Flow, Failure>
        ensures does { (P : JProgram) → Flows result self.new self.old (does P (op.Increment i n) self.old) }
        ensures place { (self.new.method ≡ self.old.method) × (self.new.pc ≡ self.old.pc) }
    {
        let Some(Slot::Int(x)) = self.locals.get(i) else {
            return Err(Failure::Wrong);
        };
        self.locals.set(i, Slot::Int(x.wrapping_add(n)));
        Ok(Flow::Next)
    }

    #[inline(always)]
    fn add_ints(&mut self, b: Binary) -> Result<Outcome, Failure>
        ensures does { (P : JProgram) → FlowsOn result self.new self.old (does P (op.Binary width.Int b) self.old) }
        ensures place { (self.new.method ≡ self.old.method) × (self.new.pc ≡ self.old.pc) }
    {
        let y = self.stack.take_int()?;
        let x = self.stack.take_int()?;
        Ok(Outcome::Int(binary_ints(b, x, y)))
    }

    #[inline(always)]
    fn divide_ints(&mut self, d: Division) -> Result<Outcome, Failure>
        ensures does { (P : JProgram) → FlowsOn result self.new self.old (does P (op.Divide width.Int d) self.old) }
        ensures place { (self.new.method ≡ self.old.method) × (self.new.pc ≡ self.old.pc) }
    {
        let y = self.stack.take_int()?;
        let x = self.stack.take_int()?;
        if y == 0 {
            return Ok(Outcome::Flow(Flow::Trap(Trap::Arithmetic)));
        }
        Ok(Outcome::Int(divided_ints(d, x, y)))
    }
}

impl Frame {
    /// Does one instruction while the topmost int is held, if it is one of those that mostly stand behind an int. Else it puts the int on the stack,
    /// and does nothing.
    #[inline(always)]
    fn plain_over(&mut self, top: i32, op: &Op) -> Result<Over, Failure>
        ensures does { (P : JProgram) → FlowsOver result top self.new (with_int top self.old) (does P op.now (with_int top self.old)) }
        ensures ends { NeverGoesOn op.now → IfOk result StopsOver }
        ensures place { (self.new.method ≡ self.old.method) × (self.new.pc ≡ self.old.pc) }
    {
        match op {
            Op::Constant(Value::Int(x)) => Ok(Over::Pair(*x)),
            Op::Load(Sort::Int, i) => match self.locals.get(*i) {
                Some(Slot::Int(x)) => Ok(Over::Pair(x)),
                _ => Err(Failure::Wrong),
            },
            Op::Store(Sort::Int, i) => {
                if self.locals.set(*i, Slot::Int(top)) {
                    Ok(Over::Flow(Flow::Next))
                } else {
                    Err(Failure::Wrong)
                }
            }
            Op::Binary(Width::Int, b) => {
                let x = self.stack.take_int()?;
                Ok(Over::Int(binary_ints(*b, x, top)))
            }
            Op::Branch(test, to) => Ok(Over::Flow(branched(holds(*test, top, 0), *to))),
            Op::BranchInts(test, to) => {
                let x = self.stack.take_int()?;
                Ok(Over::Flow(branched(holds(*test, x, top), *to)))
            }
            _ => {
                self.stack.put(Slot::Int(top))?;
                Ok(Over::Flow(Flow::Other))
            }
        }
    }

    /// Does one instruction while the two topmost ints are held, if it is one of those that mostly stand behind two. Else it puts the
    /// lower one on the stack, and does nothing: the other one is still held.
    #[inline(always)]
    fn plain_over_two(&mut self, x: i32, y: i32, op: &Op) -> Result<OverTwo, Failure>
        ensures does { (P : JProgram) → FlowsOverTwo result x y self.new (with_int y (with_int x self.old)) (does P op.now (with_int y (with_int x self.old))) }
        ensures ends { NeverGoesOn op.now → IfOk result StopsOverTwo }
        ensures place { (self.new.method ≡ self.old.method) × (self.new.pc ≡ self.old.pc) }
    {
        match op {
            Op::Binary(Width::Int, b) => Ok(OverTwo::Int(binary_ints(*b, x, y))),
            Op::BranchInts(test, to) => Ok(OverTwo::Flow(branched(holds(*test, x, y), *to))),
            Op::Constant(Value::Int(z)) => Ok(OverTwo::Third(*z)),
            Op::Load(Sort::Int, i) => match self.locals.get(*i) {
                Some(Slot::Int(z)) => Ok(OverTwo::Third(z)),
                _ => Err(Failure::Wrong),
            },
            _ => {
                self.stack.put(Slot::Int(x))?;
                Ok(OverTwo::Under)
            }
        }
    }
}

/// The instruction at a place. In closed code another one is behind it, or it never goes on.
#[inline(always)]
fn op_of(ops: &[Op], pc: usize) -> &Op
    requires within { pc < length ops.now }
    ensures op { slice_get ops.now pc ≡ Some result.now }
    ensures behind { IsClosed ops.now → (pc + 1 < length ops.now) ⊎ NeverGoesOn result.now }
{
    &ops[pc]
}

impl Frame {
    /// Does one instruction, if it is of this kind and the stack has room for what it puts there. `Wrong` where the frame hasn't what it needs.
    #[inline(always)]
    pub(crate) fn plain(&mut self, op: &Op) -> Result<Outcome, Failure>
        ensures does { (P : JProgram) → FlowsOn result self.new self.old (does P op.now self.old) }
        ensures ends { NeverGoesOn op.now → IfOk result Stops }
        ensures place { (self.new.method ≡ self.old.method) × (self.new.pc ≡ self.old.pc) }
    {
        let flow = match op {
            Op::Constant(value) => return self.constant(*value),
            Op::Load(Sort::Int, i) => return self.load_int(*i),
            Op::Load(Sort::Reference, i) => self.load_object(*i)?,
            Op::Store(Sort::Int, i) => self.store_int(*i)?,
            Op::Store(Sort::Reference, i) => self.store_object(*i)?,
            Op::Increment(i, n) => self.increment(*i, *n)?,
            Op::Binary(Width::Int, b) => return self.add_ints(*b),
            Op::Divide(Width::Int, d) => return self.divide_ints(*d),
            Op::Branch(test, to) => self.branch(*test, *to)?,
            Op::BranchInts(test, to) => self.branch_ints(*test, *to)?,
            Op::BranchNull(wanted, to) => self.branch_null(*wanted, *to)?,
            Op::BranchReferences(wanted, to) => self.branch_references(*wanted, *to)?,
            Op::Goto(to) => Flow::Jump(*to),
            Op::Switch { other, cases } => self.switch(*other, cases)?,
            Op::GetContext => self.put(Slot::Context)?,
            _ => Flow::Other,
        };
        Ok(Outcome::Flow(flow))
    }

    /// Does the instruction that the frame stands at, of these of its method.
    #[inline(always)]
    fn plain_in(&mut self, ops: &[Op]) -> Result<Outcome, Failure>
        requires closed { IsClosed ops.now }
        requires within { self.old.pc < length ops.now }
        ensures does { (P : JProgram) (fs : Frames) → HasOps P self.old.method ops.now
            → IsOutcome P result self.new self.old fs (step P (self.old ∷ fs)) }
        ensures inside { IfOk result (HasNextOn (length ops.now) self.old.pc) }
        ensures place { (self.new.method ≡ self.old.method) × (self.new.pc ≡ self.old.pc) }
    {
        let op = op_of(ops, self.pc);
        self.plain(op)
    }

    /// The same while the topmost int is held.
    #[inline(always)]
    fn plain_over_in(&mut self, top: i32, ops: &[Op]) -> Result<Over, Failure>
        requires closed { IsClosed ops.now }
        requires within { self.old.pc < length ops.now }
        ensures does { (P : JProgram) (fs : Frames) → HasOps P self.old.method ops.now
            → IsOver P result top self.new (with_int top self.old) fs (step P (with_int top self.old ∷ fs)) }
        ensures inside { IfOk result (HasNextOver (length ops.now) self.old.pc) }
        ensures place { (self.new.method ≡ self.old.method) × (self.new.pc ≡ self.old.pc) }
    {
        let op = op_of(ops, self.pc);
        self.plain_over(top, op)
    }

    /// The same while the two topmost ints are held.
    #[inline(always)]
    fn plain_over_two_in(&mut self, x: i32, y: i32, ops: &[Op]) -> Result<OverTwo, Failure>
        requires closed { IsClosed ops.now }
        requires within { self.old.pc < length ops.now }
        ensures does { (P : JProgram) (fs : Frames) → HasOps P self.old.method ops.now
            → IsOverTwo P result x y self.new (with_int y (with_int x self.old)) fs (step P (with_int y (with_int x self.old) ∷ fs)) }
        ensures inside { IfOk result (HasNextOverTwo (length ops.now) self.old.pc) }
        ensures place { (self.new.method ≡ self.old.method) × (self.new.pc ≡ self.old.pc) }
    {
        let op = op_of(ops, self.pc);
        self.plain_over_two(x, y, op)
    }

    /// The int that the instruction at hand makes of the two topmost ones, if it is one that does.
    #[inline(always)]
    fn combined_in(&self, x: i32, y: i32, ops: &[Op]) -> Option<i32>
        requires closed { IsClosed ops.now }
        requires within { self.now.pc < length ops.now }
        ensures does { (P : JProgram) (f : JFrame) (fs : Frames) → HasOps P f.method ops.now → f.pc ≡ self.now.pc
            → IfSome result (λ z. step P (with_int y (with_int x f) ∷ fs) ≡ on_doing P doing.Next (with_int z f) fs) }
        ensures inside { IfSome result (λ _. self.now.pc + 1 < length ops.now) }
    {
        match op_of(ops, self.pc) {
            Op::Binary(Width::Int, b) => Some(binary_ints(*b, x, y)),
            _ => None,
        }
    }

    /// Does instructions of its method while the two topmost ints are held, up to the first behind which one or none is.
    #[inline(always)]
    fn straight_over_two(&mut self, lower: i32, upper: i32, ops: &[Op]) -> Result<Outcome, Failure>
        requires closed { IsClosed ops.now }
        requires within { self.old.pc < length ops.now }
        ensures run { (P : JProgram) → HasOps P self.old.method ops.now → IsStraightOn P (with_int upper (with_int lower self.old)) self.new result }
        ensures method { self.new.method ≡ self.old.method }
        ensures onward { self.old.pc ≤ self.new.pc }
        ensures within { IfOk result (λ _. self.new.pc < length ops.now) }
        ensures inside { IfOk result (FlowHasNext (length ops.now) self.new.pc) }
    {
        let mut x = lower;
        let mut y = upper;
        loop {
            match self.plain_over_two_in(x, y, ops)? {
                OverTwo::Int(z) => {
                    self.advance();
                    return Ok(Outcome::Int(z));
                }
                OverTwo::Third(z) => {
                    self.advance();
                    match self.combined_in(y, z, ops) {
                        Some(combined) => {
                            y = combined;
                            self.advance();
                        }
                        None => {
                            self.stack.put(Slot::Int(x))?;
                            x = y;
                            y = z;
                        }
                    }
                }
                OverTwo::Flow(flow) => return Ok(Outcome::Flow(flow)),
                OverTwo::Under => return Ok(Outcome::Int(y)),
            }
        }
    }

    /// Does instructions of its method while the topmost int is held, up to the first behind which none is.
    #[inline(always)]
    fn straight_over(&mut self, held: i32, ops: &[Op]) -> Result<Flow, Failure>
        requires closed { IsClosed ops.now }
        requires within { self.old.pc < length ops.now }
        ensures run { (P : JProgram) → HasOps P self.old.method ops.now → IsStraight P (with_int held self.old) self.new result }
        ensures method { self.new.method ≡ self.old.method }
        ensures onward { self.old.pc ≤ self.new.pc }
        ensures within { IfOk result (λ _. self.new.pc < length ops.now) }
        ensures inside { IfOk result (HasNext (length ops.now) self.new.pc) }
    {
        let mut top = held;
        loop {
            match self.plain_over_in(top, ops)? {
                Over::Int(x) => {
                    top = x;
                    self.advance();
                }
                Over::Pair(y) => {
                    self.advance();
                    match self.straight_over_two(top, y, ops)? {
                        Outcome::Int(x) => top = x,
                        Outcome::Flow(flow) => return Ok(flow),
                    }
                }
                Over::Flow(flow) => return Ok(flow),
            }
        }
    }

    /// Does instructions of its method up to the first that doesn't go on to the next one.
    #[inline(always)]
    pub(crate) fn straight(&mut self, ops: &[Op]) -> Result<Flow, Failure>
        requires closed { IsClosed ops.now }
        requires within { self.old.pc < length ops.now }
        ensures run { (P : JProgram) → HasOps P self.old.method ops.now → IsStraight P self.old self.new result }
        ensures method { self.new.method ≡ self.old.method }
        ensures within { IfOk result (λ _. self.new.pc < length ops.now) }
        ensures next { IfOk result (λ _. self.new.pc + 1 < 2 ^ 64) }
    {
        loop {
            match self.plain_in(ops)? {
                Outcome::Flow(Flow::Next) => self.advance(),
                Outcome::Flow(flow) => return Ok(flow),
                Outcome::Int(x) => {
                    self.advance();
                    match self.straight_over(x, ops)? {
                        Flow::Next => self.advance(),
                        Flow::Other => {}
                        flow => return Ok(flow),
                    }
                }
            }
        }
    }
}
