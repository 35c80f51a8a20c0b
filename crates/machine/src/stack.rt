//! The operand stack and the locals of a frame.
ghost use Rattle.std.specs.Prelude.{◌≡◌, List, [], ◌∷◌, IfOk, MatchOption, OnErr, OnOk, MatchResult, IfErr, MatchBool, reverse, slice_get};
ghost use Rattle.objects.specs.declared.op.Slot.{Slot as Item};
ghost use Rattle.objects.specs.semantics.Step.{sort_of as sort_of_type};

use crate::failure::Failure;
use crate::value::kept_by;
use jmodel::value::Value;
use objects::op::{Slot, Sort, WordType};
use std::alloc::{AllocError, Global};
use std::marker::Model;

/// The operand stack of a frame.
#[derive(Drop)]
pub struct Stack {
    items: Vec<Slot>,
}

impl Model for Stack {
    ghost Value = { List Item };

    // the topmost first
    ghost view = { λ s. reverse s.items.items };
}

impl Stack {
    ghost use Rattle.std.specs.Prelude.{◌++◌};
    ghost use Rattle.objects.specs.semantics.Value.{pushed};

    /// An empty stack. No memory.
    pub fn new(alloc: Global) -> Self
        ensures { result ≡ [] }
    {
        Stack {
            items: Vec::new(alloc),
        }
    }

    /// Becomes the same slots as on another stack.
    pub fn set_copy(&mut self, from: &Stack) -> Result<(), AllocError>
        ensures { OnOk result (self.new ≡ from.now) }
    {
        self.items.clear();
        self.items.extend_from_slice(from.items.as_slice())?;
        Ok(())
    }

    /// Whether there is room for so many slots more.
    #[inline(always)]
    pub(crate) fn has_room(&self, slots: usize) -> bool {
        self.items.capacity().saturating_sub(self.items.len()) >= slots
    }

    /// Whether it has room for fewer slots than these, those on it included.
    #[inline(always)]
    pub(crate) fn is_below(&self, slots: usize) -> bool {
        self.items.capacity() < slots
    }

    /// Makes room for so many slots more.
    pub(crate) fn make_room(&mut self, slots: usize) -> Result<(), AllocError>
        ensures { self.new ≡ self.old }
    {
        self.items.reserve(slots)
    }

    /// Puts a slot on top, where there is room for it.
    #[inline(always)]
    pub(crate) fn put(&mut self, slot: Slot) -> Result<(), AllocError>
        ensures { OnOk result (self.new ≡ slot ∷ self.old) }
    {
        if self.items.len() < self.items.capacity() {
            self.items.push_reserved(slot);
            Ok(())
        } else {
            Err(AllocError)
        }
    }

    /// Puts a slot on top.
    #[inline(always)]
    pub fn push(&mut self, slot: Slot) -> Result<(), AllocError>
        ensures { OnOk result (self.new ≡ slot ∷ self.old) }
    {
        self.items.push(slot)?;
        Ok(())
    }

    /// Puts two slots on top, the lower one first.
    #[inline(always)]
    pub(crate) fn push_two(&mut self, lower: Slot, upper: Slot) -> Result<(), AllocError>
        ensures { OnOk result (self.new ≡ upper ∷ lower ∷ self.old) }
    {
        self.push(lower)?;
        self.push(upper)
    }

    /// Puts a long on top, in two slots.
    pub fn push_long(&mut self, x: i64) -> Result<(), AllocError>
        ensures { OnOk result (self.new ≡ Item.Second ∷ Item.Long x ∷ self.old) }
    {
        self.push(Slot::Long(x))?;
        self.push(Slot::Second)
    }

    /// Puts a value on top, a long in two slots.
    #[inline(always)]
    pub fn push_value(&mut self, value: Value) -> Result<(), AllocError>
        ensures { OnOk result (self.new ≡ pushed value self.old) }
    {
        match value {
            Value::Int(x) => self.push(Slot::Int(x)),
            Value::Long(x) => self.push_long(x),
            Value::Ref(object) => self.push(Slot::Ref(object)),
        }
    }

    /// Drops all slots.
    pub fn clear(&mut self)
        ensures { self.new ≡ [] }
    {
        self.items.clear();
    }

    /// Takes the topmost slot, if there is one.
    #[inline(always)]
    pub fn pop(&mut self) -> Option<Slot>
        ensures { MatchOption result ((self.old ≡ []) × (self.new ≡ [])) (λ v. self.old ≡ v ∷ self.new) }
    {
        self.items.pop()
    }
}

impl Stack {
    ghost use Rattle.std.specs.Prelude.{◌⊎◌};
    ghost use Rattle.machine.specs.Meets.{Lacks};
    ghost use Rattle.machine.specs.declared.failure.Failure.TheVariants as failure;
    ghost use Rattle.objects.specs.semantics.Step.{on_top, on_int, on_ref, on_long, on_context, on_loaded, on_value, on_word, without, object_in, Did};

    /// The topmost slot, or `Wrong` where there is none.
    #[inline(always)]
    pub fn take(&mut self) -> Result<Slot, Failure>
        ensures take { MatchResult result (λ v. self.old ≡ v ∷ self.new) (λ e. Lacks e (on_top self.old)) }
        ensures none { IfErr result (λ _. self.old ≡ []) }
    {
        self.pop().ok_or(Failure::Wrong)
    }

    /// The two topmost slots, the lower one first, or `Wrong` where there are fewer.
    #[inline(always)]
    pub(crate) fn take_two(&mut self) -> Result<(Slot, Slot), Failure>
        ensures { MatchResult result (λ p. self.old ≡ p.1 ∷ p.0 ∷ self.new) (λ e. (e ≡ failure.Wrong) × ((self.old ≡ []) ⊎ ((x : Item) × (self.old ≡ x ∷ [])))) }
    {
        let upper = self.take()?;
        let lower = self.take()?;
        Ok((lower, upper))
    }

    /// The topmost slot, an int, or `Wrong` where there is none.
    #[inline(always)]
    pub fn take_int(&mut self) -> Result<i32, Failure>
        ensures { MatchResult result (λ x. self.old ≡ Slot.Int x ∷ self.new) (λ e. Lacks e (on_int self.old)) }
    {
        let Slot::Int(x) = self.take()? else {
            return Err(Failure::Wrong);
        };
        Ok(x)
    }

    /// The topmost slot, a reference, or `Wrong` where there is none.
    #[inline(always)]
    pub fn take_ref(&mut self) -> Result<u64, Failure>
        ensures { MatchResult result (λ o. self.old ≡ Slot.Ref o ∷ self.new) (λ e. Lacks e (on_ref self.old)) }
    {
        let Slot::Ref(object) = self.take()? else {
            return Err(Failure::Wrong);
        };
        Ok(object)
    }

    /// The topmost two slots, a long, or `Wrong` where there is none.
    pub fn take_long(&mut self) -> Result<i64, Failure>
        ensures { MatchResult result (λ x. self.old ≡ Slot.Second ∷ Slot.Long x ∷ self.new) (λ e. Lacks e (on_long self.old)) }
    {
        let Slot::Second = self.take()? else {
            return Err(Failure::Wrong);
        };
        let Slot::Long(x) = self.take()? else {
            return Err(Failure::Wrong);
        };
        Ok(x)
    }

    /// The topmost slot, the context, or `Wrong` where there is none.
    pub fn take_context(&mut self) -> Result<(), Failure>
        ensures { MatchResult result (λ _. self.old ≡ Slot.Context ∷ self.new) (λ e. Lacks e (on_context self.old)) }
    {
        match self.take()? {
            Slot::Context => Ok(()),
            _ => Err(Failure::Wrong),
        }
    }

    /// The topmost slot, what a plain load gave, or `Wrong` where there is none.
    pub fn take_loaded(&mut self) -> Result<(), Failure>
        ensures { MatchResult result (λ _. self.old ≡ Slot.Loaded ∷ self.new) (λ e. Lacks e (on_loaded self.old)) }
    {
        match self.take()? {
            Slot::Loaded => Ok(()),
            _ => Err(Failure::Wrong),
        }
    }

    /// The topmost slot, an object or the context, or `Wrong` where there is none.
    #[inline(always)]
    pub fn take_object(&mut self) -> Result<Slot, Failure>
        ensures { MatchResult result (λ v. (self.old ≡ v ∷ self.new) × ((k : Did) → object_in v k ≡ k)) (λ e. Lacks e (λ (k : Item → List Item → Did). on_top self.old (λ v s. object_in v (k v s)))) }
    {
        let slot = self.take()?;
        match slot {
            Slot::Ref(_) | Slot::Context => Ok(slot),
            _ => Err(Failure::Wrong),
        }
    }

    /// The topmost slot, a reference, which stays, or `Wrong` where there is none.
    pub fn top_ref(&self) -> Result<u64, Failure>
        ensures { MatchResult result (λ o. (s : List Item) × (self.now ≡ Slot.Ref o ∷ s)) (λ e. Lacks e (on_ref self.now)) }
    {
        match self.peek(0) {
            Some(Slot::Ref(object)) => Ok(object),
            _ => Err(Failure::Wrong),
        }
    }

    /// The topmost value, of a sort, or `Wrong` where there is none.
    #[inline(always)]
    pub fn take_value(&mut self, sort: Sort) -> Result<Value, Failure>
        ensures { MatchResult result (λ v. (k : Value → List Item → Did) → on_value sort self.old k ≡ k v self.new) (λ e. Lacks e (on_value sort self.old)) }
    {
        match sort {
            Sort::Int => Ok(Value::Int(self.take_int()?)),
            Sort::Long => Ok(Value::Long(self.take_long()?)),
            Sort::Reference => Ok(Value::Ref(self.take_ref()?)),
        }
    }

    /// The topmost value as a word of a type keeps it, or `Wrong` where there is none.
    pub fn take_word(&mut self, word_type: WordType) -> Result<Value, Failure>
        ensures { MatchResult result (λ v. (k : Value → List Item → Did) → on_word word_type self.old k ≡ k v self.new) (λ e. Lacks e (on_word word_type self.old)) }
    {
        let value = self.take_value(sort_of(word_type))?;
        Ok(kept_by(word_type, value))
    }

    /// Drops so many of the topmost slots, or `Wrong` where there are too few.
    pub fn drop_slots(&mut self, count: usize) -> Result<(), Failure>
        ensures { MatchResult result (λ _. (k : List Item → Did) → without count self.old k ≡ k self.new) (λ e. Lacks e (without count self.old)) }
    {
        for _ in 0..count {
            self.take()?;
        }
        Ok(())
    }

    /// The slot below so many of the topmost ones, if there is one.
    pub fn peek(&self, below: usize) -> Option<Slot>
        ensures { result ≡ slice_get self.now below }
    {
        let len = self.items.len();
        if below < len {
            Some(self.items[len - 1 - below])
        } else {
            None
        }
    }
}

/// The sort of the values that words of a type have.
pub(crate) fn sort_of(word_type: WordType) -> Sort
    ensures { result ≡ sort_of_type word_type }
{
    match word_type {
        WordType::Long => Sort::Long,
        WordType::Reference => Sort::Reference,
        WordType::Boolean | WordType::Byte | WordType::Char | WordType::Short | WordType::Int =>
            Sort::Int,
    }
}

/// The locals of a frame, the parameters first.
#[derive(Drop)]
pub struct Locals {
    items: Vec<Slot>,
}

impl Model for Locals {
    ghost Value = { List Item };

    ghost view = { λ l. l.items.items };
}

impl Locals {
    ghost use Rattle.std.specs.Prelude.{slice_set, length, ◌<◌, ◌≤◌, ◌+◌, ◌^◌, ◌++◌, replicate, IfSome};
    ghost use Rattle.std.specs.List.{flat_map};
    ghost use Rattle.objects.specs.semantics.Value.{slots_of};

    /// No locals. No memory.
    pub(crate) fn new(alloc: Global) -> Self
        ensures { result ≡ [] }
    {
        Locals {
            items: Vec::new(alloc),
        }
    }

    /// Becomes the locals of argument values, a long in two slots.
    pub fn set_values(&mut self, args: &[Value]) -> Result<(), AllocError>
        ensures { OnOk result (self.new ≡ flat_map slots_of args.now) }
    {
        self.items.clear();
        for value in args {
            self.push_value(*value)?;
        }
        Ok(())
    }

    /// Becomes the same slots as others.
    pub fn set_copy(&mut self, from: &Locals) -> Result<(), AllocError>
        ensures { OnOk result (self.new ≡ from.now) }
    {
        self.items.clear();
        self.items.extend_from_slice(from.items.as_slice())?;
        Ok(())
    }

    #[inline(always)]
    fn push(&mut self, slot: Slot) -> Result<(), AllocError>
        ensures { OnOk result (self.new ≡ self.old ++ slot ∷ []) }
    {
        self.items.push(slot)?;
        Ok(())
    }

    #[inline(always)]
    fn push_value(&mut self, value: Value) -> Result<(), AllocError>
        ensures { OnOk result (self.new ≡ self.old ++ slots_of value) }
    {
        match value {
            Value::Int(x) => self.push(Slot::Int(x)),
            Value::Long(x) => {
                self.push(Slot::Long(x))?;
                self.push(Slot::Second)
            }
            Value::Ref(object) => self.push(Slot::Ref(object)),
        }
    }

    /// Adds so many locals in which nothing was stored.
    #[inline(always)]
    pub fn add_empty(&mut self, count: usize) -> Result<(), AllocError>
        ensures { OnOk result (self.new ≡ self.old ++ replicate count Slot.Empty) }
    {
        for _ in 0..count {
            self.push(Slot::Empty)?;
        }
        Ok(())
    }

    /// The slot of a local, if there is one of this number.
    #[inline(always)]
    pub fn get(&self, i: usize) -> Option<Slot>
        ensures slot { result ≡ slice_get self.now i }
        ensures next { IfSome result (λ _. i + 1 < 2 ^ 64) }
    {
        self.items.get(i).copied()
    }

    /// Whether there are such a local and the next one; they then hold the two slots of a long.
    pub fn set_long(&mut self, i: usize, x: i64) -> bool
        ensures { MatchBool result ((i + 1 < length self.old) × (self.new ≡ slice_set (slice_set self.old i (Item.Long x)) (i + 1) Item.Second)) (length self.old ≤ i + 1) }
    {
        let len = self.items.len();
        if len < 2 || i > len - 2 {
            return false;
        }
        self.items[i] = Slot::Long(x);
        self.items[i + 1] = Slot::Second;
        true
    }

    /// Whether there is such a local; it then holds the slot.
    #[inline(always)]
    pub fn set(&mut self, i: usize, slot: Slot) -> bool
        ensures { MatchBool result ((i < length self.old) × (self.new ≡ slice_set self.old i slot)) (length self.old ≤ i) }
    {
        if i < self.items.len() {
            self.items[i] = slot;
            true
        } else {
            false
        }
    }
}

impl Locals {
    ghost use Rattle.machine.specs.declared.failure.Failure.TheVariants as failure;
    ghost use Rattle.objects.specs.semantics.Step.{take_args, Took, TooFew};

    /// Becomes the arguments of a call, the topmost slots of the caller's stack, or `Wrong` where there are too few.
    #[inline(always)]
    pub(crate) fn take_args(&mut self, from: &mut Stack, count: usize) -> Result<(), Failure>
        ensures { MatchResult result (λ _. take_args count [] from.old ≡ Took self.new from.new) (λ e. e ≡ failure.Wrong → take_args count [] from.old ≡ TooFew) }
    {
        let len = from.items.len();
        if len < count {
            return Err(Failure::Wrong);
        }
        self.items.clear();
        self.items.extend_from_slice(&from.items[len - count..])?;
        from.items.truncate(len - count);
        Ok(())
    }
}
