//! Calls of the context of a transaction.
ghost use Rattle.std.specs.Prelude.{◌≡◌, IfOk, MatchResult, ◌+◌, ◌<◌, ◌^◌};
ghost use Rattle.std.specs.Int.{w64, cast_unsigned};
ghost use Rattle.objects.specs.declared.op.Place.{Place as Placed};
ghost use Rattle.objects.specs.declared.op.ContextCall.TheVariants as call;
ghost use Rattle.objects.specs.semantics.Step.{Did, context_calls, place_in as place_at, element_in};
ghost use Rattle.machine.specs.Meets.{Meets, Lacks, CanDo};

use crate::failure::Failure;
use crate::frame::Frame;
use crate::value::word_of;
use objects::op::{ContextCall, Doing, Element, Place, Request, Trap, Use, WordType};

/// The place of an object's word, or `Wrong` for null and for a place whose address has more than 64 bits.
fn place_in(object: u64, index: u64) -> Result<Place, Failure>
    ensures place { MatchResult result (λ p. (k : Placed → Did) → place_at object index k ≡ k p) (λ e. Lacks e (place_at object index)) }
    ensures address { IfOk result (λ p. p.object + p.index < 2 ^ 64) }
{
    if object == 0 || object.checked_add(index).is_none() {
        return Err(Failure::Wrong);
    }
    Ok(Place { object, index })
}

/// The same, by a distance that is kept as a long.
fn place_of(object: u64, index: i64) -> Result<Place, Failure>
    ensures place { MatchResult result (λ p. (k : Placed → Did) → place_at object (cast_unsigned w64 index) k ≡ k p) (λ e. Lacks e (place_at object (cast_unsigned w64 index))) }
    ensures address { IfOk result (λ p. p.object + p.index < 2 ^ 64) }
{
    place_in(object, index.cast_unsigned())
}

/// The place of an array's element, or `Wrong` for null, below the first element, and for a place whose address has more than 64 bits.
fn element_of(array: u64, index: i32) -> Result<Place, Failure>
    ensures place { MatchResult result (λ p. (k : Placed → Did) → element_in array index k ≡ k p) (λ e. Lacks e (element_in array index)) }
    ensures address { IfOk result (λ p. p.object + p.index < 2 ^ 64) }
{
    match u64::try_from(index) {
        Ok(index) => place_in(array, index + 1),
        Err(_) => Err(Failure::Wrong),
    }
}

impl Frame {
    /// Takes the arguments of a call of the context. `Wrong` where the stack hasn't them.
    pub fn context(&mut self, call: ContextCall) -> Result<Doing, Failure>
        ensures does { Meets result self.new (context_calls call self.old) }
        ensures can { IfOk result CanDo }
        ensures place { (self.new.method ≡ self.old.method) × (self.new.pc ≡ self.old.pc) }
    {
        match call {
            ContextCall::Init => self.init(),
            ContextCall::BeforeRead => self.before_read(),
            ContextCall::OnRead(word_type) => self.on_read(word_type),
            ContextCall::OnWrite(word_type) => self.on_write(word_type),
            ContextCall::BeforeReadElement => self.before_read_element(),
            ContextCall::OnReadElement(word_type) => self.on_read_element(word_type),
            ContextCall::OnWriteElement(word_type) => self.on_write_element(word_type),
            ContextCall::Commit => {
                self.stack.take_context()?;
                Ok(Doing::Ask(Request::Commit))
            }
            ContextCall::Rollback => {
                self.stack.take_context()?;
                Ok(Doing::Ask(Request::Rollback))
            }
        }
    }

    fn init(&mut self) -> Result<Doing, Failure>
        ensures does { Meets result self.new (context_calls call.Init self.old) }
        ensures can { IfOk result CanDo }
        ensures place { (self.new.method ≡ self.old.method) × (self.new.pc ≡ self.old.pc) }
    {
        let retries = self.stack.take_int()?;
        self.stack.take_int()?;
        self.stack.take_context()?;
        Ok(Doing::Ask(Request::Begin(retries)))
    }

    fn before_read(&mut self) -> Result<Doing, Failure>
        ensures does { Meets result self.new (context_calls call.BeforeRead self.old) }
        ensures can { IfOk result CanDo }
        ensures place { (self.new.method ≡ self.old.method) × (self.new.pc ≡ self.old.pc) }
    {
        let index = self.stack.take_long()?;
        let object = self.stack.take_ref()?;
        self.stack.take_context()?;
        if object == 0 {
            return Ok(Doing::Trap(Trap::NullPointer));
        }
        let place = place_of(object, index)?;
        Ok(Doing::Ask(Request::Look(place)))
    }

    fn on_read(&mut self, word_type: WordType) -> Result<Doing, Failure>
        ensures does { Meets result self.new (context_calls (call.OnRead word_type) self.old) }
        ensures can { IfOk result CanDo }
        ensures place { (self.new.method ≡ self.old.method) × (self.new.pc ≡ self.old.pc) }
    {
        let index = self.stack.take_long()?;
        self.stack.take_loaded()?;
        let object = self.stack.take_ref()?;
        self.stack.take_context()?;
        let place = place_of(object, index)?;
        Ok(Doing::Ask(Request::Read(place, word_type)))
    }

    fn on_write(&mut self, word_type: WordType) -> Result<Doing, Failure>
        ensures does { Meets result self.new (context_calls (call.OnWrite word_type) self.old) }
        ensures can { IfOk result CanDo }
        ensures place { (self.new.method ≡ self.old.method) × (self.new.pc ≡ self.old.pc) }
    {
        let index = self.stack.take_long()?;
        let value = self.stack.take_word(word_type)?;
        let object = self.stack.take_ref()?;
        self.stack.take_context()?;
        if object == 0 {
            return Ok(Doing::Trap(Trap::NullPointer));
        }
        let place = place_of(object, index)?;
        Ok(Doing::Ask(Request::Write(place, word_of(value))))
    }

    fn before_read_element(&mut self) -> Result<Doing, Failure>
        ensures does { Meets result self.new (context_calls call.BeforeReadElement self.old) }
        ensures can { IfOk result CanDo }
        ensures place { (self.new.method ≡ self.old.method) × (self.new.pc ≡ self.old.pc) }
    {
        let index = self.stack.take_int()?;
        let array = self.stack.take_ref()?;
        self.stack.take_context()?;
        if array == 0 {
            return Ok(Doing::Trap(Trap::NullPointer));
        }
        Ok(Doing::Head(array, Use::Indexes(index, Element::Look)))
    }

    fn on_read_element(&mut self, word_type: WordType) -> Result<Doing, Failure>
        ensures does { Meets result self.new (context_calls (call.OnReadElement word_type) self.old) }
        ensures can { IfOk result CanDo }
        ensures place { (self.new.method ≡ self.old.method) × (self.new.pc ≡ self.old.pc) }
    {
        let index = self.stack.take_int()?;
        self.stack.take_loaded()?;
        let array = self.stack.take_ref()?;
        self.stack.take_context()?;
        let place = element_of(array, index)?;
        Ok(Doing::Ask(Request::Read(place, word_type)))
    }

    fn on_write_element(&mut self, word_type: WordType) -> Result<Doing, Failure>
        ensures does { Meets result self.new (context_calls (call.OnWriteElement word_type) self.old) }
        ensures can { IfOk result CanDo }
        ensures place { (self.new.method ≡ self.old.method) × (self.new.pc ≡ self.old.pc) }
    {
        let index = self.stack.take_int()?;
        let value = self.stack.take_word(word_type)?;
        let array = self.stack.take_ref()?;
        self.stack.take_context()?;
        if array == 0 {
            return Ok(Doing::Trap(Trap::NullPointer));
        }
        Ok(Doing::Head(array, Use::Indexes(index, Element::Write(value))))
    }
}
