//! How an instruction goes on by the header of an object, which tells its type and its length.
ghost use Rattle.std.specs.Prelude.{◌≡◌, [], ◌∷◌, ℕ, IfOk, ◌+◌, ◌<◌, ◌^◌};
ghost use Rattle.objects.specs.semantics.Program.{Program as JProgram, is_instance, row_at};
ghost use Rattle.objects.specs.semantics.State.{type_in, length_in};
ghost use Rattle.objects.specs.semantics.Step.{Frames, Frame as JFrame, Asks, told as told_of, accesses as accesses_of, fitted as fitted_of, stored as stored_of, kept_in as kept_of, element_name as name_of_elements, resumed, truth};
ghost use Rattle.objects.specs.declared.op.Asking.TheVariants as asking;
ghost use Rattle.objects.specs.declared.op.Use.TheVariants as use_of;
ghost use Rattle.machine.specs.Meets.{IsStep, CanAsk, HasPlace, GoesOn, loads_plain as is_plain_load};

use crate::callers::Callers;
use crate::failure::Failure;
use crate::frame::Frame;
use crate::step::{enter_found, trapped};
use crate::value::{kept_by, word_of};
use hierarchy::program::Program;
use hierarchy::row::Holds;
use jmodel::value::Value;
use objects::op::{Asking, Element, Place, Request, Slot, Trap, Use};
use std::alloc::Global;

/// An object, with the word of its header.
#[derive(Clone, Copy)]
pub struct Headed {
    pub object: u64,
    pub header: u64,
}

/// The number of the type that a header has.
pub(crate) fn type_of(header: u64) -> usize
    ensures { result ≡ type_in header }
{
    (header / (1 << 32)) as usize
}

/// The length that a header has.
pub(crate) fn length_of(header: u64) -> u64
    ensures { result ≡ length_in header }
{
    header % (1 << 32)
}

/// Whether an instruction is a plain load of an element, which reads no header.
pub(crate) fn loads_plain(how: &Use) -> bool
    ensures { result ≡ is_plain_load how.now }
{
    matches!(how, Use::Indexes(_, Element::Load))
}

/// What is asked for to read, write, look at or write by the transaction an element.
fn accesses(place: Place, element: Element) -> Asking
    ensures step { (fs : Frames) → accesses_of place element fs ≡ Asks result fs }
    ensures can { (f : JFrame) → place.object + place.index < 2 ^ 64 → f.pc + 1 < 2 ^ 64 → CanAsk result f }
    ensures on { GoesOn result }
{
    match element {
        Element::Load => Asking::Ask(Request::Get(place)),
        Element::Store(value) => Asking::Ask(Request::Put(place, value)),
        Element::Look => Asking::Ask(Request::Look(place)),
        Element::Write(value) => Asking::Ask(Request::Write(place, word_of(value))),
    }
}

/// What is asked for an element that holds a value now: a reference, where it isn't null, asks for its own header.
fn fitted(array: usize, place: Place, element: Element, value: Value) -> Asking
    ensures step { (fs : Frames) → fitted_of array place element value fs ≡ Asks result fs }
    ensures can { (f : JFrame) → place.object + place.index < 2 ^ 64 → f.pc + 1 < 2 ^ 64 → CanAsk result f }
    ensures on { GoesOn result }
{
    match value {
        Value::Ref(object) if object != 0 => Asking::Head(
            object,
            Use::Fits {
                array,
                place,
                element,
            },
        ),
        _ => accesses(place, element),
    }
}

/// What is asked for an element of an array, by the number of its type.
fn stored(array: usize, place: Place, element: Element) -> Asking
    ensures step { (fs : Frames) → stored_of array place element fs ≡ Asks result fs }
    ensures can { (f : JFrame) → place.object + place.index < 2 ^ 64 → f.pc + 1 < 2 ^ 64 → CanAsk result f }
    ensures on { GoesOn result }
{
    match element {
        Element::Store(value) => fitted(array, place, element, value),
        Element::Write(value) => fitted(array, place, element, value),
        Element::Load => accesses(place, Element::Load),
        Element::Look => accesses(place, Element::Look),
    }
}

/// What an array of a type keeps of a stored value.
fn kept_in(program: &Program, array: usize, element: Element) -> Element
    ensures { result ≡ kept_of (row_at program.now array) element }
{
    let Element::Store(value) = element else {
        return element;
    };
    let Some(row) = program.row(array) else {
        return element;
    };
    match row.holds() {
        Holds::Elements { declared, .. } => Element::Store(kept_by(declared.word, value)),
        Holds::Words(_) => element,
    }
}

/// Whether an object of a type may be an element of arrays of another.
fn may_be_element(program: &Program, of: usize, array: usize) -> bool
    ensures { result ≡ is_instance program.now of (name_of_elements (row_at program.now array)) }
{
    let Some(row) = program.row(array) else {
        return program.is_instance(of, b"");
    };
    match row.holds() {
        Holds::Elements { name, .. } => program.is_instance(of, name.as_slice()),
        Holds::Words(_) => program.is_instance(of, b""),
    }
}

/// Goes to the element at an index of an array. `Wrong` where its address has more than 64 bits.
fn index(
    program: &Program,
    array: Headed,
    index: i32,
    element: Element,
    frame: &Frame,
) -> Result<Asking, Failure>
    requires { frame.now.pc + 1 < 2 ^ 64 }
    ensures step { (fs : Frames) → IsStep result (frame.now ∷ fs) (told_of program.now (use_of.Indexes index element) array.object (type_in array.header) (length_in array.header) (frame.now ∷ fs)) }
    ensures can { IfOk result (λ a. CanAsk a frame.now) }
    ensures on { IfOk result GoesOn }
{
    let Ok(index) = u64::try_from(index) else {
        return Ok(trapped(Trap::ArrayIndex));
    };
    if index >= length_of(array.header) {
        return Ok(trapped(Trap::ArrayIndex));
    }
    let place = Place {
        object: array.object,
        index: index + 1,
    };
    if place.object.checked_add(place.index).is_none() {
        return Err(Failure::Wrong);
    }
    let of = type_of(array.header);
    Ok(stored(of, place, kept_in(program, of, element)))
}

/// Puts the length of an array on the stack. No array has a length that is no int, so such a header has no memory.
fn measure(header: u64, frame: &mut Frame) -> Result<Asking, Failure>
    requires { frame.old.pc + 1 < 2 ^ 64 }
    ensures step { (P : JProgram) (o t : ℕ) (fs : Frames) → IsStep result (frame.new ∷ fs) (told_of P use_of.Measures o t (length_in header) (frame.old ∷ fs)) }
    ensures can { IfOk result (λ a. CanAsk a frame.new) }
    ensures on { IfOk result GoesOn }
{
    let Ok(length) = i32::try_from(length_of(header)) else {
        return Err(Failure::NoMemory);
    };
    frame.resume(Slot::Int(length))?;
    Ok(Asking::Go)
}

/// Puts 1 on the stack where an object is an instance, else 0.
fn test(is: bool, frame: &mut Frame) -> Result<Asking, Failure>
    requires { frame.old.pc + 1 < 2 ^ 64 }
    ensures step { (fs : Frames) → IsStep result (frame.new ∷ fs) (Asks asking.Go (resumed (truth is ∷ []) (frame.old ∷ fs))) }
    ensures can { IfOk result (λ a. CanAsk a frame.new) }
    ensures on { IfOk result GoesOn }
{
    frame.resume(Slot::Int(i32::from(is)))?;
    Ok(Asking::Go)
}

/// Goes on with the header of an object that an instruction asked for.
pub(crate) fn told(
    alloc: Global,
    program: &Program,
    how: Use,
    headed: Headed,
    frame: &mut Frame,
    callers: &mut Callers,
) -> Result<Asking, Failure>
    requires place { HasPlace how }
    requires next { frame.old.pc + 1 < 2 ^ 64 }
    ensures step { IsStep result (frame.new ∷ callers.new) (told_of program.now how headed.object (type_in headed.header) (length_in headed.header) (frame.old ∷ callers.old)) }
    ensures can { IfOk result (λ a. CanAsk a frame.new) }
    ensures on { IfOk result GoesOn }
{
    let of = type_of(headed.header);
    match how {
        Use::Selects(method) => {
            let selected = program.selected(of, method);
            enter_found(alloc, program, selected, frame, callers)
        }
        Use::Implements { method, interface } => {
            if !program.is_instance(of, interface.as_slice()) {
                return Ok(trapped(Trap::IncompatibleClassChange));
            }
            let found = program.selected(of, method);
            enter_found(alloc, program, found, frame, callers)
        }
        Use::Casts(class) => {
            if !program.is_instance(of, class.as_slice()) {
                return Ok(trapped(Trap::ClassCast));
            }
            frame.advance();
            Ok(Asking::Go)
        }
        Use::Tests(class) => test(program.is_instance(of, class.as_slice()), frame),
        Use::Measures => measure(headed.header, frame),
        Use::Indexes(at, element) => index(program, headed, at, element, frame),
        Use::Fits {
            array,
            place,
            element,
        } => {
            if !may_be_element(program, of, array) {
                return Ok(trapped(Trap::ArrayStore));
            }
            Ok(accesses(place, element))
        }
    }
}
