//! The order in which static initialisers run (JVM Specification, Java SE 7, section 5.5).
ghost use Rattle.std.specs.Prelude.{◌≡◌, ◌++◌, map, filter, IfOk, OnOk};
ghost use Rattle.objects.specs.semantics.Program.{method_at};
ghost use Rattle.objects.specs.linking.Linking.{is_initialiser_of as initialises, numbers_from, initialisers_in as numbers_in};
ghost use Rattle.heap_layout.specs.Starting.{is_initialiser_at};

use crate::text::equal;
use const_pool::ClassFile;
use hierarchy::Program;
use hierarchy::starting::in_start_order;
use hierarchy::symbols::own_name;
use jmodel::NoMemory;
use std::alloc::{AllocError, Global};

// The numbers of all static initialisers.
fn initialisers(alloc: Global, program: &Program) -> Result<Vec<usize>, AllocError>
    ensures { IfOk result (λ v. v.items ≡ filter (is_initialiser_at program.now) (numbers_from 0 program.now.methods)) }
{
    let mut numbers = Vec::new(alloc);
    for (number, method) in program.methods().iter().enumerate() {
        if method.is_initialiser() {
            numbers.push(number)?;
        }
    }
    Ok(numbers)
}

// Whether the method of a number is a static initialiser of a class.
fn initialises(program: &Program, name: &[u8], number: usize) -> bool
    ensures { result ≡ initialises name.now (method_at program.now number) }
{
    match program.method(number) {
        Some(method) => { method.is_initialiser() && equal(method.name().class.as_slice(), name) }
        None => false,
    }
}

// Puts those of some numbers at the end that are static initialisers of a class.
fn push_initialisers(
    program: &Program,
    name: &[u8],
    numbers: &[usize],
    found: &mut Vec<usize>,
) -> Result<(), AllocError>
    ensures { OnOk result (found.new.items ≡ found.old.items ++ filter (λ m. initialises name.now (method_at program.now m)) numbers.now) }
{
    for number in numbers {
        if initialises(program, name, *number) {
            found.push(*number)?;
        }
    }
    Ok(())
}

/// The numbers of a program's static initialisers, in the order in which they run: before each those of the classes above its own. For each class the
/// initialisers of all are looked through.
pub fn initialisers_in(
    alloc: Global,
    classes: &[&ClassFile],
    program: &Program,
) -> Result<Vec<usize>, NoMemory>
    ensures { IfOk result (λ v. v.items ≡ numbers_in (map (λ c. c.now) classes.now) program.now) }
{
    let numbers = initialisers(alloc, program)?;
    let mut found = Vec::new(alloc);
    for class in &in_start_order(alloc, classes)? {
        push_initialisers(program, own_name(class), numbers.as_slice(), &mut found)?;
    }
    Ok(found)
}
