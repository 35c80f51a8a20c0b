//! Faults of methods, as they are told: by the method's printed name and the place of an instruction in bytes.
ghost use Rattle.std.specs.Prelude.{◌≡◌, Ok, Some, IfOk, IfErr, map};
ghost use Rattle.objects.specs.linking.Linking.{linking};
ghost use Rattle.objects.specs.typing.Source.{IsSource};
ghost use Rattle.program_typing.specs.Tables.{AreTables};
ghost use Rattle.program_typing.specs.Typed.{IsTyped, IsFirstUntyped, IsFirstEarly};
ghost use Rattle.runner.specs.Faults.{IsAt, EndsTyping};
ghost use Rattle.runner.specs.Placing.{IsPlace};

use crate::outcome::RunEnd;
use const_pool::ClassFile;
use hierarchy::{Program, Typing};
use jmodel::{Bytes, NoMemory, Refusal};
use linking::pc_of;
use program_typing::{TypeFault, type_all};
use std::alloc::Global;

/// The printed name of a method, and where an instruction of it stands in its code, in bytes.
fn place_of(
    alloc: Global,
    classes: &[&ClassFile],
    program: &Program,
    method: usize,
    place: usize,
) -> Result<(Bytes, u16), NoMemory>
    requires links { linking (map (λ c. c.now) classes.now) ≡ Ok (Some program.now) }
    requires there { IsPlace program.now method place }
    ensures { IfOk result (λ p. IsAt program.now (map (λ c. c.now) classes.now) method place p.0 p.1) }
{
    let name = program.methods()[method].name().printed(alloc)?;
    match pc_of(alloc, classes, method, place)? {
        Some(pc) => Ok((name, pc)),
        None => unreachable!(),
    }
}

/// The refusal of a method that has code and no typing, from this place on.
fn untyped(
    alloc: Global,
    classes: &[&ClassFile],
    program: &Program,
    method: usize,
    place: usize,
) -> RunEnd
    requires links { linking (map (λ c. c.now) classes.now) ≡ Ok (Some program.now) }
    requires first { IsFirstUntyped program.now method place }
    ensures { EndsTyping program.now (map (λ c. c.now) classes.now) result }
{
    match place_of(alloc, classes, program, method, place) {
        Ok((name, pc)) => RunEnd::Untyped(Refusal::Untypable(name, pc as i64)),
        Err(_) => RunEnd::NoMemory,
    }
}

/// The refusal of a method whose instruction at this place stores to a field of an object that isn't built.
fn early(
    alloc: Global,
    classes: &[&ClassFile],
    program: &Program,
    method: usize,
    place: usize,
) -> RunEnd
    requires links { linking (map (λ c. c.now) classes.now) ≡ Ok (Some program.now) }
    requires first { IsFirstEarly program.now method place }
    ensures { EndsTyping program.now (map (λ c. c.now) classes.now) result }
{
    let Ok(kind) = Bytes::from_slice(alloc, b"EarlyStore") else {
        return RunEnd::NoMemory;
    };
    match place_of(alloc, classes, program, method, place) {
        Ok((name, pc)) => RunEnd::Refused(Refusal::Construct(kind, name, pc as i64)),
        Err(_) => RunEnd::NoMemory,
    }
}

/// The narrowest typing of each method of the program of classes. Untyped at the first that has code and no typing; else
/// refused as `Construct` with EarlyStore at the first store to a field of an object that another constructor has not run
/// over.
pub(crate) fn type_program(
    alloc: Global,
    classes: &[&ClassFile],
    program: &Program,
) -> Result<Vec<Typing>, RunEnd>
    requires links { linking (map (λ c. c.now) classes.now) ≡ Ok (Some program.now) }
    requires source { IsSource program.now }
    ensures typed { IfOk result (λ _. IsTyped program.now) }
    ensures tables { IfOk result (λ v. AreTables program.now v.items) }
    ensures cause { IfErr result (EndsTyping program.now (map (λ c. c.now) classes.now)) }
{
    match type_all(alloc, program) {
        Ok(typings) => Ok(typings),
        Err(TypeFault::Untypable { method, place }) => Err(untyped(
            alloc, classes, program, method, place,
        )),
        Err(TypeFault::EarlyStore { method, place }) => Err(early(
            alloc, classes, program, method, place,
        )),
        Err(TypeFault::NoMemory) => Err(RunEnd::NoMemory),
    }
}
