//! The typing of each method of a program.
ghost use Rattle.std.specs.Prelude.{◌≡◌, ◌<◌, Some, IfOk, IfErr, length, option_map};
ghost use Rattle.objects.specs.semantics.Program.{Method as Form, method_at};
ghost use Rattle.objects.specs.typing.Source.{IsSource};
ghost use Rattle.program_typing.specs.Early.{early_store as early_store_of};
ghost use Rattle.program_typing.specs.Tables.{AreTables};
ghost use Rattle.program_typing.specs.Typed.{IsTyped, EndsTyped};

use crate::early::early_store;
use crate::tables::table_of;
use hierarchy::{Program, Typing};
use std::alloc::{AllocFailed, Global};
use verifier::TypeEnd;

/// Why a program isn't typed. Methods go by their numbers, and places are counted in instructions.
#[derive(Clone, Copy, PartialEq, Eq)]
pub enum TypeFault {
    /// This method is the first that has code and no typing. No table meets the rules of its instructions up to this place,
    /// and for each lower place there is one that does.
    Untypable { method: usize, place: usize },
    /// Each method has a typing, or no code. This method is the first, and this its first instruction, that stores to a
    /// field of an object that another constructor has not run over.
    EarlyStore { method: usize, place: usize },
    NoMemory,
}

impl<T: Drop> From<AllocFailed<T>> for TypeFault {
    ghost use Rattle.std.specs.Prelude.{◌≡◌};
    ghost use Rattle.program_typing.specs.declared.typed.TypeFault.TheVariants as faults;

    ghost from_gives = { λ _ e. e ≡ faults.NoMemory };

    fn from(_: AllocFailed<T>) -> Self {
        TypeFault::NoMemory
    }
}

/// The first store of a method to a field of an object that isn't built, by the method's number and the place.
fn early_at(program: &Program, method: usize, typing: &Typing) -> Option<(usize, usize)>
    requires { method < length program.now.methods }
    ensures { (k : Form) → method_at program.now method ≡ Some k → result ≡ option_map (λ pc. (method, pc)) (early_store_of program.now k typing.now) }
{
    let place = early_store(program, &program.methods()[method], typing)?;
    Some((method, place))
}

/// The narrowest typing of each method of a program (JVM Specification, Java SE 7, section 4.10.2), in the order of their
/// numbers. That of a method without code is empty.
pub fn type_all(alloc: Global, program: &Program) -> Result<Vec<Typing>, TypeFault>
    requires source { IsSource program.now }
    ensures typed { IfOk result (λ _. IsTyped program.now) }
    ensures tables { IfOk result (λ v. AreTables program.now v.items) }
    ensures cause { IfErr result (EndsTyped program.now) }
{
    let mut typings = Vec::new(alloc);
    let mut first_early = None;
    for method in 0..program.methods().len() {
        let typing = match table_of(alloc, program, method) {
            Ok(typing) => typing,
            Err(TypeEnd::Untypable(place)) => return Err(TypeFault::Untypable { method, place }),
            Err(TypeEnd::NoMemory) => return Err(TypeFault::NoMemory),
        };
        first_early = first_early.or(early_at(program, method, &typing));
        typings.push(typing)?;
    }
    match first_early {
        None => Ok(typings),
        Some((method, place)) => Err(TypeFault::EarlyStore { method, place }),
    }
}
