//! The table of types of a method.
ghost use Rattle.std.specs.Prelude.{◌≡◌, ◌<◌, Some, IfOk, IfErr, length};
ghost use Rattle.objects.specs.semantics.Program.{Method, method_at};
ghost use Rattle.objects.specs.typing.Source.{AreTypes};
ghost use Rattle.verifier.specs.Answer.{TakesRead};
ghost use Rattle.program_typing.specs.Tables.{IsTableOf};
ghost use Rattle.program_typing.specs.Typed.{EndsTable};

use hierarchy::{Program, Typing};
use std::alloc::Global;
use verifier::{TypeEnd, infer};

/// The table of a program's method by its number: its narrowest typing (JVM Specification, Java SE 7, section 4.10.2), or
/// an empty table where it has no code. Untypable, from a place on, is a method that has code and no typing.
pub fn table_of(alloc: Global, program: &Program, number: usize) -> Result<Typing, TypeEnd>
    requires there { number < length program.now.methods }
    requires types { AreTypes program.now }
    requires takes { TakesRead program.now number }
    ensures table { IfOk result (λ T. (k : Method) → method_at program.now number ≡ Some k → IsTableOf program.now k T) }
    ensures cause { IfErr result (EndsTable program.now number) }
{
    if !program.methods()[number].has_code() {
        return Ok(Typing::from_vec(Vec::new(alloc)));
    }
    infer(alloc, program, number)
}
