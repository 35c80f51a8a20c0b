//! The rewriting of a program.
ghost use Rattle.std.specs.Prelude.{◌≡◌, ◌++◌, IfOk};
ghost use Rattle.objects.specs.typing.Source.{IsSource};
ghost use Rattle.objects.specs.rewriting.Rewriting.{old_methods as old_ones, accessors as accessors_from, duplicates as duplicates_by, helper_methods as helping};
ghost use Rattle.program_typing.specs.Tables.{AreTables};
ghost use Rattle.program_rewriter.specs.Rewritten.{IsRewriting};

use crate::accessors::accessors;
use crate::copies::{copy_fields, copy_rows};
use crate::duplicates::duplicate_of;
use crate::helper::helper_methods;
use crate::wrappers::old_methods;
use hierarchy::{Method, Program, Typing};
use jmodel::NoMemory;
use std::alloc::Global;

// The duplicates of all methods, each by its typing.
fn duplicates(alloc: Global, program: &Program, typings: &[Typing]) -> Result<Vec<Method>, NoMemory>
    requires source { IsSource program.now }
    requires tables { AreTables program.now typings.now }
    ensures { IfOk result (λ v. v.items ≡ duplicates_by program.now program.now.methods typings.now) }
{
    let mut methods = Vec::new(alloc);
    for (method, typing) in program.methods().iter().zip(typings) {
        methods.push(duplicate_of(alloc, program, method, typing)?)?;
    }
    Ok(methods)
}

// The methods of the rewritten program: the old ones, accessors, duplicates, and those of the helper of arrays.
fn rewritten_methods(
    alloc: Global,
    program: &Program,
    typings: &[Typing],
) -> Result<Vec<Method>, NoMemory>
    requires source { IsSource program.now }
    requires tables { AreTables program.now typings.now }
    ensures { IfOk result (λ v. v.items ≡ old_ones program.now 0 0 program.now.methods ++ accessors_from 0 program.now.fields ++ duplicates_by program.now program.now.methods typings.now ++ helping) }
{
    let mut methods = old_methods(alloc, program)?;
    methods.append(&mut accessors(alloc, program)?)?;
    methods.append(&mut duplicates(alloc, program, typings)?)?;
    methods.append(&mut helper_methods(alloc)?)?;
    Ok(methods)
}

/// The rewriting of a program by the narrowest typings of its methods, in the order of their numbers; that of a method without code is empty. Its
/// types, texts and fields are the program's own. The methods are the old ones, with wrappers in the place of marked methods and static
/// initialisers; then accessors, duplicates, and the helper of arrays.
pub fn rewrite_program(
    alloc: Global,
    program: &Program,
    typings: &[Typing],
) -> Result<Program, NoMemory>
    requires source { IsSource program.now }
    requires tables { AreTables program.now typings.now }
    ensures { IfOk result (IsRewriting program.now) }
{
    let methods = rewritten_methods(alloc, program, typings)?;
    let types = copy_rows(alloc, program.types())?;
    let texts = Vec::from_slice(alloc, program.texts())?;
    let fields = copy_fields(alloc, program.fields())?;
    Ok(Program::new(alloc, types, texts, fields, methods)?)
}
