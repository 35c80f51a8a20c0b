//! Class files linked, typed and rewritten, and made ready for a run.
ghost use Rattle.std.specs.Prelude.{◌≡◌, ◌≤◌, length, map, Some, Ok, IfOk, IfErr, IsSome};
ghost use Rattle.std.specs.List.{AllByRecursion};
ghost use Rattle.jmodel.specs.format.ClassRules.{IsClassFile};
ghost use Rattle.objects.specs.linking.Classes.{in_order as order_of_classes};
ghost use Rattle.objects.specs.linking.Linking.{linking};
ghost use Rattle.objects.specs.laws.LinkingLaw.{AreRead, IsLinkedFolder};
ghost use Rattle.rewriter.specs.Asked.{AreFiled};
ghost use Rattle.session.specs.Rule.{IsReady};
ghost use Rattle.program_typing.specs.Tables.{AreTables};
ghost use Rattle.program_typing.specs.Typed.{IsTyped};
ghost use Rattle.runner.specs.Headline.{linked_files, IsInstrumented, IsRunnable};
ghost use Rattle.runner.specs.Faults.{IsOrdered, EndsBuild, EndsLinking, EndsPreparing, EndsRewriting};

use crate::faults::type_program;
use crate::outcome::RunEnd;
use const_pool::ClassFile;
use hierarchy::{BuildEnd, Program, Typing, in_order};
use jmodel::Halt;
use linking::build::build;
use program_rewriter::rewrite_program;
use rewriter::rewrite_classes;
use std::alloc::Global;

/// The classes of class files in the order of their names, the program that they mean, the narrowest typings of its methods, and the rewriting of
/// the classes, behind which stands the helper of arrays.
#[derive(Drop)]
pub struct Instrumented<'a> {
    pub classes: Vec<&'a ClassFile>,
    pub original: Program,
    pub typings: Vec<Typing>,
    pub rewritten: Vec<ClassFile>,
}

/// The classes of class files in the order of their names, the program that they mean, and its rewriting, which runs.
#[derive(Drop)]
pub struct Prepared<'a> {
    pub classes: Vec<&'a ClassFile>,
    pub original: Program,
    pub rewritten: Program,
}

/// Links the classes of class files, for their first fault.
pub fn link_files(alloc: Global, files: &[ClassFile]) -> Result<(), RunEnd>
    requires few { length files.now ≤ 256 }
    requires form { AllByRecursion IsClassFile files.now }
    ensures links { IfOk result (λ _. IsSome (linked_files files.now)) }
    ensures cause { IfErr result (EndsLinking files.now) }
{
    let classes = ordered(alloc, files)?;
    linked(alloc, classes.as_slice())?;
    Ok(())
}

/// Gives the classes of class files their program, types that, and rewrites them.
pub fn instrument_files(alloc: Global, files: &[ClassFile]) -> Result<Instrumented<'_>, RunEnd>
    requires few { length files.now ≤ 256 }
    requires form { AllByRecursion IsClassFile files.now }
    requires filed { AllByRecursion AreFiled files.now }
    ensures order { IfOk result (λ i. map (λ c. c.now) i.classes.items ≡ order_of_classes files.now) }
    ensures linked { IfOk result (λ i. IsLinkedFolder files.now i.original) }
    ensures links { IfOk result (λ i. linked_files files.now ≡ Some i.original) }
    ensures typed { IfOk result (λ i. IsTyped i.original) }
    ensures tables { IfOk result (λ i. AreTables i.original i.typings.items) }
    ensures rewrites { IfOk result (λ i. IsInstrumented (order_of_classes files.now) i.original i.rewritten.items) }
    ensures cause { IfErr result (EndsPreparing files.now) }
{
    let classes = ordered(alloc, files)?;
    let original = linked(alloc, classes.as_slice())?;
    let typings = type_program(alloc, classes.as_slice(), &original)?;
    let rewritten = instrument(alloc, classes.as_slice(), &original, typings.as_slice())?;
    Ok(Instrumented {
        classes,
        original,
        typings,
        rewritten,
    })
}

/// Prepares class files for a run. Their rewritten classes are made for the limits that they may pass, and aren't held behind this call.
pub fn prepare(alloc: Global, files: &[ClassFile]) -> Result<Prepared<'_>, RunEnd>
    requires few { length files.now ≤ 256 }
    requires form { AllByRecursion IsClassFile files.now }
    requires filed { AllByRecursion AreFiled files.now }
    ensures order { IfOk result (λ p. map (λ c. c.now) p.classes.items ≡ order_of_classes files.now) }
    ensures linked { IfOk result (λ p. IsLinkedFolder files.now p.original) }
    ensures runnable { IfOk result (λ p. IsRunnable files.now p.original) }
    ensures ready { IfOk result (λ p. IsReady p.original p.rewritten) }
    ensures cause { IfErr result (EndsPreparing files.now) }
{
    let instrumented = instrument_files(alloc, files)?;
    let typings = instrumented.typings.as_slice();
    let rewritten = rewrite_program(alloc, &instrumented.original, typings)?;
    Ok(Prepared {
        classes: instrumented.classes,
        original: instrumented.original,
        rewritten,
    })
}

/// The classes of class files in the order of their names.
fn ordered(alloc: Global, files: &[ClassFile]) -> Result<Vec<&ClassFile>, RunEnd>
    requires few { length files.now ≤ 256 }
    requires form { AllByRecursion IsClassFile files.now }
    ensures order { IfOk result (λ v. map (λ c. c.now) v.items ≡ order_of_classes files.now) }
    ensures read { IfOk result (λ _. IsOrdered files.now) }
    ensures cause { IfErr result (EndsLinking files.now) }
{
    match in_order(alloc, files) {
        Ok(classes) => Ok(classes),
        Err(Halt::Refused(refusal)) => Err(RunEnd::Refused(refusal)),
        Err(Halt::NoMemory) => Err(RunEnd::NoMemory),
    }
}

/// The program that classes mean.
fn linked(alloc: Global, classes: &[&ClassFile]) -> Result<Program, RunEnd>
    requires read { AreRead (map (λ c. c.now) classes.now) }
    ensures links { IfOk result (λ p. linking (map (λ c. c.now) classes.now) ≡ Ok (Some p)) }
    ensures cause { IfErr result (EndsBuild (map (λ c. c.now) classes.now)) }
{
    match build(alloc, classes) {
        Ok(program) => Ok(program),
        Err(BuildEnd::Refused(refusal)) => Err(RunEnd::Refused(refusal)),
        Err(BuildEnd::NotBuilt) => unreachable!(),
        Err(BuildEnd::NoMemory) => Err(RunEnd::NoMemory),
    }
}

/// Rewrites the classes of a typed program by the narrowest typings of its methods.
fn instrument(
    alloc: Global,
    classes: &[&ClassFile],
    original: &Program,
    typings: &[Typing],
) -> Result<Vec<ClassFile>, RunEnd>
    requires filed { AllByRecursion AreFiled (map (λ c. c.now) classes.now) }
    requires read { AreRead (map (λ c. c.now) classes.now) }
    requires links { linking (map (λ c. c.now) classes.now) ≡ Ok (Some original.now) }
    requires typed { IsTyped original.now }
    requires tables { AreTables original.now typings.now }
    ensures rewrites { IfOk result (λ news. IsInstrumented (map (λ c. c.now) classes.now) original.now news.items) }
    ensures cause { IfErr result (EndsRewriting original.now (map (λ c. c.now) classes.now)) }
{
    match rewrite_classes(alloc, classes, original, typings) {
        Ok(rewritten) => Ok(rewritten),
        Err(Halt::Refused(refusal)) => Err(RunEnd::Refused(refusal)),
        Err(Halt::NoMemory) => Err(RunEnd::NoMemory),
    }
}
