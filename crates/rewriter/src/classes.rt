//! The rewriting of classes, one after another, and of a folder.
ghost use Rattle.std.specs.Prelude.{◌≡◌, List, Some, Ok, map, IfOk};
ghost use Rattle.std.specs.List.{AllByRecursion, AllZip};
ghost use Rattle.jmodel.specs.format.Reading.{Gives};
ghost use Rattle.objects.specs.linking.Classes.{methods_in};
ghost use Rattle.objects.specs.linking.Taken.{is_taken};
ghost use Rattle.objects.specs.linking.Members.{own_name as own_name_of};
ghost use Rattle.objects.specs.linking.Linking.{linking};
ghost use Rattle.objects.specs.laws.LinkingLaw.{AreRead};
ghost use Rattle.objects.specs.typing.Typing.{Table};
ghost use Rattle.program_typing.specs.Tables.{AreTables, IsTableOf};
ghost use Rattle.rewriter.specs.Asked.{AreFiled, IsReady, IsShare};
ghost use Rattle.rewriter.specs.Rewritten.{rewritten_share};
ghost use Rattle.rewriter.specs.RewrittenClasses.{in_class as in_this_class, of_class as of_this_class, rewritten_classes, rewritten_folder};

use crate::rewriting::rewrite_share;
use crate::share::{Rest, Share};
use crate::typed::Typed;
use array_helper::helper_class;
use const_pool::ClassFile;
use hierarchy::symbols::own_name;
use hierarchy::{Program, Typing, are_taken};
use jmodel::{Bytes, Halt, Refusal};
use std::alloc::{AllocError, Global};

// A fault of a class, with the class's name where its pool is full.
fn in_class(alloc: Global, class: &ClassFile, fault: Refusal) -> Result<Refusal, AllocError>
    ensures { IfOk result (λ r. r ≡ in_this_class (own_name_of class.now) fault) }
{
    match fault {
        Refusal::PoolFull(..) => Ok(Refusal::PoolFull(Bytes::from_slice(alloc, own_name(class))?)),
        other => Ok(other),
    }
}

// The rewriting of a class with its share of a program, refused with the class's name where its pool is full.
fn rewrite_class(
    alloc: Global,
    class: &ClassFile,
    typed: &Typed<'_>,
    share: &Share<'_>,
) -> Result<ClassFile, Halt>
    requires ready { IsReady typed.now.program.now typed.now.typings.now }
    requires share { IsShare typed.now.program.now class.now share.now }
    ensures { (Ts : List Table) → AllZip (IsTableOf typed.now.program.now) share.now.methods Ts → Gives (λ c. c) result (of_this_class (own_name_of class.now) (rewritten_share typed.now.program.now class.now share.now Ts)) }
{
    match rewrite_share(alloc, class, typed, share) {
        Ok(rewritten) => Ok(rewritten),
        Err(Halt::NoMemory) => Err(Halt::NoMemory),
        Err(Halt::Refused(fault)) => Err(Halt::Refused(in_class(alloc, class, fault)?)),
    }
}

// The rewriting of each class, by flags of the methods of all.
fn rewrite_each<'a>(
    alloc: Global,
    classes: &'a [&'a ClassFile],
    typed: &Typed<'a>,
    flags: &'a [bool],
) -> Result<Vec<ClassFile>, Halt>
    requires read { AreRead (map (λ c. c.now) classes.now) }
    requires filed { AllByRecursion AreFiled (map (λ c. c.now) classes.now) }
    requires links { linking (map (λ c. c.now) classes.now) ≡ Ok (Some typed.now.program.now) }
    requires tables { AreTables typed.now.program.now typed.now.typings.now }
    requires told { flags.now ≡ map (is_taken (map (λ c. c.now) classes.now)) (methods_in (map (λ c. c.now) classes.now)) }
    ensures { (Ts : List Table) → AreTables typed.now.program.now Ts → Gives (λ v. v.items) result (rewritten_classes (map (λ c. c.now) classes.now) typed.now.program.now Ts) }
{
    let mut rest = Rest::all(flags, typed.program);
    let mut rewritten = Vec::new(alloc);
    for class in classes {
        let (share, behind) = rest.split(alloc, class)?;
        rewritten.push(rewrite_class(alloc, class, typed, &share)?)?;
        rest = behind;
    }
    Ok(rewritten)
}

/// The rewriting of a folder's classes, in the byte order of their names, over the program that they mean and the narrowest typings of its methods,
/// in the order of their numbers; that of a method without code is empty. Behind the classes stands the helper of arrays.
/// Each class gets the fields that are added for its own, accessors, a duplicate of each of its methods by this method's narrowest typing, and
/// wrappers; the wrappers of all classes are numbered from 0. Refused at the first class that can't be rewritten, as
///
/// - `PoolFull` with the class's name, where the count of its pool would pass 65,535 or a text would have more than 65,535 bytes (JVM
///   Specification, Java SE 7, sections 4.1 and 4.4.7);
/// - `TooManyPlaces` with an added method's printed name and `Methods`, where the class would have more than 65,535 methods (section 4.1);
/// - `TooManyPlaces` with a method's printed name and `Arguments`, `Handlers`, `Locals` or `Stack`, where its duplicate or its wrapper would
///   have more of them than a method may have (sections 4.3.3, 4.7.3 and 4.9.1);
/// - `CodeTooLarge` or `BranchTooFar` with a method's printed name, where the code of its duplicate or its wrapper can't be laid (section
///   4.9.1).
pub fn rewrite_classes(
    alloc: Global,
    classes: &[&ClassFile],
    program: &Program,
    typings: &[Typing],
) -> Result<Vec<ClassFile>, Halt>
    // The classes are ones that were read, and the program is the one that they mean.
    requires read { AreRead (map (λ c. c.now) classes.now) }
    requires filed { AllByRecursion AreFiled (map (λ c. c.now) classes.now) }
    requires links { linking (map (λ c. c.now) classes.now) ≡ Ok (Some program.now) }
    // The typings are the narrowest.
    requires tables { AreTables program.now typings.now }
    // Whichever narrowest typings are taken: those of a method have the same types at each place.
    ensures { (Ts : List Table) → AreTables program.now Ts → Gives (λ v. v.items) result (rewritten_folder (map (λ c. c.now) classes.now) program.now Ts) }
{
    let flags = are_taken(alloc, classes)?;
    let typed = Typed { program, typings };
    let mut rewritten = rewrite_each(alloc, classes, &typed, flags.as_slice())?;
    rewritten.push(helper_class(alloc)?)?;
    Ok(rewritten)
}
