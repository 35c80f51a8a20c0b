//! The rewriting of a class, step after step.
ghost use Rattle.std.specs.Prelude.{List};
ghost use Rattle.std.specs.List.{AllZip};
ghost use Rattle.jmodel.specs.format.Reading.{Gives};
ghost use Rattle.objects.specs.typing.Typing.{Table};
ghost use Rattle.program_typing.specs.Tables.{IsTableOf};
ghost use Rattle.rewriter.specs.Asked.{IsReady, IsShare};
ghost use Rattle.rewriter.specs.Rewritten.{rewritten_share};

use crate::copies::copy_class;
use crate::duplicates::add_duplicates;
use crate::share::Share;
use crate::typed::Typed;
use crate::wrappers::wrap_each;
use const_pool::ClassFile;
use field_members::{add_accessors, add_fields};
use jmodel::Halt;
use std::alloc::Global;

/// The rewriting of a class with its share of a program.
pub fn rewrite_share(
    alloc: Global,
    class: &ClassFile,
    typed: &Typed<'_>,
    share: &Share<'_>,
) -> Result<ClassFile, Halt>
    requires ready { IsReady typed.now.program.now typed.now.typings.now }
    requires share { IsShare typed.now.program.now class.now share.now }
    ensures { (Ts : List Table) → AllZip (IsTableOf typed.now.program.now) share.now.methods Ts → Gives (λ c. c) result (rewritten_share typed.now.program.now class.now share.now Ts) }
{
    let mut rewritten = copy_class(alloc, class)?;
    add_fields(alloc, share.fields(), &mut rewritten)?;
    add_accessors(alloc, share.fields(), &mut rewritten)?;
    add_duplicates(alloc, typed, class, share, &mut rewritten)?;
    wrap_each(alloc, typed.program, class, share, &mut rewritten)?;
    Ok(rewritten)
}
