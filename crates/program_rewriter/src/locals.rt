//! Locals of duplicates. The context stands behind the parameters, and the other locals behind it.
ghost use Rattle.std.specs.Prelude.{◌≡◌, ◌+◌, nat_eq, IfOk};
ghost use Rattle.std.specs.List.{list_any};
ghost use Rattle.objects.specs.rewriting.Rewriting.{moved as moved_by, moved_to as moved_so, is_stray as is_stray_in, more_locals as more};

use crate::numbers::sum;
use hierarchy::Method;
use jmodel::NoMemory;
use objects::op::{Op, Sort};

/// The local that stands for one of the original, where the context is the local `context`.
pub(crate) fn moved(context: usize, local: usize) -> Result<usize, NoMemory>
    ensures { IfOk result (λ n. n ≡ moved_by context local) }
{
    if local < context {
        Ok(local)
    } else {
        sum(local, 1)
    }
}

// Whether a local stands right before that of the context.
fn is_before(local: usize, context: usize) -> bool
    ensures { result ≡ nat_eq (local + 1) context }
{
    context > 0 && local == context - 1
}

/// The local that stands for one of a load or a store. A long whose second place would be the context's goes behind all `locals` of the original.
pub(crate) fn moved_to(
    sort: Sort,
    context: usize,
    locals: usize,
    local: usize,
) -> Result<usize, NoMemory>
    ensures { IfOk result (λ n. n ≡ moved_so sort context locals local) }
{
    match sort {
        Sort::Long if is_before(local, context) => sum(locals, 1),
        _ => moved(context, local),
    }
}

// Whether an instruction has a long whose second place is the context's in the duplicate.
fn is_stray(context: usize, op: &Op) -> bool
    ensures { result ≡ is_stray_in context op.now }
{
    match op {
        Op::Load(Sort::Long, local) | Op::Store(Sort::Long, local) => is_before(*local, context),
        _ => false,
    }
}

fn some_stray(method: &Method) -> bool
    ensures { result ≡ list_any (is_stray_in method.now.places) method.now.ops }
{
    let context = method.entry().places;
    method.ops().iter().any(|o| is_stray(context, o))
}

/// How many locals the duplicate of a method has more.
pub(crate) fn more_locals(method: &Method) -> usize
    ensures { result ≡ more (list_any (is_stray_in method.now.places) method.now.ops) }
{
    if some_stray(method) { 3 } else { 1 }
}
