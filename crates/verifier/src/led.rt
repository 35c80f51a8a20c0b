//! Where an instruction goes on and what it leaves there, by the types that it takes from the stack.
ghost use Rattle.std.specs.Prelude.{◌≡◌, ◌+◌, ◌^◌, ◌<◌, ◌∷◌, ◌++◌, [], IfOk, drop};
ghost use Rattle.objects.specs.typing.Typing.{leaves, with_stack};
ghost use Rattle.verifier.specs.Flows.{flow_of};
ghost use Rattle.verifier.specs.Rules.{are_taken, ruled};

use crate::order::is_within;
use crate::rule::{StackRule, next};
use hierarchy::{Program, TypeEntry};
use jmodel::VType;
use std::alloc::{AllocError, Global};
use std::marker::Model;
use type_lists::{SharedType, TypeStack, shared_types};

/// Where an instruction goes on, and the types that it leaves there.
#[derive(Drop)]
pub struct Led {
    pub to: Vec<usize>,
    pub left: TypeEntry,
}

impl Model for Led {
    ghost use Rattle.objects.specs.typing.Typing.{Flow, Leads};

    ghost Value = { Flow };

    ghost view = { λ l. Leads l.to.items l.left };
}

/// Whether the topmost places have what is wanted.
pub fn are_taken(program: &Program, wants: &[VType], stack: &TypeStack) -> bool
    ensures { result ≡ are_taken program.now wants.now stack.now }
{
    for (place, want) in wants.iter().enumerate() {
        match stack.get(place) {
            Some(item) if is_within(program, item, want) => {}
            _ => return false,
        }
    }
    true
}

/// Types with others in place of so many of the topmost.
fn over(
    alloc: Global,
    entry: &TypeEntry,
    types: Vec<SharedType>,
    takes: usize,
) -> Result<TypeEntry, AllocError>
    ensures { IfOk result (λ h. h ≡ with_stack entry.now (types.items ++ drop takes entry.now.stack)) }
{
    let stack = entry.stack().rest(alloc, takes)?.push_all(alloc, types)?;
    Ok(TypeEntry::new(entry.locals().share()?, stack, entry.built()))
}

/// What a rule does to types.
pub fn ruled(
    alloc: Global,
    program: &Program,
    entry: &TypeEntry,
    rule: Option<StackRule>,
) -> Result<Option<Led>, AllocError>
    ensures { IfOk result (λ o. flow_of o ≡ ruled program.now entry.now rule) }
{
    let Some(rule) = rule else {
        return Ok(None);
    };
    if !are_taken(program, rule.takes.as_slice(), entry.stack()) {
        return Ok(None);
    }
    let types = shared_types(alloc, rule.leaves)?;
    let left = over(alloc, entry, types, rule.takes.len())?;
    Ok(Some(Led { to: rule.to, left }))
}

/// On to the next instruction, with these types in place of so many.
pub fn leaves(
    alloc: Global,
    pc: usize,
    entry: &TypeEntry,
    types: Vec<SharedType>,
    takes: usize,
) -> Result<Option<Led>, AllocError>
    requires { pc + 1 < 2 ^ 64 }
    ensures { IfOk result (λ o. flow_of o ≡ leaves pc entry.now (types.items ++ drop takes entry.now.stack)) }
{
    let left = over(alloc, entry, types, takes)?;
    let to = next(alloc, pc)?;
    Ok(Some(Led { to, left }))
}

/// One type.
pub fn single(alloc: Global, item: VType) -> Result<Vec<VType>, AllocError>
    ensures { IfOk result (λ v. v.items ≡ item ∷ []) }
{
    let mut types = Vec::new(alloc);
    types.push(item)?;
    Ok(types)
}

/// One type that can be shared.
pub fn shared_one(alloc: Global, item: VType) -> Result<Vec<SharedType>, AllocError>
    ensures { IfOk result (λ v. v.items ≡ item ∷ []) }
{
    shared_types(alloc, single(alloc, item)?)
}
