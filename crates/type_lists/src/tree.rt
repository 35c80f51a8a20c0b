//! Types of locals (JVM Specification, Java SE 7, section 4.10.1.2), whose copies share the parts that are the same.
ghost use Rattle.std.specs.Prelude.{◌≡◌, ◌∷◌, ◌++◌, ◌<◌, ◌+◌, ◌/◌, ◌^◌, ◌↔◌, [], IfOk, IfSome, IsTrue, OnOk, drop, length, option_and_then, option_copied, replicate, slice_get, slice_set, take};
ghost use Rattle.type_lists.specs.Named.{are_named};
ghost use Rattle.type_lists.specs.Parted.{IsParted};
ghost use Rattle.type_lists.specs.Stacks.{under_all};

use crate::shared::{SharedType, is_named, is_same, next_under};
use jmodel::VType;
use std::alloc::{AllocError, Global};
use std::marker::Model;
use std::rc::Rc;

/// The types of locals. A clause sees them as a list.
#[cycle(tree)]
pub struct TypeTree {
    len: usize,
    /// Whether one of them has a name.
    named: bool,
    /// What the place under these is as part of a stack, as `under_all` has it: where the place above them is no second one of a long.
    plain: Option<bool>,
    /// The same where it is one.
    under: Option<bool>,
    node: Node,
}

impl Drop for TypeTree {
    fn drop(self) {
        let Self {
            len: _,
            named: _,
            plain: _,
            under: _,
            node: _,
        } = self;
    }
}

#[cycle(tree)]
#[derive(Drop)]
enum Node {
    Empty,
    Run(SharedType),
    Fork(Rc<TypeTree>, Rc<TypeTree>),
}

impl Model for TypeTree {
    ghost use Rattle.std.specs.Prelude.{List, length};
    ghost use Rattle.jmodel.specs.declared.typing.VType.{VType as JType};

    ghost Value = { List JType };

    ghost use Rattle.type_lists.specs.Trees.{types, IsTree};
    ghost use Rattle.std.proofs.Common.{arith, length-append};

    ghost view = { λ t. types t.len t.node };

    ghost invariant = { λ t. IsTree t.len t.named t.plain t.under t.node };

    ghost size = { length };

    ghost size_decreases = { λ t h. Prim.grind (arith, length-append) };
}

/// What a list of types is made of.
#[derive(Clone, Copy)]
pub enum Parts<'a> {
    Empty,
    /// So many of one type as the list is long.
    Run(&'a SharedType),
    /// Two halves. Where the list has an odd length, the second one is longer.
    Fork(&'a TypeTree, &'a TypeTree),
}

/// Whether each of some types is this one.
fn are_all(types: &[SharedType], item: &SharedType) -> bool
    ensures { IsTrue result → (types.now ≡ replicate (length types.now) item.now) }
{
    for t in types {
        if !is_same(t.as_type(), item.as_type()) {
            return false;
        }
    }
    true
}

/// What the place under so many of one type is in a stack: as `under_all` has it.
#[tactic(auto, using(crate::proofs::Places::one_under, crate::proofs::Places::same_under, crate::proofs::Places::torn_under, crate::proofs::Places::none_under))]
fn under_run(under: bool, item: &VType, len: usize) -> Option<bool>
    requires { 0 < len }
    ensures { result ≡ under_all under (replicate len item.now) }
{
    match next_under(under, item) {
        Some(next) if len == 1 || next == under => Some(next),
        _ => None,
    }
}

impl TypeTree {
    /// No types. Takes no memory.
    pub fn new() -> Self
        ensures { result ≡ [] }
    {
        TypeTree {
            len: 0,
            named: false,
            plain: Some(false),
            under: Some(true),
            node: Node::Empty,
        }
    }

    /// So many of one type.
    pub fn run(item: SharedType, len: usize) -> Self
        ensures { result ≡ replicate len item }
    {
        if len == 0 {
            return TypeTree::new();
        }
        TypeTree {
            len,
            named: is_named(item.as_type()),
            plain: under_run(false, item.as_type(), len),
            under: under_run(true, item.as_type(), len),
            node: Node::Run(item),
        }
    }

    /// How many types there are.
    pub fn len(&self) -> usize
        ensures { result ≡ length self.now }
    {
        self.len
    }

    /// Whether one of the types has a name.
    pub fn has_names(&self) -> bool
        ensures { result ≡ are_named self.now }
    {
        self.named
    }

    /// Whether the place under these types in a stack is the second one of a long, where the place above them is one or not; none
    /// where they don't go together.
    pub fn under_all(&self, under: bool) -> Option<bool>
        ensures { result ≡ under_all under self.now }
    {
        if under { self.under } else { self.plain }
    }

    /// The same, by what the place above them is, if that fits.
    fn then_under(&self, above: Option<bool>) -> Option<bool>
        ensures { result ≡ option_and_then (λ u. under_all u self.now) above }
    {
        match above {
            Some(under) => self.under_all(under),
            None => None,
        }
    }

    /// The types of one list, and those of another behind them, which are as many or one more.
    #[tactic(auto, using(crate::proofs::Places::fork_under))]
    fn fork(left: Rc<TypeTree>, right: Rc<TypeTree>) -> Result<Self, AllocError>
        requires some { 0 < length left.value }
        requires half { length left.value ≡ (length left.value + length right.value) / 2 }
        ensures { IfOk result (λ t. t ≡ left.value ++ right.value) }
    {
        let len = left.len.checked_add(right.len).ok_or(AllocError)?;
        let named = left.named || right.named;
        let plain = right.then_under(left.under_all(false));
        let under = right.then_under(left.under_all(true));
        Ok(TypeTree {
            len,
            named,
            plain,
            under,
            node: Node::Fork(left, right),
        })
    }

    /// The types once more, in the same memory.
    pub fn share(&self) -> Result<Self, AllocError>
        ensures { IfOk result (λ t. t ≡ self.now) }
    {
        match &self.node {
            Node::Empty => Ok(TypeTree::new()),
            Node::Run(item) => Ok(TypeTree::run(item.share()?, self.len)),
            Node::Fork(left, right) => TypeTree::fork(left.clone()?, right.clone()?),
        }
    }

    /// What the list is made of.
    pub fn parts(&self) -> Parts<'_>
        ensures { IsParted self.now result }
    {
        match &self.node {
            Node::Empty => Parts::Empty,
            Node::Run(item) => Parts::Run(item),
            Node::Fork(left, right) => Parts::Fork(left.as_ref(), right.as_ref()),
        }
    }

    /// The two halves. Where the list has an odd length, the second one is longer.
    #[tactic(auto, using(crate::proofs::Runs::run_left, crate::proofs::Runs::run_right, crate::proofs::Runs::left_part, crate::proofs::Runs::right_part))]
    pub fn halves(&self) -> Result<(Self, Self), AllocError>
        ensures left { IfOk result (λ p. p.0 ≡ take (length self.now / 2) self.now) }
        ensures right { IfOk result (λ p. p.1 ≡ drop (length self.now / 2) self.now) }
    {
        let half = self.len() / 2;
        match self.parts() {
            Parts::Empty => Ok((TypeTree::new(), TypeTree::new())),
            Parts::Run(item) => {
                let left = TypeTree::run(item.share()?, half);
                let right = TypeTree::run(item.share()?, self.len() - half);
                Ok((left, right))
            }
            Parts::Fork(left, right) => Ok((left.share()?, right.share()?)),
        }
    }

    /// The type of a place.
    pub fn get(&self, at: usize) -> Option<&VType>
        ensures { option_copied result ≡ slice_get self.now at }
    {
        match self.shared_at(at) {
            Some(item) => Some(item.as_type()),
            None => None,
        }
    }

    /// The type of a place, so that it can be shared.
    pub fn shared_at(&self, at: usize) -> Option<&SharedType>
        ensures { option_copied result ≡ slice_get self.now at }
    {
        match &self.node {
            Node::Empty => None,
            Node::Run(item) => { if at < self.len { Some(item) } else { None } }
            Node::Fork(left, right) => {
                if at < left.len() {
                    left.shared_at(at)
                } else {
                    right.shared_at(at - left.len())
                }
            }
        }
    }
}

/// Two lists as one run, if they are runs of one type.
#[tactic(auto, using(crate::proofs::Runs::runs_join))]
fn one_run(left: &TypeTree, right: &TypeTree) -> Result<Option<TypeTree>, AllocError>
    ensures { IfOk result (λ o. IfSome o (λ t. t ≡ left.now ++ right.now)) }
{
    match (left.parts(), right.parts()) {
        (Parts::Run(item), Parts::Run(other)) if is_same(item.as_type(), other.as_type()) => {
            let len = left.len().checked_add(right.len()).ok_or(AllocError)?;
            Ok(Some(TypeTree::run(item.share()?, len)))
        }
        _ => Ok(None),
    }
}

/// Types before those of a shared part, which are as many or one more.
fn with_left(alloc: Global, left: TypeTree, right: &Rc<TypeTree>) -> Result<TypeTree, AllocError>
    requires some { 0 < length left }
    requires half { length left ≡ (length left + length right.now.value) / 2 }
    ensures { IfOk result (λ t. t ≡ left ++ right.now.value) }
{
    match one_run(&left, right.as_ref())? {
        Some(run) => Ok(run),
        None => TypeTree::fork(Rc::new(alloc, left)?, right.clone()?),
    }
}

/// Types behind those of a shared part, as many or one more.
fn with_right(alloc: Global, left: &Rc<TypeTree>, right: TypeTree) -> Result<TypeTree, AllocError>
    requires some { 0 < length left.now.value }
    requires half { length left.now.value ≡ (length left.now.value + length right) / 2 }
    ensures { IfOk result (λ t. t ≡ left.now.value ++ right) }
{
    match one_run(left.as_ref(), &right)? {
        Some(run) => Ok(run),
        None => TypeTree::fork(left.clone()?, Rc::new(alloc, right)?),
    }
}

/// The types as a list of their own.
#[tactic(auto, using(crate::proofs::Runs::both_parts))]
fn grown(alloc: Global, types: &[SharedType]) -> Result<TypeTree, AllocError>
    ensures { IfOk result (λ t. t ≡ types.now) }
{
    let Some(first) = types.first() else {
        return Ok(TypeTree::new());
    };
    if are_all(types, first) {
        return Ok(TypeTree::run(first.share()?, types.len()));
    }
    let half = types.len() / 2;
    if half == 0 {
        return Ok(TypeTree::run(first.share()?, 1));
    }
    let left = grown(alloc, &types[..half])?;
    let right = grown(alloc, &types[half..])?;
    TypeTree::pair(alloc, left, right)
}

/// So many of one type, with another at a place.
fn set_in_run(
    alloc: Global,
    old: &SharedType,
    len: usize,
    at: usize,
    item: SharedType,
) -> Result<TypeTree, AllocError>
    requires { at < len }
    ensures { IfOk result (λ t. t ≡ slice_set (replicate len old.now) at item) }
{
    let half = len / 2;
    if half == 0 {
        return Ok(TypeTree::run(item, 1));
    }
    if at < half {
        let left = set_in_run(alloc, old, half, at, item)?;
        let right = TypeTree::run(old.share()?, len - half);
        TypeTree::pair(alloc, left, right)
    } else {
        let left = TypeTree::run(old.share()?, half);
        let right = set_in_run(alloc, old, len - half, at - half, item)?;
        TypeTree::pair(alloc, left, right)
    }
}

impl TypeTree {
    /// The types of one list, and those of another behind them, which are as many or one more. Two runs of one type are one run.
    pub fn pair(alloc: Global, left: TypeTree, right: TypeTree) -> Result<Self, AllocError>
        requires some { 0 < length left }
        requires half { length left ≡ (length left + length right) / 2 }
        ensures { IfOk result (λ t. t ≡ left ++ right) }
    {
        match one_run(&left, &right)? {
            Some(run) => Ok(run),
            None => TypeTree::fork(Rc::new(alloc, left)?, Rc::new(alloc, right)?),
        }
    }

    /// The types with another one at a place, if there is such a place. The other parts are shared.
    pub fn set(&self, alloc: Global, at: usize, item: SharedType) -> Result<Self, AllocError>
        ensures { IfOk result (λ t. t ≡ slice_set self.now at item) }
    {
        if at >= self.len() {
            return self.share();
        }
        match &self.node {
            Node::Empty => Ok(TypeTree::new()),
            Node::Run(old) => {
                if is_same(old.as_type(), item.as_type()) {
                    self.share()
                } else {
                    set_in_run(alloc, old, self.len, at, item)
                }
            }
            Node::Fork(left, right) => {
                if at < left.len() {
                    let left = left.set(alloc, at, item)?;
                    with_left(alloc, left, right)
                } else {
                    let right = right.set(alloc, at - left.len(), item)?;
                    with_right(alloc, left, right)
                }
            }
        }
    }

    /// Puts the types at the end of others.
    pub(crate) fn push_to(&self, types: &mut Vec<SharedType>) -> Result<(), AllocError>
        ensures { OnOk result (types.new.items ≡ types.old.items ++ self.now) }
    {
        match &self.node {
            Node::Empty => {}
            Node::Run(item) => {
                for _ in 0..self.len {
                    types.push(item.share()?)?;
                }
            }
            Node::Fork(left, right) => {
                left.push_to(types)?;
                right.push_to(types)?;
            }
        }
        Ok(())
    }

    /// The types one behind another.
    pub fn flat(&self, alloc: Global) -> Result<Vec<SharedType>, AllocError>
        ensures { IfOk result (λ v. v.items ≡ self.now) }
    {
        let mut types = Vec::new(alloc);
        self.push_to(&mut types)?;
        Ok(types)
    }

    /// A list of these types.
    pub fn from_slice(alloc: Global, types: &[SharedType]) -> Result<Self, AllocError>
        ensures { IfOk result (λ t. t ≡ types.now) }
    {
        grown(alloc, types)
    }
}
