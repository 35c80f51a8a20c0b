//! Types of an operand stack (JVM Specification, Java SE 7, section 4.10.1.2), whose copies share the parts that are the same.
ghost use Rattle.std.specs.Prelude.{◌≡◌, ◌∷◌, ◌++◌, ◌<◌, ◌+◌, ◌^◌, [], IfOk, IfSome, IfNone, OnOk, drop, length, option_copied, slice_get};
ghost use Rattle.type_lists.specs.Stacks.{is_stack_under, some_and};
ghost use Rattle.type_lists.specs.Named.{are_named};

use crate::shared::SharedType;
use crate::tree::TypeTree;
use jmodel::VType;
use std::alloc::{AllocError, Global};
use std::marker::Model;
use std::rc::Rc;

/// The types of an operand stack, in parts. A clause sees them as a list, the topmost first.
///
/// Parts of one length are joined as types are pushed, so there are about as many parts as the number of places has binary digits.
#[cycle(stack)]
#[derive(Drop)]
pub struct TypeStack {
    depth: usize,
    /// Whether these may be the types of an operand stack.
    whole: bool,
    /// Whether they may lie under the second place of a long.
    under: bool,
    /// Whether one of them has a name.
    named: bool,
    top: Link,
}

#[cycle(stack)]
#[derive(Drop)]
enum Link {
    Bottom,
    Part(TypeTree, Rc<TypeStack>),
}

impl Model for TypeStack {
    ghost use Rattle.std.specs.Prelude.{List, length};
    ghost use Rattle.jmodel.specs.declared.typing.VType.{VType as JType};

    ghost Value = { List JType };

    ghost use Rattle.type_lists.specs.Cells.{items, IsKept};
    ghost use Rattle.std.proofs.Common.{arith, length-append};

    ghost view = { λ s. items s.top };

    ghost invariant = { λ s. IsKept s.top s.depth s.whole s.under s.named };

    ghost size = { length };

    ghost size_decreases = { λ s h. Prim.grind (arith, length-append) };
}

impl TypeStack {
    /// An empty stack. Takes no memory.
    pub fn new() -> Self
        ensures { result ≡ [] }
    {
        TypeStack {
            depth: 0,
            whole: true,
            under: false,
            named: false,
            top: Link::Bottom,
        }
    }

    /// The stack once more, in the same memory.
    pub fn share(&self) -> Result<Self, AllocError>
        ensures { IfOk result (λ s. s ≡ self.now) }
    {
        match &self.top {
            Link::Bottom => Ok(TypeStack::new()),
            Link::Part(part, rest) => TypeStack::over(part.share()?, rest.clone()?),
        }
    }

    /// A part on top of a stack.
    #[tactic(auto, using(crate::proofs::Places::over_under))]
    fn over(part: TypeTree, rest: Rc<TypeStack>) -> Result<Self, AllocError>
        requires { 0 < length part }
        ensures { IfOk result (λ s. s ≡ part ++ rest.value) }
    {
        let depth = part.len().checked_add(rest.depth).ok_or(AllocError)?;
        let whole = rest.may_lie(part.under_all(false));
        let under = rest.may_lie(part.under_all(true));
        let named = part.has_names() || rest.named;
        Ok(TypeStack {
            depth,
            whole,
            under,
            named,
            top: Link::Part(part, rest),
        })
    }

    /// Puts a type on top. What lies under it is shared.
    pub fn push(self, alloc: Global, item: SharedType) -> Result<Self, AllocError>
        ensures { IfOk result (λ s. s ≡ item ∷ self) }
    {
        gathered(alloc, TypeTree::run(item, 1), Rc::new(alloc, self)?)
    }

    /// Puts types on top, the topmost first.
    pub fn push_all(self, alloc: Global, types: Vec<SharedType>) -> Result<Self, AllocError>
        ensures { IfOk result (λ s. s ≡ types.items ++ self) }
    {
        let mut stack = self;
        let mut left = types;
        while let Some(item) = left.pop() {
            stack = stack.push(alloc, item)?;
        }
        Ok(stack)
    }

    /// Puts a part on top, as it is.
    pub fn push_part(self, alloc: Global, part: TypeTree) -> Result<Self, AllocError>
        ensures { IfOk result (λ s. s ≡ part ++ self) }
    {
        if part.len() == 0 {
            Ok(self)
        } else {
            TypeStack::over(part, Rc::new(alloc, self)?)
        }
    }

    /// How many places there are.
    pub fn len(&self) -> usize
        ensures { result ≡ length self.now }
    {
        self.depth
    }

    /// Whether one of the types has a name.
    pub fn has_names(&self) -> bool
        ensures { result ≡ are_named self.now }
    {
        self.named
    }

    /// The topmost part, which isn't empty, and the stack under it, where there is one.
    pub fn split(&self) -> Option<(&TypeTree, &TypeStack)>
        ensures none { IfNone result (self.now ≡ []) }
        ensures some { IfSome result (λ p. self.now ≡ p.0.now ++ p.1.now) }
        ensures part { IfSome result (λ p. 0 < length p.0.now) }
    {
        match &self.top {
            Link::Bottom => None,
            Link::Part(part, rest) => Some((part, rest.as_ref())),
        }
    }

    /// Whether these types may be those of an operand stack; where `under` is set, whether they may lie under the second place of a long.
    pub fn is_under(&self, under: bool) -> bool
        ensures { result ≡ is_stack_under under self.now }
    {
        if under { self.under } else { self.whole }
    }

    /// Whether these types may lie under a place, by what the place is: the second one of a long, another, or one that doesn't fit.
    fn may_lie(&self, place: Option<bool>) -> bool
        ensures { result ≡ some_and place (λ u. is_stack_under u self.now) }
    {
        match place {
            Some(under) => self.is_under(under),
            None => false,
        }
    }

    /// The stack under so many places. Its parts are shared.
    #[tactic(auto, using(crate::proofs::Drops::under_part, crate::proofs::Drops::in_part))]
    pub fn rest(&self, alloc: Global, count: usize) -> Result<Self, AllocError>
        ensures { IfOk result (λ s. s ≡ drop count self.now) }
    {
        match &self.top {
            Link::Bottom => Ok(TypeStack::new()),
            Link::Part(part, rest) => {
                if count < part.len() {
                    behind(alloc, part, count, rest)
                } else {
                    rest.rest(alloc, count - part.len())
                }
            }
        }
    }

    /// The type of a place, counted from the top, and the stack under it, where there is such a place.
    #[tactic(auto, using(crate::proofs::Drops::top_is, crate::proofs::Drops::no_top))]
    pub fn under(
        &self,
        alloc: Global,
        place: usize,
    ) -> Result<Option<(SharedType, Self)>, AllocError>
        ensures none { IfOk result (λ o. IfNone o (drop place self.now ≡ [])) }
        ensures some { IfOk result (λ o. IfSome o (λ p. drop place self.now ≡ p.0 ∷ p.1)) }
    {
        let stack = self.rest(alloc, place)?;
        match stack.shared_at(0) {
            Some(item) => Ok(Some((item.share()?, stack.rest(alloc, 1)?))),
            None => Ok(None),
        }
    }

    /// The type of a place, counted from the top, so that it can be shared.
    pub fn shared_at(&self, place: usize) -> Option<&SharedType>
        ensures { option_copied result ≡ slice_get self.now place }
    {
        match &self.top {
            Link::Bottom => None,
            Link::Part(part, rest) => {
                if place < part.len() {
                    part.shared_at(place)
                } else {
                    rest.shared_at(place - part.len())
                }
            }
        }
    }

    /// The topmost type.
    pub fn first(&self) -> Option<&VType>
        ensures { option_copied result ≡ slice_get self.now 0 }
    {
        self.get(0)
    }

    /// The type of a place, counted from the top.
    pub fn get(&self, place: usize) -> Option<&VType>
        ensures { option_copied result ≡ slice_get self.now place }
    {
        match self.shared_at(place) {
            Some(item) => Some(item.as_type()),
            None => None,
        }
    }

    /// The types one behind another, the topmost first.
    pub fn flat(&self, alloc: Global) -> Result<Vec<SharedType>, AllocError>
        ensures { IfOk result (λ v. v.items ≡ self.now) }
    {
        let mut types = Vec::new(alloc);
        let mut at = self;
        while let Some((part, rest)) = at.split() {
            part.push_to(&mut types)?;
            at = rest;
        }
        Ok(types)
    }
}

/// A part on top of a stack, joined with those under it that are as long.
fn gathered(alloc: Global, part: TypeTree, stack: Rc<TypeStack>) -> Result<TypeStack, AllocError>
    requires { 0 < length part }
    ensures { IfOk result (λ s. s ≡ part ++ stack.value) }
{
    match &stack.top {
        Link::Part(first, rest) if first.len() == part.len() => {
            let both = TypeTree::pair(alloc, part, first.share()?)?;
            gathered(alloc, both, rest.clone()?)
        }
        _ => TypeStack::over(part, stack),
    }
}

/// The types of a part behind so many of them, over a stack.
#[tactic(auto, using(crate::proofs::Drops::in_right))]
fn behind(
    alloc: Global,
    part: &TypeTree,
    count: usize,
    under: &Rc<TypeStack>,
) -> Result<TypeStack, AllocError>
    requires { count < length part.now }
    ensures { IfOk result (λ s. s ≡ drop count part.now ++ under.now.value) }
{
    if count == 0 {
        return TypeStack::over(part.share()?, under.clone()?);
    }
    let (left, right) = part.halves()?;
    if count < left.len() {
        let under = Rc::new(alloc, TypeStack::over(right, under.clone()?)?)?;
        behind(alloc, &left, count, &under)
    } else {
        behind(alloc, &right, count - left.len(), under)
    }
}
