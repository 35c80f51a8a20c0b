//! A type of one place that its copies share.
ghost use Rattle.std.specs.Prelude.{◌≡◌, ◌↔◌, ◌++◌, IfOk, IsTrue};
ghost use Rattle.type_lists.specs.Named.{is_named};
ghost use Rattle.type_lists.specs.Stacks.{next_under};

use jmodel::VType;
use std::alloc::{AllocError, Global};
use std::marker::Model;
use std::rc::Rc;

/// A type that its copies share. A clause sees it as the type.
#[derive(Drop)]
pub struct SharedType {
    item: Rc<VType>,
}

impl Model for SharedType {
    ghost use Rattle.jmodel.specs.declared.typing.VType.{VType as JType};

    ghost Value = { JType };

    ghost view = { λ s. s.item.value };
}

impl SharedType {
    /// A type that can be shared.
    pub fn new(alloc: Global, item: VType) -> Result<Self, AllocError>
        ensures { IfOk result (λ s. s ≡ item) }
    {
        Ok(SharedType {
            item: Rc::new(alloc, item)?,
        })
    }

    /// The type.
    pub fn as_type(&self) -> &VType
        ensures { result.now ≡ self.now }
    {
        self.item.as_ref()
    }

    /// The type once more, in the same memory.
    pub fn share(&self) -> Result<Self, AllocError>
        ensures { IfOk result (λ s. s ≡ self.now) }
    {
        Ok(SharedType {
            item: self.item.clone()?,
        })
    }
}

/// Whether two types are the same.
pub fn is_same(a: &VType, b: &VType) -> bool
    ensures { IsTrue result ↔ (a.now ≡ b.now) }
{
    match (a, b) {
        (VType::Int, VType::Int) => true,
        (VType::Long, VType::Long) => true,
        (VType::Second, VType::Second) => true,
        (VType::Null, VType::Null) => true,
        (VType::Ref(m), VType::Ref(n)) => m.as_slice() == n.as_slice(),
        (VType::Uninit(p), VType::Uninit(q)) => p == q,
        (VType::UninitThis, VType::UninitThis) => true,
        (VType::Top, VType::Top) => true,
        _ => false,
    }
}

/// Whether a type has a name.
pub fn is_named(item: &VType) -> bool
    ensures { result ≡ is_named item.now }
{
    matches!(item, VType::Ref(_))
}

/// Whether a place of the stack is the second one of a long, where the place just above it was one or not; none where the
/// two don't go together.
pub fn next_under(under: bool, item: &VType) -> Option<bool>
    ensures { result ≡ next_under under item.now }
{
    match item {
        VType::Long if under => Some(false),
        VType::Second if !under => Some(true),
        VType::Long | VType::Second | VType::Top => None,
        _ if !under => Some(false),
        _ => None,
    }
}

/// Types, each so that it can be shared.
pub fn shared_types(alloc: Global, types: Vec<VType>) -> Result<Vec<SharedType>, AllocError>
    ensures { IfOk result (λ v. v.items ≡ types.items) }
{
    let mut items = Vec::new(alloc);
    for item in types {
        items.push(SharedType::new(alloc, item)?)?;
    }
    Ok(items)
}
