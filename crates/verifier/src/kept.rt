//! Types that were made, kept so that equal ones lie in memory once.
ghost use Rattle.std.specs.Prelude.{◌≡◌, IfOk, IsTrue};

use hierarchy::TypeEntry;
use jmodel::VType;
use std::alloc::{AllocError, Global};
use std::collections::BTreeMap;
use type_lists::{Parts, TypeStack, TypeTree, is_same};

/// How many places the types that are kept may have.
const ROOM: usize = 500_000;

/// Types that were made, each by its key, and how many places they have.
#[derive(Drop)]
pub struct Kept {
    types: BTreeMap<u64, TypeEntry>,
    places: usize,
}

/// A hash of some values and one more, by FNV-1a.
fn hash(of: u64, value: u64) -> u64 {
    (of ^ value).wrapping_mul(0x100_0000_01b3)
}

/// A hash of some types and one more.
fn hash_type(of: u64, item: &VType) -> u64 {
    match item {
        VType::Int => hash(of, 1),
        VType::Long => hash(of, 2),
        VType::Second => hash(of, 3),
        VType::Null => hash(of, 4),
        VType::Ref(name) => {
            let mut of = hash(of, 5);
            for byte in name.as_slice() {
                of = hash(of, u64::from(*byte));
            }
            of
        }
        VType::Uninit(place) => hash(hash(of, 6), u64::from(*place)),
        VType::UninitThis => hash(of, 7),
        VType::Top => hash(of, 8),
    }
}

/// A hash of some types and those of a list, run by run.
fn hash_list(of: u64, types: &TypeTree) -> u64 {
    match types.parts() {
        Parts::Empty => of,
        Parts::Run(item) => hash_type(hash(of, types.len() as u64), item.as_type()),
        Parts::Fork(left, right) => hash_list(hash_list(of, left), right),
    }
}

/// A hash of some types and those of a stack.
fn hash_stack(of: u64, types: &TypeStack) -> u64 {
    let mut of = of;
    let mut left = types;
    while let Some((part, under)) = left.split() {
        of = hash_list(of, part);
        left = under;
    }
    of
}

/// The key by which types are kept.
fn key(types: &TypeEntry) -> u64 {
    let of = hash_list(0xcbf2_9ce4_8422_2325, types.locals());
    hash(hash_stack(of, types.stack()), u64::from(types.built()))
}

/// Whether two lists have the same types.
fn are_same_lists(a: &TypeTree, b: &TypeTree) -> bool
    ensures { IsTrue result → (a.now ≡ b.now) }
{
    if a.len() != b.len() {
        return false;
    }
    match (a.parts(), b.parts()) {
        (Parts::Empty, Parts::Empty) => true,
        (Parts::Run(first), Parts::Run(second)) => is_same(first.as_type(), second.as_type()),
        (Parts::Fork(left, right), Parts::Fork(second_left, second_right)) => {
            are_same_lists(left, second_left) && are_same_lists(right, second_right)
        }
        _ => false,
    }
}

/// Whether two stacks have the same types.
fn are_same_stacks(a: &TypeStack, b: &TypeStack) -> bool
    ensures { IsTrue result → (a.now ≡ b.now) }
{
    let mut a = a;
    let mut b = b;
    loop {
        match (a.split(), b.split()) {
            (None, None) => return true,
            (Some((part, under)), Some((other, under_other))) => {
                if !are_same_lists(part, other) {
                    return false;
                }
                a = under;
                b = under_other;
            }
            _ => return false,
        }
    }
}

/// Whether two entries are the same.
fn are_same(a: &TypeEntry, b: &TypeEntry) -> bool
    ensures { IsTrue result → (a.now ≡ b.now) }
{
    a.built() == b.built()
        && are_same_lists(a.locals(), b.locals())
        && are_same_stacks(a.stack(), b.stack())
}

impl Kept {
    /// None. Takes no memory.
    pub fn new(alloc: Global) -> Self {
        Kept {
            types: BTreeMap::new(alloc),
            places: 0,
        }
    }

    /// Keeps types by a key. Where they have no room beside the others, they are kept alone.
    fn keep(&mut self, key: u64, types: &TypeEntry) -> Result<(), AllocError> {
        let places = types.locals().len().saturating_add(types.stack().len());
        self.places = self.places.saturating_add(places);
        if self.places > ROOM {
            self.types.clear();
            self.places = places;
        }
        self.types.insert(key, types.share()?)?;
        Ok(())
    }

    /// The types, in the memory of equal ones that are kept. Where none are, they are kept themselves.
    pub fn shared(&mut self, types: TypeEntry) -> Result<TypeEntry, AllocError>
        ensures { IfOk result (λ h. h ≡ types) }
    {
        let key = key(&types);
        if let Some(known) = self.types.get(&key)
            && are_same(known, &types)
        {
            return known.share();
        }
        self.keep(key, &types)?;
        Ok(types)
    }
}
