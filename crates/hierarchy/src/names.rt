//! Names of methods, each with a class and a descriptor.
ghost use Rattle.std.specs.Prelude.{◌≡◌, ◌+◌, ◌<◌, ◌^◌, List, [], ◌∷◌, ◌++◌, ◌||◌, map, not, IfOk, OnOk, if◌then◌else◌};
ghost use Rattle.jmodel.specs.declared.name.MethodName.{MethodName as Name};
ghost use Rattle.objects.specs.linking.Members.{is_name};
ghost use Rattle.hierarchy.specs.Names.{named, has, group_of, number_of, count_of};
ghost use Rattle.hierarchy.specs.Numbers.{or_number};

use crate::declared::Declared;
use jmodel::NoMemory;
use std::alloc::Global;
use std::collections::{BTreeMap, BTreeSet};
use std::marker::Model;

#[derive(Clone, Copy, PartialEq, Eq, PartialOrd, Ord)]
struct Key<'a> {
    name: &'a [u8],
    descriptor: &'a [u8],
    class: &'a [u8],
}

/// A set of names.
#[derive(Drop)]
pub struct Names<'a> {
    keys: BTreeSet<Key<'a>>,
}

impl<'a> Model for Names<'a> {
    ghost use Rattle.std.specs.Prelude.{List, map};
    ghost use Rattle.jmodel.specs.declared.name.MethodName.{MethodName as Name};
    ghost use Rattle.hierarchy.specs.Names.{named};

    ghost Value = { List Name };

    ghost view = { λ n. map (λ k. named k.class.now k.name.now k.descriptor.now) n.keys.keys };
}

impl<'a> Names<'a> {
    /// No names. Takes no memory.
    pub fn new(alloc: Global) -> Self
        ensures { result ≡ [] }
    {
        Names {
            keys: BTreeSet::new(alloc),
        }
    }

    /// Whether a name is among them.
    pub fn contains(&self, class: &'a [u8], name: &'a [u8], descriptor: &'a [u8]) -> bool
        ensures { result ≡ has self.now (named class.now name.now descriptor.now) }
    {
        self.keys.contains(&Key {
            name,
            descriptor,
            class,
        })
    }

    /// Puts a name among them, and answers whether it is new.
    pub fn insert(
        &mut self,
        class: &'a [u8],
        name: &'a [u8],
        descriptor: &'a [u8],
    ) -> Result<bool, NoMemory>
        ensures is_new { IfOk result (λ b. b ≡ not (has self.old (named class.now name.now descriptor.now))) }
        ensures added { OnOk result ((q : Name) → has self.new q ≡ (has self.old q || is_name q (named class.now name.now descriptor.now))) }
    {
        Ok(
            self.keys.insert(Key {
                name,
                descriptor,
                class,
            })?,
        )
    }
}

/// Methods by names.
pub struct Groups<'a> {
    methods: BTreeMap<Key<'a>, Vec<&'a Declared<'a>>>,
}

impl Drop for Groups<'_> {
    fn drop(self) {
        let Self { methods: _ } = self;
    }
}

impl<'a> Model for Groups<'a> {
    ghost use Rattle.std.specs.Prelude.{List, map};
    ghost use Rattle.jmodel.specs.declared.name.MethodName.{MethodName as Name};
    ghost use Rattle.objects.specs.linking.Classes.{Declared as Form};
    ghost use Rattle.hierarchy.specs.Names.{named};

    ghost Value = { List (Name × List Form) };

    ghost view = { λ g. map (λ e. (named e.0.class.now e.0.name.now e.0.descriptor.now, map (λ m. m.now) e.1.items)) g.methods.entries };
}

impl<'a> Groups<'a> {
    /// No methods. Takes no memory.
    pub fn new(alloc: Global) -> Self
        ensures { result ≡ [] }
    {
        Groups {
            methods: BTreeMap::new(alloc),
        }
    }

    /// Appends the methods of a name to a list.
    pub fn append_to(
        &self,
        class: &'a [u8],
        name: &'a [u8],
        descriptor: &'a [u8],
        list: &mut Vec<&'a Declared<'a>>,
    ) -> Result<(), NoMemory>
        ensures { OnOk result (map (λ m. m.now) list.new.items ≡ map (λ m. m.now) list.old.items ++ group_of self.now (named class.now name.now descriptor.now)) }
    {
        let key = Key {
            name,
            descriptor,
            class,
        };
        if let Some(group) = self.methods.get(&key) {
            list.extend_from_slice(group.as_slice())?;
        }
        Ok(())
    }

    /// Puts a method behind those of a name.
    pub fn push(
        &mut self,
        alloc: Global,
        class: &'a [u8],
        name: &'a [u8],
        descriptor: &'a [u8],
        method: &'a Declared<'a>,
    ) -> Result<(), NoMemory>
        ensures { OnOk result ((q : Name) → group_of self.new q ≡ group_of self.old q ++ (if is_name q (named class.now name.now descriptor.now) then method.now ∷ [] else [])) }
    {
        let key = Key {
            name,
            descriptor,
            class,
        };
        if let Some(group) = self.methods.get_mut(&key) {
            return Ok(group.push(method)?);
        }
        self.methods.insert(key, vec![in alloc; method]?)?;
        Ok(())
    }
}

/// Numbers by names: under each name the one that was noted first.
#[derive(Drop)]
pub struct Numbers<'a> {
    numbers: BTreeMap<Key<'a>, usize>,
}

impl<'a> Model for Numbers<'a> {
    ghost use Rattle.std.specs.Prelude.{ℕ, List, map};
    ghost use Rattle.jmodel.specs.declared.name.MethodName.{MethodName as Name};
    ghost use Rattle.hierarchy.specs.Names.{named};

    ghost Value = { List (Name × ℕ) };

    ghost view = { λ n. map (λ e. (named e.0.class.now e.0.name.now e.0.descriptor.now, e.1)) n.numbers.entries };
}

impl<'a> Numbers<'a> {
    /// No numbers. Takes no memory.
    pub fn new(alloc: Global) -> Self
        ensures { result ≡ [] }
    {
        Numbers {
            numbers: BTreeMap::new(alloc),
        }
    }

    /// The number under a name, if there is one.
    pub fn get(&self, class: &'a [u8], name: &'a [u8], descriptor: &'a [u8]) -> Option<usize>
        ensures { result ≡ number_of self.now (named class.now name.now descriptor.now) }
    {
        let key = Key {
            name,
            descriptor,
            class,
        };
        self.numbers.get(&key).copied()
    }

    /// Notes a number under a name, unless that has one.
    pub fn note(
        &mut self,
        class: &'a [u8],
        name: &'a [u8],
        descriptor: &'a [u8],
        number: usize,
    ) -> Result<(), NoMemory>
        ensures { OnOk result ((q : Name) → number_of self.new q ≡ (if is_name q (named class.now name.now descriptor.now) then or_number (number_of self.old q) number else number_of self.old q)) }
    {
        let key = Key {
            name,
            descriptor,
            class,
        };
        if self.numbers.get(&key).is_none() {
            self.numbers.insert(key, number)?;
        }
        Ok(())
    }

    /// Adds one to the number under a name, which is 0 at first.
    pub fn count(
        &mut self,
        class: &'a [u8],
        name: &'a [u8],
        descriptor: &'a [u8],
    ) -> Result<(), NoMemory>
        requires { count_of self.old (named class.now name.now descriptor.now) + 1 < 2 ^ 64 }
        ensures { OnOk result ((q : Name) → count_of self.new q ≡ count_of self.old q + (if is_name q (named class.now name.now descriptor.now) then 1 else 0)) }
    {
        let key = Key {
            name,
            descriptor,
            class,
        };
        let count = self.numbers.get(&key).copied().unwrap_or(0);
        self.numbers.insert(key, count + 1)?;
        Ok(())
    }
}
