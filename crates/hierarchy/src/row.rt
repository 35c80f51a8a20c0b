//! Types of objects, by which objects are made, methods selected and instances told (JVM Specification, Java SE 7, sections 2.4 and 5.4).
ghost use Rattle.objects.specs.semantics.Program.{Declared as JDeclared};

use jmodel::bytes::Bytes;
use objects::op::WordType;
use std::marker::Model;

/// The type of a word as it is declared. Of a reference it has the class as typing reads it: an interface is Object there. An array has
/// its descriptor.
#[derive(Drop)]
pub struct Declared {
    pub word: WordType,
    pub class: Bytes,
}

impl Model for Declared {
    ghost Value = { JDeclared };

    ghost view = { λ d. record { word = d.word; class = d.class } };
}

/// What the objects of a type hold.
#[derive(Drop)]
pub enum Holds {
    /// The words of their fields.
    Words(Vec<Declared>),
    /// Elements that are all alike. What is stored in an array of references is an instance of the type with the name.
    Elements { declared: Declared, name: Bytes },
}

/// A type of objects: a class, an array, or a class's static fields.
pub struct Row {
    name: Bytes,
    read: Bytes,
    holds: Holds,
    lineage: Vec<Bytes>,
    instance_of: Vec<Bytes>,
}

impl Drop for Row {
    fn drop(self) {
        let Self {
            name: _,
            read: _,
            holds: _,
            lineage: _,
            instance_of: _,
        } = self;
    }
}

impl Model for Row {
    ghost use Rattle.objects.specs.semantics.Program.{Row as JRow};
    ghost use Rattle.hierarchy.specs.Rows.{holds_of};

    ghost Value = { JRow };

    ghost view = { λ r. record { name = r.name; read = r.read; holds = holds_of r.holds; lineage = r.lineage.items; instance_of = r.instance_of.items } };
}

impl Row {
    ghost use Rattle.std.specs.Prelude.{◌≡◌, Some};
    ghost use Rattle.objects.specs.semantics.Program.{is_instance_in};
    ghost use Rattle.hierarchy.specs.Rows.{holds_of};

    /// A type with this name, which typing reads by the name `read`; with the class itself and those above it, the nearest first, and with each
    /// name that the type is an instance of.
    pub fn new(
        name: Bytes,
        read: Bytes,
        holds: Holds,
        lineage: Vec<Bytes>,
        instance_of: Vec<Bytes>,
    ) -> Self
        ensures { result ≡ record { name = name; read = read; holds = holds_of holds; lineage = lineage.items; instance_of = instance_of.items } }
    {
        Row {
            name,
            read,
            holds,
            lineage,
            instance_of,
        }
    }

    /// The name of the class, or the array's descriptor.
    pub fn name(&self) -> &Bytes
        ensures { result.now ≡ self.now.name }
    {
        &self.name
    }

    /// The name as typing reads it.
    pub fn read(&self) -> &Bytes
        ensures { result.now ≡ self.now.read }
    {
        &self.read
    }

    /// What its objects hold.
    pub fn holds(&self) -> &Holds
        ensures { holds_of result.now ≡ self.now.holds }
    {
        &self.holds
    }

    /// A class and those above it, the nearest first.
    pub fn lineage(&self) -> &[Bytes]
        ensures { result.now ≡ self.now.lineage }
    {
        self.lineage.as_slice()
    }

    /// Each name that the type is an instance of.
    pub fn instance_of(&self) -> &[Bytes]
        ensures { result.now ≡ self.now.instance_of }
    {
        self.instance_of.as_slice()
    }

    /// Whether its objects are instances of the class, the interface or the array type of this name.
    pub fn is_instance(&self, name: &[u8]) -> bool
        ensures { result ≡ is_instance_in name.now (Some self.now) }
    {
        self.instance_of
            .iter()
            .any(|n: &Bytes| n.as_slice() == name)
    }
}
