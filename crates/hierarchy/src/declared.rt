//! Methods of classes, each with the class that declares it.
ghost use Rattle.std.specs.Prelude.{◌≡◌, ◌++◌, map, IfOk, OnOk};
ghost use Rattle.objects.specs.linking.Classes.{methods_in as methods_of_classes, declared_in, full_name};
ghost use Rattle.hierarchy.specs.Names.{named};
ghost use Rattle.hierarchy.specs.Search.{is_root_of};

use crate::marks::is_root;
use crate::reference::Reference;
use crate::symbols::{own_name, text};
use const_pool::{ClassFile, Member};
use std::alloc::{AllocError, Global};
use std::marker::Model;

/// A method, with the class that declares it.
#[derive(Drop)]
pub struct Declared<'a> {
    pub class: &'a ClassFile,
    pub member: &'a Member,
}

impl<'a> Model for Declared<'a> {
    ghost use Rattle.objects.specs.linking.Classes.{Declared as Form};

    ghost Value = { Form };

    ghost view = { λ k. record { class = k.class.now; member = k.member.now } };
}

impl<'a> Declared<'a> {
    /// Whether the method is called from outside, each time as a transaction: it is marked, or a static initialiser.
    pub fn is_root(&self) -> bool
        ensures { result ≡ is_root_of self.now }
    {
        let class = self.class;
        is_root(&class.pool, self.member)
    }

    /// The method's name, as a call of it has it.
    pub fn reference(&self) -> Reference<'a>
        ensures { named result.class result.name result.descriptor ≡ full_name self.now }
    {
        let class = self.class;
        let member = self.member;
        Reference::new(
            own_name(class),
            text(&class.pool, member.name),
            text(&class.pool, member.descriptor),
        )
    }
}

// Appends the methods of a class.
fn append<'a>(methods: &mut Vec<Declared<'a>>, class: &'a ClassFile) -> Result<(), AllocError>
    ensures { OnOk result (methods.new.items ≡ methods.old.items ++ declared_in class.now class.now.methods) }
{
    for member in &class.methods {
        methods.push(Declared { class, member })?;
    }
    Ok(())
}

/// The methods of classes, class by class, those of each in the order of its file.
pub fn methods_in<'a>(
    alloc: Global,
    classes: &[&'a ClassFile],
) -> Result<Vec<Declared<'a>>, AllocError>
    ensures { IfOk result (λ v. v.items ≡ methods_of_classes (map (λ c. c.now) classes.now)) }
{
    let mut methods = Vec::new(alloc);
    for class in classes {
        append(&mut methods, class)?;
    }
    Ok(methods)
}
