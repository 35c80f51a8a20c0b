//! Classes, with what names of classes, fields and methods stand for among them.
ghost use Rattle.std.specs.Prelude.{◌≡◌, map, IfOk};

use const_pool::ClassFile;
use heap_layout::folder::Folder;
use jmodel::NoMemory;
use resolution::resolution::Resolver;
use std::alloc::Global;
use std::marker::Model;

/// Classes: where names lead among them, and how typing reads their names.
pub struct Names<'a> {
    resolver: Resolver<'a>,
    folder: Folder<'a>,
}

impl Drop for Names<'_> {
    fn drop(self) {
        let Self {
            resolver: _,
            folder: _,
        } = self;
    }
}

impl<'a> Model for Names<'a> {
    ghost use Rattle.std.specs.Prelude.{◌≡◌, List};
    ghost use Rattle.jmodel.specs.format.ClassFile.{ClassFile as ClassForm};

    ghost Value = { List ClassForm };

    ghost view = { λ n. n.resolver };

    ghost invariant = { λ n. n.folder ≡ n.resolver };
}

impl<'a> Names<'a> {
    /// Looks up the names of classes and of their members.
    pub fn new(alloc: Global, classes: &'a [&'a ClassFile]) -> Result<Self, NoMemory>
        ensures { IfOk result (λ n. n ≡ map (λ c. c.now) classes.now) }
    {
        Ok(Names {
            resolver: Resolver::new(alloc, classes)?,
            folder: Folder::new(alloc, classes)?,
        })
    }

    /// The classes.
    pub fn classes(&self) -> &'a [&'a ClassFile]
        ensures { map (λ c. c.now) result.now ≡ self.now }
    {
        self.folder.classes()
    }

    /// Where names of fields and methods lead.
    pub fn resolver(&self) -> &Resolver<'a>
        ensures { result.now ≡ self.now }
    {
        &self.resolver
    }

    /// The classes, as typing reads their names.
    pub fn folder(&self) -> &Folder<'a>
        ensures { result.now ≡ self.now }
    {
        &self.folder
    }
}
