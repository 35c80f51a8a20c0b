//! A class file's parts (JVM Specification, Java SE 7, sections 4.1, 4.5 to 4.7).
use crate::pool::Pool;
use jmodel::Bytes;
use std::marker::Model;

/// An attribute: its name's index, and its bytes.
#[derive(Debug)]
pub struct Attribute {
    pub name: u16,
    pub bytes: Bytes,
}

impl Drop for Attribute {
    fn drop(self) {
        let Self { name: _, bytes: _ } = self;
    }
}

impl Model for Attribute {
    ghost use Rattle.jmodel.specs.format.ClassFile.{Attribute as Form};

    ghost Value = { Form };

    ghost view = { λ a. record { name = a.name; bytes = a.bytes } };
}

/// A field or a method, with the indexes of its name and its descriptor.
pub struct Member {
    pub flags: u16,
    pub name: u16,
    pub descriptor: u16,
    pub attributes: Vec<Attribute>,
}

impl Drop for Member {
    fn drop(self) {
        let Self {
            flags: _,
            name: _,
            descriptor: _,
            attributes: _,
        } = self;
    }
}

impl Model for Member {
    ghost use Rattle.jmodel.specs.format.ClassFile.{Member as Form};

    ghost Value = { Form };

    ghost view = { λ m. record { flags = m.flags; name = m.name; descriptor = m.descriptor; attributes = m.attributes.items } };
}

/// A class file. Classes are named by indexes of the pool.
pub struct ClassFile {
    pub minor: u16,
    pub major: u16,
    pub pool: Pool,
    pub flags: u16,
    pub this_class: u16,
    pub super_class: u16,
    pub interfaces: Vec<u16>,
    pub fields: Vec<Member>,
    pub methods: Vec<Member>,
    pub attributes: Vec<Attribute>,
}

impl Drop for ClassFile {
    fn drop(self) {
        let Self {
            minor: _,
            major: _,
            pool: _,
            flags: _,
            this_class: _,
            super_class: _,
            interfaces: _,
            fields: _,
            methods: _,
            attributes: _,
        } = self;
    }
}

impl Model for ClassFile {
    ghost use Rattle.jmodel.specs.format.ClassFile.{ClassFile as Form};

    ghost Value = { Form };

    ghost view = { λ c. record {
      minor = c.minor;
      major = c.major;
      pool = c.pool;
      flags = c.flags;
      this_class = c.this_class;
      super_class = c.super_class;
      interfaces = c.interfaces.items;
      fields = c.fields.items;
      methods = c.methods.items;
      attributes = c.attributes.items;
    } };
}
