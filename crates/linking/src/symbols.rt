//! What the names in a class stand for, among the classes and the parts of a program.
ghost use Rattle.std.specs.Prelude.{◌≡◌, position, bytes_eq, option_and_then, IfOk};
ghost use Rattle.objects.specs.linking.Layout.{type_number as number_of_type, array_over as array_of, class_read as class_as_read};
ghost use Rattle.objects.specs.linking.Resolution.{special_method};
ghost use Rattle.objects.specs.linking.Decoding.{field_number as number_of_field, method_number as number_of_method, number_of};

use crate::names::Names;
use crate::numbering::Numbering;
use const_pool::ClassFile;
use heap_layout::reading::class_read;
use hierarchy::reference::Reference;
use jmodel::Bytes;
use std::alloc::{AllocError, Global};
use std::marker::Model;

/// A class among those of its program, the parts of the program that are found by their names, and where the object of the class's static
/// fields lies.
#[derive(Drop)]
pub struct Symbols<'s, 'a> {
    pub class: &'a ClassFile,
    pub names: &'s Names<'a>,
    pub numbering: &'s Numbering<'a>,
    pub base: u64,
}

impl<'s, 'a> Model for Symbols<'s, 'a> {
    ghost use Rattle.objects.specs.linking.Decoding.{Symbols as Form};
    ghost use Rattle.linking.specs.Numbering.{symbols_for};

    ghost Value = { Form };

    ghost view = { λ s. symbols_for s.names.now s.numbering.now s.class.now s.base };
}

impl<'s, 'a> Symbols<'s, 'a> {
    /// The number of the type of a name.
    pub fn type_number(&self, name: &'a [u8]) -> Option<usize>
        ensures { result ≡ number_of_type self.now.types name.now }
    {
        let numbering = self.numbering;
        numbering.type_number(name)
    }

    /// The number of the array type that anewarray makes of a name.
    pub fn array_number(&self, name: &'a [u8]) -> Option<usize>
        ensures { result ≡ number_of_type self.now.types (array_of name.now) }
    {
        let numbering = self.numbering;
        numbering.array_number(name)
    }

    /// The number of a string constant.
    pub fn text_number(&self, text: &'a [u8]) -> Option<usize>
        ensures { result ≡ position (bytes_eq text.now) self.now.texts }
    {
        let numbering = self.numbering;
        numbering.text_number(text)
    }

    /// A class's name as typing reads it.
    pub fn class_read(&self, alloc: Global, name: &'a [u8]) -> Result<Bytes, AllocError>
        ensures { IfOk result (λ b. b ≡ class_as_read self.now.classes name.now) }
    {
        let names = self.names;
        Bytes::from_slice(alloc, class_read(names.folder(), name))
    }

    /// The number of the field that a name stands for.
    pub fn field_number(&self, r: &Reference<'a>) -> Option<usize>
        ensures { result ≡ number_of_field self.now r.now }
    {
        let names = self.names;
        let numbering = self.numbering;
        let field = names.resolver().resolved_field(r)?;
        numbering.field_number(&field)
    }

    /// The number of the method that a name stands for.
    pub fn method_number(&self, r: &Reference<'a>) -> Option<usize>
        ensures { result ≡ number_of_method self.now r.now }
    {
        let names = self.names;
        let numbering = self.numbering;
        let method = names.resolver().resolved_method(r)?;
        numbering.method_number(&method)
    }

    /// The number of the method that invokespecial runs for a name.
    pub fn special_number(&self, r: &Reference<'a>) -> Option<usize>
        ensures { result ≡ option_and_then (number_of self.now) (special_method self.now.classes self.now.class r.now) }
    {
        let names = self.names;
        let numbering = self.numbering;
        let method = names.resolver().special_method(self.class, r)?;
        numbering.method_number(&method)
    }
}
