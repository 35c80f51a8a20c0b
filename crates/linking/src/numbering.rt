//! The types, texts, fields and methods of a program, found by their names.
ghost use Rattle.std.specs.Prelude.{◌≡◌, ◌<◌, [], suc, length, map, position, bytes_eq, codes, if◌then◌else◌, option_map, IfSome, IfOk};
ghost use Rattle.objects.specs.linking.Classes.{full_name};
ghost use Rattle.objects.specs.typing.TypeOrder.{without_last as all_but_last, is_ended as has_semicolon};
ghost use Rattle.objects.specs.linking.Layout.{type_number as number_of_type, array_over};
ghost use Rattle.objects.specs.linking.Decoding.{is_field_of, is_method};
ghost use Rattle.hierarchy.specs.Names.{named, AreFirst};
ghost use Rattle.linking.specs.Numbering.{type_key, text_key, field_key, element_key as key_of_element, array_key as key_of_array, made_key};

use crate::layout::Layout;
use hierarchy::declared::Declared;
use hierarchy::names::Numbers;
use hierarchy::{Field, Row};
use jmodel::{Bytes, NoMemory};
use std::alloc::Global;
use std::marker::Model;

// The numbers of types.
fn numbers_of_types<'a>(alloc: Global, types: &'a [Row]) -> Result<Numbers<'a>, NoMemory>
    ensures { IfOk result (λ n. AreFirst n (map type_key types.now)) }
{
    let mut numbers = Numbers::new(alloc);
    for (number, row) in types.iter().enumerate() {
        let name = row.name();
        numbers.note(name.as_slice(), b"", b"", number)?;
    }
    Ok(numbers)
}

// A text without its last byte.
#[tactic(auto, using(crate::proofs::LastBytes::front_is, crate::proofs::LastBytes::no_front))]
fn without_last(text: &[u8]) -> &[u8]
    ensures { result.now ≡ all_but_last text.now }
{
    match text.split_last() {
        Some((_, front)) => front,
        None => b"",
    }
}

// Whether a semicolon is last.
#[tactic(auto, using(crate::proofs::LastBytes::ended_is, crate::proofs::LastBytes::not_ended))]
fn is_ended(text: &[u8]) -> bool
    ensures { result ≡ has_semicolon text.now }
{
    match text.split_last() {
        Some((last, _)) => *last == b';',
        None => false,
    }
}

// The name of a class before a semicolon.
fn class_key(text: &[u8]) -> (&[u8], &[u8])
    ensures { named result.0.now result.1.now [] ≡ (if has_semicolon text.now then named (all_but_last text.now) (codes "L") [] else named [] [] []) }
{
    if is_ended(text) {
        (without_last(text), b"L")
    } else {
        (b"", b"")
    }
}

// What stands behind the bracket of an array's descriptor, by the name that anewarray has for it, and whether that is an array's or a class's.
fn element_key(text: &[u8]) -> (&[u8], &[u8])
    ensures { named result.0.now result.1.now [] ≡ key_of_element text.now }
{
    match text {
        [b'[', ..] => (text, b"["),
        [b'L', name @ ..] => class_key(name),
        _ => (b"", b""),
    }
}

fn array_key(row: &Row) -> (&[u8], &[u8])
    ensures { named result.0.now result.1.now [] ≡ key_of_array row.now }
{
    let name = row.name();
    match name.as_slice() {
        [b'[', element @ ..] => element_key(element),
        _ => (b"", b""),
    }
}

// The numbers of array types.
fn numbers_of_arrays<'a>(alloc: Global, types: &'a [Row]) -> Result<Numbers<'a>, NoMemory>
    ensures { IfOk result (λ n. AreFirst n (map key_of_array types.now)) }
{
    let mut numbers = Numbers::new(alloc);
    for (number, row) in types.iter().enumerate() {
        let (element, mark) = array_key(row);
        numbers.note(element, mark, b"", number)?;
    }
    Ok(numbers)
}

// The numbers of texts.
fn numbers_of_texts<'a>(alloc: Global, texts: &'a [Bytes]) -> Result<Numbers<'a>, NoMemory>
    ensures { IfOk result (λ n. AreFirst n (map text_key texts.now)) }
{
    let mut numbers = Numbers::new(alloc);
    for (number, text) in texts.iter().enumerate() {
        numbers.note(text.as_slice(), b"", b"", number)?;
    }
    Ok(numbers)
}

// The numbers of fields.
fn numbers_of_fields<'a>(alloc: Global, fields: &'a [Field]) -> Result<Numbers<'a>, NoMemory>
    ensures { IfOk result (λ n. AreFirst n (map field_key fields.now)) }
{
    let mut numbers = Numbers::new(alloc);
    for (number, field) in fields.iter().enumerate() {
        numbers.note(
            field.class.as_slice(),
            field.name.as_slice(),
            field.descriptor.as_slice(),
            number,
        )?;
    }
    Ok(numbers)
}

// The numbers of methods.
fn numbers_of_methods<'a>(
    alloc: Global,
    methods: &[&'a Declared<'a>],
) -> Result<Numbers<'a>, NoMemory>
    ensures { IfOk result (λ n. AreFirst n (map full_name (map (λ m. m.now) methods.now))) }
{
    let mut numbers = Numbers::new(alloc);
    for (number, method) in methods.iter().enumerate() {
        let name = method.reference();
        numbers.note(name.class, name.name, name.descriptor, number)?;
    }
    Ok(numbers)
}

// Whether the array that anewarray makes of a name is one of arrays or of a class.
fn made_mark(name: &[u8]) -> &'static [u8]
    ensures { named name.now result.now [] ≡ made_key name.now }
{
    match name {
        [b'[', ..] => b"[",
        _ => b"L",
    }
}

// The number of a type at a place: numbers begin at 1.
fn from_one(types: &[Row], place: Option<usize>) -> Option<usize>
    requires { IfSome place (λ n. n < length types.now) }
    ensures { result ≡ option_map suc place }
{
    let place = place?;
    Some(place + 1)
}

/// The types, texts, fields and methods of a program, by their names.
pub struct Numbering<'a> {
    layout: &'a Layout,
    methods: &'a [&'a Declared<'a>],
    type_numbers: Numbers<'a>,
    array_numbers: Numbers<'a>,
    text_numbers: Numbers<'a>,
    field_numbers: Numbers<'a>,
    method_numbers: Numbers<'a>,
}

impl Drop for Numbering<'_> {
    fn drop(self) {
        let Self {
            layout: _,
            methods: _,
            type_numbers: _,
            array_numbers: _,
            text_numbers: _,
            field_numbers: _,
            method_numbers: _,
        } = self;
    }
}

impl<'a> Model for Numbering<'a> {
    ghost use Rattle.std.specs.Prelude.{map};
    ghost use Rattle.objects.specs.linking.Classes.{full_name};
    ghost use Rattle.linking.specs.Numbering.{Numbered, AreNumbered};

    ghost Value = { Numbered };

    ghost view = { λ m. record { types = m.layout.now.types.items; texts = m.layout.now.texts.items; fields = m.layout.now.fields.items; methods = map full_name (map (λ k. k.now) m.methods.now) } };

    ghost invariant = { λ m. AreNumbered (record { types = m.layout.now.types.items; texts = m.layout.now.texts.items; fields = m.layout.now.fields.items; methods = map full_name (map (λ k. k.now) m.methods.now) }) m.type_numbers m.array_numbers m.text_numbers m.field_numbers m.method_numbers };
}

impl<'a> Numbering<'a> {
    /// Numbers the parts of a program by their names.
    pub fn new(
        alloc: Global,
        layout: &'a Layout,
        methods: &'a [&'a Declared<'a>],
    ) -> Result<Self, NoMemory>
        ensures { IfOk result (λ m. m ≡ record { types = layout.now.types.items; texts = layout.now.texts.items; fields = layout.now.fields.items; methods = map full_name (map (λ k. k.now) methods.now) }) }
    {
        Ok(Numbering {
            layout,
            methods,
            type_numbers: numbers_of_types(alloc, layout.types.as_slice())?,
            array_numbers: numbers_of_arrays(alloc, layout.types.as_slice())?,
            text_numbers: numbers_of_texts(alloc, layout.texts.as_slice())?,
            field_numbers: numbers_of_fields(alloc, layout.fields.as_slice())?,
            method_numbers: numbers_of_methods(alloc, methods)?,
        })
    }

    /// The number of the type of a name: numbers begin at 1.
    pub fn type_number(&self, name: &'a [u8]) -> Option<usize>
        ensures { result ≡ number_of_type self.now.types name.now }
    {
        let number = self.type_numbers.get(name, b"", b"");
        from_one(self.layout.types.as_slice(), number)
    }

    /// The number of the array type that anewarray makes of a name.
    pub fn array_number(&self, name: &'a [u8]) -> Option<usize>
        ensures { result ≡ number_of_type self.now.types (array_over name.now) }
    {
        let number = self.array_numbers.get(name, made_mark(name), b"");
        from_one(self.layout.types.as_slice(), number)
    }

    /// The number of a string constant.
    pub fn text_number(&self, text: &'a [u8]) -> Option<usize>
        ensures { result ≡ position (bytes_eq text.now) self.now.texts }
    {
        self.text_numbers.get(text, b"", b"")
    }

    /// The number of a field that a class declares.
    pub fn field_number(&self, field: &Declared<'a>) -> Option<usize>
        ensures { result ≡ position (is_field_of (full_name field.now)) self.now.fields }
    {
        let name = field.reference();
        self.field_numbers
            .get(name.class, name.name, name.descriptor)
    }

    /// The number of a method that a class declares.
    pub fn method_number(&self, method: &Declared<'a>) -> Option<usize>
        ensures { result ≡ position (is_method (full_name method.now)) self.now.methods }
    {
        let name = method.reference();
        self.method_numbers
            .get(name.class, name.name, name.descriptor)
    }
}
