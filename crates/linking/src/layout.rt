//! The types, texts and fields of the program of classes, in the order of their numbers.
ghost use Rattle.std.specs.Prelude.{◌≡◌, map, IfOk};
ghost use Rattle.objects.specs.linking.Layout.{rows as all_rows, texts_of as all_texts, fields_of as all_fields};

use const_pool::ClassFile;
use heap_layout::fields::fields_of;
use heap_layout::rows::rows;
use heap_layout::texts::texts_of;
use hierarchy::{Field, Row};
use jmodel::{Bytes, NoMemory};
use std::alloc::{AllocError, Global};

// Texts of its own.
fn copies(alloc: Global, texts: &[&[u8]]) -> Result<Vec<Bytes>, AllocError>
    ensures { IfOk result (λ v. v.items ≡ map (λ t. t.now) texts.now) }
{
    let mut copied = Vec::new(alloc);
    for text in texts {
        copied.push(Bytes::from_slice(alloc, text)?)?;
    }
    Ok(copied)
}

/// Types, texts and fields, in the order of their numbers.
#[derive(Drop)]
pub struct Layout {
    pub types: Vec<Row>,
    pub texts: Vec<Bytes>,
    pub fields: Vec<Field>,
}

impl Layout {
    /// Those of the program of classes.
    pub fn of<'a>(alloc: Global, classes: &'a [&'a ClassFile]) -> Result<Self, NoMemory>
        ensures types { IfOk result (λ l. l.types.items ≡ all_rows (map (λ c. c.now) classes.now)) }
        ensures texts { IfOk result (λ l. l.texts.items ≡ all_texts (map (λ c. c.now) classes.now)) }
        ensures fields { IfOk result (λ l. l.fields.items ≡ all_fields (map (λ c. c.now) classes.now)) }
    {
        let texts = texts_of(alloc, classes)?;
        Ok(Layout {
            types: rows(alloc, classes)?,
            texts: copies(alloc, texts.as_slice())?,
            fields: fields_of(alloc, classes)?,
        })
    }
}
