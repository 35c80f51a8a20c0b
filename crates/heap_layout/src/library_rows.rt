//! The types of the library's classes.
ghost use Rattle.std.specs.Prelude.{◌≡◌, List, ℕ, map, IfOk};
ghost use Rattle.objects.specs.linking.LibraryClasses.{library_rows as rows_of_library};
ghost use Rattle.objects.specs.linking.Layout.{library_lineage as lineage_in_library};
ghost use Rattle.heap_layout.specs.Library.{lineages, first_name, row_with, lineage_among};

use crate::text::equal;
use hierarchy::{Holds, Row};
use jmodel::Bytes;
use std::alloc::{AllocError, Global};

const OBJECT: &[u8] = b"java/lang/Object";

const THROWABLE: &[u8] = b"java/lang/Throwable";

const EXCEPTION: &[u8] = b"java/lang/Exception";

const ERROR: &[u8] = b"java/lang/Error";

const RUNTIME: &[u8] = b"java/lang/RuntimeException";

const INDEX: &[u8] = b"java/lang/IndexOutOfBoundsException";

const LINKAGE: &[u8] = b"java/lang/LinkageError";

const CHANGE: &[u8] = b"java/lang/IncompatibleClassChangeError";

// Each class of the library with those above it, the nearest first.
fn lineages() -> [&'static [&'static [u8]]; 20]
    ensures { map (λ l. map (λ n. n.now) l.now) result ≡ lineages }
{
    [
        &[OBJECT],
        &[b"java/lang/String", OBJECT],
        &[b"java/lang/Math", OBJECT],
        &[THROWABLE, OBJECT],
        &[EXCEPTION, THROWABLE, OBJECT],
        &[ERROR, THROWABLE, OBJECT],
        &[RUNTIME, EXCEPTION, THROWABLE, OBJECT],
        &[
            b"java/lang/ArithmeticException",
            RUNTIME,
            EXCEPTION,
            THROWABLE,
            OBJECT,
        ],
        &[
            b"java/lang/ArrayStoreException",
            RUNTIME,
            EXCEPTION,
            THROWABLE,
            OBJECT,
        ],
        &[
            b"java/lang/ClassCastException",
            RUNTIME,
            EXCEPTION,
            THROWABLE,
            OBJECT,
        ],
        &[
            b"java/lang/IllegalArgumentException",
            RUNTIME,
            EXCEPTION,
            THROWABLE,
            OBJECT,
        ],
        &[
            b"java/lang/IllegalStateException",
            RUNTIME,
            EXCEPTION,
            THROWABLE,
            OBJECT,
        ],
        &[INDEX, RUNTIME, EXCEPTION, THROWABLE, OBJECT],
        &[
            b"java/lang/NegativeArraySizeException",
            RUNTIME,
            EXCEPTION,
            THROWABLE,
            OBJECT,
        ],
        &[
            b"java/lang/NullPointerException",
            RUNTIME,
            EXCEPTION,
            THROWABLE,
            OBJECT,
        ],
        &[
            b"java/lang/UnsupportedOperationException",
            RUNTIME,
            EXCEPTION,
            THROWABLE,
            OBJECT,
        ],
        &[
            b"java/lang/ArrayIndexOutOfBoundsException",
            INDEX,
            RUNTIME,
            EXCEPTION,
            THROWABLE,
            OBJECT,
        ],
        &[LINKAGE, ERROR, THROWABLE, OBJECT],
        &[CHANGE, LINKAGE, ERROR, THROWABLE, OBJECT],
        &[
            b"java/lang/AbstractMethodError",
            CHANGE,
            LINKAGE,
            ERROR,
            THROWABLE,
            OBJECT,
        ],
    ]
}

// Copies of names.
pub(crate) fn copies(alloc: Global, names: &[&[u8]]) -> Result<Vec<Bytes>, AllocError>
    ensures { IfOk result (λ v. v.items ≡ map (λ n. n.now) names.now) }
{
    let mut copied = Vec::new(alloc);
    for name in names {
        copied.push(Bytes::from_slice(alloc, name)?)?;
    }
    Ok(copied)
}

// The first of names, no bytes where there is none.
fn first_name<'a>(names: &[&'a [u8]]) -> &'a [u8]
    ensures { result.now ≡ first_name (map (λ n. n.now) names.now) }
{
    match names {
        [] => b"",
        [name, ..] => name,
    }
}

// The type of a class of the library that has these names, its own and those above it.
fn row_with(alloc: Global, names: &[&[u8]]) -> Result<Row, AllocError>
    ensures { IfOk result (λ r. r ≡ row_with (map (λ n. n.now) names.now)) }
{
    let name = first_name(names);
    Ok(Row::new(
        Bytes::from_slice(alloc, name)?,
        Bytes::from_slice(alloc, name)?,
        Holds::Words(Vec::new(alloc)),
        copies(alloc, names)?,
        copies(alloc, names)?,
    ))
}

// The types of classes with these names.
fn rows_with(alloc: Global, all: &[&[&[u8]]]) -> Result<Vec<Row>, AllocError>
    ensures { IfOk result (λ v. v.items ≡ map (λ l. row_with (map (λ n. n.now) l.now)) all.now) }
{
    let mut rows = Vec::new(alloc);
    for names in all {
        rows.push(row_with(alloc, names)?)?;
    }
    Ok(rows)
}

/// The types of the library's classes, the first of a program's types.
pub fn library_rows(alloc: Global) -> Result<Vec<Row>, AllocError>
    ensures { IfOk result (λ v. v.items ≡ rows_of_library) }
{
    Ok(rows_with(alloc, &lineages())?)
}

// The first of lineages whose class has this name.
fn lineage_named<'a>(name: &[u8], all: &[&'a [&'static [u8]]]) -> &'a [&'static [u8]]
    ensures { map (λ n. n.now) result.now ≡ lineage_among name.now (map (λ l. map (λ n. n.now) l.now) all.now) }
{
    for names in all {
        if equal(first_name(names), name) {
            return names;
        }
    }
    &[]
}

/// A class of the library and those above it, the nearest first. None, where the library has no class of the name.
pub fn library_lineage(alloc: Global, name: &[u8]) -> Result<Vec<Bytes>, AllocError>
    ensures { IfOk result (λ v. v.items ≡ lineage_in_library name.now) }
{
    Ok(copies(alloc, lineage_named(name, &lineages()))?)
}
