//! Copies of the parts of a program.
ghost use Rattle.std.specs.Prelude.{◌≡◌, option_copied, IfOk};
ghost use Rattle.hierarchy.specs.Rows.{holds_of};
ghost use Rattle.program_rewriter.specs.Bodies.{IsShaped};

use crate::instructions::copy_op;
use hierarchy::{Body, Declared, Field, Holds, Method, Row, Shape};
use jmodel::{Bytes, MethodName, VType};
use objects::op::{Catch, Catches, Op};
use std::alloc::{AllocError, Global};

/// A type once more.
pub(crate) fn copy_type(alloc: Global, from: &VType) -> Result<VType, AllocError>
    ensures { IfOk result (λ t. t ≡ from.now) }
{
    match from {
        VType::Int => Ok(VType::Int),
        VType::Long => Ok(VType::Long),
        VType::Second => Ok(VType::Second),
        VType::Null => Ok(VType::Null),
        VType::Ref(name) => Ok(VType::Ref(name.copy(alloc)?)),
        VType::Uninit(place) => Ok(VType::Uninit(*place)),
        VType::UninitThis => Ok(VType::UninitThis),
        VType::Top => Ok(VType::Top),
    }
}

/// Types once more.
pub(crate) fn copy_types(alloc: Global, from: &[VType]) -> Result<Vec<VType>, AllocError>
    ensures { IfOk result (λ v. v.items ≡ from.now) }
{
    let mut types = Vec::new(alloc);
    for item in from {
        types.push(copy_type(alloc, item)?)?;
    }
    Ok(types)
}

/// The type of what a method gives once more, if it gives a value.
pub(crate) fn copy_result(alloc: Global, from: Option<&VType>) -> Result<Option<VType>, AllocError>
    ensures { IfOk result (λ t. t ≡ option_copied from.entry) }
{
    match from {
        Some(given) => Ok(Some(copy_type(alloc, given)?)),
        None => Ok(None),
    }
}

/// A method's name once more.
pub(crate) fn copy_name(alloc: Global, from: &MethodName) -> Result<MethodName, AllocError>
    ensures { IfOk result (λ n. n ≡ from.now) }
{
    Ok(MethodName {
        class: from.class.copy(alloc)?,
        name: from.name.copy(alloc)?,
        descriptor: from.descriptor.copy(alloc)?,
    })
}

fn copy_texts(alloc: Global, from: &[Bytes]) -> Result<Vec<Bytes>, AllocError>
    ensures { IfOk result (λ v. v.items ≡ from.now) }
{
    let mut texts = Vec::new(alloc);
    for text in from {
        texts.push(text.copy(alloc)?)?;
    }
    Ok(texts)
}

fn copy_declared(alloc: Global, from: &Declared) -> Result<Declared, AllocError>
    ensures { IfOk result (λ d. d ≡ from.now) }
{
    Ok(Declared {
        word: from.word,
        class: from.class.copy(alloc)?,
    })
}

fn copy_words(alloc: Global, from: &[Declared]) -> Result<Vec<Declared>, AllocError>
    ensures { IfOk result (λ v. v.items ≡ from.now) }
{
    let mut words = Vec::new(alloc);
    for word in from {
        words.push(copy_declared(alloc, word)?)?;
    }
    Ok(words)
}

fn copy_holds(alloc: Global, from: &Holds) -> Result<Holds, AllocError>
    ensures { IfOk result (λ h. holds_of h ≡ holds_of from.now) }
{
    match from {
        Holds::Words(words) => Ok(Holds::Words(copy_words(alloc, words.as_slice())?)),
        Holds::Elements { declared, name } => Ok(Holds::Elements {
            declared: copy_declared(alloc, declared)?,
            name: name.copy(alloc)?,
        }),
    }
}

fn copy_row(alloc: Global, from: &Row) -> Result<Row, AllocError>
    ensures { IfOk result (λ r. r ≡ from.now) }
{
    Ok(Row::new(
        from.name().copy(alloc)?,
        from.read().copy(alloc)?,
        copy_holds(alloc, from.holds())?,
        copy_texts(alloc, from.lineage())?,
        copy_texts(alloc, from.instance_of())?,
    ))
}

/// Types of objects once more.
pub(crate) fn copy_rows(alloc: Global, from: &[Row]) -> Result<Vec<Row>, AllocError>
    ensures { IfOk result (λ v. v.items ≡ from.now) }
{
    let mut rows = Vec::new(alloc);
    for row in from {
        rows.push(copy_row(alloc, row)?)?;
    }
    Ok(rows)
}

fn copy_field(alloc: Global, from: &Field) -> Result<Field, AllocError>
    ensures { IfOk result (λ f. f ≡ from.now) }
{
    Ok(Field {
        class: from.class.copy(alloc)?,
        name: from.name.copy(alloc)?,
        descriptor: from.descriptor.copy(alloc)?,
        base: from.base,
        index: from.index,
        declared: copy_declared(alloc, &from.declared)?,
    })
}

/// Fields once more.
pub(crate) fn copy_fields(alloc: Global, from: &[Field]) -> Result<Vec<Field>, AllocError>
    ensures { IfOk result (λ v. v.items ≡ from.now) }
{
    let mut fields = Vec::new(alloc);
    for field in from {
        fields.push(copy_field(alloc, field)?)?;
    }
    Ok(fields)
}

/// What an exception entry takes once more.
pub(crate) fn copy_catches(alloc: Global, from: &Catches) -> Result<Catches, AllocError>
    ensures { IfOk result (λ c. c ≡ from.now) }
{
    match from {
        Catches::Conflict => Ok(Catches::Conflict),
        Catches::Any => Ok(Catches::Any),
        Catches::Of(class) => Ok(Catches::Of(class.copy(alloc)?)),
    }
}

fn copy_entry(alloc: Global, from: &Catch) -> Result<Catch, AllocError>
    ensures { IfOk result (λ c. c ≡ from.now) }
{
    Ok(Catch {
        from: from.from,
        to: from.to,
        at: from.at,
        catches: copy_catches(alloc, &from.catches)?,
    })
}

fn copy_entries(alloc: Global, from: &[Catch]) -> Result<Vec<Catch>, AllocError>
    ensures { IfOk result (λ v. v.items ≡ from.now) }
{
    let mut entries = Vec::new(alloc);
    for entry in from {
        entries.push(copy_entry(alloc, entry)?)?;
    }
    Ok(entries)
}

fn copy_ops(alloc: Global, from: &[Op]) -> Result<Vec<Op>, AllocError>
    ensures { IfOk result (λ v. v.items ≡ from.now) }
{
    let mut ops = Vec::new(alloc);
    for op in from {
        ops.push(copy_op(alloc, op)?)?;
    }
    Ok(ops)
}

/// How calls find a method once more, with the types of its parameters and of what it gives.
pub(crate) fn copy_shape(alloc: Global, method: &Method) -> Result<Shape, AllocError>
    ensures dispatch { IfOk result (λ s. s.dispatch ≡ method.now.dispatch) }
    ensures parameters { IfOk result (λ s. s.parameters.items ≡ method.now.parameters) }
    ensures gives { IfOk result (λ s. s.result ≡ method.now.result) }
{
    Ok(Shape {
        dispatch: method.dispatch(),
        parameters: copy_types(alloc, method.parameters())?,
        result: copy_result(alloc, method.result())?,
    })
}

/// A method once more.
pub(crate) fn copy_method(alloc: Global, from: &Method) -> Result<Method, AllocError>
    requires { IsShaped from.now }
    ensures { IfOk result (λ m. m ≡ from.now) }
{
    let body = Body {
        locals: from.entry().locals,
        max_stack: from.max_stack(),
        ops: copy_ops(alloc, from.ops())?,
        catches: copy_entries(alloc, from.catches())?,
    };
    Ok(Method::new(
        copy_name(alloc, from.name())?,
        copy_shape(alloc, from)?,
        from.is_counted(),
        from.retries(),
        body,
    ))
}
