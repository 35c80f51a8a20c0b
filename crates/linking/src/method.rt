//! What methods mean, with their instructions and exception entries by number (JVM Specification, Java SE 7, sections 4.6 and 4.7.3).
ghost use Rattle.std.specs.Prelude.{◌≡◌, ◌++◌, length, IfOk};
ghost use Rattle.jmodel.specs.format.Pool.{utf8, text_or_none};
ghost use Rattle.objects.specs.linking.Each.{each};
ghost use Rattle.objects.specs.linking.Decoding.{ops_of as all_ops, catch_of as one_catch};
ghost use Rattle.objects.specs.linking.Linking.{method_with, coded_body as body_of_code, body_of as body_of_method, no_body as without_code, shaped as meaning_by_signature, method_of as meaning_of, receiver_types, parameter_types, result_type, dispatch_of};
ghost use Rattle.hierarchy.specs.Built.{Builds};
ghost use Rattle.linking.specs.Bodies.{body_of as body_form};

use crate::entries::entries_of;
use crate::meaning::ops_of;
use crate::shape::shape_of;
use crate::symbols::Symbols;
use const_pool::{Descriptor, Member};
use hierarchy::code::Coded;
use hierarchy::numbered::Numbered;
use hierarchy::symbols::{name_of, text};
use hierarchy::{Body, BuildEnd, Method, Shape, retries_of};
use std::alloc::{AllocError, Global};

// What the code of a method means.
fn coded_body(alloc: Global, symbols: &Symbols, coded: &Coded) -> Result<Body, BuildEnd>
    ensures { Builds body_form result (body_of_code symbols.now coded.now) }
{
    let code = Numbered::new(alloc, coded.instrs.as_slice())?;
    let ops = ops_of(alloc, symbols, &code)?;
    let class = symbols.class;
    let len = coded.code.code.len();
    let handlers = coded.code.handlers.as_slice();
    let catches = entries_of(alloc, &class.pool, &code, len, handlers)?;
    Ok(Body {
        locals: coded.code.max_locals as usize,
        max_stack: coded.code.max_stack as usize,
        ops,
        catches,
    })
}

// What stands for code that a method has none of, whose parameters have so many places.
fn no_body(alloc: Global, places: usize) -> Body
    ensures { body_form result ≡ without_code places }
{
    Body {
        locals: places,
        max_stack: 0,
        ops: Vec::new(alloc),
        catches: Vec::new(alloc),
    }
}

// What a method's code means, if it has some.
fn body_of(
    alloc: Global,
    symbols: &Symbols,
    places: usize,
    coded: &Option<Coded>,
) -> Result<Body, BuildEnd>
    ensures { Builds body_form result (body_of_method symbols.now places coded.now) }
{
    match coded {
        Some(code) => coded_body(alloc, symbols, code),
        None => Ok(no_body(alloc, places)),
    }
}

// A method of this shape and this code.
fn make_method(
    alloc: Global,
    symbols: &Symbols,
    counted: bool,
    method: &Member,
    shape: Shape,
    body: Body,
) -> Result<Method, AllocError>
    requires dispatch { shape.dispatch ≡ dispatch_of symbols.now.class method.now }
    ensures { IfOk result (λ m. (g : Signature) → shape.parameters.items ≡ receiver_types symbols.now.classes symbols.now.class method.now ++ parameter_types symbols.now.classes g → shape.result ≡ result_type symbols.now.classes g → m ≡ method_with symbols.now counted method.now g (body_form body)) }
{
    let class = symbols.class;
    let name = name_of(alloc, class, method)?;
    let retries = retries_of(&class.pool, method);
    Ok(Method::new(name, shape, counted, retries, body))
}

ghost use Rattle.jmodel.specs.format.Descriptor.{Signature};

// What a method of a signature means.
fn method_by(
    alloc: Global,
    symbols: &Symbols,
    counted: bool,
    method: &Member,
    coded: &Option<Coded>,
    signature: &Descriptor,
) -> Result<Method, BuildEnd>
    ensures { Builds (λ m. m) result (meaning_by_signature symbols.now counted method.now coded.now signature.now) }
{
    let shape = shape_of(alloc, symbols, method, signature)?;
    let body = body_of(alloc, symbols, shape.parameters.len(), coded)?;
    Ok(make_method(alloc, symbols, counted, method, shape, body)?)
}

// The text of a method's descriptor in the class.
fn descriptor_of<'a>(symbols: &Symbols<'_, 'a>, method: &Member) -> &'a [u8]
    ensures { result.now ≡ text_or_none (utf8 symbols.now.class.pool method.now.descriptor) }
{
    let class = symbols.class;
    text(&class.pool, method.descriptor)
}

/// What a method of a class means, with its instructions, if it has code; its frames count or don't. NotBuilt where its descriptor can't be
/// read, or an instruction or an exception entry means nothing.
pub fn method_of(
    alloc: Global,
    symbols: &Symbols,
    counted: bool,
    method: &Member,
    coded: &Option<Coded>,
) -> Result<Method, BuildEnd>
    ensures { Builds (λ m. m) result (meaning_of symbols.now counted method.now coded.now) }
{
    match Descriptor::find(alloc, descriptor_of(symbols, method))? {
        Some(signature) => method_by(alloc, symbols, counted, method, coded, &signature),
        None => Err(BuildEnd::NotBuilt),
    }
}
