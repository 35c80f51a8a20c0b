//! How calls find methods, what these take and what they give (JVM Specification, Java SE 7, sections 4.3.3 and 5.4.3.3).
ghost use Rattle.std.specs.Prelude.{◌≡◌, ◌++◌, option_map, IfOk, OnOk};
ghost use Rattle.std.specs.List.{flat_map};
ghost use Rattle.jmodel.specs.declared.class_file.FieldType.{FieldType as TypeForm};
ghost use Rattle.objects.specs.typing.TypeOrder.{place_types};
ghost use Rattle.objects.specs.rewriting.Rewriting.{as_result};
ghost use Rattle.objects.specs.linking.Resolution.{is_private as private_member, is_abstract_member as abstract_member};
ghost use Rattle.objects.specs.linking.Layout.{declared_as as declared_by};
ghost use Rattle.objects.specs.linking.Linking.{is_exact as exact_member, dispatch_of as dispatch_of_member, receiver_types as types_of_receiver, parameter_types as types_of_parameters, result_type as type_of_result};

use crate::symbols::Symbols;
use const_pool::{ClassFile, Descriptor, FieldType, Member};
use heap_layout::folder::Folder;
use heap_layout::reading::declared_as;
use hierarchy::symbols::{is_static, is_text, own_name};
use hierarchy::{Declared, Shape};
use jmodel::VType;
use objects::op::{Dispatch, WordType};
use std::alloc::{AllocError, Global};

// Whether a member is private, by the flag 0002.
fn is_private(member: &Member) -> bool
    ensures { result ≡ private_member member.now }
{
    member.flags & 2 != 0
}

// Whether a member is abstract, by the flag 0400.
fn is_abstract(member: &Member) -> bool
    ensures { result ≡ abstract_member member.now }
{
    member.flags & 0x400 != 0
}

// A constructor, or a private method, which calls find by its name.
fn is_exact(class: &ClassFile, method: &Member) -> bool
    ensures { result ≡ exact_member class.now method.now }
{
    is_private(method) || is_text(class.pool.utf8(method.name), b"<init>")
}

// How calls find a method.
fn dispatch_of(class: &ClassFile, method: &Member) -> Dispatch
    ensures { result ≡ dispatch_of_member class.now method.now }
{
    if is_static(method) {
        Dispatch::Static
    } else if is_exact(class, method) {
        Dispatch::Exact
    } else if is_abstract(method) {
        Dispatch::Abstract
    } else {
        Dispatch::Virtual
    }
}

// Appends the types of the places of a parameter.
fn append_places(types: &mut Vec<VType>, declared: Declared) -> Result<(), AllocError>
    ensures { OnOk result (types.new.items ≡ types.old.items ++ place_types declared) }
{
    match declared.word {
        WordType::Long => {
            types.push(VType::Long)?;
            types.push(VType::Second)?;
        }
        WordType::Reference => types.push(VType::Ref(declared.class))?,
        _ => types.push(VType::Int)?,
    }
    Ok(())
}

// Appends the types of the places of parameters.
fn append_parameters(
    alloc: Global,
    folder: &Folder,
    types: &mut Vec<VType>,
    parameters: &[FieldType],
) -> Result<(), AllocError>
    ensures { OnOk result (types.new.items ≡ types.old.items ++ flat_map (λ (t : TypeForm). place_types (declared_by folder.now t)) parameters.now) }
{
    for t in parameters {
        append_places(types, declared_as(alloc, folder, t)?)?;
    }
    Ok(())
}

// The object comes first, unless the method is static.
fn receiver_types(
    alloc: Global,
    symbols: &Symbols,
    method: &Member,
) -> Result<Vec<VType>, AllocError>
    ensures { IfOk result (λ v. v.items ≡ types_of_receiver symbols.now.classes symbols.now.class method.now) }
{
    let mut types = Vec::new(alloc);
    if !is_static(method) {
        types.push(VType::Ref(symbols.class_read(alloc, own_name(symbols.class))?))?;
    }
    Ok(types)
}

// The types of the places of a method's parameters, the object first.
fn all_parameters(
    alloc: Global,
    symbols: &Symbols,
    method: &Member,
    signature: &Descriptor,
) -> Result<Vec<VType>, AllocError>
    ensures { IfOk result (λ v. v.items ≡ types_of_receiver symbols.now.classes symbols.now.class method.now ++ types_of_parameters symbols.now.classes signature.now) }
{
    let mut types = receiver_types(alloc, symbols, method)?;
    let names = symbols.names;
    let parameters = signature.parameters.as_slice();
    append_parameters(alloc, names.folder(), &mut types, parameters)?;
    Ok(types)
}

// A type of a value, as a method gives it.
fn result_of(declared: Declared) -> VType
    ensures { result ≡ as_result declared }
{
    match declared.word {
        WordType::Long => VType::Long,
        WordType::Reference => VType::Ref(declared.class),
        _ => VType::Int,
    }
}

// The type of what a method gives, if it gives a value.
fn result_type(
    alloc: Global,
    folder: &Folder,
    given: &Option<FieldType>,
) -> Result<Option<VType>, AllocError>
    ensures { IfOk result (λ o. o ≡ option_map (λ (t : TypeForm). as_result (declared_by folder.now t)) given.now) }
{
    match given {
        Some(t) => Ok(Some(result_of(declared_as(alloc, folder, t)?))),
        None => Ok(None),
    }
}

/// How calls find a method of a class, the types of the places of its parameters, and that of what it gives.
pub fn shape_of(
    alloc: Global,
    symbols: &Symbols,
    method: &Member,
    signature: &Descriptor,
) -> Result<Shape, AllocError>
    ensures dispatch { IfOk result (λ s. s.dispatch ≡ dispatch_of_member symbols.now.class method.now) }
    ensures parameters { IfOk result (λ s. s.parameters.items ≡ types_of_receiver symbols.now.classes symbols.now.class method.now ++ types_of_parameters symbols.now.classes signature.now) }
    ensures gives { IfOk result (λ s. s.result ≡ type_of_result symbols.now.classes signature.now) }
{
    let names = symbols.names;
    let parameters = all_parameters(alloc, symbols, method, signature)?;
    let result = result_type(alloc, names.folder(), &signature.result)?;
    Ok(Shape {
        dispatch: dispatch_of(symbols.class, method),
        parameters,
        result,
    })
}
