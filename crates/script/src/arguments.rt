//! The arguments of calls, by the types of a method's parameters.
ghost use Rattle.std.specs.Prelude.{◌≡◌, map, option_map, option_and_then, slice_get, IfOk};
ghost use Rattle.serde_json.specs.Find.{as_null};
ghost use Rattle.jmodel.specs.declared.class_file.FieldType.TheVariants as types;
ghost use Rattle.jmodel.specs.declared.value.Value.TheVariants as values;
ghost use Rattle.jmodel.specs.format.DescriptorReading.{signature_of};
ghost use Rattle.jmodel.specs.format.Reading.{Gives};
ghost use Rattle.script.specs.Script.{as_int, as_long, as_value, types_in, value_in, values_of as values_in};
ghost use Rattle.script.specs.Seen.{seen};

use crate::members::{is_null, truth_of, whole_of};
use crate::refusals::at;
use crate::tree::Tree;
use const_pool::Descriptor;
use jmodel::{FieldType, Halt, Refusal, Value};
use std::alloc::{AllocError, Global};

/// The types of a descriptor's parameters; none, where it is no descriptor.
pub fn parameter_types(alloc: Global, descriptor: &[u8]) -> Result<Vec<FieldType>, AllocError>
    ensures { IfOk result (λ v. v.items ≡ types_in (signature_of descriptor.now)) }
{
    match Descriptor::find(alloc, descriptor)? {
        Some(found) => Ok(found.parameters),
        None => Ok(Vec::new(alloc)),
    }
}

// The whole number within these limits that a value is.
fn int_of(low: i32, high: i32, value: &Tree) -> Option<Value>
    ensures { result ≡ as_int low high (seen value.now) }
{
    let number = whole_of(value)?;
    if i64::from(low) <= number && number <= i64::from(high) {
        Some(Value::Int(number as i32))
    } else {
        None
    }
}

// A boolean is passed as 1 or 0.
fn boolean(value: &Tree) -> Option<Value>
    ensures { result ≡ as_value types.Boolean (seen value.now) }
{
    match truth_of(value)? {
        true => Some(Value::Int(1)),
        false => Some(Value::Int(0)),
    }
}

fn long(value: &Tree) -> Option<Value>
    ensures { result ≡ as_long (seen value.now) }
{
    let number = whole_of(value)?;
    Some(Value::Long(number))
}

// The one reference that a script may pass is null.
fn reference(value: &Tree) -> Option<Value>
    ensures { result ≡ option_map (λ u. values.Ref 0) (as_null (seen value.now)) }
{
    if is_null(value) {
        Some(Value::Ref(0))
    } else {
        None
    }
}

// What a value is for a parameter of a type.
fn value_of(parameter: &FieldType, value: &Tree) -> Option<Value>
    ensures { result ≡ as_value parameter.now (seen value.now) }
{
    match parameter {
        FieldType::Boolean => boolean(value),
        FieldType::Byte => int_of(-128, 127, value),
        FieldType::Char => int_of(0, 65_535, value),
        FieldType::Short => int_of(-32_768, 32_767, value),
        FieldType::Int => int_of(i32::MIN, i32::MAX, value),
        FieldType::Long => long(value),
        FieldType::Float | FieldType::Double => None,
        FieldType::Reference(_) => reference(value),
    }
}

// What a value is for the parameter of a number, if there is one.
fn value_at(parameters: &[FieldType], index: usize, value: &Tree) -> Option<Value>
    ensures { result ≡ option_and_then (λ t. as_value t (seen value.now)) (slice_get parameters.now index) }
{
    value_of(parameters.get(index)?, value)
}

// The argument of a number, which stands in the list at a path.
fn argument_at(
    alloc: Global,
    parameters: &[FieldType],
    path: &[u8],
    index: usize,
    value: &Tree,
) -> Result<Value, Halt>
    ensures { Gives (λ v. v) result (value_in parameters.now path.now index (seen value.now)) }
{
    match value_at(parameters, index, value) {
        Some(argument) => Ok(argument),
        None => Err(Halt::Refused(Refusal::BadArgs(at(alloc, path, index)?))),
    }
}

/// The arguments that the items of a list at a path are, for parameters of these types. Refused with `BadArgs` and the path of the first
/// item that is no value of its type.
pub fn values_of(
    alloc: Global,
    parameters: &[FieldType],
    path: &[u8],
    values: &[Tree],
) -> Result<Vec<Value>, Halt>
    ensures { Gives (λ v. v.items) result (values_in parameters.now path.now (map seen values.now)) }
{
    let mut arguments = Vec::new(alloc);
    for (index, value) in values.iter().enumerate() {
        arguments.push(argument_at(alloc, parameters, path, index, value)?)?;
    }
    Ok(arguments)
}
