//! The array types that methods make (JVM Specification, Java SE 7, section 6.5, anewarray).
ghost use Rattle.std.specs.Prelude.{◌≡◌, ◌++◌, map, filter, option_map, option_copied, IfOk, OnOk};
ghost use Rattle.std.specs.List.{flat_map};
ghost use Rattle.objects.specs.linking.Code.{decoded as decoded_of};
ghost use Rattle.objects.specs.linking.Classes.{Declared as DeclaredForm, methods_in as methods_of_classes};
ghost use Rattle.objects.specs.linking.Taken.{is_taken};
ghost use Rattle.objects.specs.linking.Layout.{array_over as array_of, some_array, made_by as made_by_instr, made_in as made_in_code, made_arrays as arrays_made, in_text_order as sorted_texts};
ghost use Rattle.heap_layout.specs.Made.{method_makes, methods_make};

use crate::library_rows::copies;
use crate::text::push_descriptor;
use crate::texts::in_text_order;
use bytecode::opcodes;
use const_pool::{ClassFile, Pool};
use hierarchy::code::decoded_or_none;
use hierarchy::declared::{Declared, methods_in};
use hierarchy::taken::{are_taken_among, index_of, taken_among};
use jmodel::{Bytes, Instr, NoMemory};
use std::alloc::{AllocError, Global};

// The array type over the class or the array of a name.
fn array_over(alloc: Global, name: &[u8]) -> Result<Bytes, AllocError>
    ensures { IfOk result (λ b. b ≡ array_of name.now) }
{
    let mut bytes = Bytes::new(alloc);
    bytes.push(91)?;
    push_descriptor(&mut bytes, name)?;
    Ok(bytes)
}

// The class or the array that anewarray of an instruction names.
fn element_of<'a>(pool: &'a Pool, i: &Instr) -> Option<&'a Bytes>
    ensures { some_array (option_copied result) ≡ made_by_instr pool.now i.now }
{
    if i.op != opcodes::ANEWARRAY {
        return None;
    }
    pool.class_name(index_of(&i.operands)?)
}

// Puts the array types that instructions make at the end.
fn push_made(
    alloc: Global,
    pool: &Pool,
    instrs: &[Instr],
    arrays: &mut Vec<Bytes>,
) -> Result<(), AllocError>
    ensures { OnOk result (arrays.new.items ≡ arrays.old.items ++ flat_map (made_by_instr pool.now) instrs.now) }
{
    for i in instrs {
        if let Some(name) = element_of(pool, i) {
            arrays.push(array_over(alloc, name.as_slice())?)?;
        }
    }
    Ok(())
}

// Puts the array types that a method's code makes at the end: code with a fault makes none.
fn push_made_by(alloc: Global, method: &Declared, arrays: &mut Vec<Bytes>) -> Result<(), NoMemory>
    ensures { OnOk result (arrays.new.items ≡ arrays.old.items ++ method_makes method.now) }
{
    let class = method.class;
    match decoded_or_none(alloc, class, method.member)? {
        Some(coded) => Ok(push_made(alloc, &class.pool, coded.instrs.as_slice(), arrays)?),
        None => Ok(()),
    }
}

// The array types that methods make, method by method.
fn all_made(alloc: Global, methods: &[&Declared]) -> Result<Vec<Bytes>, NoMemory>
    ensures { IfOk result (λ v. v.items ≡ methods_make (map (λ m. m.now) methods.now)) }
{
    let mut arrays = Vec::new(alloc);
    for method in methods {
        push_made_by(alloc, method, &mut arrays)?;
    }
    Ok(arrays)
}

// Texts in byte order, each once.
fn sorted(alloc: Global, texts: &[Bytes]) -> Result<Vec<Bytes>, NoMemory>
    ensures { IfOk result (λ v. v.items ≡ sorted_texts texts.now) }
{
    let mut slices = Vec::new(alloc);
    for text in texts {
        slices.push(text.as_slice())?;
    }
    let ordered = in_text_order(alloc, slices.as_slice())?;
    Ok(copies(alloc, ordered.as_slice())?)
}

/// The array types that the taken methods of classes make by anewarray, in byte order, each once.
pub fn made_arrays(alloc: Global, classes: &[&ClassFile]) -> Result<Vec<Bytes>, NoMemory>
    ensures { IfOk result (λ v. v.items ≡ arrays_made (map (λ c. c.now) classes.now)) }
{
    let methods = methods_in(alloc, classes)?;
    let taken = are_taken_among(alloc, methods.as_slice())?;
    let chosen = taken_among(alloc, methods.as_slice(), taken.as_slice())?;
    let arrays = all_made(alloc, chosen.as_slice())?;
    Ok(sorted(alloc, arrays.as_slice())?)
}
