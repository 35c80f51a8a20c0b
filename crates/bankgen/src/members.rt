//! Fields, methods and classes that are made.
ghost use Rattle.std.specs.Prelude.{◌≡◌, ◌≤◌, IfOk, length};
ghost use Rattle.std.specs.List.{flat_map};
ghost use Rattle.bankgen.specs.Code.{bytes_of};
ghost use Rattle.bankgen.specs.Classes.{field as field_of, code_attribute as code_of, method as method_of, class_file as class_of};

use crate::code::{Instruction, bytes};
use const_pool::{Attribute, ClassFile, Member, Pool};
use member_code::bytes::spelled;
use std::alloc::{AllocError, Global};

/// A field, with the indexes of its name and its descriptor.
pub fn field(alloc: Global, flags: u16, name: u16, descriptor: u16) -> Member
    ensures { result ≡ field_of flags name descriptor }
{
    Member {
        flags,
        name,
        descriptor,
        attributes: Vec::new(alloc),
    }
}

/// Code without handlers, for so many places of the operand stack and of locals.
pub fn code_attribute(
    alloc: Global,
    max_stack: u16,
    max_locals: u16,
    code: &[Instruction],
) -> Result<Attribute, AllocError>
    requires { length (flat_map bytes_of code.now) ≤ 65535 }
    ensures { IfOk result (λ a. a ≡ code_of max_stack max_locals (flat_map bytes_of code.now)) }
{
    let code = bytes(alloc, code)?;
    Ok(Attribute {
        name: 9,
        bytes: spelled(alloc, max_stack, max_locals, code.as_slice(), &[])?,
    })
}

/// A method, with the indexes of its name and its descriptor.
pub fn method(flags: u16, name: u16, descriptor: u16, attributes: Vec<Attribute>) -> Member
    ensures { result ≡ method_of flags name descriptor attributes.items }
{
    Member {
        flags,
        name,
        descriptor,
        attributes,
    }
}

/// A class with one field, whose own index is 1 and whose superclass's is 3.
pub fn class_file(
    alloc: Global,
    pool: Pool,
    one: Member,
    methods: Vec<Member>,
) -> Result<ClassFile, AllocError>
    ensures { IfOk result (λ c. c ≡ class_of pool one methods.items) }
{
    Ok(ClassFile {
        minor: 0,
        major: 49,
        pool,
        flags: 0x21,
        this_class: 1,
        super_class: 3,
        interfaces: Vec::new(alloc),
        fields: vec![in alloc; one]?,
        methods,
        attributes: Vec::new(alloc),
    })
}
