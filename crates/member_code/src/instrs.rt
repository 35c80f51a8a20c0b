//! Instructions that are added, each in its shortest form. Where one stands is found when the code is laid.
ghost use Rattle.std.specs.Prelude.{◌≡◌, ◌<◌, FitsSigned};
ghost use Rattle.std.specs.Int.{w16};
ghost use Rattle.member_code.specs.Instrs.{instr as instr_of, plain as plain_of, naming as naming_of, jump as jump_of, local_instr as local_of, load as load_of, store as store_of, increment as increment_of, give as give_of, get_static as get_static_of, get_field as get_field_of, call_virtual as call_virtual_of, call_special as call_special_of, call_static as call_static_of, call_interface as call_interface_of, check_cast as check_cast_of};

use bytecode::{Instr, Operands, opcodes};
use objects::op::Sort;

fn instr(op: u8, operands: Operands) -> Instr
    ensures { result ≡ instr_of op operands }
{
    Instr {
        pc: 0,
        op,
        operands,
    }
}

/// One without operands.
pub fn plain(op: u8) -> Instr
    ensures { result ≡ plain_of op }
{
    instr(op, Operands::Nothing)
}

/// One that names an entry of the pool.
pub fn naming(op: u8, index: u16) -> Instr
    ensures { result ≡ naming_of op index }
{
    instr(op, Operands::Pool(index))
}

/// A jump to a block.
pub fn jump(op: u8, to: u16) -> Instr
    ensures { result ≡ jump_of op to }
{
    instr(op, Operands::Target(to))
}

// A load or a store: its opcode, and that of local 0 without operands.
fn local_instr(op: u8, short: u8, local: u16) -> Instr
    requires { short < 200 }
    ensures { result ≡ local_of op short local }
{
    if local < 4 {
        plain(short + local as u8)
    } else if local < 256 {
        instr(op, Operands::Local(local))
    } else {
        let wide = Operands::Wide { op, local, add: 0 };
        instr(opcodes::WIDE, wide)
    }
}

/// iload, lload or aload.
pub fn load(sort: Sort, local: u16) -> Instr
    ensures { result ≡ load_of sort local }
{
    match sort {
        Sort::Int => local_instr(opcodes::ILOAD, opcodes::ILOAD_0, local),
        Sort::Long => local_instr(opcodes::LLOAD, opcodes::LLOAD_0, local),
        Sort::Reference => local_instr(opcodes::ALOAD, opcodes::ALOAD_0, local),
    }
}

/// istore, lstore or astore.
pub fn store(sort: Sort, local: u16) -> Instr
    ensures { result ≡ store_of sort local }
{
    match sort {
        Sort::Int => local_instr(opcodes::ISTORE, opcodes::ISTORE_0, local),
        Sort::Long => local_instr(opcodes::LSTORE, opcodes::LSTORE_0, local),
        Sort::Reference => local_instr(opcodes::ASTORE, opcodes::ASTORE_0, local),
    }
}

/// iinc.
pub fn increment(local: u16, add: i32) -> Instr
    requires { FitsSigned w16 add }
    ensures { result ≡ increment_of local add }
{
    if local < 256 && -128 <= add && add <= 127 {
        instr(opcodes::IINC, Operands::LocalAdd(local, add as i16))
    } else {
        let wide = Operands::Wide {
            op: opcodes::IINC,
            local,
            add: add as i16,
        };
        instr(opcodes::WIDE, wide)
    }
}

/// ireturn, lreturn or areturn.
pub fn give(sort: Sort) -> Instr
    ensures { result ≡ give_of sort }
{
    match sort {
        Sort::Int => plain(opcodes::IRETURN),
        Sort::Long => plain(opcodes::LRETURN),
        Sort::Reference => plain(opcodes::ARETURN),
    }
}

/// getstatic.
pub fn get_static(field: u16) -> Instr
    ensures { result ≡ get_static_of field }
{
    naming(opcodes::GETSTATIC, field)
}

/// getfield.
pub fn get_field(field: u16) -> Instr
    ensures { result ≡ get_field_of field }
{
    naming(opcodes::GETFIELD, field)
}

/// invokevirtual.
pub fn call_virtual(method: u16) -> Instr
    ensures { result ≡ call_virtual_of method }
{
    naming(opcodes::INVOKEVIRTUAL, method)
}

/// invokespecial.
pub fn call_special(method: u16) -> Instr
    ensures { result ≡ call_special_of method }
{
    naming(opcodes::INVOKESPECIAL, method)
}

/// invokestatic.
pub fn call_static(method: u16) -> Instr
    ensures { result ≡ call_static_of method }
{
    naming(opcodes::INVOKESTATIC, method)
}

/// invokeinterface, with its count of argument places.
pub fn call_interface(method: u16, count: u8) -> Instr
    ensures { result ≡ call_interface_of method count }
{
    let operands = Operands::Interface {
        index: method,
        count,
    };
    instr(opcodes::INVOKEINTERFACE, operands)
}

/// checkcast.
pub fn check_cast(class: u16) -> Instr
    ensures { result ≡ check_cast_of class }
{
    naming(opcodes::CHECKCAST, class)
}
