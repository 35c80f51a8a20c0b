//! The class of the bank.
ghost use Rattle.std.specs.Prelude.{◌≡◌, IfOk};
ghost use Rattle.bankgen.specs.Classes.{bank_pool as pool_of_bank, atomic_attribute as atomic_of, clinit_method, transfer_method, total_method, bank as bank_of};

use crate::code::Instruction::{Byte, Increment, Plain, Short};
use crate::entries::{Entry, pool_of};
use crate::members::{class_file, code_attribute, field, method};
use bytecode::opcodes;
use const_pool::{Attribute, ClassFile, Member, Pool};
use jmodel::Bytes;
use std::alloc::{AllocError, Global};

// Indexes of the pool.
const ACCOUNT: u16 = 10;

const ALL: u16 = 12;

const ACCOUNT_INIT: u16 = 14;

const GET: u16 = 20;

const ADD: u16 = 24;

fn bank_pool(alloc: Global) -> Result<Pool, AllocError>
    ensures { IfOk result (λ p. p ≡ pool_of_bank) }
{
    pool_of(
        alloc,
        &[
            Entry::Class(2),
            Entry::Text(b"Bank"),
            Entry::Class(4),
            Entry::Text(b"java/lang/Object"),
            Entry::Text(b"all"),
            Entry::Text(b"[LAccount;"),
            Entry::Text(b"<clinit>"),
            Entry::Text(b"()V"),
            Entry::Text(b"Code"),
            Entry::Class(11),
            Entry::Text(b"Account"),
            Entry::Field(1, 13),
            Entry::NameAndType(5, 6),
            Entry::Method(10, 15),
            Entry::NameAndType(16, 17),
            Entry::Text(b"<init>"),
            Entry::Text(b"(I)V"),
            Entry::Text(b"transfer"),
            Entry::Text(b"(III)I"),
            Entry::Method(10, 21),
            Entry::NameAndType(22, 23),
            Entry::Text(b"get"),
            Entry::Text(b"()I"),
            Entry::Method(10, 25),
            Entry::NameAndType(26, 17),
            Entry::Text(b"add"),
            Entry::Text(b"RuntimeVisibleAnnotations"),
            Entry::Text(b"Lorg/deuce/Atomic;"),
            Entry::Text(b"total"),
        ],
    )
}

// Makes the accounts, so many.
fn clinit(alloc: Global, accounts: u16) -> Result<Member, AllocError>
    ensures { IfOk result (λ m. m ≡ clinit_method accounts) }
{
    let code = [
        Short(opcodes::SIPUSH, accounts),
        Short(opcodes::ANEWARRAY, ACCOUNT),
        Short(opcodes::PUTSTATIC, ALL),
        Plain(opcodes::ICONST_0),
        Plain(opcodes::ISTORE_0),
        Plain(opcodes::ILOAD_0),
        Short(opcodes::SIPUSH, accounts),
        Short(opcodes::IF_ICMPGE, 23),
        Short(opcodes::GETSTATIC, ALL),
        Plain(opcodes::ILOAD_0),
        Short(opcodes::NEW, ACCOUNT),
        Plain(opcodes::DUP),
        Byte(opcodes::BIPUSH, 100),
        Short(opcodes::INVOKESPECIAL, ACCOUNT_INIT),
        Plain(opcodes::AASTORE),
        Increment(0, 1),
        Short(opcodes::GOTO, 0xffe8),
        Plain(opcodes::RETURN),
    ];
    let code = code_attribute(alloc, 5, 1, &code)?;
    Ok(method(8, 7, 8, vec![in alloc; code]?))
}

// The mark, an annotation without values.
fn atomic_attribute(alloc: Global) -> Result<Attribute, AllocError>
    ensures { IfOk result (λ a. a ≡ atomic_of) }
{
    Ok(Attribute {
        name: 27,
        bytes: Bytes::from_slice(alloc, &[0, 1, 0, 28, 0, 0])?,
    })
}

fn transfer(alloc: Global) -> Result<Member, AllocError>
    ensures { IfOk result (λ m. m ≡ transfer_method) }
{
    let code = [
        Short(opcodes::GETSTATIC, ALL),
        Plain(opcodes::ILOAD_0),
        Plain(opcodes::AALOAD),
        Short(opcodes::INVOKEVIRTUAL, GET),
        Plain(opcodes::ILOAD_2),
        Short(opcodes::IF_ICMPLT, 24),
        Short(opcodes::GETSTATIC, ALL),
        Plain(opcodes::ILOAD_0),
        Plain(opcodes::AALOAD),
        Plain(opcodes::ILOAD_2),
        Plain(opcodes::INEG),
        Short(opcodes::INVOKEVIRTUAL, ADD),
        Short(opcodes::GETSTATIC, ALL),
        Plain(opcodes::ILOAD_1),
        Plain(opcodes::AALOAD),
        Plain(opcodes::ILOAD_2),
        Short(opcodes::INVOKEVIRTUAL, ADD),
        Plain(opcodes::ICONST_1),
        Plain(opcodes::IRETURN),
        Plain(opcodes::ICONST_0),
        Plain(opcodes::IRETURN),
    ];
    let code = code_attribute(alloc, 2, 3, &code)?;
    let mark = atomic_attribute(alloc)?;
    Ok(method(9, 18, 19, vec![in alloc; code, mark]?))
}

fn total(alloc: Global) -> Result<Member, AllocError>
    ensures { IfOk result (λ m. m ≡ total_method) }
{
    let code = [
        Plain(opcodes::ICONST_0),
        Plain(opcodes::ISTORE_0),
        Plain(opcodes::ICONST_0),
        Plain(opcodes::ISTORE_1),
        Plain(opcodes::ILOAD_1),
        Short(opcodes::GETSTATIC, ALL),
        Plain(opcodes::ARRAYLENGTH),
        Short(opcodes::IF_ICMPGE, 20),
        Plain(opcodes::ILOAD_0),
        Short(opcodes::GETSTATIC, ALL),
        Plain(opcodes::ILOAD_1),
        Plain(opcodes::AALOAD),
        Short(opcodes::INVOKEVIRTUAL, GET),
        Plain(opcodes::IADD),
        Plain(opcodes::ISTORE_0),
        Increment(1, 1),
        Short(opcodes::GOTO, 0xffea),
        Plain(opcodes::ILOAD_0),
        Plain(opcodes::IRETURN),
    ];
    let code = code_attribute(alloc, 3, 2, &code)?;
    let mark = atomic_attribute(alloc)?;
    Ok(method(9, 29, 23, vec![in alloc; code, mark]?))
}

/// Bank, which has so many accounts.
pub fn bank_file(alloc: Global, accounts: u16) -> Result<ClassFile, AllocError>
    ensures { IfOk result (λ c. c ≡ bank_of accounts) }
{
    let pool = bank_pool(alloc)?;
    let methods = vec![in alloc; clinit(alloc, accounts)?, transfer(alloc)?, total(alloc)?]?;
    class_file(alloc, pool, field(alloc, 8, 5, 6), methods)
}
