//! The class of accounts.
ghost use Rattle.std.specs.Prelude.{◌≡◌, IfOk};
ghost use Rattle.bankgen.specs.Classes.{account_pool as pool_of_account, init_method, get_method, add_method, account as account_class};

use crate::code::Instruction::{Plain, Short};
use crate::entries::{Entry, pool_of};
use crate::members::{class_file, code_attribute, field, method};
use bytecode::opcodes;
use const_pool::{ClassFile, Member, Pool};
use std::alloc::{AllocError, Global};

// Indexes of the pool.
const OBJECT_INIT: u16 = 10;

const BALANCE: u16 = 13;

fn account_pool(alloc: Global) -> Result<Pool, AllocError>
    ensures { IfOk result (λ p. p ≡ pool_of_account) }
{
    pool_of(
        alloc,
        &[
            Entry::Class(2),
            Entry::Text(b"Account"),
            Entry::Class(4),
            Entry::Text(b"java/lang/Object"),
            Entry::Text(b"b"),
            Entry::Text(b"I"),
            Entry::Text(b"<init>"),
            Entry::Text(b"(I)V"),
            Entry::Text(b"Code"),
            Entry::Method(3, 11),
            Entry::NameAndType(7, 12),
            Entry::Text(b"()V"),
            Entry::Field(1, 14),
            Entry::NameAndType(5, 6),
            Entry::Text(b"get"),
            Entry::Text(b"()I"),
            Entry::Text(b"add"),
        ],
    )
}

fn init(alloc: Global) -> Result<Member, AllocError>
    ensures { IfOk result (λ m. m ≡ init_method) }
{
    let code = [
        Plain(opcodes::ALOAD_0),
        Short(opcodes::INVOKESPECIAL, OBJECT_INIT),
        Plain(opcodes::ALOAD_0),
        Plain(opcodes::ILOAD_1),
        Short(opcodes::PUTFIELD, BALANCE),
        Plain(opcodes::RETURN),
    ];
    let code = code_attribute(alloc, 2, 2, &code)?;
    Ok(method(1, 7, 8, vec![in alloc; code]?))
}

fn get(alloc: Global) -> Result<Member, AllocError>
    ensures { IfOk result (λ m. m ≡ get_method) }
{
    let code = [
        Plain(opcodes::ALOAD_0),
        Short(opcodes::GETFIELD, BALANCE),
        Plain(opcodes::IRETURN),
    ];
    let code = code_attribute(alloc, 1, 1, &code)?;
    Ok(method(1, 15, 16, vec![in alloc; code]?))
}

fn add(alloc: Global) -> Result<Member, AllocError>
    ensures { IfOk result (λ m. m ≡ add_method) }
{
    let code = [
        Plain(opcodes::ALOAD_0),
        Plain(opcodes::ALOAD_0),
        Short(opcodes::GETFIELD, BALANCE),
        Plain(opcodes::ILOAD_1),
        Plain(opcodes::IADD),
        Short(opcodes::PUTFIELD, BALANCE),
        Plain(opcodes::RETURN),
    ];
    let code = code_attribute(alloc, 3, 2, &code)?;
    Ok(method(1, 17, 8, vec![in alloc; code]?))
}

/// Account, whose field b holds an amount.
pub fn account_file(alloc: Global) -> Result<ClassFile, AllocError>
    ensures { IfOk result (λ c. c ≡ account_class) }
{
    let pool = account_pool(alloc)?;
    let methods = vec![in alloc; init(alloc)?, get(alloc)?, add(alloc)?]?;
    class_file(alloc, pool, field(alloc, 0, 5, 6), methods)
}
