//! The code of methods, with its instructions.
ghost use Rattle.std.specs.Prelude.{◌≡◌, ◌≤◌, [], length, IfOk, IfSome};
ghost use Rattle.jmodel.specs.format.Instruction.{SpellsInstrs};
ghost use Rattle.jmodel.specs.format.Reading.{Gives, IsReadOrNone};
ghost use Rattle.jmodel.specs.declared.refusal.Halt.TheVariants as halts;
ghost use Rattle.jmodel.specs.format.Name.{printed as printed_name};
ghost use Rattle.objects.specs.linking.Members.{name_of as method_name};
ghost use Rattle.objects.specs.linking.Code.{code_in as code_of_member, in_method as named, decoded_code as decoded_of_code, decoded as decoded_of};

use crate::symbols::{find_attribute, name_of};
use bytecode::decode;
use const_pool::{ClassFile, Code, Member, Pool};
use jmodel::{Bytes, Halt, Instr, NoMemory, Refusal, unless_refused};
use std::alloc::{AllocError, Global};
use std::marker::Model;

/// The Code of a method with its instructions, of which each switch has keys that ascend.
pub struct Coded {
    pub code: Code,
    pub instrs: Vec<Instr>,
}

impl Drop for Coded {
    fn drop(self) {
        let Self { code: _, instrs: _ } = self;
    }
}

impl Model for Coded {
    ghost use Rattle.objects.specs.linking.Code.{Coded as Form};
    ghost use Rattle.hierarchy.specs.Switches.{AreSwitches};

    ghost Value = { Form };

    ghost view = { λ k. record { code = k.code; instrs = k.instrs.items } };

    ghost invariant = { λ k. AreSwitches k.instrs.items };
}

// The Code of a method, None where it has none in the form.
fn code_in(alloc: Global, pool: &Pool, method: &Member) -> Result<Option<Code>, NoMemory>
    ensures exact { IfOk result (λ k. k ≡ code_of_member pool.now method.now) }
    ensures short { IfOk result (λ k. IfSome k (λ c. length c.code ≤ 65535)) }
{
    let Some(found) = find_attribute(pool, b"Code", method.attributes.as_slice()) else {
        return Ok(None);
    };
    match Code::read(alloc, pool, found.bytes.as_slice()) {
        Some(code) => Ok(Some(code?)),
        None => Ok(None),
    }
}

fn bad_code(alloc: Global) -> Halt
    ensures { result ≡ halts.Refused (BadCode []) }
{
    Halt::Refused(Refusal::BadCode(Bytes::new(alloc)))
}

ghost use Rattle.jmodel.specs.declared.refusal.Refusal.TheVariants.{BadCode};

#[tactic(auto, using(crate::proofs::Switching::spelled_switches))]
fn decoded_code(alloc: Global, pool: &Pool, method: &Member) -> Result<Coded, Halt>
    ensures gives { Gives (λ k. k) result (decoded_of_code pool.now (code_of_member pool.now method.now)) }
    ensures spelled { IfOk result (λ k. SpellsInstrs pool.now k.code.handlers k.code.code k.instrs) }
{
    let Some(code) = code_in(alloc, pool, method)? else {
        return Err(bad_code(alloc));
    };
    let instrs = decode(alloc, pool, &code.code, code.handlers.as_slice())?;
    Ok(Coded { code, instrs })
}

/// The printed name of a method.
pub fn printed(alloc: Global, class: &ClassFile, method: &Member) -> Result<Bytes, AllocError>
    ensures { IfOk result (λ b. b ≡ printed_name (method_name class.now method.now)) }
{
    let name = name_of(alloc, class, method)?;
    name.printed(alloc)
}

// The fault of code, in this method.
fn in_method(
    alloc: Global,
    class: &ClassFile,
    method: &Member,
    fault: Refusal,
) -> Result<Refusal, AllocError>
    ensures { IfOk result (λ r. r ≡ named (method_name class.now method.now) fault) }
{
    match fault {
        Refusal::BadInstr(.., pc) => Ok(Refusal::BadInstr(printed(alloc, class, method)?, pc)),
        Refusal::BadTarget(.., pc) => Ok(Refusal::BadTarget(printed(alloc, class, method)?, pc)),
        other => Ok(other),
    }
}

/// The Code of a method with its instructions, which the code spells, or the first fault of its instructions.
pub fn decoded(alloc: Global, class: &ClassFile, method: &Member) -> Result<Coded, Halt>
    ensures gives { Gives (λ k. k) result (decoded_of class.now method.now) }
    ensures spelled { IfOk result (λ k. SpellsInstrs class.now.pool k.code.handlers k.code.code k.instrs) }
{
    match decoded_code(alloc, &class.pool, method) {
        Ok(coded) => Ok(coded),
        Err(Halt::NoMemory) => Err(Halt::NoMemory),
        Err(Halt::Refused(fault)) => { Err(Halt::Refused(in_method(alloc, class, method, fault)?)) }
    }
}

/// The Code of a method with its instructions, None where it has no Code in the form or one of its instructions has a fault.
pub fn decoded_or_none(
    alloc: Global,
    class: &ClassFile,
    method: &Member,
) -> Result<Option<Coded>, NoMemory>
    ensures { IfOk result (λ o. IsReadOrNone o (decoded_of class.now method.now)) }
{
    unless_refused(decoded(alloc, class, method))
}
