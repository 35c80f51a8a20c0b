//! Code that is laid, and its bytes.
ghost use Rattle.std.specs.Prelude.{◌≡◌, ◌≤◌, [], ◌∷◌, length, IfOk};
ghost use Rattle.std.specs.List.{AllByRecursion};
ghost use Rattle.jmodel.specs.declared.instruction.Instr.{Instr as Form};
ghost use Rattle.jmodel.specs.format.Name.{printed};
ghost use Rattle.jmodel.specs.format.Instruction.{targets_of};
ghost use Rattle.jmodel.specs.format.Relocation.{IsShaped, AreBlocks};
ghost use Rattle.jmodel.specs.format.Reading.{Gives};
ghost use Rattle.member_code.specs.Coding.{laid_bytes as bytes_laid, straight_bytes as bytes_of_run, fault_of as fault_in, of_method as of_this_method};

use crate::bytes::spelled;
use bytecode::{Block, Instr, relocate};
use const_pool::Handler;
use jmodel::{Bytes, Halt, MethodName, Refusal};
use std::alloc::{AllocError, Global};

/// The bytes of a Code whose code is these blocks with the stub behind them. Refused as CodeTooLarge or BranchTooFar, as
/// laying them is.
pub fn laid_bytes(
    alloc: Global,
    max_stack: u16,
    max_locals: u16,
    blocks: &[Block],
    handlers: &[Handler],
    first: Option<u16>,
    stub: &[Instr],
) -> Result<Bytes, Halt>
    requires blocks { AreBlocks blocks.now handlers.now first stub.now }
    requires few { length handlers.now ≤ 65534 }
    ensures { Gives (λ b. b) result (bytes_laid max_stack max_locals blocks.now handlers.now first stub.now) }
{
    let (code, entries) = relocate(alloc, blocks, handlers, first, stub)?;
    let code = code.as_slice();
    Ok(spelled(alloc, max_stack, max_locals, code, entries.as_slice())?)
}

/// The bytes of a Code whose code is one run of instructions without jumps.
pub fn straight_bytes(
    alloc: Global,
    max_stack: u16,
    max_locals: u16,
    instrs: Vec<Instr>,
) -> Result<Bytes, Halt>
    requires each { AllByRecursion IsShaped instrs.items }
    requires nowhere { AllByRecursion (λ (i : Form). targets_of i.operands ≡ []) instrs.items }
    ensures { Gives (λ b. b) result (bytes_of_run max_stack max_locals instrs.items) }
{
    let run = vec![in alloc; Block { pc: 0, instrs }]?;
    laid_bytes(alloc, max_stack, max_locals, run.as_slice(), &[], None, &[])
}

// The fault of a method's code, with the method's name.
fn fault_of(alloc: Global, name: &MethodName, fault: Refusal) -> Result<Refusal, AllocError>
    ensures { IfOk result (λ r. r ≡ fault_in (printed name.now) fault) }
{
    match fault {
        Refusal::CodeTooLarge(..) => Ok(Refusal::CodeTooLarge(name.printed(alloc)?)),
        Refusal::BranchTooFar(.., pc) => Ok(Refusal::BranchTooFar(name.printed(alloc)?, pc)),
        other => Ok(other),
    }
}

/// The same as `laid_bytes`, refused with the name of a method.
pub fn bytes_of_method(
    alloc: Global,
    name: &MethodName,
    max_stack: u16,
    max_locals: u16,
    blocks: &[Block],
    handlers: &[Handler],
    first: Option<u16>,
    stub: &[Instr],
) -> Result<Bytes, Halt>
    requires blocks { AreBlocks blocks.now handlers.now first stub.now }
    requires few { length handlers.now ≤ 65534 }
    ensures { Gives (λ b. b) result (of_this_method (printed name.now) (bytes_laid max_stack max_locals blocks.now handlers.now first stub.now)) }
{
    match laid_bytes(alloc, max_stack, max_locals, blocks, handlers, first, stub) {
        Ok(bytes) => Ok(bytes),
        Err(Halt::NoMemory) => Err(Halt::NoMemory),
        Err(Halt::Refused(fault)) => Err(Halt::Refused(fault_of(alloc, name, fault)?)),
    }
}
