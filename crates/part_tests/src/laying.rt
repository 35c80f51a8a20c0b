ghost use Rattle.std.specs.Prelude.{◌≡◌, ◌≤◌, ◌∷◌, [], ◌++◌, length, replicate, IfOk};
ghost use Rattle.std.specs.List.{AllByRecursion};
ghost use Rattle.jmodel.specs.declared.instruction.Instr.{Instr as Item};
ghost use Rattle.jmodel.specs.declared.instruction.Operands.TheVariants as operands;
ghost use Rattle.jmodel.specs.format.Instruction.{targets_of};
ghost use Rattle.jmodel.specs.format.Relocation.{IsShaped, HasRoom, AreBlocks};

use bytecode::{Block, Instr, Operands, decode, relocate};
use const_pool::Pool;
use jmodel::{Bytes, Halt, Handler};
use std::alloc::{AllocError, Global};
use std::test::*;

// A pool of one entry.
const POOL: [u8; 6] = [0x00, 0x02, 0x01, 0x00, 0x01, 0x41];

// Code, the instruction that grows and by how many nops, and what is laid. Jumps forward and back; switches whose padding grows or shrinks; wide and
// goto_w.
const GROWN: [(&[u8], (u16, u16), &[u8]); 5] = [
    (
        b"\xa7\x00\x04\x00\xa7\xff\xfc",
        (3, 2),
        b"\xa7\x00\x06\x00\x00\x00\xa7\xff\xfa\xbf",
    ),
    (
        b"\x00\xaa\x01\x02\xff\xff\xff\xff\x00\x00\x00\x05\x00\x00\x00\x05\x00\x00\x00\x13\xb1",
        (0, 1),
        b"\x00\x00\xaa\x00\xff\xff\xff\xfe\x00\x00\x00\x05\x00\x00\x00\x05\x00\x00\x00\x12\xb1\xbf",
    ),
    (
        b"\x00\x00\xab\x00\x00\x00\x00\x12\x00\x00\x00\x01\x80\x00\x00\x00\xff\xff\xff\xfe\xb1",
        (1, 2),
        b"\x00\x00\x00\x00\xab\x00\x00\x00\x00\x00\x00\x14\x00\x00\x00\x01\x80\x00\x00\x00\xff\xff\xff\xfc\xb1\xbf",
    ),
    (
        b"\xc4\x84\x01\x2c\xfe\xd4\xc8\xff\xff\xff\xfa",
        (6, 1),
        b"\xc4\x84\x01\x2c\xfe\xd4\x00\xc8\xff\xff\xff\xf9\xbf",
    ),
    (b"\xb1", (0, 0), b"\xb1\xbf"),
];

fn plain(op: u8) -> Instr
    ensures { result ≡ record { pc = 0; op = op; operands = operands.Nothing } }
{
    Instr {
        pc: 0,
        op,
        operands: Operands::Nothing,
    }
}

// A block for an instruction, with nops before it.
fn block_of(alloc: Global, i: &Instr, nops: u16) -> Result<Block, AllocError>
    ensures pc { IfOk result (λ b. b.pc ≡ i.now.pc) }
    ensures instrs { IfOk result (λ b. b.instrs ≡ replicate nops (record { pc = 0; op = 0; operands = operands.Nothing }) ++ i.now ∷ []) }
{
    let mut instrs = Vec::new(alloc);
    for _ in 0..nops {
        instrs.push(plain(0))?;
    }
    instrs.push(i.copy(alloc)?)?;
    Ok(Block { pc: i.pc, instrs })
}

// A block for each instruction of code, in which nops stand before the one at the first number, as many as the second.
fn blocks_of(
    alloc: Global,
    code: &[u8],
    handlers: &[Handler],
    grown: (u16, u16),
    first: Option<u16>,
    stub: &[Instr],
) -> Result<Vec<Block>, Halt>
    requires short { length code.now ≤ 65535 }
    requires room { HasRoom first handlers.now }
    requires each_last { AllByRecursion IsShaped stub.now }
    requires leads_nowhere { AllByRecursion (λ (i : Item). targets_of i.operands ≡ []) stub.now }
    ensures { IfOk result (λ v. AreBlocks v.items handlers.now first stub.now) }
{
    let (pool, _) = Pool::read(alloc, &POOL, 0)?;
    let code = Bytes::from_slice(alloc, code)?;
    let instrs = decode(alloc, &pool, &code, handlers)?;
    let mut blocks = Vec::new(alloc);
    for i in &instrs {
        let nops = if i.pc == grown.0 { grown.1 } else { 0 };
        blocks.push(block_of(alloc, i, nops)?)?;
    }
    Ok(blocks)
}

// Code with more nops, and athrow behind it.
fn laid(
    alloc: Global,
    code: &[u8],
    handlers: &[Handler],
    grown: (u16, u16),
    first: Option<u16>,
) -> Result<(Bytes, Vec<Handler>), Halt>
    requires short { length code.now ≤ 65535 }
    requires room { HasRoom first handlers.now }
{
    let stub = [plain(191)];
    let blocks = blocks_of(alloc, code, handlers, grown, first, &stub)?;
    relocate(alloc, &blocks, handlers, first, &stub)
}

#[test]
fn grown_code(rt: HostRuntime) -> Result<(), Fail> {
    for (code, grown, wanted) in GROWN {
        if code.len() <= 65535 {
            let (bytes, _) = laid(rt.alloc(), code, &[], grown, None)?;
            assert_eq!(rt; bytes.as_slice(), wanted);
        }
    }
    Ok(())
}

// Entries move, the end of the code becomes that of the blocks, and the first one covers all.
#[test]
fn entries_move(rt: HostRuntime) -> Result<(), Fail> {
    let handler = Handler {
        start: 0,
        end: 5,
        handler: 4,
        catch_type: 7,
    };
    let code = b"\x10\x01\x10\x02\xb1".as_slice();
    if code.len() <= 65535 {
        let (_, moved) = laid(rt.alloc(), code, &[handler], (2, 3), Some(9))?;
        assert_eq!(rt;
            format!(in rt.alloc(); "{moved:?}")?.as_str(),
            "[Handler { start: 0, end: 8, handler: 8, catch_type: 9 }, Handler { start: 0, end: 8, handler: 7, catch_type: 7 }]"
        );
    }
    Ok(())
}
