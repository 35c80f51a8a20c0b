ghost use Rattle.std.specs.Prelude.{◌≤◌, length, IfOk};
ghost use Rattle.std.specs.List.{AllByRecursion};
ghost use Rattle.jmodel.specs.format.Instruction.{IsInstr};

use bytecode::{Instr, decode, encode};
use const_pool::Pool;
use jmodel::{Bytes, Halt, Refusal};
use std::alloc::Global;
use std::test::*;

// Index 2 is a Class, 3 an Integer, 4 a Long, 9 a Fieldref, 12 a Methodref, 15 an InterfaceMethodref with an int and a long.
const POOL: [u8; 75] = [
    0x00, 0x10, 0x01, 0x00, 0x01, 0x41, 0x07, 0x00, 0x01, 0x03, 0x00, 0x00, 0x00, 0x07, 0x05, 0x00,
    0x00, 0x00, 0x00, 0x00, 0x00, 0x00, 0x08, 0x01, 0x00, 0x01, 0x6e, 0x01, 0x00, 0x01, 0x49, 0x0c,
    0x00, 0x06, 0x00, 0x07, 0x09, 0x00, 0x02, 0x00, 0x08, 0x01, 0x00, 0x03, 0x28, 0x29, 0x56, 0x0c,
    0x00, 0x06, 0x00, 0x0a, 0x0a, 0x00, 0x02, 0x00, 0x0b, 0x01, 0x00, 0x05, 0x28, 0x49, 0x4a, 0x29,
    0x56, 0x0c, 0x00, 0x06, 0x00, 0x0d, 0x0b, 0x00, 0x02, 0x00, 0x0e,
];

// Each instruction once, in order of opcodes; jumps lead to the first.
const EACH: [u8; 352] = [
    0x00, 0x01, 0x02, 0x03, 0x04, 0x05, 0x06, 0x07, 0x08, 0x09, 0x0a, 0x0b, 0x0c, 0x0d, 0x0e, 0x0f,
    0x10, 0xfe, 0x11, 0x80, 0x01, 0x12, 0x03, 0x13, 0x00, 0x03, 0x14, 0x00, 0x04, 0x15, 0xc8, 0x16,
    0xc8, 0x17, 0xc8, 0x18, 0xc8, 0x19, 0xc8, 0x1a, 0x1b, 0x1c, 0x1d, 0x1e, 0x1f, 0x20, 0x21, 0x22,
    0x23, 0x24, 0x25, 0x26, 0x27, 0x28, 0x29, 0x2a, 0x2b, 0x2c, 0x2d, 0x2e, 0x2f, 0x30, 0x31, 0x32,
    0x33, 0x34, 0x35, 0x36, 0xc8, 0x37, 0xc8, 0x38, 0xc8, 0x39, 0xc8, 0x3a, 0xc8, 0x3b, 0x3c, 0x3d,
    0x3e, 0x3f, 0x40, 0x41, 0x42, 0x43, 0x44, 0x45, 0x46, 0x47, 0x48, 0x49, 0x4a, 0x4b, 0x4c, 0x4d,
    0x4e, 0x4f, 0x50, 0x51, 0x52, 0x53, 0x54, 0x55, 0x56, 0x57, 0x58, 0x59, 0x5a, 0x5b, 0x5c, 0x5d,
    0x5e, 0x5f, 0x60, 0x61, 0x62, 0x63, 0x64, 0x65, 0x66, 0x67, 0x68, 0x69, 0x6a, 0x6b, 0x6c, 0x6d,
    0x6e, 0x6f, 0x70, 0x71, 0x72, 0x73, 0x74, 0x75, 0x76, 0x77, 0x78, 0x79, 0x7a, 0x7b, 0x7c, 0x7d,
    0x7e, 0x7f, 0x80, 0x81, 0x82, 0x83, 0x84, 0xc8, 0xff, 0x85, 0x86, 0x87, 0x88, 0x89, 0x8a, 0x8b,
    0x8c, 0x8d, 0x8e, 0x8f, 0x90, 0x91, 0x92, 0x93, 0x94, 0x95, 0x96, 0x97, 0x98, 0x99, 0xff, 0x53,
    0x9a, 0xff, 0x50, 0x9b, 0xff, 0x4d, 0x9c, 0xff, 0x4a, 0x9d, 0xff, 0x47, 0x9e, 0xff, 0x44, 0x9f,
    0xff, 0x41, 0xa0, 0xff, 0x3e, 0xa1, 0xff, 0x3b, 0xa2, 0xff, 0x38, 0xa3, 0xff, 0x35, 0xa4, 0xff,
    0x32, 0xa5, 0xff, 0x2f, 0xa6, 0xff, 0x2c, 0xa7, 0xff, 0x29, 0xa8, 0xff, 0x26, 0xa9, 0xc8, 0xaa,
    0xff, 0xff, 0xff, 0x21, 0xff, 0xff, 0xff, 0xff, 0x00, 0x00, 0x00, 0x01, 0xff, 0xff, 0xff, 0x21,
    0x00, 0x00, 0x00, 0x00, 0xff, 0xff, 0xff, 0x22, 0xab, 0x00, 0x00, 0x00, 0x00, 0x00, 0x00, 0x00,
    0x00, 0x00, 0x00, 0x02, 0xff, 0xff, 0xff, 0xfb, 0xff, 0xff, 0xff, 0x08, 0x00, 0x00, 0x00, 0x07,
    0xff, 0xff, 0xff, 0x0a, 0xac, 0xad, 0xae, 0xaf, 0xb0, 0xb1, 0xb2, 0x00, 0x09, 0xb3, 0x00, 0x09,
    0xb4, 0x00, 0x09, 0xb5, 0x00, 0x09, 0xb6, 0x00, 0x0c, 0xb7, 0x00, 0x0c, 0xb8, 0x00, 0x0c, 0xb9,
    0x00, 0x0f, 0x04, 0x00, 0xbb, 0x00, 0x02, 0xbc, 0x0a, 0xbd, 0x00, 0x02, 0xbe, 0xbf, 0xc0, 0x00,
    0x02, 0xc1, 0x00, 0x02, 0xc2, 0xc3, 0xc4, 0x84, 0x01, 0x2c, 0xfe, 0xd4, 0xc5, 0x00, 0x02, 0x02,
    0xc6, 0xfe, 0xb0, 0xc7, 0xfe, 0xad, 0xc8, 0xff, 0xff, 0xfe, 0xaa, 0xc9, 0xff, 0xff, 0xfe, 0xa5,
];

// Some of them, by their numbers, and what is printed of them.
const SOME: [(usize, &str); 14] = [
    (16, "Instr { pc: 16, op: 16, operands: Number(-2) }"),
    (17, "Instr { pc: 18, op: 17, operands: Number(-32767) }"),
    (18, "Instr { pc: 21, op: 18, operands: Pool(3) }"),
    (20, "Instr { pc: 26, op: 20, operands: Pool(4) }"),
    (21, "Instr { pc: 29, op: 21, operands: Local(200) }"),
    (
        132,
        "Instr { pc: 150, op: 132, operands: LocalAdd(200, -1) }",
    ),
    (153, "Instr { pc: 173, op: 153, operands: Target(0) }"),
    (
        170,
        "Instr { pc: 223, op: 170, operands: Table { other: 0, low: -1, targets: Targets { items: [0, 223, 1] } } }",
    ),
    (
        171,
        "Instr { pc: 248, op: 171, operands: Lookup { other: 248, pairs: Pairs { items: [(-5, 0), (7, 2)] } } }",
    ),
    (
        185,
        "Instr { pc: 303, op: 185, operands: Interface { index: 15, count: 4 } }",
    ),
    (187, "Instr { pc: 311, op: 188, operands: Number(10) }"),
    (
        195,
        "Instr { pc: 326, op: 196, operands: Wide { op: 132, local: 300, add: -300 } }",
    ),
    (
        196,
        "Instr { pc: 332, op: 197, operands: Dimensions { index: 2, count: 2 } }",
    ),
    (199, "Instr { pc: 342, op: 200, operands: Target(0) }"),
];

// Code with a switch behind no, one, two and three other instructions, and what is written of it. Padding is free, and is written as 0.
const SWITCHES: [(&[u8], &[u8]); 5] = [
    (
        b"\xaa\x00\x00\x00\x00\x00\x00\x14\x00\x00\x00\x05\x00\x00\x00\x05\x00\x00\x00\x00\xb1",
        b"\xaa\x00\x00\x00\x00\x00\x00\x14\x00\x00\x00\x05\x00\x00\x00\x05\x00\x00\x00\x00\xb1",
    ),
    (
        b"\x00\xaa\x00\x00\xff\xff\xff\xff\x00\x00\x00\x05\x00\x00\x00\x05\x00\x00\x00\x13\xb1",
        b"\x00\xaa\x00\x00\xff\xff\xff\xff\x00\x00\x00\x05\x00\x00\x00\x05\x00\x00\x00\x13\xb1",
    ),
    (
        b"\x00\x00\xab\x00\x00\x00\x00\x12\x00\x00\x00\x01\x80\x00\x00\x00\xff\xff\xff\xfe\xb1",
        b"\x00\x00\xab\x00\x00\x00\x00\x12\x00\x00\x00\x01\x80\x00\x00\x00\xff\xff\xff\xfe\xb1",
    ),
    (
        b"\x00\x00\x00\xab\x00\x00\x00\x0d\x00\x00\x00\x00\xb1\x00\x00\x00\xb1",
        b"\x00\x00\x00\xab\x00\x00\x00\x0d\x00\x00\x00\x00\xb1\x00\x00\x00\xb1",
    ),
    (
        b"\x00\xaa\x01\x02\xff\xff\xff\xff\x00\x00\x00\x05\x00\x00\x00\x05\x00\x00\x00\x13\xb1",
        b"\x00\xaa\x00\x00\xff\xff\xff\xff\x00\x00\x00\x05\x00\x00\x00\x05\x00\x00\x00\x13\xb1",
    ),
];

// Code, and the number and the pc of its first fault.
const FAULTS: [(&[u8], u8, i64); 18] = [
    (b"\x00\xba", 13, 1),
    (b"\x00\xca", 13, 1),
    (b"\xb1\x10", 13, 1),
    (b"\xc4\x00\x00\x00", 13, 0),
    (b"\xb9\x00\x0f\x03\x00", 13, 0),
    (b"\xb9\x00\x0f\x04\x01", 13, 0),
    (b"\xbc\x03", 13, 0),
    (b"\xbc\x0c", 13, 0),
    (b"\xc5\x00\x02\x00", 13, 0),
    (b"\x12\x04", 13, 0),
    (b"\x14\x00\x03", 13, 0),
    (b"\xb8\x00\x0f", 13, 0),
    (
        b"\xaa\x00\x00\x00\x00\x00\x00\x00\x00\x00\x00\x06\x00\x00\x00\x05",
        13,
        0,
    ),
    (b"\xab\x00\x00\x00\x00\x00\x00\x00\xff\xff\xff\xff", 13, 0),
    (
        b"\xab\x00\x00\x00\x00\x00\x00\x00\x00\x00\x00\x02\x00\x00\x00\x01\x00\x00\x00\x00\x00\x00\x00\x01\x00\x00\x00\x00",
        13,
        0,
    ),
    (b"\xa7\x00\x01\x00\xba", 13, 4),
    (b"\x00\xa7\x00\x01\xb1", 14, 1),
    (b"\xa7\x80\x00\xa7\x00\x00", 14, 0),
];

fn instructions(alloc: Global, code: &[u8]) -> Result<Vec<Instr>, Halt>
    requires { length code.now ≤ 65535 }
    ensures { IfOk result (λ v. AllByRecursion IsInstr v.items) }
{
    let (pool, _) = Pool::read(alloc, &POOL, 0)?;
    let code = Bytes::from_slice(alloc, code)?;
    decode(alloc, &pool, &code, &[])
}

// The code of the instructions of code.
fn again(alloc: Global, code: &[u8]) -> Result<Bytes, Halt>
    requires { length code.now ≤ 65535 }
{
    let list = instructions(alloc, code)?;
    Ok(encode(alloc, &list)?)
}

// The first fault's number and its pc.
fn fault(alloc: Global, code: &[u8]) -> Option<(u8, i64)>
    requires { length code.now ≤ 65535 }
{
    match instructions(alloc, code) {
        Err(Halt::Refused(refusal)) => match refusal {
            Refusal::BadInstr(.., pc) => Some((13, pc)),
            Refusal::BadTarget(.., pc) => Some((14, pc)),
            _ => None,
        },
        _ => None,
    }
}

#[test]
fn each_instruction(rt: HostRuntime) -> Result<(), Fail> {
    let list = instructions(rt.alloc(), &EACH)?;
    assert_eq!(rt; list.len(), 201);
    for (at, wanted) in SOME {
        let i = list.get(at).ok_or("an instruction")?;
        assert_eq!(rt; format!(in rt.alloc(); "{i:?}")?.as_str(), wanted);
    }
    Ok(())
}

#[test]
fn each_instruction_is_written_as_it_was_read(rt: HostRuntime) -> Result<(), Fail> {
    let bytes = again(rt.alloc(), &EACH)?;
    assert!(rt; bytes.as_slice() == EACH.as_slice());
    Ok(())
}

#[test]
fn switches(rt: HostRuntime) -> Result<(), Fail> {
    for (code, wanted) in SWITCHES {
        if code.len() <= 65535 {
            let bytes = again(rt.alloc(), code)?;
            assert_eq!(rt; bytes.as_slice(), wanted);
        }
    }
    Ok(())
}

#[test]
fn first_faults(rt: HostRuntime) {
    for (code, number, pc) in FAULTS {
        if code.len() <= 65535 {
            assert_eq!(rt; fault(rt.alloc(), code), Some((number, pc)));
        }
    }
}
