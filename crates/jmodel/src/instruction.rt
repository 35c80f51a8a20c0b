//! Instructions as they lie in the code of a method (JVM Specification, Java SE 7, chapter 6). Places in code are counted in
//! bytes, from 0.
ghost use Rattle.std.specs.Prelude.{◌≡◌, IfOk};

use std::alloc::{AllocError, Global};
use std::marker::Model;

/// Which entries of the pool an instruction takes.
#[derive(Clone, Copy)]
pub enum EntryKind {
    /// An Integer, a Float, a String or a Class.
    Single,
    /// A Long or a Double.
    Double,
    Field,
    Method,
    InterfaceMethod,
    Class,
}

/// What stands behind an opcode.
#[derive(Clone, Copy)]
pub enum Form {
    /// Nothing.
    Plain,
    /// A signed byte.
    Byte,
    /// A signed number of two bytes.
    Short,
    /// A byte from 4 to 11, the type of an array's elements.
    ArrayType,
    /// A byte, a local's number.
    Local,
    /// A local's number and a signed byte.
    Increment,
    /// A byte, an index of the pool.
    ShortEntry(EntryKind),
    /// An index of the pool of two bytes.
    Entry(EntryKind),
    /// An index, a byte that counts the places of the arguments with the receiver, and a byte 0.
    Interface,
    /// An index and a byte from 1 up.
    Dimensions,
    /// A signed distance of two bytes.
    Jump,
    /// A signed distance of four bytes.
    FarJump,
    /// Padding, a distance, the lowest and the highest key, and a distance for each key.
    Table,
    /// Padding, a distance, a count, and as many pairs of a key and a distance.
    Lookup,
    /// The opcode of an instruction with a local, whose operands have two bytes each.
    Wide,
}

/// The targets of a table of jumps.
#[derive(Debug, Drop)]
pub struct Targets {
    items: Vec<u16>,
}

impl Model for Targets {
    ghost use Rattle.std.specs.Prelude.{ℕ, List};

    ghost Value = { List ℕ };

    ghost view = { λ t. t.items.items };
}

impl Targets {
    /// A copy, on the given allocator.
    pub fn copy(&self, alloc: Global) -> Result<Self, AllocError>
        ensures { IfOk result (λ t. t ≡ self.now) }
    {
        Ok(Targets {
            items: Vec::from_slice(alloc, self.as_slice())?,
        })
    }

    /// The targets of a vector, which is not copied.
    pub fn from_vec(items: Vec<u16>) -> Self
        ensures { result ≡ items.items }
    {
        Targets { items }
    }

    /// The targets as a slice.
    pub fn as_slice(&self) -> &[u16]
        ensures { result.now ≡ self.now }
    {
        self.items.as_slice()
    }
}

/// The keys of a switch, each with its target.
#[derive(Debug, Drop)]
pub struct Pairs {
    items: Vec<(i32, u16)>,
}

impl Model for Pairs {
    ghost use Rattle.std.specs.Prelude.{ℕ, ℤ, List};

    ghost Value = { List (ℤ × ℕ) };

    ghost view = { λ p. p.items.items };
}

impl Pairs {
    /// A copy, on the given allocator.
    pub fn copy(&self, alloc: Global) -> Result<Self, AllocError>
        ensures { IfOk result (λ p. p ≡ self.now) }
    {
        Ok(Pairs {
            items: Vec::from_slice(alloc, self.as_slice())?,
        })
    }

    /// The pairs of a vector, which is not copied.
    pub fn from_vec(items: Vec<(i32, u16)>) -> Self
        ensures { result ≡ items.items }
    {
        Pairs { items }
    }

    /// The pairs as a slice.
    pub fn as_slice(&self) -> &[(i32, u16)]
        ensures { result.now ≡ self.now }
    {
        self.items.as_slice()
    }
}

/// The operands of an instruction. Targets are places in the code.
#[derive(Debug, Drop)]
pub enum Operands {
    Nothing,
    /// Of bipush, sipush and newarray.
    Number(i32),
    Local(u16),
    /// A local, and what iinc adds to it.
    LocalAdd(u16, i16),
    /// An index of the pool.
    Pool(u16),
    /// Of invokeinterface; `count` has the places of the arguments with the receiver.
    Interface {
        index: u16,
        count: u8,
    },
    /// Of multianewarray.
    Dimensions {
        index: u16,
        count: u8,
    },
    Target(u16),
    /// Of tableswitch: a target for each key from `low` on, and one for any other.
    Table {
        other: u16,
        low: i32,
        targets: Targets,
    },
    /// Of lookupswitch.
    Lookup {
        other: u16,
        pairs: Pairs,
    },
    /// Of wide: an instruction with a local, and what it adds, 0 where it isn't iinc.
    Wide {
        op: u8,
        local: u16,
        add: i16,
    },
}

impl Operands {
    /// A copy, on the given allocator.
    pub fn copy(&self, alloc: Global) -> Result<Self, AllocError>
        ensures { IfOk result (λ o. o ≡ self.now) }
    {
        match self {
            Operands::Nothing => Ok(Operands::Nothing),
            Operands::Number(n) => Ok(Operands::Number(*n)),
            Operands::Local(local) => Ok(Operands::Local(*local)),
            Operands::LocalAdd(local, add) => Ok(Operands::LocalAdd(*local, *add)),
            Operands::Pool(index) => Ok(Operands::Pool(*index)),
            Operands::Interface { index, count } => Ok(Operands::Interface {
                index: *index,
                count: *count,
            }),
            Operands::Dimensions { index, count } => Ok(Operands::Dimensions {
                index: *index,
                count: *count,
            }),
            Operands::Target(target) => Ok(Operands::Target(*target)),
            Operands::Table {
                other,
                low,
                targets,
            } => Ok(Operands::Table {
                other: *other,
                low: *low,
                targets: targets.copy(alloc)?,
            }),
            Operands::Lookup { other, pairs } => Ok(Operands::Lookup {
                other: *other,
                pairs: pairs.copy(alloc)?,
            }),
            Operands::Wide { op, local, add } => Ok(Operands::Wide {
                op: *op,
                local: *local,
                add: *add,
            }),
        }
    }
}

/// An instruction, at a place in the code.
#[derive(Debug, Drop)]
pub struct Instr {
    pub pc: u16,
    pub op: u8,
    pub operands: Operands,
}

impl Instr {
    /// A copy, on the given allocator.
    pub fn copy(&self, alloc: Global) -> Result<Self, AllocError>
        ensures { IfOk result (λ i. i ≡ self.now) }
    {
        Ok(Instr {
            pc: self.pc,
            op: self.op,
            operands: self.operands.copy(alloc)?,
        })
    }
}
