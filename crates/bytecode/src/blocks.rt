//! Blocks of instructions, from which new code is made.
ghost use Rattle.std.specs.Prelude.{◌≡◌};

use jmodel::Instr;
use std::marker::Model;

/// What stands in place of the instruction at a pc of older code. The targets of its instructions are places there; their own
/// pcs say nothing.
#[derive(Drop)]
pub struct Block {
    pub pc: u16,
    pub instrs: Vec<Instr>,
}

impl Model for Block {
    ghost use Rattle.jmodel.specs.format.Relocation.{Block as Form};

    ghost Value = { Form };

    ghost view = { λ b. record { pc = b.pc; instrs = b.instrs.items } };
}

impl Block {
    /// The pc of the instruction that it stands for.
    pub fn pc(&self) -> u16
        ensures { result ≡ self.now.pc }
    {
        self.pc
    }

    /// Its instructions, in order.
    pub fn instrs(&self) -> &[Instr]
        ensures { result.now ≡ self.now.instrs }
    {
        self.instrs.as_slice()
    }
}
