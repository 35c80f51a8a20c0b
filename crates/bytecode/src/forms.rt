//! The table of opcodes.
ghost use Rattle.std.specs.Prelude.{◌≡◌};
ghost use Rattle.jmodel.specs.format.Instruction.{form_of as form};

use crate::opcodes;
use jmodel::{EntryKind, Form};

/// What stands behind an opcode, None where there is no such opcode.
pub fn form_of(op: u8) -> Option<Form>
    ensures { result ≡ form op }
{
    let form = match op {
        opcodes::BIPUSH => Form::Byte,
        opcodes::SIPUSH => Form::Short,
        opcodes::LDC => Form::ShortEntry(EntryKind::Single),
        opcodes::LDC_W => Form::Entry(EntryKind::Single),
        opcodes::LDC2_W => Form::Entry(EntryKind::Double),
        opcodes::ILOAD..=opcodes::ALOAD | opcodes::ISTORE..=opcodes::ASTORE | opcodes::RET =>
            Form::Local,
        opcodes::IINC => Form::Increment,
        opcodes::IFEQ..=opcodes::JSR | opcodes::IFNULL..=opcodes::IFNONNULL => Form::Jump,
        opcodes::TABLESWITCH => Form::Table,
        opcodes::LOOKUPSWITCH => Form::Lookup,
        opcodes::GETSTATIC..=opcodes::PUTFIELD => Form::Entry(EntryKind::Field),
        opcodes::INVOKEVIRTUAL..=opcodes::INVOKESTATIC => Form::Entry(EntryKind::Method),
        opcodes::INVOKEINTERFACE => Form::Interface,
        opcodes::NEW | opcodes::ANEWARRAY | opcodes::CHECKCAST..=opcodes::INSTANCEOF => {
            Form::Entry(EntryKind::Class)
        }
        opcodes::NEWARRAY => Form::ArrayType,
        opcodes::WIDE => Form::Wide,
        opcodes::MULTIANEWARRAY => Form::Dimensions,
        opcodes::GOTO_W..=opcodes::JSR_W => Form::FarJump,
        // 186 and all behind the last name nothing.
        186 | 202..=255 => return None,
        _ => Form::Plain,
    };
    Some(form)
}
