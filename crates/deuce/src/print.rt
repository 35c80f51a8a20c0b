//! The writing of the output.
ghost use Rattle.std.specs.Prelude.{◌≡◌, ℕ, OnOk, OnErr, IsErrOf, take};
ghost use Rattle.std.specs.Io.KnownBytes.{append_known};
ghost use Rattle.deuce_io.specs.Fault.{Rose};

use deuce_io::{IoEnd, Sink};

/// Writes a whole text, piece by piece. After an error a front of it was written.
pub fn print<O: Sink>(out: &mut O, text: &[u8]) -> Result<(), IoEnd>
    ensures written { OnOk result (O.written out.new ≡ append_known (O.written out.old) text.now) }
    ensures front { OnErr result ((n : ℕ) × (O.written out.new ≡ append_known (O.written out.old) (take n text.now))) }
    ensures shortage { IsErrOf result IoEnd.NoMemory → Rose (O.shortages out.old) (O.shortages out.new) }
    ensures failed { IsErrOf result IoEnd.Failed → Rose (O.faults out.old) (O.faults out.new) }
{
    let mut at = 0;
    while at < text.len() {
        let taken = out.write(&text[at..])?;
        if taken == 0 {
            return Err(IoEnd::Failed);
        }
        at += taken;
    }
    Ok(())
}
