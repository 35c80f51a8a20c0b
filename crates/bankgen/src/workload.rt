//! A workload: the classes and the script of the bank.
ghost use Rattle.std.specs.Prelude.{◌≡◌, IfOk};
ghost use Rattle.jmodel.specs.format.Reading.{Gives};
ghost use Rattle.bankgen.specs.Formed.{AreFormed};
ghost use Rattle.bankgen.specs.Workload.{classes as classes_of, within as is_within, workload as workload_of};

use crate::account_file::account_file;
use crate::bank_file::bank_file;
use crate::script::script;
use const_pool::ClassFile;
use jmodel::{Bytes, Halt, Refusal};
use std::alloc::{AllocError, Global};

/// The classes, in the order of their names, and the script that is run on them.
pub struct Workload {
    pub classes: Vec<ClassFile>,
    pub script: Bytes,
}

impl Drop for Workload {
    fn drop(self) {
        let Self {
            classes: _,
            script: _,
        } = self;
    }
}

fn classes(alloc: Global, accounts: u16) -> Result<Vec<ClassFile>, AllocError>
    ensures made { IfOk result (λ v. v.items ≡ classes_of accounts) }
    ensures formed { IfOk result (λ v. AreFormed v.items) }
{
    Ok(vec![in alloc; account_file(alloc)?, bank_file(alloc, accounts)?]?)
}

// A number is to lie within its limits.
fn within(alloc: Global, name: &[u8], low: u64, high: u64, number: u64) -> Result<(), Halt>
    ensures { Gives (λ x. x) result (is_within name.now low high number) }
{
    if low <= number && number <= high {
        return Ok(());
    }
    let name = Bytes::from_slice(alloc, name)?;
    let shown = number.min(i64::MAX as u64) as i64;
    Err(Halt::Refused(Refusal::OverLimit(name, shown)))
}

/// The classes of a bank of so many accounts, and a script with so many transfers on so many lanes, drawn from the seed,
/// and one total after them. Refused as `OverLimit` where there are not 2 to 1,000 accounts, then where there are over
/// 99,999 calls, then where there are not 1 to 16 lanes.
pub fn bank(
    alloc: Global,
    seed: u32,
    accounts: u64,
    calls: u64,
    lanes: u64,
) -> Result<Workload, Halt>
    ensures made { Gives (λ w. (w.classes.items, w.script)) result (workload_of seed accounts calls lanes) }
    ensures formed { IfOk result (λ w. AreFormed w.classes.items) }
{
    within(alloc, b"accounts", 2, 1_000, accounts)?;
    within(alloc, b"calls", 0, 99_999, calls)?;
    within(alloc, b"lanes", 1, 16, lanes)?;
    Ok(Workload {
        classes: classes(alloc, accounts as u16)?,
        script: script(alloc, seed, accounts, calls, lanes)?,
    })
}
