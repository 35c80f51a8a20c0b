//! A law of the bank's classes: what their indexes mean.
ghost use Rattle.bankgen.specs.BankLaw.{BankLaw};

/// The indexes that the code of the classes names mean what it says there, and `transfer` and `total` are marked.
pub fn bank_law()
    ensures { BankLaw }
{}
