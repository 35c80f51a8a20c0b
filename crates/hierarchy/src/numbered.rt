//! Instructions of code, with their numbers.
ghost use Rattle.std.specs.Prelude.{◌≡◌, ◌<◌, ◌^◌, ℕ, None, slice_index_or, IfOk};
ghost use Rattle.objects.specs.linking.Code.{number_at as number_in};
ghost use Rattle.hierarchy.specs.Numbers.{AreNumbers, Notes};

use jmodel::Instr;
use std::alloc::{AllocError, Global};
use std::marker::Model;

/// Instructions of code, and for each place of it the number of the first that stands there.
#[derive(Drop)]
pub struct Numbered<'a> {
    instrs: &'a [Instr],
    numbers: Vec<Option<usize>>,
}

impl<'a> Model for Numbered<'a> {
    ghost use Rattle.std.specs.Prelude.{List};
    ghost use Rattle.jmodel.specs.declared.instruction.Instr.{Instr as Form};
    ghost use Rattle.hierarchy.specs.Numbers.{AreNumbers};

    ghost Value = { List Form };

    ghost view = { λ n. n.instrs.now };

    ghost invariant = { λ n. AreNumbers n.numbers.items n.instrs.now };
}

// Notes the number at a place, where that has none yet.
fn note(numbers: &mut Vec<Option<usize>>, place: usize, number: usize) -> Result<(), AllocError>
    requires { place < 2 ^ 16 }
    ensures { IfOk result (λ _. Notes numbers.old.items numbers.new.items place number) }
{
    if numbers.len() <= place {
        numbers.resize(place + 1, None)?;
    }
    if numbers[place].is_none() {
        numbers[place] = Some(number);
    }
    Ok(())
}

fn numbers_of(alloc: Global, instrs: &[Instr]) -> Result<Vec<Option<usize>>, AllocError>
    ensures { IfOk result (λ v. AreNumbers v.items instrs.now) }
{
    let mut numbers = Vec::new(alloc);
    for (number, i) in instrs.iter().enumerate() {
        note(&mut numbers, i.pc as usize, number)?;
    }
    Ok(numbers)
}

impl<'a> Numbered<'a> {
    /// Numbers the instructions.
    pub fn new(alloc: Global, instrs: &'a [Instr]) -> Result<Self, AllocError>
        ensures { IfOk result (λ n. n ≡ instrs.now) }
    {
        let numbers = numbers_of(alloc, instrs)?;
        Ok(Numbered { instrs, numbers })
    }

    /// The instructions.
    pub fn instrs(&self) -> &'a [Instr]
        ensures { result.now ≡ self.now }
    {
        self.instrs
    }

    /// The number of the instruction at a place, if there is one.
    pub fn number_at(&self, pc: u16) -> Option<usize>
        ensures { result ≡ number_in self.now pc }
    {
        self.numbers.get(pc as usize).copied().flatten()
    }
}
