//! The cases of a switch (JVM Specification, Java SE 7, section 6.5: tableswitch, lookupswitch).
ghost use Rattle.std.specs.Prelude.{◌≡◌, ◌<◌, ◌∷◌, length, map, slice_index, Some, None, true, if◌then◌else◌};
ghost use Rattle.jmodel.specs.format.Instruction.{ascend};
ghost use Rattle.objects.specs.semantics.Step.{switched};
ghost use Rattle.objects.specs.typing.Typing.{exits};

use std::marker::Model;

/// The keys of a switch, which ascend, each with the number of the instruction that it leads to.
#[derive(Drop)]
pub struct Cases {
    items: Vec<(i32, usize)>,
}

impl Model for Cases {
    ghost use Rattle.std.specs.Prelude.{◌≡◌, ℕ, ℤ, List, true};
    ghost use Rattle.jmodel.specs.format.Instruction.{ascend};

    ghost Value = { List (ℤ × ℕ) };

    ghost view = { λ c. c.items.items };

    ghost invariant = { λ c. ascend c.items.items ≡ true };
}

// Whether each key is less than the next.
fn do_ascend(items: &[(i32, usize)]) -> bool
    ensures { result ≡ ascend items.now }
{
    let mut last = None;
    for (key, _) in items {
        match last {
            Some(last) if last >= *key => return false,
            _ => last = Some(*key),
        }
    }
    true
}

impl Cases {
    /// The cases of a vector, which is not copied; None where its keys don't ascend.
    pub fn new(items: Vec<(i32, usize)>) -> Option<Self>
        ensures { result ≡ (if ascend items.items then Some items.items else None) }
    {
        if do_ascend(&items) {
            Some(Cases { items })
        } else {
            None
        }
    }

    /// The keys, each with the number of the instruction that it leads to. The keys ascend.
    pub fn as_slice(&self) -> &[(i32, usize)]
        ensures cases { result.now ≡ self.now }
        ensures ascending { ascend result.now ≡ true }
    {
        self.items.as_slice()
    }

    /// The target of the case of a key, or the other one.
    pub fn target(&self, key: i32, other: usize) -> usize
        ensures { result ≡ switched other self.now key }
    {
        match self.items.binary_search_by_key(&key, |&(k, _)| k) {
            Ok(at) => self.items[at].1,
            Err(_) => other,
        }
    }

    /// All targets, the other one first.
    pub fn exits(&self, other: usize) -> Exits<'_>
        ensures { result ≡ exits other self.now }
    {
        Exits {
            other,
            cases: self.items.as_slice(),
        }
    }
}

/// The targets of a switch.
#[derive(Drop)]
pub struct Exits<'a> {
    other: usize,
    cases: &'a [(i32, usize)],
}

impl<'a> Model for Exits<'a> {
    ghost use Rattle.std.specs.Prelude.{ℕ, List};
    ghost use Rattle.objects.specs.typing.Typing.{exits};

    ghost Value = { List ℕ };

    ghost view = { λ e. exits e.other e.cases.now };
}

impl<'a> Exits<'a> {
    /// How many targets there are.
    pub fn count(&self) -> usize
        ensures { result ≡ length self.now }
    {
        self.cases.len() + 1
    }

    /// The target of a number.
    pub fn at(&self, number: usize) -> usize
        requires { number < length self.now }
        ensures { result ≡ slice_index self.now number }
    {
        if number == 0 {
            self.other
        } else {
            self.cases[number - 1].1
        }
    }
}
