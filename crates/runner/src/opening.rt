//! The memory that a run begins with, and the static initialisers, which run before the first phase.
ghost use Rattle.std.specs.Prelude.{◌≡◌, ◌≤◌, ◌<◌, ◌+◌, ◌^◌, length, map, Some, Ok, IfOk, IfErr};
ghost use Rattle.objects.specs.linking.Layout.{fixed_words as fixed_words_of, opening_state};
ghost use Rattle.objects.specs.linking.Linking.{linking};
ghost use Rattle.objects.specs.laws.LinkingLaw.{AreRead};
ghost use Rattle.script.specs.Script.{region_limit};
ghost use Rattle.session.specs.Rule.{IsReady};
ghost use Rattle.driver.specs.Memory.{Holds};
ghost use Rattle.runner.specs.Faults.{IsOpened, EndsOpening, IsNumbered, IsUnopenedAs};

use crate::outcome::RunEnd;
use const_pool::ClassFile;
use driver::{Limits, Memory, SetUpEnd, set_up};
use heap_layout::opening::memory_words;
use heap_layout::starting::initialisers_in;
use heap_layout::texts::fixed_words;
use hierarchy::Program;
use jmodel::NoMemory;
use std::alloc::Global;

/// The memory that a run of so many lanes begins with: the opening words, those of the other regions behind them, and as
/// many used words in region 0 as are fixed.
fn first_memory(
    alloc: Global,
    classes: &[&ClassFile],
    program: &Program,
    lanes: u64,
    size: u64,
) -> Result<Memory, NoMemory>
    requires read { AreRead (map (λ c. c.now) classes.now) }
    requires links { linking (map (λ c. c.now) classes.now) ≡ Ok (Some program.now) }
    requires lanes { lanes ≤ 16 }
    requires room { (fixed_words_of (map (λ c. c.now) classes.now) ≤ size) × (size ≤ region_limit) }
    ensures holds { IfOk result (λ m. Holds program.now size m (opening_state (map (λ c. c.now) classes.now))) }
    ensures size { IfOk result (λ m. length m.words.items + 4097 < 2 ^ 32) }
{
    let used = fixed_words(alloc, classes)?;
    let words = memory_words(alloc, classes, size as usize, lanes as usize + 1)?;
    Ok(Memory { words, used })
}

/// Runs the static initialisers of a program by its rewriting, alone, superclasses first, over the memory that a run of
/// so many lanes begins with, and gives the memory that they left.
pub fn opened(
    alloc: Global,
    classes: &[&ClassFile],
    original: &Program,
    rewritten: &Program,
    lanes: u64,
    limits: Limits,
) -> Result<Memory, RunEnd>
    requires read { AreRead (map (λ c. c.now) classes.now) }
    requires links { linking (map (λ c. c.now) classes.now) ≡ Ok (Some original.now) }
    requires ready { IsReady original.now rewritten.now }
    requires attempts { (1 ≤ limits.attempts) × (limits.attempts ≤ 1000000) }
    requires lanes { lanes ≤ 16 }
    requires room { (fixed_words_of (map (λ c. c.now) classes.now) ≤ limits.size) × (limits.size ≤ region_limit) }
    ensures opens { IfOk result (IsOpened original.now (map (λ c. c.now) classes.now) limits.size limits.budget) }
    ensures size { IfOk result (λ m. length m.words.items + 4097 < 2 ^ 32) }
    ensures cause { IfErr result (EndsOpening original.now (map (λ c. c.now) classes.now) limits.size limits.budget) }
{
    let memory = first_memory(alloc, classes, original, lanes, limits.size)?;
    let order = initialisers_in(alloc, classes, original)?;
    match set_up(alloc, original, rewritten, memory, order.as_slice(), limits) {
        Ok(memory) => Ok(memory),
        Err(end) => Err(unopened(alloc, original, end)),
    }
}

/// The end of a run on a program whose static initialisers ended so.
fn unopened(alloc: Global, original: &Program, end: SetUpEnd) -> RunEnd
    requires { IsNumbered original.now end }
    ensures { IsUnopenedAs original.now end result }
{
    match end {
        SetUpEnd::Failed(number, answer) => {
            match original.methods()[number].name().class.copy(alloc) {
                Ok(class) => RunEnd::Unopened { class, answer },
                Err(_) => RunEnd::NoMemory,
            }
        }
        SetUpEnd::NoMemory => RunEnd::NoMemory,
    }
}
