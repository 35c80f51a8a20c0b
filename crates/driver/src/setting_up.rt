//! The static initialisers of a program, which run before the first phase.
ghost use Rattle.std.specs.Prelude.{◌≡◌, ◌≤◌, [], length, IfOk, IfErr};
ghost use Rattle.std.specs.List.{AllByRecursion};
ghost use Rattle.objects.specs.semantics.State.{State};
ghost use Rattle.objects.specs.semantics.Opening.{is_return as is_return_of};
ghost use Rattle.jmodel.specs.history.History.{Entry};
ghost use Rattle.session.specs.Rule.{IsRuled, IsReady, IsCallOf};
ghost use Rattle.driver.specs.Memory.{used_at_first, Holds};
ghost use Rattle.driver.specs.SetUp.{AnswersAlone, OpensTo, EndsSetUp};

use crate::memory::{Limits, Memory};
use hierarchy::Program;
use jmodel::Answer;
use machine::{Machine, Open};
use script::Known;
use session::{Making, Place};
use std::alloc::{AllocError, Global};
use std::marker::Brand;
use tx_core::{Origin, Solo};

/// Why not all static initialisers of a program returned.
#[derive(Drop)]
pub enum SetUpEnd {
    /// The initialiser of this number is the first that doesn't return, and it ends so.
    Failed(usize, Answer),
    NoMemory,
}

impl From<AllocError> for SetUpEnd {
    ghost use Rattle.driver.specs.declared.setting_up.SetUpEnd.TheVariants.{NoMemory};
    ghost use Rattle.std.specs.Prelude.{◌≡◌};

    ghost from_gives = { λ _ e. e ≡ NoMemory };

    fn from(_: AllocError) -> Self {
        SetUpEnd::NoMemory
    }
}

/// Runs the static initialisers of a program that have these numbers, each alone, one after another as they stand there. The memory that a run begins
/// with stands for a state; the memory that they left is given. Each may take the turns and the attempts of `limits`, and all together the words of
/// region 0. The rewritten program is what runs. At the first that doesn't return, its number and its answer are given, and no other runs.
pub fn set_up(
    alloc: Global,
    original: &Program,
    rewritten: &Program,
    memory: Memory,
    initialisers: &[usize],
    limits: Limits,
) -> Result<Memory, SetUpEnd>
    requires ready { IsReady original.now rewritten.now }
    requires callable { AllByRecursion (λ m. IsCallOf original.now (record { method = m; args = [] })) initialisers.now }
    requires stands { (σ : State) × Holds original.now limits.size memory σ }
    requires attempts { (1 ≤ limits.attempts) × (limits.attempts ≤ 1000000) }
    requires room_size { limits.size ≤ 1048576 }
    ensures opens { IfOk result (λ left. OpensTo original.now limits.size limits.budget memory initialisers.now left) }
    ensures size { IfOk result (λ left. length left.words.items ≡ length memory.words.items) }
    ensures cause { IfErr result (EndsSetUp original.now limits.size limits.budget memory initialisers.now) }
{
    let mut memory = memory;
    for number in initialisers {
        let (answer, left) = call_alone(alloc, original, rewritten, memory, limits, *number)?;
        if !is_return(&answer) {
            return Err(SetUpEnd::Failed(*number, answer));
        }
        memory = left;
    }
    Ok(memory)
}

fn is_return(answer: &Answer) -> bool
    ensures { result ≡ is_return_of answer.now }
{
    matches!(answer, Answer::Returned(_))
}

/// Calls a method without arguments, alone. Gives its answer and the memory that it left.
fn call_alone(
    alloc: Global,
    original: &Program,
    rewritten: &Program,
    memory: Memory,
    limits: Limits,
    method: usize,
) -> Result<(Answer, Memory), AllocError>
    requires ready { IsReady original.now rewritten.now }
    requires callable { IsCallOf original.now (record { method = method; args = [] }) }
    requires stands { (σ : State) × Holds original.now limits.size memory σ }
    requires attempts { (1 ≤ limits.attempts) × (limits.attempts ≤ 1000000) }
    requires room_size { limits.size ≤ 1048576 }
    ensures answers { IfOk result (λ r. AnswersAlone original.now limits.size limits.budget memory method r.0 r.1) }
    ensures size { IfOk result (λ r. length r.1.words.items ≡ length memory.words.items) }
{
    call_over::<Brand>(alloc, original, rewritten, memory, limits, method)
}

/// Calls a method without arguments over an engine on the words of memory.
fn call_over<K: Origin>(
    alloc: Global,
    original: &Program,
    rewritten: &Program,
    memory: Memory,
    limits: Limits,
    method: usize,
) -> Result<(Answer, Memory), AllocError>
    requires ready { IsReady original.now rewritten.now }
    requires callable { IsCallOf original.now (record { method = method; args = [] }) }
    requires stands { (σ : State) × Holds original.now limits.size memory σ }
    requires attempts { (1 ≤ limits.attempts) × (limits.attempts ≤ 1000000) }
    requires room_size { limits.size ≤ 1048576 }
    requires first { memory.words.items ≡ K.first }
    requires opened { K.opened ≡ used_at_first memory.used }
    requires rule { (e : Entry) → IsRuled original.now rewritten.now limits.size limits.budget limits.attempts e → K.rule e }
    requires ruled { (e : Entry) → K.rule e → IsRuled original.now rewritten.now limits.size limits.budget limits.attempts e }
    ensures answers { IfOk result (λ r. AnswersAlone original.now limits.size limits.budget memory method r.0 r.1) }
    ensures size { IfOk result (λ r. length r.1.words.items ≡ length memory.words.items) }
{
    let Memory { words, used } = memory;
    let call = Known {
        method,
        args: Vec::new(alloc),
    };
    let at = Place {
        phase: 0,
        lane: 0,
        first: 0,
    };
    let mut engine = Solo::<K>::new(alloc, words);
    let making = Making {
        alloc,
        original,
        rewritten,
        limits: limits.in_region(0, used),
    };
    let mut machine = Machine::new(alloc);
    let (record, used) = making.make_next(&mut machine, &mut engine, &mut Open, at, &call);
    let words = engine.into_words();
    match record.answer {
        Answer::NoMemory => Err(AllocError),
        answer => Ok((answer, Memory { words, used })),
    }
}
