//! What the tests play.
ghost use Rattle.std.specs.Prelude.{◌≡◌, ◌≤◌, ◌<◌, ◌+◌, ◌^◌, length, map, Some, Ok, IfOk};
ghost use Rattle.objects.specs.linking.Linking.{linking};
ghost use Rattle.objects.specs.laws.LinkingLaw.{AreRead};
ghost use Rattle.objects.specs.semantics.State.{State};
ghost use Rattle.session.specs.Rule.{IsReady, IsCallOf};
ghost use Rattle.driver.specs.Memory.{Holds};
ghost use Rattle.driver.specs.Runs.{AreScripted};
ghost use Rattle.objects.specs.semantics.Program.{Program as JProgram};

use super::lanes::play;
use super::program::{classes, ordered, programs};
use const_pool::ClassFile;
use driver::{Limits, Memory, Runner};
use heap_layout::texts::fixed_words;
use hierarchy::Program;
use jmodel::NoMemory;
use machine::Event;
use objects::op::Dispatch;
use runner::opened;
use script::{Calls, EngineKind, Known, LaneCalls, PhaseCalls};
use std::alloc::{AllocError, Global};
use std::thread::Threads;

/// What two lanes call, by which engine, and at which event the first attempt of lane 0 is held until lane 1's call has ended.
#[derive(Clone, Copy)]
pub struct Scene {
    pub engine: EngineKind,
    pub at: Event,
    pub held: usize,
    pub other: usize,
}

/// The memory that two lanes begin with.
fn memory_of(
    alloc: Global,
    classes: &[&ClassFile],
    original: &Program,
    rewritten: &Program,
    limits: Limits,
) -> Result<Memory, NoMemory>
    requires read { AreRead (map (λ c. c.now) classes.now) }
    requires links { linking (map (λ c. c.now) classes.now) ≡ Ok (Some original.now) }
    requires ready { IsReady original.now rewritten.now }
    requires attempts { (1 ≤ limits.attempts) × (limits.attempts ≤ 1000000) }
    requires room_size { limits.size ≤ 1048576 }
    ensures stands { IfOk result (λ memory. (σ : State) × Holds original.now limits.size memory σ) }
    ensures size { IfOk result (λ memory. length memory.words.items + 4097 < 2 ^ 32) }
{
    if fixed_words(alloc, classes)? > limits.size {
        return Err(NoMemory);
    }
    let Ok(memory) = opened(alloc, classes, original, rewritten, 2, limits) else {
        return Err(NoMemory);
    };
    Ok(memory)
}

/// The call of a marked static method that has no parameters.
fn call_of(alloc: Global, program: &Program, number: usize) -> Result<Known, NoMemory>
    ensures { IfOk result (IsCallOf program.now) }
{
    let Some(method) = program.method(number) else {
        return Err(NoMemory);
    };
    let is_root = matches!(method.dispatch(), Dispatch::Static)
        && method.retries().is_some()
        && method.parameters().is_empty();
    if !is_root {
        return Err(NoMemory);
    }
    Ok(Known {
        method: number,
        args: Vec::new(alloc),
    })
}

/// The lines of the calls of a scene's methods over memory.
fn play_over<R: Threads + Sync>(
    rt: &R,
    runner: Runner<'_>,
    memory: Memory,
    scene: Scene,
) -> Result<String, NoMemory>
    requires ready { IsReady runner.original.now runner.rewritten.now }
    requires stands { (σ : State) × Holds runner.original.now runner.limits.size memory σ }
    requires attempts { (1 ≤ runner.limits.attempts) × (runner.limits.attempts ≤ 1000000) }
    requires room_size { runner.limits.size ≤ 1048576 }
    requires size { length memory.words.items + 4097 < 2 ^ 32 }
{
    let held = call_of(runner.alloc, runner.original, scene.held)?;
    let other = call_of(runner.alloc, runner.original, scene.other)?;
    Ok(play(rt, runner, memory, (&held, &other), scene.at)?)
}

/// The lines of two lanes' calls over a table of their own, lane 0's first. Each call may take 1000 turns, 10 attempts and 32 words of its region.
pub fn played<R: Threads + Sync>(rt: &R, alloc: Global, scene: Scene) -> Result<String, NoMemory> {
    let files = classes(alloc)?;
    let classes = ordered(alloc, files.as_slice())?;
    let (original, rewritten) = programs(alloc, classes.as_slice())?;
    let limits = Limits {
        budget: 1000,
        attempts: 10,
        size: 32,
    };
    let memory = memory_of(alloc, classes.as_slice(), &original, &rewritten, limits)?;
    let runner = Runner {
        alloc,
        original: &original,
        rewritten: &rewritten,
        engine: scene.engine,
        limits,
    };
    play_over(rt, runner, memory, scene)
}

/// Whether these are the lines.
pub fn shows<R: Threads + Sync>(
    rt: &R,
    alloc: Global,
    scene: Scene,
    lines: &str,
) -> Result<bool, NoMemory> {
    Ok(played(rt, alloc, scene)?.as_str() == lines)
}

/// A script of one phase, in which one lane makes one call.
fn one_phase(alloc: Global, call: Known) -> Result<Vec<PhaseCalls>, AllocError>
    ensures { (P : JProgram) → IsCallOf P call → IfOk result (λ v. AreScripted P v.items) }
{
    let mut calls = Vec::new(alloc);
    calls.push(call)?;
    let mut lanes = Vec::new(alloc);
    lanes.push(LaneCalls { calls })?;
    let mut phases = Vec::new(alloc);
    phases.push(PhaseCalls {
        calls: Calls::Lanes(lanes),
    })?;
    Ok(phases)
}

/// How many calls have a place in the history of a run in which one lane calls a method once.
fn placed_over<R: Threads + Sync>(
    rt: &R,
    runner: Runner<'_>,
    memory: Memory,
    method: usize,
) -> Result<usize, NoMemory>
    requires ready { IsReady runner.original.now runner.rewritten.now }
    requires stands { (σ : State) × Holds runner.original.now runner.limits.size memory σ }
    requires attempts { (1 ≤ runner.limits.attempts) × (runner.limits.attempts ≤ 1000000) }
    requires room_size { runner.limits.size ≤ 1048576 }
    requires size { length memory.words.items + 4097 < 2 ^ 32 }
{
    let call = call_of(runner.alloc, runner.original, method)?;
    let phases = one_phase(runner.alloc, call)?;
    let journal = runner.run_script(rt, memory, phases.as_slice())?;
    Ok(journal.placed.len())
}

/// The same over a memory of its own. The call may take 1000 turns, 10 attempts and 32 words of its region.
pub fn placed<R: Threads + Sync>(
    rt: &R,
    alloc: Global,
    engine: EngineKind,
    method: usize,
) -> Result<usize, NoMemory> {
    let files = classes(alloc)?;
    let classes = ordered(alloc, files.as_slice())?;
    let (original, rewritten) = programs(alloc, classes.as_slice())?;
    let limits = Limits {
        budget: 1000,
        attempts: 10,
        size: 32,
    };
    let memory = memory_of(alloc, classes.as_slice(), &original, &rewritten, limits)?;
    let runner = Runner {
        alloc,
        original: &original,
        rewritten: &rewritten,
        engine,
        limits,
    };
    placed_over(rt, runner, memory, method)
}
