//! A run, from class files and a script to the text of its journal.
ghost use Rattle.std.specs.Prelude.{◌≡◌, ◌≤◌, List, length, map, Some, Ok, IfOk, IfErr};
ghost use Rattle.std.specs.List.{AllByRecursion};
ghost use Rattle.jmodel.specs.format.ClassFile.{ClassFile as Form};
ghost use Rattle.jmodel.specs.format.ClassRules.{IsClassFile};
ghost use Rattle.objects.specs.linking.Classes.{in_order as order_of_classes};
ghost use Rattle.objects.specs.linking.Linking.{linking};
ghost use Rattle.objects.specs.laws.LinkingLaw.{AreRead};
ghost use Rattle.rewriter.specs.Asked.{AreFiled};
ghost use Rattle.session.specs.Rule.{IsReady};
ghost use Rattle.script.specs.Script.{IsScript};
ghost use Rattle.runner.specs.Headline.{IsRunnable, IsRunOf, AreCountsOf};
ghost use Rattle.runner.specs.Kept.{AreOfRun};
ghost use Rattle.runner.specs.Faults.{EndsRun, EndsScript};
ghost use Rattle.runner.specs.Telling.{TellsRunOf, TellsCountsOf, TellsKept};

use crate::opening::opened;
use crate::outcome::RunEnd;
use crate::preparing::prepare;
use crate::text::{answer_in, journal};
use const_pool::ClassFile;
use driver::{Gate, Journal, Limits, Runner};
use heap_layout::texts::fixed_words;
use hierarchy::Program;
use jmodel::{Bytes, Halt};
use script::{EngineKind, Script, read_script};
use std::alloc::Global;
use std::thread::Threads;

/// The program of class files, and the calls of a run on them.
struct Ran {
    program: Program,
    calls: Journal,
}

impl Drop for Ran {
    fn drop(self) {
        let Self {
            program: _,
            calls: _,
        } = self;
    }
}

/// How many calls of a run are placed and how many ran out of memory, and the text of the answer of one.
#[derive(Drop)]
pub struct Counts {
    pub placed: usize,
    pub unplaced: usize,
    pub answer: Bytes,
}

/// Runs a script on class files, and gives the text of its journal. Lane k's calls tell gate k; after an `Ok` as many gates stand there, in their order.
pub fn run_files<R: Threads + Sync, G: Gate + Send + Drop>(
    rt: &R,
    alloc: Global,
    files: &[ClassFile],
    script: &[u8],
    gates: &mut Vec<G>,
) -> Result<Bytes, RunEnd>
    requires few { length files.now ≤ 256 }
    requires form { AllByRecursion IsClassFile files.now }
    requires filed { AllByRecursion AreFiled files.now }
    requires gates { length gates.old.items ≡ 16 }
    ensures run { IfOk result (λ text. IsRunOf files.now script.now text) }
    // Where a gate tells its events, they are those before, and then those of its lane's placed calls, run by the rewriting.
    ensures told { IfOk result (λ text. TellsRunOf files.now script.now text (map G.told gates.old.items) (map G.told gates.new.items)) }
    ensures cause { IfErr result (EndsRun files.now script.now) }
{
    let ran = run_on(rt, alloc, files, script, None, gates)?;
    Ok(journal(
        alloc,
        &ran.program,
        ran.calls.placed.as_slice(),
        ran.calls.unplaced.as_slice(),
    )?)
}

/// Runs a script on class files, by an engine that takes the place of the script's if there is one, and counts its calls. The answer is that of the first placed call of a phase, or `nomemory` where none is placed.
pub fn count_calls<R: Threads + Sync, G: Gate + Send + Drop>(
    rt: &R,
    alloc: Global,
    files: &[ClassFile],
    script: &[u8],
    engine: Option<EngineKind>,
    phase: u32,
    gates: &mut Vec<G>,
) -> Result<Counts, RunEnd>
    requires few { length files.now ≤ 256 }
    requires form { AllByRecursion IsClassFile files.now }
    requires filed { AllByRecursion AreFiled files.now }
    requires gates { length gates.old.items ≡ 16 }
    ensures run { IfOk result (λ c. AreCountsOf files.now script.now phase c.placed c.unplaced c.answer) }
    ensures told { IfOk result (λ c. TellsCountsOf files.now script.now c.placed (map G.told gates.old.items) (map G.told gates.new.items)) }
    ensures cause { IfErr result (EndsRun files.now script.now) }
{
    let ran = run_on(rt, alloc, files, script, engine, gates)?;
    let answer = answer_in(alloc, ran.calls.placed.as_slice(), phase)?;
    Ok(Counts {
        placed: ran.calls.placed.len(),
        unplaced: ran.calls.unplaced.len(),
        answer,
    })
}

/// Runs a script on class files, by an engine that takes the place of the script's if there is one.
fn run_on<R: Threads + Sync, G: Gate + Send + Drop>(
    rt: &R,
    alloc: Global,
    files: &[ClassFile],
    script: &[u8],
    engine: Option<EngineKind>,
    gates: &mut Vec<G>,
) -> Result<Ran, RunEnd>
    requires few { length files.now ≤ 256 }
    requires form { AllByRecursion IsClassFile files.now }
    requires filed { AllByRecursion AreFiled files.now }
    requires gates { length gates.old.items ≡ 16 }
    ensures run { IfOk result (λ r. AreOfRun files.now script.now r.program r.calls) }
    ensures told { IfOk result (λ r. TellsKept (order_of_classes files.now) script.now r.program r.calls (map G.told gates.old.items) (map G.told gates.new.items)) }
    ensures cause { IfErr result (EndsRun files.now script.now) }
{
    let prepared = prepare(alloc, files)?;
    let calls = run_script(
        rt,
        alloc,
        prepared.classes.as_slice(),
        &prepared.original,
        &prepared.rewritten,
        script,
        engine,
        gates,
    )?;
    Ok(Ran {
        program: prepared.original,
        calls,
    })
}

/// The script that bytes are for classes and their program.
fn script_of(
    alloc: Global,
    classes: &[&ClassFile],
    program: &Program,
    bytes: &[u8],
) -> Result<Script, RunEnd>
    ensures script { IfOk result (IsScript (map (λ c. c.now) classes.now) program.now bytes.now) }
    ensures cause { IfErr result (EndsScript program.now (map (λ c. c.now) classes.now) bytes.now) }
{
    let fixed = fixed_words(alloc, classes)?;
    match read_script(alloc, classes, program, fixed, bytes) {
        Ok(script) => Ok(script),
        Err(Halt::Refused(refusal)) => Err(RunEnd::BadScript(refusal)),
        Err(Halt::NoMemory) => Err(RunEnd::NoMemory),
    }
}

/// Runs a script on the program of classes by its rewriting, over an engine that takes the place of the script's if there is one.
fn run_script<R: Threads + Sync, G: Gate + Send + Drop>(
    rt: &R,
    alloc: Global,
    classes: &[&ClassFile],
    original: &Program,
    rewritten: &Program,
    script: &[u8],
    engine: Option<EngineKind>,
    gates: &mut Vec<G>,
) -> Result<Journal, RunEnd>
    requires read { AreRead (map (λ c. c.now) classes.now) }
    requires links { linking (map (λ c. c.now) classes.now) ≡ Ok (Some original.now) }
    requires ready { IsReady original.now rewritten.now }
    requires gates { length gates.old.items ≡ 16 }
    ensures told { IfOk result (λ calls. TellsKept (map (λ c. c.now) classes.now) script.now original.now calls (map G.told gates.old.items) (map G.told gates.new.items)) }
    ensures run { IfOk result (λ calls. (files : List Form) → order_of_classes files ≡ map (λ c. c.now) classes.now → IsRunnable files original.now → AreOfRun files script.now original.now calls) }
    ensures cause { IfErr result (EndsScript original.now (map (λ c. c.now) classes.now) script.now) }
{
    let wanted = script_of(alloc, classes, original, script)?;
    let limits = Limits {
        budget: wanted.budget,
        attempts: wanted.attempts,
        size: wanted.region,
    };
    let memory = opened(alloc, classes, original, rewritten, wanted.lanes, limits)?;
    let runner = Runner {
        alloc,
        original,
        rewritten,
        engine: engine.unwrap_or(wanted.engine),
        limits,
    };
    Ok(runner.run_gated(rt, memory, wanted.phases.as_slice(), gates)?)
}
