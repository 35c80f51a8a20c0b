//! The command `bank`, which reads no folder.
ghost use Rattle.std.specs.Prelude.{◌≡◌, List, String, IfOk, Option, length};
ghost use Rattle.std.specs.declared.alloc.Global.{Global};
ghost use Rattle.deuce_io.specs.Seen.{Seen};
ghost use Rattle.deuce_io.specs.Files.{Files};
ghost use Rattle.deuce.specs.Command.{AsksBank, engine_word};
ghost use Rattle.deuce.specs.Bank.{engine_of};
ghost use Rattle.deuce.specs.Outcomes.{IsOutcome};
ghost use Rattle.deuce.specs.Telling.{told_by, TellsOutcome};

use crate::commands::refused;
use crate::outcome::Outcome;
use crate::words::BankWords;
use bankgen::{Figures, bank, summary};
use jmodel::{Halt, NoMemory};
use machine::Gate;
use runner::count_calls;
use script::EngineKind;
use std::alloc::Global;
use std::thread::Threads;

/// The phase of a bank's total, the only call that it has.
const LAST_PHASE: u32 = 1;

/// Runs the script of a bank on its classes, and tells the gates.
pub fn bank_command<R: Threads + Sync, G: Gate + Send + Drop>(
    rt: &R,
    alloc: Global,
    asked: BankWords,
    gates: &mut Vec<G>,
) -> Result<Outcome, NoMemory>
    requires gates { length gates.old.items ≡ 16 }
    ensures told { IfOk result (λ o. (words : List (String Global)) (files : Option Files) → AsksBank words asked → TellsOutcome words files (told_by G.told gates.old.items) (told_by G.told gates.new.items) o) }
    ensures outcome { IfOk result (λ o. (words : List (String Global)) (old new : Seen) → new.files ≡ old.files → AsksBank words asked → IsOutcome words old new o) }
{
    let Figures {
        seed,
        accounts,
        calls,
        lanes,
    } = asked.figures;
    let workload = match bank(alloc, seed, accounts, calls, lanes) {
        Ok(workload) => workload,
        Err(Halt::Refused(refusal)) => return Ok(Outcome::BadProgram(refusal)),
        Err(Halt::NoMemory) => return Err(NoMemory),
    };
    let classes = workload.classes.as_slice();
    match count_calls(
        rt,
        alloc,
        classes,
        workload.script.as_slice(),
        asked.engine,
        LAST_PHASE,
        gates,
    ) {
        Ok(counts) => {
            let answer = counts.answer.as_slice();
            let text = summary(
                alloc,
                asked.figures,
                engine_name(asked.engine),
                counts.placed,
                counts.unplaced,
                answer,
            )?;
            Ok(Outcome::Summary(text))
        }
        Err(end) => refused(end),
    }
}

/// The name of the engine of a bank's run: the one that is named, or else that of its script.
fn engine_name(engine: Option<EngineKind>) -> &'static str
    ensures { result.now ≡ engine_word (engine_of engine) }
{
    match engine {
        Some(EngineKind::Lsa) => "lsa",
        Some(EngineKind::Tl2) | None => "tl2",
    }
}
