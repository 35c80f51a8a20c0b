//! The words of the command line.
ghost use Rattle.std.specs.Prelude.{◌≡◌, ◌⊎◌, ◌≤◌, ◌<◌, ◌^◌, Some, MatchOption, IfOk};
ghost use Rattle.script.specs.declared.head.EngineKind.{EngineKind as Kind};
ghost use Rattle.deuce.specs.Command.{AreWords, AsksNoFolder, AsksBank, IsNoBank, AreFiguresOf, AreNoFigures, AreOfBank, IsNoEngine, IsSeed, IsNoSeed, engine_word};

use bankgen::{Figures, number_in};
use script::EngineKind;
use std::alloc::{AllocError, Global};

/// How many seeds there are.
const SEEDS: u64 = 4_294_967_296;

/// What the words ask for over a folder. The paths are words of the command line.
#[derive(Clone, Copy)]
pub enum Command<'a> {
    /// Runs the script at the second path on the classes of the folder at the first.
    Run { dir: &'a str, script: &'a str },
    /// Puts the rewriting of the classes of the folder at the first path into the folder at the second.
    Rewrite { dir: &'a str, out: &'a str },
}

/// What the words after the program's name ask for over a folder: `run DIR SCRIPT` or `rewrite DIR OUT`, and nothing else.
pub fn command_of(words: &[String]) -> Option<Command<'_>>
    ensures { MatchOption result (AsksNoFolder words.now) (AreWords words.now) }
{
    match words {
        [name, dir, script] if name.as_str() == "run" => Some(Command::Run {
            dir: dir.as_str(),
            script: script.as_str(),
        }),
        [name, dir, out] if name.as_str() == "rewrite" => Some(Command::Rewrite {
            dir: dir.as_str(),
            out: out.as_str(),
        }),
        _ => None,
    }
}

/// A bank: its numbers, and the engine that takes the place of its script's, if one is named.
#[derive(Clone, Copy)]
pub struct BankWords {
    pub figures: Figures,
    pub engine: Option<EngineKind>,
}

/// The bank that the words ask for: `bank SEED ACCOUNTS CALLS LANES`, behind which `tl2` or `lsa` may stand, and nothing else.
pub fn bank_of(alloc: Global, words: &[String]) -> Result<Option<BankWords>, AllocError>
    ensures { IfOk result (λ o. MatchOption o (IsNoBank words.now) (AsksBank words.now)) }
{
    match words {
        [name, seed, accounts, calls, lanes] if name.as_str() == "bank" => bank_in(
            alloc,
            seed.as_str(),
            accounts.as_str(),
            calls.as_str(),
            lanes.as_str(),
            None,
        ),
        [name, seed, accounts, calls, lanes, engine] if name.as_str() == "bank" => bank_over(
            alloc,
            seed.as_str(),
            accounts.as_str(),
            calls.as_str(),
            lanes.as_str(),
            engine.as_str(),
        ),
        _ => Ok(None),
    }
}

/// The bank of four words that are its numbers, and of a word that names an engine.
fn bank_over(
    alloc: Global,
    seed: &str,
    accounts: &str,
    calls: &str,
    lanes: &str,
    engine: &str,
) -> Result<Option<BankWords>, AllocError>
    ensures { IfOk result (λ o. MatchOption o (AreNoFigures seed.now accounts.now calls.now lanes.now ⊎ IsNoEngine engine.now) (λ b. (e : Kind) × (engine.now ≡ engine_word e) × AreOfBank seed.now accounts.now calls.now lanes.now (Some e) b)) }
{
    match engine_in(engine) {
        Some(kind) => bank_in(alloc, seed, accounts, calls, lanes, Some(kind)),
        None => Ok(None),
    }
}

/// The engine that a word names.
fn engine_in(word: &str) -> Option<EngineKind>
    ensures { MatchOption result (IsNoEngine word.now) (λ e. word.now ≡ engine_word e) }
{
    match word {
        "tl2" => Some(EngineKind::Tl2),
        "lsa" => Some(EngineKind::Lsa),
        _ => None,
    }
}

/// The bank of four words that are its numbers, for which this engine is named, if any.
fn bank_in(
    alloc: Global,
    seed: &str,
    accounts: &str,
    calls: &str,
    lanes: &str,
    engine: Option<EngineKind>,
) -> Result<Option<BankWords>, AllocError>
    ensures { IfOk result (λ o. MatchOption o (AreNoFigures seed.now accounts.now calls.now lanes.now) (AreOfBank seed.now accounts.now calls.now lanes.now engine)) }
{
    match figures_in(alloc, seed, accounts, calls, lanes)? {
        Some(figures) => Ok(Some(BankWords { figures, engine })),
        None => Ok(None),
    }
}

/// The numbers that four words are, of which the seed has 32 bits.
fn figures_in(
    alloc: Global,
    seed: &str,
    accounts: &str,
    calls: &str,
    lanes: &str,
) -> Result<Option<Figures>, AllocError>
    ensures { IfOk result (λ o. MatchOption o (AreNoFigures seed.now accounts.now calls.now lanes.now) (AreFiguresOf seed.now accounts.now calls.now lanes.now)) }
{
    let Some(seed) = seed_in(alloc, seed)? else {
        return Ok(None);
    };
    let Some(accounts) = number_in(alloc, accounts)? else {
        return Ok(None);
    };
    let Some(calls) = number_in(alloc, calls)? else {
        return Ok(None);
    };
    let Some(lanes) = number_in(alloc, lanes)? else {
        return Ok(None);
    };
    Ok(Some(Figures {
        seed,
        accounts,
        calls,
        lanes,
    }))
}

/// The seed that a word is, a number of 32 bits.
fn seed_in(alloc: Global, word: &str) -> Result<Option<u32>, AllocError>
    ensures { IfOk result (λ o. MatchOption o (IsNoSeed word.now) (IsSeed word.now)) }
{
    match number_in(alloc, word)? {
        Some(number) => Ok(seed_of(number)),
        None => Ok(None),
    }
}

/// A number of 32 bits, or None where it has more.
fn seed_of(number: u64) -> Option<u32>
    ensures { MatchOption result (2 ^ 32 ≤ number) (λ n. (n ≡ number) × (n < 2 ^ 32)) }
{
    if number < SEEDS {
        Some(number as u32)
    } else {
        None
    }
}
