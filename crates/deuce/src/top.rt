//! The top call: all that the program does.
ghost use Rattle.std.specs.Prelude.{◌≡◌, ◌⊎◌, ℕ, List, Option, IfOk, codes, length};
ghost use Rattle.deuce_io.specs.Fault.{Rose};
ghost use Rattle.jmodel.specs.declared.refusal.Refusal.{Refusal};
ghost use Rattle.jmodel.specs.declared.value.Answer.{Answer};
ghost use Rattle.jmodel.specs.history.Output.{◌and◌, answer_text, refusal_text, error_text};
ghost use Rattle.deuce.specs.Command.{seen_words, run_words, rewrite_words, AsksBank, AsksNoFolder, IsNoRewriting, IsNoCommand};
ghost use Rattle.deuce.specs.declared.words.BankWords.{BankWords};
ghost use Rattle.deuce_io.specs.Files.{Files};
ghost use Rattle.deuce_io.specs.Seen.{Seen};
ghost use Rattle.deuce.specs.Bank.{IsSummaryOf};
ghost use Rattle.deuce.specs.Ending.{IsJournalOf, IsRewritingOf};
ghost use Rattle.deuce.specs.Outcomes.{IsOutcome, IsBadClassOfWords, IsBadProgramOfWords, IsUntypableOfWords, IsBadScriptOfWords, IsUnopenedOfWords, HasHelperOfWords, CanRunWords, CanRunBankOfWords, CanRewriteWords, IsOutsideOfWords, FailedOutside, FailedPutOfWords, ArePut, IsRefusal, IsRefusedOrFailed, IsStatus, IsRunOrFailed, IsBankRunOrFailed, IsOutsideOrFailed, IsRewrittenOrFailed, Appends, IsCut};
ghost use Rattle.deuce.specs.Rewritten.{counts_text};
ghost use Rattle.deuce.specs.Telling.{told_by, TellsJournalOf, TellsBankOf, TellsOutcome};

use crate::bank::bank_command;
use crate::commands::{rewrite_command, run_command};
use crate::outcome::{Outcome, text_of};
use crate::print::print;
use crate::words::{Command, bank_of, command_of};
use deuce_io::{Folder, IoEnd, Sink};
use jmodel::NoMemory;
use machine::Gate;
use std::alloc::Global;
use std::thread::Threads;

/// Does what the words ask for, over a folder and a sink, and answers the exit status. The calls of lane k tell gate k their events; with status 0 as many
/// gates stand there then, in their order.
///
/// | Status | Comes |
/// |---|---|
/// | 0 | the journal of the run, or the summary of the bank, was written whole; or each rewritten class file and the helper of arrays were put, and the counts were written whole |
/// | 2 | the words are none of the forms |
/// | 3 | a file is no class file; the path of the first and its first fault are printed |
/// | 4 | a folder lies 17 levels down, there are more than 256 class files, their classes have a fault, one has the path of the helper of arrays, a constructor stores to a field before another has run over its object, or their rewriting passes a limit, or a number of a bank is outside its limits; that is printed |
/// | 5 | a method of the classes has no typing; the first is printed |
/// | 6 | the script is none for the classes; the first rule that it breaks is printed |
/// | 7 | a static initialiser doesn't return; its class and the answer are printed |
/// | 8 | a list or a read of this command failed |
/// | 9 | the sink failed; a front of the output was written |
/// | 10 | memory ran out; nothing was written, or a front of the output |
/// | 11 | the put of a rewritten class file or of the helper failed; those before it, in the order of their paths and the helper last, were put |
pub fn deuce<R: Threads + Sync, F: Folder, O: Sink, G: Gate + Send + Drop>(
    rt: &R,
    alloc: Global,
    words: &[String],
    folder: &mut F,
    out: &mut O,
    gates: &mut Vec<G>,
) -> u8
    requires gates { length gates.old.items ≡ 16 }

    // Where the words are of no form, that is said, unless it can't be written or memory runs out.
    ensures no_form { IsNoCommand words.now → (result ≡ 2) ⊎ ((result ≡ 9) ⊎ (result ≡ 10)) }
    ensures usage { result ≡ 2 → IsNoCommand words.now }
    ensures usage_line { result ≡ 2
        → Appends (O.written out.old) (O.written out.new) (error_text (codes "2") (codes "usage")) }

    // `run DIR SCRIPT`: what was written, where the sink tells it.
    ensures journal { result ≡ 0
        → (dir script : List ℕ) → seen_words words.now ≡ run_words dir script
        → (text : List ℕ) × IsJournalOf (F.seen folder.old).files dir script text
        × Appends (O.written out.old) (O.written out.new) text }

    // `bank SEED ACCOUNTS CALLS LANES`, behind which `tl2` or `lsa` may stand: what was written, by
    // the numbers and the engine alone.
    ensures summary { result ≡ 0 → (b : BankWords) → AsksBank words.now b
        → (text : List ℕ) × IsSummaryOf b text × Appends (O.written out.old) (O.written out.new) text }

    // What the gates were told, where they tell it: lane k's gate, behind what it told before, the
    // events of the lane's placed calls, which the rewritten code ran, each call's in one piece.
    ensures told { result ≡ 0
        → (dir script : List ℕ) → seen_words words.now ≡ run_words dir script
        → (text : List ℕ)
        × TellsJournalOf (F.seen folder.old).files dir script text (told_by G.told gates.old.items)
        (told_by G.told gates.new.items)
        × Appends (O.written out.old) (O.written out.new) text }
    ensures told_bank { result ≡ 0 → (b : BankWords) → AsksBank words.now b
        → (text : List ℕ)
        × TellsBankOf b text (told_by G.told gates.old.items) (told_by G.told gates.new.items)
        × Appends (O.written out.old) (O.written out.new) text }
    // A rewriting tells no gate anything.
    ensures told_nothing { result ≡ 0
        → (dir to : List ℕ) → seen_words words.now ≡ rewrite_words dir to
        → told_by G.told gates.new.items ≡ told_by G.told gates.old.items }

    // `rewrite DIR OUT`: what was put, where the folder tells its files, and the counts that were
    // written.
    ensures rewriting { result ≡ 0
        → (dir to : List ℕ) → seen_words words.now ≡ rewrite_words dir to
        → (classes : ℕ) × (taken : ℕ) × (marked : ℕ)
        × IsRewritingOf (F.seen folder.old).files (F.seen folder.new).files dir to classes taken marked
        × Appends (O.written out.old) (O.written out.new) (counts_text classes taken marked) }

    // This class file is the first, in the order of the paths, that isn't good, and has this fault.
    ensures bad_class { result ≡ 3 → (path : List ℕ) × (refusal : Refusal)
        × IsBadClassOfWords words.now (F.seen folder.old).files path refusal
        × Appends (O.written out.old) (O.written out.new)
        (error_text (codes "3") (path and refusal_text refusal)) }

    // A folder lies 17 levels down, or there are more class files than 256, as this says; or they
    // are good, and their classes have this fault. Or one of them stands where rewriting puts the
    // helper of arrays, a constructor stores too early, or their rewriting passes this limit.
    // Or a number of a bank is outside its limits, as this says. For a bank the causes of 4 to 7 are
    // those of a run of its script on its classes.
    ensures bad_program { result ≡ 4 → (refusal : Refusal)
        × IsBadProgramOfWords words.now (F.seen folder.old).files refusal
        × Appends (O.written out.old) (O.written out.new)
        (error_text (codes "4") (refusal_text refusal)) }

    // Where a number of a bank is outside its limits, that is said, and nothing is run.
    ensures outside_limits { IsOutsideOfWords words.now → IsOutsideOrFailed result }

    // The class files are good and their classes without a fault, none has the helper's path, and
    // this method of theirs is the first that has code and no typing.
    ensures untypable { result ≡ 5 → (refusal : Refusal)
        × IsUntypableOfWords words.now (F.seen folder.old).files refusal
        × Appends (O.written out.old) (O.written out.new)
        (error_text (codes "5") (refusal_text refusal)) }

    // They can be run, and the script, of which at most one byte over its limit is looked at, is
    // none for them: this is the first rule that it breaks.
    ensures bad_script { result ≡ 6 → (refusal : Refusal)
        × IsBadScriptOfWords words.now (F.seen folder.old).files refusal
        × Appends (O.written out.old) (O.written out.new)
        (error_text (codes "6") (refusal_text refusal)) }

    // They can be run, and the script is one for them, but a static initialiser, the first such,
    // run alone within the script's turns, doesn't return: it ends so.
    ensures unopened { result ≡ 7 → (class : List ℕ) × (answer : Answer)
        × IsUnopenedOfWords words.now (F.seen folder.old).files class answer
        × Appends (O.written out.old) (O.written out.new)
        (error_text (codes "7") (class and answer_text answer)) }

    // Where a file stands under the folder at the path where rewriting puts the helper of arrays,
    // nothing is run or rewritten.
    ensures helper_path { HasHelperOfWords words.now (F.seen folder.old).files
        → IsRefusedOrFailed result }

    // A fault of the folder is one of this command's calls, and its path is printed; the new files
    // before one whose put failed were put whole. A fault of the sink is the sink's.
    ensures outside { result ≡ 8 → (path : List ℕ)
        × FailedOutside words.now path (F.seen folder.old) (F.seen folder.new)
        × Appends (O.written out.old) (O.written out.new) (error_text (codes "8") path) }
    ensures not_put { result ≡ 11 → (path : List ℕ)
        × FailedPutOfWords words.now path (F.seen folder.old) (F.seen folder.new)
        × Appends (O.written out.old) (O.written out.new) (error_text (codes "11") path) }
    ensures sink { result ≡ 9 → Rose (O.faults out.old) (O.faults out.new) }

    // What a sink took that failed is a front of what was to be printed. Where memory ran out, it
    // took nothing, or such a front before a write that ended for want of memory.
    ensures cut { result ≡ 9
        → IsCut words.now (F.seen folder.old) (F.seen folder.new) (O.written out.old) (O.written out.new) }
    ensures cut_or_none { result ≡ 10 → (O.written out.new ≡ O.written out.old)
        ⊎ (Rose (O.shortages out.old) (O.shortages out.new)
        × IsCut words.now (F.seen folder.old) (F.seen folder.new) (O.written out.old) (O.written out.new)) }

    // What can be run is run, and what can be rewritten is rewritten, unless the folder or the sink
    // fails or memory runs out.
    ensures complete { CanRunWords words.now (F.seen folder.old).files → IsRunOrFailed result }
    ensures complete_bank { CanRunBankOfWords words.now → IsBankRunOrFailed result }
    ensures complete_rewriting { CanRewriteWords words.now (F.seen folder.old).files
        → IsRewrittenOrFailed result }

    // The folder's files stay as they were, but for those that a rewriting puts, all of them or the
    // first up to one of which nothing is known.
    ensures files_kept { IsNoRewriting words.now
        → (F.seen folder.new).files ≡ (F.seen folder.old).files }
    ensures refused_keeps { IsRefusal result
        → (F.seen folder.new).files ≡ (F.seen folder.old).files }
    ensures put { ArePut words.now (F.seen folder.old).files (F.seen folder.new).files }

    ensures statuses { IsStatus result }
{
    let Ok(outcome) = outcome_of(rt, alloc, words, folder, gates) else {
        return 10;
    };
    let status = outcome.status();
    let Ok(text) = text_of(alloc, outcome) else {
        return 10;
    };
    match print(out, text.as_slice()) {
        Ok(()) => status,
        Err(IoEnd::Failed) => 9,
        Err(IoEnd::NoMemory) => 10,
    }
}

/// How the command that the words ask for ends.
fn outcome_of<R: Threads + Sync, F: Folder, G: Gate + Send + Drop>(
    rt: &R,
    alloc: Global,
    words: &[String],
    folder: &mut F,
    gates: &mut Vec<G>,
) -> Result<Outcome, NoMemory>
    requires gates { length gates.old.items ≡ 16 }
    ensures told { IfOk result (TellsOutcome words.now (F.seen folder.old).files (told_by G.told gates.old.items) (told_by G.told gates.new.items)) }
    ensures outcome { IfOk result (IsOutcome words.now (F.seen folder.old) (F.seen folder.new)) }
    ensures files_kept { IsNoRewriting words.now → (F.seen folder.new).files ≡ (F.seen folder.old).files }
    ensures put { ArePut words.now (F.seen folder.old).files (F.seen folder.new).files }
{
    match command_of(words) {
        Some(Command::Run { dir, script }) => run_command(rt, alloc, folder, dir, script, gates),
        Some(Command::Rewrite { dir, out }) => rewrite_command(alloc, folder, dir, out),
        None => bank_or_usage(rt, alloc, words, gates),
    }
}

/// How the command ends that words ask for that name no folder: that of a bank, or none.
fn bank_or_usage<R: Threads + Sync, G: Gate + Send + Drop>(
    rt: &R,
    alloc: Global,
    words: &[String],
    gates: &mut Vec<G>,
) -> Result<Outcome, NoMemory>
    requires none { AsksNoFolder words.now }
    requires gates { length gates.old.items ≡ 16 }
    ensures told { IfOk result (λ o. (files : Option Files) → TellsOutcome words.now files (told_by G.told gates.old.items) (told_by G.told gates.new.items) o) }
    ensures outcome { IfOk result (λ o. (old new : Seen) → new.files ≡ old.files → IsOutcome words.now old new o) }
{
    match bank_of(alloc, words)? {
        Some(asked) => bank_command(rt, alloc, asked, gates),
        None => Ok(Outcome::Usage),
    }
}
