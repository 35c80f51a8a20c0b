ghost use Rattle.std.specs.Prelude.{◌≡◌};

use jmodel::access::Access;
use jmodel::value::{Answer, Stamp};
use std::alloc::{AllocError, Global};
use std::marker::Brand;
use std::snapshot::Snapshot;
use tx_core::{Engine, Solo, TxEnd, WriteLog};

/// The engine over these words, before any commit.
pub(crate) fn over(alloc: Global, words: Vec<u64>) -> Solo<Brand>
    ensures { result.clock ≡ 0 }
{
    Solo::<Brand>::new(alloc, words)
}

/// What an attempt reads at an address.
fn read(engine: &mut Solo<Brand>, address: u64) -> Result<u64, TxEnd>
    ensures { engine.new.clock ≡ engine.old.clock }
{
    if let Err(conflict) = engine.before_read(address) {
        return Err(TxEnd::Conflict(conflict));
    }
    let word = engine.raw(address);
    engine.on_read(address, word)
}

/// Writes a word, reads it again and commits.
fn writes(engine: &mut Solo<Brand>) -> Result<(u64, Stamp), TxEnd>
    requires { engine.old.clock ≡ 0 }
{
    engine.begin();
    engine.on_write(1, 7)?;
    let word = read(engine, 1)?;
    let stamp = engine.commit(Snapshot::of(&Answer::Returned(None)), Snapshot::of(&0))?;
    Ok((word, stamp))
}

#[test]
fn an_attempt_reads_its_own_write_and_commits_it(rt: HostRuntime) {
    let words = vec![in rt.alloc(); 5; 3].expect(&rt, "memory");
    let mut engine = over(rt.alloc(), words);
    let done = writes(&mut engine);
    let ticks = engine.ticks();
    assert!(rt;
        matches!(
            done,
            Ok((
                7,
                Stamp {
                    at: 1,
                    update: true
                }
            ))
        ) && ticks == 1
    );
    assert!(rt; engine.into_words().as_slice() == [5, 7, 5].as_slice());
}

/// Rolls a write back, and then ends another as refused.
fn leaves_nothing(engine: &mut Solo<Brand>) -> Result<Stamp, TxEnd> {
    engine.begin();
    engine.on_write(1, 7)?;
    engine.rollback();
    engine.begin();
    engine.on_write(1, 8)?;
    Ok(engine.finish_refused(Snapshot::of(&Answer::Budget)))
}

#[test]
fn what_does_not_commit_leaves_nothing(rt: HostRuntime) {
    let words = vec![in rt.alloc(); 5; 3].expect(&rt, "memory");
    let mut engine = over(rt.alloc(), words);
    let done = leaves_nothing(&mut engine);
    let words = engine.into_words();
    assert!(rt;
        matches!(
            done,
            Ok(Stamp {
                at: 0,
                update: false
            })
        ) && words.as_slice() == [5, 5, 5].as_slice()
    );
}

fn logs(log: &mut WriteLog) -> Result<(), AllocError> {
    for (address, word) in [(4, 1), (9, 2), (4, 3)] {
        log.push(Access { address, word })?;
    }
    Ok(())
}

/// Whether the log gives each address once, in the order of the first writes, with its last word.
fn is_listed(log: &WriteLog) -> bool {
    let mut left = log.iter();
    left.next() == Some((&4, &3)) && left.next() == Some((&9, &2)) && left.next() == None
}

#[test]
fn a_log_knows_the_last_word_of_each_address(rt: HostRuntime) {
    let mut log = WriteLog::new(rt.alloc());
    let done = logs(&mut log);
    let is_kept = log.written(4) == Some(3) && log.written(5) == None && is_listed(&log);
    log.clear();
    assert!(rt; done.is_ok() && is_kept && log.is_empty());
}
