//! The same attempts by the engine that takes stripes as it writes.
ghost use Rattle.std.specs.Prelude.{◌≡◌, ◌≤◌, ◌<◌, ◌+◌, ◌^◌, ℕ, IfOk};
ghost use Rattle.jmodel.specs.history.History.{Call, Entry};
ghost use Rattle.tx_table.specs.Passes.{book, IsSame};
ghost use Rattle.tx_table.specs.Trials.{the_call};
ghost use Rattle.tl2.specs.Standing.{IsOpen, Awaits};
ghost use Rattle.tl2.specs.Trials.{IsWaiting, IsStarting, IsEnding};
ghost use Rattle.lsa.specs.Owning.{IsAkin};
ghost use Rattle.lsa.specs.Trials.{StandsAnyhow};

use super::CallAt;
use super::transfers::{Accounts, Lane, MOVES, account};
use jmodel::access::Access;
use jmodel::value::Answer;
use lsa::Lsa;
use std::alloc::Global;
use std::snapshot::Snapshot;
use std::thread::yield_now;
use tx_core::TxEnd;
use tx_table::{Pass, Ruled, Shared};

/// Reads a word and writes it there with an amount more, which wraps.
fn changes<'a, T: Ruled>(
    tx: &mut Lsa<'a, T, CallAt>,
    address: u64,
    amount: u64,
) -> Result<(), TxEnd>
    requires open { IsOpen tx.old.shared.now.words tx.old.at (the_call tx.old.call.value.lane tx.old.call.value.index) (book tx.old.pass) }
    requires stands { StandsAnyhow tx.old.shared.now.words tx.old.at tx.old.writes.items tx.old.pass }
    ensures open { IfOk result (λ _. IsOpen tx.new.shared.now.words tx.new.at (the_call tx.new.call.value.lane tx.new.call.value.index) (book tx.new.pass)) }
    ensures awaits { (c : Call) (used : ℕ) → Awaits (the_call tx.old.call.value.lane tx.old.call.value.index) (book tx.old.pass) c used → Awaits (the_call tx.new.call.value.lane tx.new.call.value.index) (book tx.new.pass) c used }
    ensures stands { StandsAnyhow tx.new.shared.now.words tx.new.at tx.new.writes.items tx.new.pass }
    ensures same { IsSame tx.old.pass tx.new.pass × IsAkin (book tx.old.pass) (book tx.new.pass) }
{
    if let Err(conflict) = tx.before_read(address) {
        return Err(TxEnd::Conflict(conflict));
    }
    let raw = tx.raw(address);
    let word = tx.on_read(address, raw)?;
    tx.on_write(address, word.wrapping_add(amount))
}

/// Changes words by the amounts that are told for their addresses, one after the other.
fn changes_all<'a, T: Ruled>(tx: &mut Lsa<'a, T, CallAt>, amounts: &[Access]) -> Result<(), TxEnd>
    requires open { IsOpen tx.old.shared.now.words tx.old.at (the_call tx.old.call.value.lane tx.old.call.value.index) (book tx.old.pass) }
    requires stands { StandsAnyhow tx.old.shared.now.words tx.old.at tx.old.writes.items tx.old.pass }
    ensures open { IfOk result (λ _. IsOpen tx.new.shared.now.words tx.new.at (the_call tx.new.call.value.lane tx.new.call.value.index) (book tx.new.pass)) }
    ensures awaits { (c : Call) (used : ℕ) → Awaits (the_call tx.old.call.value.lane tx.old.call.value.index) (book tx.old.pass) c used → Awaits (the_call tx.new.call.value.lane tx.new.call.value.index) (book tx.new.pass) c used }
    ensures stands { StandsAnyhow tx.new.shared.now.words tx.new.at tx.new.writes.items tx.new.pass }
    ensures same { IsSame tx.old.pass tx.new.pass × IsAkin (book tx.old.pass) (book tx.new.pass) }
{
    for amount in amounts {
        changes(tx, amount.address, amount.word)?;
    }
    Ok(())
}

/// Changes words in an attempt at a call of a lane.
fn tries<'a, T: Ruled>(
    tx: &mut Lsa<'a, T, CallAt>,
    lane: u64,
    index: u64,
    amounts: &[Access],
) -> Result<(), TxEnd>
    requires runs { (e : Entry) → T.rule e }
    requires stands { StandsAnyhow tx.old.shared.now.words tx.old.at tx.old.writes.items tx.old.pass }
    requires waits { IsWaiting lane index (book tx.old.pass) }
    requires ticks { (book tx.old.pass).ticks < 2 ^ 40 }
    ensures stands { StandsAnyhow tx.new.shared.now.words tx.new.at tx.new.writes.items tx.new.pass }
    ensures waits { IsWaiting lane (index + 1) (book tx.new.pass) }
    ensures ticks { (book tx.new.pass).ticks ≤ (book tx.old.pass).ticks + 1 }
    ensures same { IsSame tx.old.pass tx.new.pass × ((book tx.new.pass).numbers ≡ (book tx.old.pass).numbers) × ((book tx.new.pass).fresh ≡ (book tx.old.pass).fresh) }
{
    tx.set_call(Snapshot::of(&CallAt { lane, index }));
    tx.begin();
    if let Err(end) = changes_all(tx, amounts) {
        tx.rollback();
        return Err(end);
    }
    match tx.commit(Snapshot::of(&Answer::Returned(None)), Snapshot::of(&0)) {
        Ok(_) => Ok(()),
        Err(end) => Err(end),
    }
}

/// Moves one from account to account until it was done as often as is wanted, and answers how often it was done.
fn moves_many<'a, T: Ruled>(tx: &mut Lsa<'a, T, CallAt>, lane: u64) -> u64
    requires runs { (e : Entry) → T.rule e }
    requires stands { StandsAnyhow tx.old.shared.now.words tx.old.at tx.old.writes.items tx.old.pass }
    requires waits { IsWaiting lane 0 (book tx.old.pass) }
    requires ticks { (book tx.old.pass).ticks ≡ 0 }
    ensures ticks { (book tx.new.pass).ticks ≤ 100000000 }
    ensures same { IsSame tx.old.pass tx.new.pass × ((book tx.new.pass).numbers ≡ (book tx.old.pass).numbers) × ((book tx.new.pass).fresh ≡ (book tx.old.pass).fresh) }
{
    let mut done = 0;
    let mut index = 0;
    while index < 100_000_000 && done < MOVES {
        let from = Access {
            address: account(lane.wrapping_add(done)),
            word: u64::MAX,
        };
        let to = Access {
            address: account(7 * done),
            word: 1,
        };
        if tries(tx, lane, index, &[from, to]).is_ok() {
            done += 1;
        } else {
            yield_now();
        }
        index += 1;
    }
    done
}

/// What a thread does: its lane's moves, over an engine of its own.
pub(super) fn runs(alloc: Global, shared: &Shared<Accounts>, lane: Lane) -> (u64, Pass)
    requires { IsStarting shared.now.table.shared.table_id lane.number lane.pass }
    ensures { IsEnding shared.now.table.shared.table_id result.1 }
{
    let Lane { number, pass } = lane;
    let first = CallAt {
        lane: number,
        index: 0,
    };
    let mut tx = Lsa::new(alloc, shared, pass, Snapshot::of(&first));
    let done = moves_many(&mut tx, number);
    (done, tx.into_pass())
}
