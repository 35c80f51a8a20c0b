//! Attempts over a table of shared words.
ghost use Rattle.std.specs.Prelude.{◌≡◌, ◌≤◌, ◌<◌, ◌+◌, ◌^◌, ℕ, IfOk};
ghost use Rattle.jmodel.specs.history.History.{Call, Entry};
ghost use Rattle.tx_table.specs.Passes.{book, IsSame, IsKin};
ghost use Rattle.tx_table.specs.Trials.{the_call};
ghost use Rattle.tl2.specs.Standing.{IsOpen, Awaits};
ghost use Rattle.tl2.specs.Trials.{StandsSomehow, IsWaiting};

use jmodel::access::Access;
use jmodel::value::Answer;
use std::snapshot::Snapshot;
use tl2::attempt::{Calling, Ruled, Tl2};
use tx_core::TxEnd;

mod lazy;
mod transfers;

/// A call of a lane.
#[derive(Drop)]
struct CallAt {
    lane: u64,
    index: u64,
}

impl Calling for CallAt {
    ghost use Rattle.tx_table.specs.Trials.{the_call};

    ghost call = { λ c. the_call c.lane c.index };
}

/// Reads a word and writes it there with an amount more, which wraps.
fn changes<'a, T: Ruled>(
    tx: &mut Tl2<'a, T, CallAt>,
    address: u64,
    amount: u64,
) -> Result<(), TxEnd>
    requires open { IsOpen tx.old.shared.now.words tx.old.at (the_call tx.old.call.value.lane tx.old.call.value.index) (book tx.old.pass) }
    requires stands { StandsSomehow tx.old.shared.now.words tx.old.at tx.old.writes.items tx.old.pass }
    ensures open { IfOk result (λ _. IsOpen tx.new.shared.now.words tx.new.at (the_call tx.new.call.value.lane tx.new.call.value.index) (book tx.new.pass)) }
    ensures awaits { (c : Call) (used : ℕ) → Awaits (the_call tx.old.call.value.lane tx.old.call.value.index) (book tx.old.pass) c used → Awaits (the_call tx.new.call.value.lane tx.new.call.value.index) (book tx.new.pass) c used }
    ensures stands { StandsSomehow tx.new.shared.now.words tx.new.at tx.new.writes.items tx.new.pass }
    ensures same { IsSame tx.old.pass tx.new.pass × IsKin (book tx.old.pass) (book tx.new.pass) }
{
    if let Err(conflict) = tx.before_read(address) {
        return Err(TxEnd::Conflict(conflict));
    }
    let raw = tx.raw(address);
    let word = tx.on_read(address, raw)?;
    tx.on_write(address, word.wrapping_add(amount))
}

/// Changes words by the amounts that are told for their addresses, one after the other.
fn changes_all<'a, T: Ruled>(tx: &mut Tl2<'a, T, CallAt>, amounts: &[Access]) -> Result<(), TxEnd>
    requires open { IsOpen tx.old.shared.now.words tx.old.at (the_call tx.old.call.value.lane tx.old.call.value.index) (book tx.old.pass) }
    requires stands { StandsSomehow tx.old.shared.now.words tx.old.at tx.old.writes.items tx.old.pass }
    ensures open { IfOk result (λ _. IsOpen tx.new.shared.now.words tx.new.at (the_call tx.new.call.value.lane tx.new.call.value.index) (book tx.new.pass)) }
    ensures awaits { (c : Call) (used : ℕ) → Awaits (the_call tx.old.call.value.lane tx.old.call.value.index) (book tx.old.pass) c used → Awaits (the_call tx.new.call.value.lane tx.new.call.value.index) (book tx.new.pass) c used }
    ensures stands { StandsSomehow tx.new.shared.now.words tx.new.at tx.new.writes.items tx.new.pass }
    ensures same { IsSame tx.old.pass tx.new.pass × IsKin (book tx.old.pass) (book tx.new.pass) }
{
    for amount in amounts {
        changes(tx, amount.address, amount.word)?;
    }
    Ok(())
}

/// Changes words in an attempt at a call of a lane.
fn tries<'a, T: Ruled>(
    tx: &mut Tl2<'a, T, CallAt>,
    lane: u64,
    index: u64,
    amounts: &[Access],
) -> Result<(), TxEnd>
    requires runs { (e : Entry) → T.rule e }
    requires stands { StandsSomehow tx.old.shared.now.words tx.old.at tx.old.writes.items tx.old.pass }
    requires waits { IsWaiting lane index (book tx.old.pass) }
    requires ticks { (book tx.old.pass).ticks < 2 ^ 40 }
    ensures stands { StandsSomehow tx.new.shared.now.words tx.new.at tx.new.writes.items tx.new.pass }
    ensures waits { IsWaiting lane (index + 1) (book tx.new.pass) }
    ensures ticks { (book tx.new.pass).ticks ≤ (book tx.old.pass).ticks + 1 }
    ensures same { IsSame tx.old.pass tx.new.pass × ((book tx.new.pass).numbers ≡ (book tx.old.pass).numbers) × ((book tx.new.pass).fresh ≡ (book tx.old.pass).fresh) }
{
    tx.set_call(Snapshot::of(&CallAt { lane, index }));
    tx.begin();
    if let Err(end) = changes_all(tx, amounts) {
        tx.rollback();
        return Err(end);
    }
    match tx.commit(Snapshot::of(&Answer::Returned(None)), Snapshot::of(&0)) {
        Ok(_) => Ok(()),
        Err(end) => Err(end),
    }
}
