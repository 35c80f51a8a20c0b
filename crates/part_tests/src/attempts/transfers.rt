//! Sixteen threads move amounts between addresses that share a few stripes.
ghost use Rattle.std.specs.Prelude.{◌≡◌, ◌≤◌, ◌<◌, ◌+◌, ◌^◌, [], ℕ, Bool, List, All, length, IfOk, ⊤};
ghost use Rattle.jmodel.specs.history.History.{Entry};
ghost use Rattle.tx_table.specs.Book.{Unticked};
ghost use Rattle.tx_table.specs.Plays.{first_book, stays_here, goes_out};
ghost use Rattle.tx_table.specs.Passes.{book, IsOf, IsSame};
ghost use Rattle.tl2.specs.Trials.{StandsSomehow, IsWaiting, IsStarting, IsEnding, of_lane, regions_below};

use super::{CallAt, lazy, tries};
use jmodel::NoMemory;
use jmodel::access::Access;
use std::alloc::Global;
use std::snapshot::Snapshot;
use std::thread::{Threads, map_vec, yield_now};
use tl2::attempt::{Ruled, Tl2};
use tx_table::{Pass, Shared, Story};

/// How many moves each lane makes.
pub(super) const MOVES: u64 = 1_000;

/// A story of these words, sixteen lanes, and any entries.
#[derive(Drop)]
pub(super) struct Accounts {
    pub(super) words: Vec<u64>,
}

impl Story for Accounts {
    ghost use Rattle.std.specs.Prelude.{⊤};
    ghost use Rattle.tl2.specs.Trials.{regions_below};

    ghost story = { λ a. record { words = a.words.items; regions = regions_below 17; runs = λ e. ⊤ } };
}

impl Ruled for Accounts {
    ghost use Rattle.std.specs.Prelude.{⊤};

    ghost rule = { λ e. ⊤ };

    ghost keeps = { λ s e r. r };

    ghost ruled = { λ s e r. r };
}

/// A lane's number, and the pass that it starts with.
#[derive(Drop)]
pub(super) struct Lane {
    pub(super) number: u64,
    pub(super) pass: Pass,
}

/// The address of one of 64 accounts, of which 16 lie on each of 4 stripes.
pub(super) fn account(n: u64) -> u64 {
    n % 4 + 4096 * (n / 4 % 16)
}

/// Moves one from account to account until it was done as often as is wanted, and answers how often it was done.
fn moves_many<'a, T: Ruled>(tx: &mut Tl2<'a, T, CallAt>, lane: u64) -> u64
    requires runs { (e : Entry) → T.rule e }
    requires stands { StandsSomehow tx.old.shared.now.words tx.old.at tx.old.writes.items tx.old.pass }
    requires waits { IsWaiting lane 0 (book tx.old.pass) }
    requires ticks { (book tx.old.pass).ticks ≡ 0 }
    ensures ticks { (book tx.new.pass).ticks ≤ 100000000 }
    ensures same { IsSame tx.old.pass tx.new.pass × ((book tx.new.pass).numbers ≡ (book tx.old.pass).numbers) × ((book tx.new.pass).fresh ≡ (book tx.old.pass).fresh) }
{
    let mut done = 0;
    let mut index = 0;
    while index < 100_000_000 && done < MOVES {
        let from = Access {
            address: account(lane.wrapping_add(done)),
            word: u64::MAX,
        };
        let to = Access {
            address: account(7 * done),
            word: 1,
        };
        if tries(tx, lane, index, &[from, to]).is_ok() {
            done += 1;
        } else {
            yield_now();
        }
        index += 1;
    }
    done
}

/// What a thread does: its lane's moves, over an engine of its own.
fn runs(alloc: Global, shared: &Shared<Accounts>, lane: Lane) -> (u64, Pass)
    requires { IsStarting shared.now.table.shared.table_id lane.number lane.pass }
    ensures { IsEnding shared.now.table.shared.table_id result.1 }
{
    let Lane { number, pass } = lane;
    let first = CallAt {
        lane: number,
        index: 0,
    };
    let mut tx = Tl2::new(alloc, shared, pass, Snapshot::of(&first));
    let done = moves_many(&mut tx, number);
    (done, tx.into_pass())
}

/// Splits off a pass with the region of a lane.
fn split_lane(pass: &mut Pass, shared: &Shared<Accounts>, _lane: u64) -> Pass
    ghost given: { ℕ → Bool }
    requires told { given ≡ of_lane _lane }
    requires table { IsOf shared.now.table.shared.table_id pass.old }
    requires ready { (0 < (book pass.old).fresh) × (1 < (book pass.old).numbers) × ((book pass.old).fresh < 2 ^ 20) × ((book pass.old).ticks ≤ 2 ^ 40) }
    ensures same { IsSame pass.old pass.new × IsOf shared.now.table.shared.table_id result }
    ensures books { (book pass.new ≡ stays_here (of_lane _lane) (book pass.old)) × (book result ≡ goes_out (of_lane _lane) (book pass.old)) }
{
    pass.split(shared)
}

/// The sixteen lanes of a table that was just opened.
fn lanes_of(
    alloc: Global,
    shared: &Shared<Accounts>,
    pass: &mut Pass,
) -> Result<Vec<Lane>, NoMemory>
    requires table { IsOf shared.now.table.shared.table_id pass.old }
    requires first { (words : List ℕ) × (book pass.old ≡ first_book (record { words = words; regions = regions_below 17; runs = λ _. ⊤ })) }
    ensures len { IfOk result (λ lanes. length lanes.items ≡ 16) }
    ensures lanes { IfOk result (λ lanes. All (λ l. IsStarting shared.now.table.shared.table_id l.number l.pass) lanes.items) }
    ensures same { IsSame pass.old pass.new }
    ensures rest { IfOk result (λ _. ((book pass.new).numbers + 16 ≡ 2 ^ 20) × ((book pass.new).fresh < 2 ^ 20) × ((book pass.new).ticks ≡ 0) × ((book pass.new).face.held ≡ []) × ((book pass.new).face.stage ≡ Unticked)) }
{
    let mut lanes = Vec::new(alloc);
    for number in 0..16u64 {
        let pass = split_lane(pass, shared, number);
        lanes.push(Lane { number, pass })?;
    }
    Ok(lanes)
}

/// What a thread does by the engine that is wanted.
fn runs_by(is_lazy: bool, alloc: Global, shared: &Shared<Accounts>, lane: Lane) -> (u64, Pass)
    requires { IsStarting shared.now.table.shared.table_id lane.number lane.pass }
    ensures { IsEnding shared.now.table.shared.table_id result.1 }
{
    if is_lazy {
        lazy::runs(alloc, shared, lane)
    } else {
        runs(alloc, shared, lane)
    }
}

/// Each lane on a thread of its own: how many moves it made, and its pass.
fn all_run<R: Threads + Sync>(
    rt: &R,
    is_lazy: bool,
    alloc: Global,
    shared: &Shared<Accounts>,
    lanes: Vec<Lane>,
) -> Result<Vec<(u64, Pass)>, NoMemory>
    requires { All (λ l. IsStarting shared.now.table.shared.table_id l.number l.pass) lanes.items }
    ensures len { IfOk result (λ ended. length ended.items ≡ length lanes.items) }
    ensures ended { IfOk result (λ ended. All (λ l. IsEnding shared.now.table.shared.table_id l.1) ended.items) }
{
    Ok(map_vec(rt, lanes, &|lane| runs_by(is_lazy, alloc, shared, lane))?)
}

/// Joins the passes, and answers whether each lane made all of its moves.
fn join_all(shared: &Shared<Accounts>, pass: &mut Pass, ended: Vec<(u64, Pass)>) -> bool
    requires table { IsOf shared.now.table.shared.table_id pass.old }
    requires ended { All (λ l. IsEnding shared.now.table.shared.table_id l.1) ended.items }
    requires few { length ended.items ≤ 16 }
    requires ready { ((book pass.old).fresh < 2 ^ 20) × ((book pass.old).ticks ≡ 0) × ((book pass.old).face.held ≡ []) × ((book pass.old).face.stage ≡ Unticked) }
    ensures same { IsSame pass.old pass.new }
    ensures numbers { (book pass.new).numbers ≡ (book pass.old).numbers + length ended.items }
    ensures free { (book pass.new).face.held ≡ [] }
{
    let mut ended = ended;
    let mut all = true;
    while let Some((done, other)) = ended.pop() {
        pass.join(shared, other);
        all = all && done == MOVES;
    }
    all
}

/// The sum of words, which wraps.
fn total(words: &[u64]) -> u64 {
    words
        .iter()
        .fold(0, |sum: u64, word| sum.wrapping_add(*word))
}

/// Whether the words after moves are others with the same sum.
fn are_moved(before: &[u64], after: &[u64]) -> bool {
    before != after && total(before) == total(after)
}

/// Whether sixteen threads made all of their moves, and left words with the same sum.
fn all_move<R: Threads + Sync>(rt: &R, is_lazy: bool, alloc: Global) -> Result<bool, NoMemory> {
    let words = Vec::from_elem(alloc, 100u64, 65_536)?;
    let told = Accounts {
        words: words.clone()?,
    };
    let (shared, mut pass) = Shared::open(alloc, words, Snapshot::of(&told))?;
    let lanes = lanes_of(alloc, &shared, &mut pass)?;
    let ended = all_run(rt, is_lazy, alloc, &shared, lanes)?;
    let all = join_all(&shared, &mut pass, ended);
    let Ok(left) = shared.close(alloc, pass) else {
        return Err(NoMemory);
    };
    Ok(all && are_moved(&told.words, &left))
}

#[test]
fn sixteen_threads_move_amounts_between_accounts(rt: HostRuntime) -> Result<(), NoMemory> {
    let moved = all_move(&rt, false, rt.alloc())?;
    assert!(rt; moved);
    Ok(())
}

#[test]
fn sixteen_threads_move_amounts_and_take_stripes_as_they_write(
    rt: HostRuntime,
) -> Result<(), NoMemory> {
    let moved = all_move(&rt, true, rt.alloc())?;
    assert!(rt; moved);
    Ok(())
}
