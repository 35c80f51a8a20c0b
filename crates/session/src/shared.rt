//! Calls over a table of shared words, by one of its engines.
ghost use Rattle.std.specs.Prelude.{◌≡◌, ◌≢◌, ◌≤◌, ◌<◌, ◌+◌, ◌*◌, ◌^◌, ℕ, suc, List, [], length, reverse, IfOk};
ghost use Rattle.std.specs.List.{AllByRecursion};
ghost use Rattle.atomic_table.specs.Seated.{TableId};
ghost use Rattle.jmodel.specs.history.History.{Entry};
ghost use Rattle.machine.specs.Sound.{IsOverStates};
ghost use Rattle.tx_table.specs.Book.{Book, Unticked};
ghost use Rattle.tx_table.specs.Passes.{book, IsOf};
ghost use Rattle.tl2.specs.Standing.{Keeps};
ghost use Rattle.session.specs.Engines.{pass_of, named_by, StandsIn};
ghost use Rattle.session.specs.Rule.{IsRuled, IsReady, IsCallOf, Begun};
ghost use Rattle.session.specs.Lane.{HasMade};
ghost use Rattle.objects.specs.rewriting.Events.{Grows};
ghost use Rattle.machine.specs.Machine.{bounds_of};
ghost use Rattle.session.specs.Passes.{IsStarting, IsEnding, HasSpent};
ghost use Rattle.session.specs.Telling.{IsRecordOf, HasTold};

use crate::call::Making;
use crate::record::{Lane, Place};
use crate::session::Session;
use engines::TableEngine;
use machine::{Gate, Room};
use script::{EngineKind, Known};
use std::alloc::{AllocError, Global};
use std::marker::{Brand, PhantomData};
use std::snapshot::Snapshot;
use tx_table::{Calling, Pass, Ruled, Shared};

/// The engine of a kind, over a pass that holds no stripe. No memory.
pub fn engine_of<'a, T: Ruled, C: Calling>(
    kind: EngineKind,
    alloc: Global,
    shared: &'a Shared<T>,
    pass: Pass,
    call: Snapshot<C>,
) -> TableEngine<'a, T, C>
    requires table { IsOf shared.now.table.shared.table_id pass }
    requires free { ((book pass).face.held ≡ []) × ((book pass).face.stage ≡ Unticked) }
    ensures pass { pass_of result ≡ pass }
    ensures call { named_by result ≡ call.value }
    ensures stands { (h : List Entry) → (book pass).entries ≡ reverse h → Keeps C.began pass → StandsIn C.began result h (length (book pass).lost) [] [] }
{
    match kind {
        EngineKind::Tl2 => TableEngine::tl2(alloc, shared, pass, call),
        EngineKind::Lsa => TableEngine::lsa(alloc, shared, pass, call),
    }
}

impl<'a> Making<'a> {
    /// Makes the calls of a lane from a place on, one after another, over a pass of a table that others share. It ends before the first call whose attempts
    /// are used up by conflicts. A pass that holds every number meets none, so that all are made. Each call may take the turns and the attempts of
    /// `limits`, and the calls together the words of its room, which is that of the lane. The rewritten program is what runs, and what the table's history
    /// may begin with is of states. Gives the pass back; the entries that it got stand behind all that it knew. The gate is told the events of the calls'
    /// attempts, and given back.
    pub fn make_shared<T: Ruled, G: Gate + Drop>(
        &self,
        kind: EngineKind,
        shared: &Shared<T>,
        pass: Pass,
        at: Place,
        calls: &[Known],
        gate: G,
    ) -> Result<((Lane, Pass), G), AllocError>
        requires ready { IsReady self.now.original.now self.now.rewritten.now }
        requires calls { AllByRecursion (IsCallOf self.now.original.now) calls.now }
        requires few { at.first + length calls.now ≤ 100000 }
        requires attempts { (1 ≤ self.now.limits.attempts) × (self.now.limits.attempts ≤ 1000000) }
        requires region { self.now.limits.room.region ≡ suc at.lane }
        requires fits { self.now.limits.room.region * self.now.limits.room.size + self.now.limits.room.size < 2 ^ 64 }
        requires rule { (e : Entry) → IsRuled self.now.original.now self.now.rewritten.now self.now.limits.room.size self.now.limits.budget self.now.limits.attempts e → T.rule e }
        requires states { IsOverStates self.now.original.now self.now.limits (Begun T T.story) T.rule }
        requires pass { IsStarting shared.now.table.shared.table_id at self.now.limits.room.used (length calls.now) pass }
        ensures made { IfOk result (λ r. (h : List Entry) × IsEnding shared.now.table.shared.table_id (book pass) at (length calls.now) r.0.0.made r.0.0.used h r.0.1 × HasMade at self.now.limits.room.used calls.now h r.0.0) }
        ensures stopped { IfOk result (λ r. r.0.0.made ≢ length calls.now → HasSpent self.now.original.now self.now.rewritten.now self.now.limits calls.now r.0.0.made r.0.0.used (book pass) r.0.1) }
        ensures all { (book pass).numbers ≡ 2 ^ 20 → IfOk result (λ r. r.0.0.made ≡ length calls.now) }
        // Where the gate tells its events, they are those before, and then the events of the placed calls' runs, each in one piece, in their order.
        ensures told { IfOk result (λ r. HasTold self.now.rewritten.now (bounds_of self.now.limits) (IsRecordOf at calls.now) r.0.0.placed.items (Grows (G.told gate) (G.told r.1))) }
    {
        self.make_over::<Brand, T, G>(kind, shared, pass, at, calls, gate)
    }

    fn make_over<K: Beginning, T: Ruled, G: Gate + Drop>(
        &self,
        kind: EngineKind,
        shared: &Shared<T>,
        pass: Pass,
        at: Place,
        calls: &[Known],
        gate: G,
    ) -> Result<((Lane, Pass), G), AllocError>
        requires ready { IsReady self.now.original.now self.now.rewritten.now }
        requires calls { AllByRecursion (IsCallOf self.now.original.now) calls.now }
        requires few { at.first + length calls.now ≤ 100000 }
        requires attempts { (1 ≤ self.now.limits.attempts) × (self.now.limits.attempts ≤ 1000000) }
        requires region { self.now.limits.room.region ≡ suc at.lane }
        requires fits { self.now.limits.room.region * self.now.limits.room.size + self.now.limits.room.size < 2 ^ 64 }
        requires rule { (e : Entry) → IsRuled self.now.original.now self.now.rewritten.now self.now.limits.room.size self.now.limits.budget self.now.limits.attempts e → T.rule e }
        requires states { IsOverStates self.now.original.now self.now.limits (Begun T T.story) T.rule }
        requires pass { IsStarting shared.now.table.shared.table_id at self.now.limits.room.used (length calls.now) pass }
        requires began { K.began shared.now.table.shared.table_id (book pass) }
        requires only { (t : TableId) (b : Book) → K.began t b → (t ≡ shared.now.table.shared.table_id) × (b ≡ book pass) }
        ensures made { IfOk result (λ r. (h : List Entry) × IsEnding shared.now.table.shared.table_id (book pass) at (length calls.now) r.0.0.made r.0.0.used h r.0.1 × HasMade at self.now.limits.room.used calls.now h r.0.0) }
        ensures stopped { IfOk result (λ r. r.0.0.made ≢ length calls.now → HasSpent self.now.original.now self.now.rewritten.now self.now.limits calls.now r.0.0.made r.0.0.used (book pass) r.0.1) }
        ensures all { (book pass).numbers ≡ 2 ^ 20 → IfOk result (λ r. r.0.0.made ≡ length calls.now) }
        // Where the gate tells its events, they are those before, and then the events of the placed calls' runs, each in one piece, in their order.
        ensures told { IfOk result (λ r. HasTold self.now.rewritten.now (bounds_of self.now.limits) (IsRecordOf at calls.now) r.0.0.placed.items (Grows (G.told gate) (G.told r.1))) }
    {
        let Some(first) = calls.first() else {
            let lane = Lane::new(self.alloc, self.limits.room.used);
            return Ok(((lane, pass), gate));
        };
        let engine = engine_of(
            kind,
            self.alloc,
            shared,
            pass,
            Named::<K>::of(self.limits.room, at, first),
        );
        let mut session = Session::open(*self, engine, gate);
        for (index, call) in calls.iter().enumerate() {
            let here = at.onward(index);
            session
                .engine
                .set_call(Named::of(self.limits.room, here, call));
            let is_made = session.call(here, call)?;
            if !is_made {
                break;
            }
        }
        let (engine, gate, lane) = session.into_parts();
        Ok(((lane, engine.into_pass()), gate))
    }
}

/// Which table a pass is of, and its book as its calls began. A caller picks them for its proof. `Brand` says nothing of them.
pub trait Beginning {
    ghost use Rattle.atomic_table.specs.Seated.{TableId};
    ghost use Rattle.tx_table.specs.Book.{Book};

    ghost began: { TableId → Book → Type 0 };
}

impl Beginning for Brand {
    ghost began = { λ _ _. ⊥ };
}

/// Names the call at a place, for contracts alone.
#[derive(Drop)]
pub struct Named<'a, K> {
    room: Room,
    at: Place,
    call: &'a Known,
    of: PhantomData<K>,
}

impl<'a, K: Beginning> Calling for Named<'a, K> {
    ghost use Rattle.session.specs.Adds.{call_of};

    ghost call = { λ n. call_of n.room n.at n.call.now };

    ghost began = { K.began };
}

impl<'a, K> Named<'a, K> {
    ghost use Rattle.std.specs.Prelude.{◌≡◌};

    /// The call at a place, which takes words of a room's region.
    pub fn of(room: Room, at: Place, call: &'a Known) -> Snapshot<Self>
        ensures room { result.value.room ≡ room }
        ensures at { result.value.at ≡ at }
        ensures call { result.value.call.now ≡ call.now }
    {
        Snapshot::of(&Named {
            room,
            at,
            call,
            of: PhantomData,
        })
    }
}
