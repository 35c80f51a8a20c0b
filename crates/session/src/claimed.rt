//! Calls that are claimed of a bag, over a table of shared words, by one of its engines.
ghost use Rattle.std.specs.Prelude.{◌≡◌, ◌≢◌, ◌≤◌, ◌<◌, ◌+◌, ◌*◌, ◌^◌, ℕ, suc, List, [], length, IfOk};
ghost use Rattle.std.specs.List.{AllByRecursion};
ghost use Rattle.atomic_table.specs.Seated.{TableId};
ghost use Rattle.claims.specs.Claims.{goes};
ghost use Rattle.claims.specs.Passes.{claims_of, IsOf};
ghost use Rattle.jmodel.specs.history.History.{Entry};
ghost use Rattle.machine.specs.Sound.{IsOverStates};
ghost use Rattle.tx_table.specs.Book.{Book};
ghost use Rattle.tx_table.specs.Passes.{book};
ghost use Rattle.session.specs.Rule.{IsRuled, IsReady, IsCallOf, Begun};
ghost use Rattle.session.specs.Lane.{HasMade};
ghost use Rattle.session.specs.Passes.{IsStarting, IsEnding, HasSpent};
ghost use Rattle.session.specs.Claimed.{calls_at, HasTaken, HasEmptied};
ghost use Rattle.objects.specs.rewriting.Events.{Grows};
ghost use Rattle.machine.specs.Machine.{bounds_of};
ghost use Rattle.session.specs.Telling.{IsRecordOf, HasTold};

use crate::call::Making;
use crate::record::{Lane, Place};
use crate::session::Session;
use crate::shared::{Beginning, Named, engine_of};
use claims::{Bag, BagPass};
use machine::Gate;
use script::{EngineKind, Known};
use std::alloc::AllocError;
use std::marker::Brand;
use tx_table::{Pass, Ruled, Shared};

/// What a worker took of a bag.
#[derive(Drop)]
pub struct Taken {
    /// What is kept of its calls, which are numbered from a place on in the order in which it claimed them.
    pub lane: Lane,
    /// Which calls of the bag it claimed: those that it made, and the one at which it stopped, if any.
    pub indexes: Vec<u32>,
    /// Its pass.
    pub pass: Pass,
}

impl<'a> Making<'a> {
    /// Claims the calls of a bag, one after another, and makes each over a pass of a table that others share. It ends once all are claimed, or at the first
    /// whose attempts are used up by conflicts. Each call may take the turns and the attempts of `limits`, and the calls together the words of its room,
    /// which is that of the lane. The rewritten program is what runs, and what the table's history may begin with is of states. The calls are numbered from
    /// the place on. Gives the pass back; the entries that it got stand behind all that it knew. The gate is told the events of the calls' attempts.
    pub fn make_claimed<T: Ruled, G: Gate + Drop>(
        &self,
        kind: EngineKind,
        shared: &Shared<T>,
        pass: Pass,
        at: Place,
        bag: &Bag,
        claims: &mut BagPass,
        calls: &[Known],
        gate: G,
    ) -> Result<(Taken, G), AllocError>
        requires ready { IsReady self.now.original.now self.now.rewritten.now }
        requires calls { AllByRecursion (IsCallOf self.now.original.now) calls.now }
        requires few { at.first + length calls.now ≤ 100000 }
        requires attempts { (1 ≤ self.now.limits.attempts) × (self.now.limits.attempts ≤ 1000000) }
        requires region { self.now.limits.room.region ≡ suc at.lane }
        requires fits { self.now.limits.room.region * self.now.limits.room.size + self.now.limits.room.size < 2 ^ 64 }
        requires rule { (e : Entry) → IsRuled self.now.original.now self.now.rewritten.now self.now.limits.room.size self.now.limits.budget self.now.limits.attempts e → T.rule e }
        requires states { IsOverStates self.now.original.now self.now.limits (Begun T T.story) T.rule }
        requires pass { IsStarting shared.now.table.shared.table_id at self.now.limits.room.used (length calls.now) pass }
        requires bag { IsOf bag.now claims.old × (bag.now.length ≡ length calls.now) }
        requires claims { claims_of claims.old ≡ goes (length calls.now + 1) }
        ensures made { IfOk result (λ r. (h : List Entry) × IsEnding shared.now.table.shared.table_id (book pass) at (length r.0.indexes.items) r.0.lane.made r.0.lane.used h r.0.pass × HasMade at self.now.limits.room.used (calls_at calls.now r.0.indexes.items) h r.0.lane) }
        ensures stopped { IfOk result (λ r. r.0.lane.made ≢ length r.0.indexes.items → HasSpent self.now.original.now self.now.rewritten.now self.now.limits (calls_at calls.now r.0.indexes.items) r.0.lane.made r.0.lane.used (book pass) r.0.pass) }
        ensures emptied { IfOk result (λ r. r.0.lane.made ≡ length r.0.indexes.items → HasEmptied (length calls.now) (claims_of claims.new) r.0.indexes.items) }
        ensures bag { IsOf bag.now claims.new }
        ensures claims { IfOk result (λ r. HasTaken (length calls.now) (claims_of claims.new) r.0.indexes.items) }
        // Where the gate tells its events, they are those before, and then the events of the placed calls' runs, each in one piece, in their order.
        ensures told { IfOk result (λ r. HasTold self.now.rewritten.now (bounds_of self.now.limits) (IsRecordOf at (calls_at calls.now r.0.indexes.items)) r.0.lane.placed.items (Grows (G.told gate) (G.told r.1))) }
    {
        self.claim_over::<Brand, T, G>(kind, shared, pass, at, bag, claims, calls, gate)
    }

    fn claim_over<K: Beginning, T: Ruled, G: Gate + Drop>(
        &self,
        kind: EngineKind,
        shared: &Shared<T>,
        pass: Pass,
        at: Place,
        bag: &Bag,
        claims: &mut BagPass,
        calls: &[Known],
        gate: G,
    ) -> Result<(Taken, G), AllocError>
        requires ready { IsReady self.now.original.now self.now.rewritten.now }
        requires calls { AllByRecursion (IsCallOf self.now.original.now) calls.now }
        requires few { at.first + length calls.now ≤ 100000 }
        requires attempts { (1 ≤ self.now.limits.attempts) × (self.now.limits.attempts ≤ 1000000) }
        requires region { self.now.limits.room.region ≡ suc at.lane }
        requires fits { self.now.limits.room.region * self.now.limits.room.size + self.now.limits.room.size < 2 ^ 64 }
        requires rule { (e : Entry) → IsRuled self.now.original.now self.now.rewritten.now self.now.limits.room.size self.now.limits.budget self.now.limits.attempts e → T.rule e }
        requires states { IsOverStates self.now.original.now self.now.limits (Begun T T.story) T.rule }
        requires pass { IsStarting shared.now.table.shared.table_id at self.now.limits.room.used (length calls.now) pass }
        requires began { K.began shared.now.table.shared.table_id (book pass) }
        requires only { (t : TableId) (b : Book) → K.began t b → (t ≡ shared.now.table.shared.table_id) × (b ≡ book pass) }
        requires bag { IsOf bag.now claims.old × (bag.now.length ≡ length calls.now) }
        requires claims { claims_of claims.old ≡ goes (length calls.now + 1) }
        ensures made { IfOk result (λ r. (h : List Entry) × IsEnding shared.now.table.shared.table_id (book pass) at (length r.0.indexes.items) r.0.lane.made r.0.lane.used h r.0.pass × HasMade at self.now.limits.room.used (calls_at calls.now r.0.indexes.items) h r.0.lane) }
        ensures stopped { IfOk result (λ r. r.0.lane.made ≢ length r.0.indexes.items → HasSpent self.now.original.now self.now.rewritten.now self.now.limits (calls_at calls.now r.0.indexes.items) r.0.lane.made r.0.lane.used (book pass) r.0.pass) }
        ensures emptied { IfOk result (λ r. r.0.lane.made ≡ length r.0.indexes.items → HasEmptied (length calls.now) (claims_of claims.new) r.0.indexes.items) }
        ensures bag { IsOf bag.now claims.new }
        ensures claims { IfOk result (λ r. HasTaken (length calls.now) (claims_of claims.new) r.0.indexes.items) }
        // Where the gate tells its events, they are those before, and then the events of the placed calls' runs, each in one piece, in their order.
        ensures told { IfOk result (λ r. HasTold self.now.rewritten.now (bounds_of self.now.limits) (IsRecordOf at (calls_at calls.now r.0.indexes.items)) r.0.lane.placed.items (Grows (G.told gate) (G.told r.1))) }
    {
        let mut indexes = Vec::new(self.alloc);
        let Some(first) = calls.first() else {
            let lane = Lane::new(self.alloc, self.limits.room.used);
            return Ok((
                Taken {
                    lane,
                    indexes,
                    pass,
                },
                gate,
            ));
        };
        let engine = engine_of(
            kind,
            self.alloc,
            shared,
            pass,
            Named::<K>::of(self.limits.room, at, first),
        );
        let mut session = Session::open(*self, engine, gate);
        for count in 0..calls.len() {
            let Some(index) = claims.claim(bag) else {
                break;
            };
            indexes.push(index)?;
            let call = &calls[index as usize];
            let here = at.onward(count);
            session
                .engine
                .set_call(Named::of(self.limits.room, here, call));
            let is_made = session.call(here, call)?;
            if !is_made {
                break;
            }
        }
        let (engine, gate, lane) = session.into_parts();
        let pass = engine.into_pass();
        Ok((
            Taken {
                lane,
                indexes,
                pass,
            },
            gate,
        ))
    }
}
