//! A write, which takes the stripe of its address.
ghost use Rattle.std.specs.Prelude.{◌≡◌, ◌⊎◌, ◌+◌, ◌%◌, ◌^◌, [], ◌∷◌, ◌++◌, ℕ, List, true, false, cond, MatchResult, IfOk, IfErr, OnOk, OnErr};
ghost use Rattle.std.specs.Ordering.{nat_cmp};
ghost use Rattle.std.specs.BTreeMap.{is_at};
ghost use Rattle.std.specs.BTreeSet.{contains};
ghost use Rattle.jmodel.specs.history.Log.{Log, access};
ghost use Rattle.jmodel.specs.history.History.{Call, Entry};
ghost use Rattle.tx_core.specs.Engine.{raised};
ghost use Rattle.tx_table.specs.Book.{In};
ghost use Rattle.tx_table.specs.Rule.{Snapshot as Learns};
ghost use Rattle.tx_table.specs.Passes.{book, IsSame};
ghost use Rattle.tl2.specs.declared.plan.Stripe.{Stripe as SeenStripe};
ghost use Rattle.tl2.specs.Standing.{IsOpen, Awaits};
ghost use Rattle.lsa.specs.Conflicts.{Meets};
ghost use Rattle.lsa.specs.Owning.{IsAkin};
ghost use Rattle.lsa.specs.Standing.{StandsFor};

use crate::attempt::{Lsa, STRIPES};
use crate::extension::take_free;
use jmodel::access::Access;
use std::alloc::AllocError;
use std::collections::BTreeSet;
use tl2::attempt::At;
use tl2::plan::Stripe;
use tx_core::{Conflict, TxEnd};
use tx_table::{Calling, Ruled};

/// Takes the memory for the stripe of an address, the word of which is still to be filled in.
fn make_room(
    own: &mut BTreeSet<u64>,
    stripes: &mut Vec<Stripe>,
    address: u64,
) -> Result<(), AllocError>
    ensures own { OnOk result ((q : ℕ) → contains nat_cmp own.new q ≡ cond (is_at (nat_cmp (address % 4096)) q) true (contains nat_cmp own.old q)) }
    ensures ok { OnOk result (stripes.new.items ≡ stripes.old.items ++ (record { address = address; was_read = false; word = 0 }) ∷ []) }
    ensures err { OnErr result (stripes.new.items ≡ stripes.old.items) }
{
    own.insert(address % STRIPES)?;
    stripes.push(Stripe {
        address,
        was_read: false,
        word: 0,
    })?;
    Ok(())
}

/// Fills in the stripe of an address as the last one, with the word that it had.
fn fill_last(stripes: &mut Vec<Stripe>, address: u64, word: u64)
    ensures { (before : List SeenStripe) (last : SeenStripe) → stripes.old.items ≡ before ++ last ∷ [] → stripes.new.items ≡ before ++ (record { address = address; was_read = false; word = word }) ∷ [] }
{
    let count = stripes.len();
    if count > 0 {
        stripes[count - 1] = Stripe {
            address,
            was_read: false,
            word,
        };
    }
}

impl<'a, T: Ruled, C: Calling> Lsa<'a, T, C> {
    /// Logs a write, and takes the stripe of its address unless the attempt holds it. The memory of both is taken first, so a write that finds none takes no
    /// stripe. A version over the bound moves the bound first. A stripe that is held by another, or that changes meanwhile, is a conflict, which the
    /// pass's book keeps: at this address, or where the bound was to move at one that the attempt has read. A pass that holds every number meets none. A
    /// write past the heap is told as want of memory.
    pub fn on_write(&mut self, address: u64, word: u64) -> Result<(), TxEnd>
        requires { IsOpen self.old.shared.now.words self.old.at (C.call self.old.call.value) (book self.old.pass) }
        ensures run { (h : List Entry) (n : ℕ) (r w : Log) → StandsFor C.began self.old.shared.now.words self.old.at self.old.writes.items self.old.pass h n r w
            → MatchResult result (λ _. StandsFor C.began self.new.shared.now.words self.new.at self.new.writes.items self.new.pass h n r (access address word ∷ w))
            (λ end. StandsFor C.began self.new.shared.now.words self.new.at self.new.writes.items self.new.pass h (raised end n) r w) }
        ensures open { IfOk result (λ _. IsOpen self.new.shared.now.words self.new.at (C.call self.new.call.value) (book self.new.pass)) }
        ensures awaits { (c : Call) (used : ℕ) → Awaits (C.call self.old.call.value) (book self.old.pass) c used → Awaits (C.call self.new.call.value) (book self.new.pass) c used }
        ensures begins { (book self.new.pass).begins ≡ (book self.old.pass).begins }
        ensures ticks { (book self.new.pass).ticks ≡ (book self.old.pass).ticks }
        ensures same { IsSame self.old.pass self.new.pass × IsAkin (book self.old.pass) (book self.new.pass) }
        ensures snapshot { Learns (T.story self.old.shared.now.table.shared.key.story.value) (book self.old.pass) → Learns (T.story self.new.shared.now.table.shared.key.story.value) (book self.new.pass) }
        ensures seen { (e : Conflict) → result ≡ Err (TxEnd.Conflict e) → Meets (book self.old.pass) (book self.new.pass) e × ((e.address ≡ address) ⊎ In e.address self.old.reads.items) }
        ensures sole { (book self.old.pass).numbers ≡ 2 ^ 20 → IfErr result (λ end. end ≡ TxEnd.NoMemory) }
        ensures memory { result ≡ Err TxEnd.NoMemory → self.new.pass ≡ self.old.pass }
    {
        if address >= self.shared.words {
            return Err(TxEnd::NoMemory);
        }
        let Ok(()) = self.writes.push(Access { address, word }) else {
            return Err(TxEnd::NoMemory);
        };
        if self.own.contains(&(address % STRIPES)) {
            return Ok(());
        }
        let Ok(()) = make_room(&mut self.own, &mut self.stripes, address) else {
            self.at = At::Outside;
            return Err(TxEnd::NoMemory);
        };
        match take_free(&mut self.pass, self.shared, &self.own, &self.reads, address) {
            Ok(old) => {
                fill_last(&mut self.stripes, address, old);
                self.at = At::Inside;
                Ok(())
            }
            Err(conflict) => {
                self.stripes.pop();
                self.at = At::Outside;
                Err(TxEnd::Conflict(conflict))
            }
        }
    }
}
