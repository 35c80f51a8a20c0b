//! The lazy snapshot algorithm as an engine that others share.
use crate::attempt::Lsa;
use jmodel::value::{Answer, Stamp};
use std::snapshot::Snapshot;
use tx_core::{Conflict, Engine, TxEnd};
use tx_table::{Calling, Ruled};

impl<'a, T: Ruled, C: Calling> Engine for Lsa<'a, T, C> {
    ghost use Rattle.std.specs.Prelude.{◌≡◌, ◌^◌, refl};
    ghost use Rattle.tx_table.specs.Book.{In};
    ghost use Rattle.tx_table.specs.Passes.{book};
    ghost use Rattle.tx_table.specs.Rule.{start, used_at, Snapshot as Learns};
    ghost use Rattle.tl2.specs.Snapshots.{stands_snapshot};
    ghost use Rattle.tl2.specs.Standing.{IsOpen, Awaits};
    ghost use Rattle.lsa.specs.Standing.{StandsFor};

    ghost stands = { λ s h n r w. StandsFor C.began s.shared.now.words s.at s.writes.items s.pass h n r w };

    ghost is_open = { λ s. IsOpen s.shared.now.words s.at (C.call s.call.value) (book s.pass) × Learns (T.story s.shared.now.table.shared.key.story.value) (book s.pass) };

    ghost awaits = { λ s c used. Awaits (C.call s.call.value) (book s.pass) c used };

    ghost allows = { T.rule };

    // A history begins as the story of a table says.
    ghost begins = { λ first opened. (o : T) × (first ≡ start (T.story o)) × (opened ≡ used_at (T.story o)) };

    ghost is_shared = { Unit {0} };

    ghost clock = { λ s. (book s.pass).ticks };

    ghost has_read = { λ s a. In a s.reads.items };

    ghost attempts = { λ s k. (book s.pass).begins ≡ k };

    // The pass holds every number, so no other pass of the table is in use.
    ghost is_alone = { λ s. (book s.pass).numbers ≡ 2 ^ 20 };

    fn begin(&mut self) {
        Lsa::begin(self);
    }

    fn before_read(&mut self, address: u64) -> Result<(), Conflict> {
        Lsa::before_read(self, address)
    }

    fn raw(&mut self, address: u64) -> u64 {
        Lsa::raw(self, address)
    }

    fn on_read(&mut self, address: u64, raw: u64) -> Result<u64, TxEnd> {
        Lsa::on_read(self, address, raw)
    }

    fn on_write(&mut self, address: u64, word: u64) -> Result<(), TxEnd> {
        Lsa::on_write(self, address, word)
    }

    fn commit(&mut self, answer: Snapshot<Answer>, used: Snapshot<u64>) -> Result<Stamp, TxEnd> {
        Lsa::commit(self, answer, used)
    }

    fn finish_refused(&mut self, answer: Snapshot<Answer>) -> Stamp {
        Lsa::finish_refused(self, answer)
    }

    fn rollback(&mut self) {
        Lsa::rollback(self);
    }

    fn ticks(&self) -> u64 {
        Lsa::ticks(self)
    }

    ghost snapshot = { λ e h n r w c used stands opens awaits leads. let o = e.shared.now.table.shared.key.story.value in
        stands_snapshot (T.story o) T.rule (λ first opened. (o : T) × (first ≡ start (T.story o)) × (opened ≡ used_at (T.story o))) C.began e.shared.now.words e.at stands.kept e.pass
        (C.call e.call.value) h n r w c used (T.ruled o) (o, refl, refl) stands.stands opens awaits };
}
