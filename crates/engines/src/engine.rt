//! Either kind as an engine that others share.
use crate::chosen::Chosen;
use jmodel::value::{Answer, Stamp};
use lsa::Lsa;
use std::snapshot::Snapshot;
use tl2::Tl2;
use tx_core::{Conflict, Engine, TxEnd};
use tx_table::{Calling, Ruled};

impl<'a, T: Ruled, C: Calling> Engine for Chosen<Tl2<'a, T, C>, Lsa<'a, T, C>> {
    ghost use Rattle.std.specs.Prelude.{◌≡◌, ◌⊎◌, ◌^◌, ℕ, List, refl};
    ghost use Rattle.jmodel.specs.history.Log.{Log};
    ghost use Rattle.jmodel.specs.history.History.{Call, Entry, Words};
    ghost use Rattle.tx_core.specs.Engine.{IsSnapshot};
    ghost use Rattle.tx_table.specs.Book.{In};
    ghost use Rattle.tx_table.specs.Passes.{book};
    ghost use Rattle.tx_table.specs.Rule.{start, used_at, Snapshot as Learns};
    ghost use Rattle.tl2.specs.Snapshots.{stands_snapshot};
    ghost use Rattle.tl2.specs.Standing.{IsOpen, IsLooked, IsLoaded, Awaits, Stands};
    ghost use Rattle.lsa.specs.Standing.{StandsFor};
    ghost use Rattle.engines.specs.Chosen.{by_kind, each_kind, MatchKind};

    ghost stands = { λ s h n r w. MatchKind s (λ e. Stands C.began e.shared.now.words e.at e.writes.items e.pass h n r w) (λ e. StandsFor C.began e.shared.now.words e.at e.writes.items e.pass h n r w) };

    ghost is_open = { λ s. MatchKind s
        (λ e. IsOpen e.shared.now.words e.at (C.call e.call.value) (book e.pass) × Learns (T.story e.shared.now.table.shared.key.story.value) (book e.pass))
        (λ e. IsOpen e.shared.now.words e.at (C.call e.call.value) (book e.pass) × Learns (T.story e.shared.now.table.shared.key.story.value) (book e.pass)) };

    ghost awaits = { λ s c used. Awaits (C.call (by_kind (λ e. e.call.value) (λ e. e.call.value) s)) (book (by_kind (λ e. e.pass) (λ e. e.pass) s)) c used };

    ghost allows = { T.rule };

    // A history begins as the story of a table says.
    ghost begins = { λ first opened. (o : T) × (first ≡ start (T.story o)) × (opened ≡ used_at (T.story o)) };

    ghost is_shared = { Unit {0} };

    ghost clock = { λ s. (book (by_kind (λ e. e.pass) (λ e. e.pass) s)).ticks };

    ghost has_read = { λ s a. MatchKind s (λ e. ⊥) (λ e. In a e.reads.items) };

    ghost attempts = { λ s k. (book (by_kind (λ e. e.pass) (λ e. e.pass) s)).begins ≡ k };

    // The pass holds every number, so no other pass of the table is in use.
    ghost is_alone = { λ s. (book (by_kind (λ e. e.pass) (λ e. e.pass) s)).numbers ≡ 2 ^ 20 };

    fn begin(&mut self) {
        match self {
            Chosen::Tl2(engine) => engine.begin(),
            Chosen::Lsa(engine) => engine.begin(),
        }
    }

    fn before_read(&mut self, address: u64) -> Result<(), Conflict> {
        match self {
            Chosen::Tl2(engine) => engine.before_read(address),
            Chosen::Lsa(engine) => engine.before_read(address),
        }
    }

    fn raw(&mut self, address: u64) -> u64 {
        match self {
            Chosen::Tl2(engine) => engine.raw(address),
            Chosen::Lsa(engine) => engine.raw(address),
        }
    }

    fn on_read(&mut self, address: u64, raw: u64) -> Result<u64, TxEnd> {
        match self {
            Chosen::Tl2(engine) => engine.on_read(address, raw),
            Chosen::Lsa(engine) => engine.on_read(address, raw),
        }
    }

    fn on_write(&mut self, address: u64, word: u64) -> Result<(), TxEnd> {
        match self {
            Chosen::Tl2(engine) => engine.on_write(address, word),
            Chosen::Lsa(engine) => engine.on_write(address, word),
        }
    }

    fn commit(&mut self, answer: Snapshot<Answer>, used: Snapshot<u64>) -> Result<Stamp, TxEnd> {
        match self {
            Chosen::Tl2(engine) => engine.commit(answer, used),
            Chosen::Lsa(engine) => engine.commit(answer, used),
        }
    }

    fn finish_refused(&mut self, answer: Snapshot<Answer>) -> Stamp {
        match self {
            Chosen::Tl2(engine) => engine.finish_refused(answer),
            Chosen::Lsa(engine) => engine.finish_refused(answer),
        }
    }

    fn rollback(&mut self) {
        match self {
            Chosen::Tl2(engine) => engine.rollback(),
            Chosen::Lsa(engine) => engine.rollback(),
        }
    }

    fn ticks(&self) -> u64 {
        match self {
            Chosen::Tl2(engine) => engine.ticks(),
            Chosen::Lsa(engine) => engine.ticks(),
        }
    }

    ghost snapshot = { λ e h n r w c used stands opens awaits leads. each_kind
        (λ k. MatchKind k (λ e. Stands C.began e.shared.now.words e.at e.writes.items e.pass h n r w) (λ e. StandsFor C.began e.shared.now.words e.at e.writes.items e.pass h n r w)
        → MatchKind k
        (λ e. IsOpen e.shared.now.words e.at (C.call e.call.value) (book e.pass) × Learns (T.story e.shared.now.table.shared.key.story.value) (book e.pass))
        (λ e. IsOpen e.shared.now.words e.at (C.call e.call.value) (book e.pass) × Learns (T.story e.shared.now.table.shared.key.story.value) (book e.pass))
        → Awaits (C.call (by_kind (λ e. e.call.value) (λ e. e.call.value) k)) (book (by_kind (λ e. e.pass) (λ e. e.pass) k)) c used
        → IsSnapshot (λ first opened. (o : T) × (first ≡ start (T.story o)) × (opened ≡ used_at (T.story o))) T.rule c used r)
        (λ e stands opens awaits. let o = e.shared.now.table.shared.key.story.value in
        stands_snapshot (T.story o) T.rule (λ first opened. (o : T) × (first ≡ start (T.story o)) × (opened ≡ used_at (T.story o))) C.began e.shared.now.words e.at e.writes.items e.pass
        (C.call e.call.value) h n r w c used (T.ruled o) (o, refl, refl) stands opens awaits)
        (λ e stands opens awaits. let o = e.shared.now.table.shared.key.story.value in
        stands_snapshot (T.story o) T.rule (λ first opened. (o : T) × (first ≡ start (T.story o)) × (opened ≡ used_at (T.story o))) C.began e.shared.now.words e.at stands.kept e.pass
        (C.call e.call.value) h n r w c used (T.ruled o) (o, refl, refl) stands.stands opens awaits)
        e stands opens awaits };
}
