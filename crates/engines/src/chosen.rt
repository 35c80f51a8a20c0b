//! An engine of either kind.
ghost use Rattle.std.specs.Prelude.{◌≡◌, ℕ, List, [], length, reverse};
ghost use Rattle.jmodel.specs.history.Log.{Log};
ghost use Rattle.jmodel.specs.history.History.{Entry};
ghost use Rattle.tx_table.specs.Book.{Unticked};
ghost use Rattle.tx_table.specs.Passes.{book, IsOf, IsSame};
ghost use Rattle.tl2.specs.Commits.{IsRest};
ghost use Rattle.tl2.specs.Standing.{Keeps, Stands};
ghost use Rattle.lsa.specs.Standing.{StandsFor};
ghost use Rattle.engines.specs.Chosen.{by_kind, MatchKind};

use lsa::Lsa;
use std::alloc::Global;
use std::snapshot::Snapshot;
use tl2::Tl2;
use tx_table::{Calling, Pass, Ruled, Shared};

/// An engine of one kind or of the other.
#[derive(Drop)]
pub enum Chosen<A, B> {
    Tl2(A),
    Lsa(B),
}

/// An engine over a table.
pub type TableEngine<'a, T, C> = Chosen<Tl2<'a, T, C>, Lsa<'a, T, C>>;

impl<'a, T: Ruled, C: Calling> Chosen<Tl2<'a, T, C>, Lsa<'a, T, C>> {
    /// Transactional Locking II over a pass that holds no stripe. No memory.
    pub fn tl2(alloc: Global, shared: &'a Shared<T>, pass: Pass, call: Snapshot<C>) -> Self
        requires table { IsOf shared.now.table.shared.table_id pass }
        requires free { ((book pass).face.held ≡ []) × ((book pass).face.stage ≡ Unticked) }
        ensures pass { by_kind (λ e. e.pass) (λ e. e.pass) result ≡ pass }
        ensures call { by_kind (λ e. e.call.value) (λ e. e.call.value) result ≡ call.value }
        ensures stands { (h : List Entry) → (book pass).entries ≡ reverse h → Keeps C.began pass → MatchKind result
            (λ e. Stands C.began e.shared.now.words e.at e.writes.items e.pass h (length (book pass).lost) [] [])
            (λ e. StandsFor C.began e.shared.now.words e.at e.writes.items e.pass h (length (book pass).lost) [] []) }
    {
        Chosen::Tl2(Tl2::new(alloc, shared, pass, call))
    }

    /// The lazy snapshot algorithm over a pass that holds no stripe. No memory.
    pub fn lsa(alloc: Global, shared: &'a Shared<T>, pass: Pass, call: Snapshot<C>) -> Self
        requires table { IsOf shared.now.table.shared.table_id pass }
        requires free { ((book pass).face.held ≡ []) × ((book pass).face.stage ≡ Unticked) }
        ensures pass { by_kind (λ e. e.pass) (λ e. e.pass) result ≡ pass }
        ensures call { by_kind (λ e. e.call.value) (λ e. e.call.value) result ≡ call.value }
        ensures stands { (h : List Entry) → (book pass).entries ≡ reverse h → Keeps C.began pass → MatchKind result
            (λ e. Stands C.began e.shared.now.words e.at e.writes.items e.pass h (length (book pass).lost) [] [])
            (λ e. StandsFor C.began e.shared.now.words e.at e.writes.items e.pass h (length (book pass).lost) [] []) }
    {
        Chosen::Lsa(Lsa::new(alloc, shared, pass, call))
    }

    /// Names the call that the next attempt is made at. An attempt that is open is over. No memory.
    pub fn set_call(&mut self, call: Snapshot<C>)
        ensures call { by_kind (λ e. e.call.value) (λ e. e.call.value) self.new ≡ call.value }
        ensures pass { by_kind (λ e. e.pass) (λ e. e.pass) self.new ≡ by_kind (λ e. e.pass) (λ e. e.pass) self.old }
        ensures stands { (h : List Entry) (n : ℕ) (r w : Log) → MatchKind self.old
            (λ e. Stands C.began e.shared.now.words e.at e.writes.items e.pass h n r w)
            (λ e. StandsFor C.began e.shared.now.words e.at e.writes.items e.pass h n r w)
            → MatchKind self.new
            (λ e. Stands C.began e.shared.now.words e.at e.writes.items e.pass h n [] [])
            (λ e. StandsFor C.began e.shared.now.words e.at e.writes.items e.pass h n [] []) }
    {
        match self {
            Chosen::Tl2(engine) => engine.set_call(call),
            Chosen::Lsa(engine) => engine.set_call(call),
        }
    }

    /// The pass, which holds no stripe. Stripes that an attempt still held are given back with their old words.
    pub fn into_pass(self) -> Pass
        ensures table { MatchKind self.entry (λ e. IsOf e.shared.now.table.shared.table_id result) (λ e. IsOf e.shared.now.table.shared.table_id result) }
        ensures free { ((book result).face.held ≡ []) × ((book result).face.stage ≡ Unticked) }
        ensures same { IsSame (by_kind (λ e. e.pass) (λ e. e.pass) self.entry) result }
        ensures rest { IsRest [] 0 (book (by_kind (λ e. e.pass) (λ e. e.pass) self.entry)) (book result) }
        ensures keeps { Keeps C.began (by_kind (λ e. e.pass) (λ e. e.pass) self.entry) → Keeps C.began result }
    {
        match self {
            Chosen::Tl2(engine) => engine.into_pass(),
            Chosen::Lsa(engine) => engine.into_pass(),
        }
    }
}
