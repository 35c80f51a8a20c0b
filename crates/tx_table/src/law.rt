//! The rule of the table, and what each step tells its pass.
ghost use Rattle.std.specs.Prelude.{ℕ, Bool, false, []};
ghost use Rattle.jmodel.specs.history.History.{Call, Entry};
ghost use Rattle.tx_table.specs.Book.{Book, Map};
ghost use Rattle.tx_table.specs.Plays.{first_book, spent_book, stays_here, goes_out, joined, no_call};
ghost use Rattle.tx_table.specs.Steps.{IsKept, Nothing, no_entry, Begins, Looks_up, Loads, Rechecks, Finishes, Loads_own, Extends, Takes, Ticks, Validates, Decides, Writes_back, Releases, Gives};

use crate::shared::{Extent, Story};
use atomic_table::{Join, Play, Split, TableRule};
use std::marker::{Brand, Model, PhantomData};

/// What a pass knows. No value of this type is made.
pub struct View {}

impl Model for View {
    ghost Value = { Book };

    ghost view = { λ _. spent_book };
}

/// The rule of a story.
pub struct Law<T> {
    story: PhantomData<T>,
}

impl<T: Story> TableRule<(), View, Extent<T>> for Law<T> {
    ghost holds = { λ key. IsKept (T.story key.story.value) };

    ghost first = { λ key. first_book (T.story key.story.value) };
}

/// The call of an attempt that begins, and what is then known of its book.
pub(crate) trait Beginning {
    ghost call: { Call };

    ghost says: { Book → Type 0 };
}

impl Beginning for Brand {
    ghost call = { no_call };

    ghost says = { Nothing };
}

/// The address that a look is for, and whether a version over the bound is fine.
pub(crate) trait Looking {
    ghost address: { ℕ };

    ghost newer: { Bool };
}

impl Looking for Brand {
    ghost address = { 0 };

    ghost newer = { false };
}

/// What is known of a book once a read is logged.
pub(crate) trait Checking {
    ghost says: { Book → Type 0 };
}

impl Checking for Brand {
    ghost says = { Nothing };
}

/// The entry that an attempt adds.
pub(crate) trait Adding {
    ghost entry: { Entry };
}

impl Adding for Brand {
    ghost entry = { no_entry };
}

/// The address that a stripe is taken for.
pub(crate) trait Naming {
    ghost address: { ℕ };
}

impl Naming for Brand {
    ghost address = { 0 };
}

/// The address that a stripe is validated for, and whether it is the last one of an extension.
pub(crate) trait Validating {
    ghost address: { ℕ };

    ghost last: { Bool };
}

impl Validating for Brand {
    ghost address = { 0 };

    ghost last = { false };
}

/// Whether all reads of an attempt whose bound is extended lie on stripes that it holds.
pub(crate) trait Extending {
    ghost whole: { Bool };
}

impl Extending for Brand {
    ghost whole = { false };
}

/// The writes of an attempt.
pub(crate) trait Writing {
    ghost due: { Map ℕ };
}

impl Writing for Brand {
    ghost due = { [] };
}

/// Whether an attempt that gives a stripe back keeps its reads.
pub(crate) trait Keeping {
    ghost kept: { Bool };
}

impl Keeping for Brand {
    ghost kept = { false };
}

/// The regions that go to the other pass.
pub(crate) trait Parting {
    ghost given: { ℕ → Bool };
}

impl Parting for Brand {
    ghost given = { λ _. false };
}

pub(crate) struct Begin<G> {
    told: PhantomData<G>,
}

impl<G: Beginning> Play<(), View> for Begin<G> {
    ghost then = { Begins G.call G.says };
}

pub(crate) struct Look<G> {
    told: PhantomData<G>,
}

impl<G: Looking> Play<(), View> for Look<G> {
    ghost then = { Looks_up G.address G.newer };
}

pub(crate) struct Load;

impl Play<(), View> for Load {
    ghost then = { Loads };
}

pub(crate) struct Recheck<G> {
    told: PhantomData<G>,
}

impl<G: Checking> Play<(), View> for Recheck<G> {
    ghost then = { Rechecks G.says };
}

pub(crate) struct Finish<G> {
    told: PhantomData<G>,
}

impl<G: Adding> Play<(), View> for Finish<G> {
    ghost then = { Finishes G.entry };
}

pub(crate) struct Take<G> {
    told: PhantomData<G>,
}

impl<G: Naming> Play<(), View> for Take<G> {
    ghost then = { Takes G.address };
}

pub(crate) struct Tick<G> {
    told: PhantomData<G>,
}

impl<G: Writing> Play<(), View> for Tick<G> {
    ghost then = { Ticks G.due };
}

pub(crate) struct Validate<G> {
    told: PhantomData<G>,
}

impl<G: Validating> Play<(), View> for Validate<G> {
    ghost then = { Validates G.address G.last };
}

pub(crate) struct LoadOwn<G> {
    told: PhantomData<G>,
}

impl<G: Checking> Play<(), View> for LoadOwn<G> {
    ghost then = { Loads_own G.says };
}

pub(crate) struct Extend<G> {
    told: PhantomData<G>,
}

impl<G: Extending> Play<(), View> for Extend<G> {
    ghost then = { Extends G.whole };
}

pub(crate) struct Decide<G> {
    told: PhantomData<G>,
}

impl<G: Adding> Play<(), View> for Decide<G> {
    ghost then = { Decides G.entry };
}

pub(crate) struct WriteBack;

impl Play<(), View> for WriteBack {
    ghost then = { Writes_back };
}

pub(crate) struct ReleaseNew;

impl Play<(), View> for ReleaseNew {
    ghost then = { Releases };
}

pub(crate) struct ReleaseOld<G> {
    told: PhantomData<G>,
}

impl<G: Keeping> Play<(), View> for ReleaseOld<G> {
    ghost then = { Gives G.kept };
}

pub(crate) struct Part<G> {
    told: PhantomData<G>,
}

impl<G: Parting> Split<View> for Part<G> {
    ghost left = { stays_here G.given };

    ghost right = { goes_out G.given };
}

pub(crate) struct Merge;

impl Join<View> for Merge {
    ghost both = { joined };

    ghost spent = { spent_book };
}
